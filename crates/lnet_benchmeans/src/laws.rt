//! Laws of the circuits of written texts.

ghost use Rattle.std.specs.Prelude.{◌≡◌, true, false, List};
ghost use Rattle.std.specs.List.{IsDistinct};
ghost use Rattle.std.specs.Str.{bytes_eq};
ghost use Rattle.lnet_edge.specs.Circuits.{CircuitValue};
ghost use Rattle.lnet_edge.specs.Plain.{IsPlain};
ghost use Rattle.lnet_edge.specs.Wires.{IsUndriven, IsTwice, IsCyclic, IsCircuit};
ghost use Rattle.lnet_bench.specs.Statements.{StatementValue};
ghost use Rattle.lnet_bench.specs.Texts.{circuit_of};
ghost use Rattle.lnet_benchwriter.specs.Texts.{has_tables};
ghost use Rattle.lnet_benchtext.specs.Written.{HasNames, written_statements};
ghost use Rattle.lnet_benchmeans.specs.Driving.{HasWires, driven_names, IsOrdered};

/// No two statements of a written text drive one name: names of inputs, gates, complements and outputs differ.
pub fn names_are_driven_once()
    ensures { (c : CircuitValue) → HasWires c → IsCircuit c → IsDistinct bytes_eq (driven_names (written_statements c)) }
{}

/// No wire of the circuit of a written text is driven twice.
pub fn wires_are_driven_once()
    ensures { (c : CircuitValue) → HasWires c → IsCircuit c → ¬ (IsTwice (circuit_of (written_statements c))) }
{}

/// The circuit of ordered statements: each wire that is used is driven, each is driven once, and none depends on itself.
pub fn ordered_statements_keep_the_rules()
    ensures driven { (ss : List StatementValue) → IsOrdered ss → ¬ (IsUndriven (circuit_of ss)) }
    ensures once { (ss : List StatementValue) → IsOrdered ss → ¬ (IsTwice (circuit_of ss)) }
    ensures acyclic { (ss : List StatementValue) → IsOrdered ss → ¬ (IsCyclic (circuit_of ss)) }
{}

/// The statements of the text of a plain circuit whose gates have tables are ordered.
pub fn written_tables_are_ordered()
    ensures { (c : CircuitValue) → HasNames c → HasWires c → IsCircuit c → IsPlain c.equations → has_tables c.equations ≡ true → IsOrdered (written_statements c) }
{}

/// The statements of the text of a plain circuit whose gates have words are ordered.
pub fn written_words_are_ordered()
    ensures { (c : CircuitValue) → HasNames c → HasWires c → IsCircuit c → IsPlain c.equations → has_tables c.equations ≡ false → IsOrdered (written_statements c) }
{}
