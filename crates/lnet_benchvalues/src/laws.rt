//! Laws of the values of written texts.

ghost use Rattle.std.specs.Prelude.{◌≡◌, ◌≤◌, ℕ, Bool, List, length, map, Some};
ghost use Rattle.std.specs.List.{AllByRecursion};
ghost use Rattle.lnet_edge.specs.Circuits.{CircuitValue, AllFrom};
ghost use Rattle.lnet_edge.specs.Outside.{file_limit};
ghost use Rattle.lnet_edge.specs.Plain.{IsPlain};
ghost use Rattle.lnet_edge.specs.Wires.{IsCircuit};
ghost use Rattle.lnet_edge.specs.Values.{circuit_outputs};
ghost use Rattle.lnet_naming.specs.Settling.{input_labels, output_labels};
ghost use Rattle.lnet_edge.specs.Shown.{input_names, output_names};
ghost use Rattle.lnet_bench.specs.Meanings.{Means};
ghost use Rattle.lnet_bench.specs.Statements.{StatementValue};
ghost use Rattle.lnet_bench.specs.Texts.{circuit_of};
ghost use Rattle.lnet_benchwriter.specs.Nodes.{constant_name};
ghost use Rattle.lnet_benchwriter.specs.Texts.{bench_text};
ghost use Rattle.lnet_benchtext.specs.Written.{HasNames, written_statements};
ghost use Rattle.lnet_benchmeans.specs.Driving.{HasWires, shown_names, IsOrdered};
ghost use Rattle.lnet_benchvalues.specs.Named.{name_value, given_names, Holds, HasRoom};

/// In the circuit of ordered statements each statement gives its name the value of its rule on the values of its operands, the
/// names of constants and inputs have theirs, and outputs have the values of the names that they show.
pub fn statements_give_values()
    ensures gates { (ss : List StatementValue) (a : ℕ → Bool) → IsOrdered ss → IsCircuit (circuit_of ss) → AllByRecursion (Holds (name_value ss a)) ss }
    ensures constants { (ss : List StatementValue) (a : ℕ → Bool) → IsOrdered ss → IsCircuit (circuit_of ss) → (value : Bool) → name_value ss a (constant_name value) ≡ value }
    ensures inputs { (ss : List StatementValue) (a : ℕ → Bool) → IsOrdered ss → IsCircuit (circuit_of ss) → AllFrom (λ k x. name_value ss a x ≡ a k) 0 (given_names ss) }
    ensures outputs { (ss : List StatementValue) (a : ℕ → Bool) → circuit_outputs (circuit_of ss) a ≡ map (name_value ss a) (shown_names ss) }
{}

/// The text of a plain circuit means the circuit of its statements where the text is no longer than a file may be, and also where
/// the wires of that circuit are fewer than a circuit may have.
pub fn written_text_means()
    ensures in_file { (c : CircuitValue) → HasNames c → HasWires c → IsCircuit c → IsPlain c.equations → length (bench_text c) ≤ file_limit → Means (bench_text c) (circuit_of (written_statements c)) }
    ensures with_room { (c : CircuitValue) → HasNames c → HasWires c → IsCircuit c → IsPlain c.equations → HasRoom c → Means (bench_text c) (circuit_of (written_statements c)) }
{}

/// Whatever the text of a plain circuit means has the circuit's outputs, for each assignment of the inputs.
pub fn written_text_keeps_outputs()
    ensures { (c d : CircuitValue) → HasNames c → HasWires c → IsCircuit c → IsPlain c.equations → Means (bench_text c) d → (a : ℕ → Bool) → circuit_outputs d a ≡ circuit_outputs c a }
{}

/// Its ports have the names that are settled for texts.
pub fn written_text_keeps_ports()
    ensures inputs { (c d : CircuitValue) → HasNames c → IsCircuit c → IsPlain c.equations → Means (bench_text c) d → input_names d.inputs ≡ map Some (input_labels c.inputs) }
    ensures outputs { (c d : CircuitValue) → HasNames c → IsCircuit c → IsPlain c.equations → Means (bench_text c) d → output_names d.outputs ≡ map Some (output_labels c.inputs c.outputs) }
{}
