//! Laws of the format, each the contract of a function that does nothing.

ghost use Rattle.std.specs.Prelude.{◌≡◌, ℕ, List};
ghost use Rattle.lnet_edge.specs.Circuits.{CircuitValue};
ghost use Rattle.lnet_edge.specs.Wires.{IsCircuit};
ghost use Rattle.lnet_aiger.specs.Grammar.{Means};
ghost use Rattle.lnet_aiger.specs.Texts.{IsWritable, ascii_text, binary_text};
ghost use Rattle.lnet_edge.specs.Shown.{input_names, output_names};
ghost use Rattle.lnet_aiger.specs.Written.{HasNames, MeansSame};

/// A content means one circuit at most.
pub fn one_meaning()
    ensures { (bytes : List ℕ) (c d : CircuitValue) → Means bytes c → Means bytes d → c ≡ d }
{}

/// The texts of a circuit mean one with the same names, and the same outputs under each assignment of the inputs.
pub fn texts_keep_outputs()
    ensures ascii { (c : CircuitValue) → IsCircuit c → IsWritable c → HasNames (input_names c.inputs) → HasNames (output_names c.outputs) → MeansSame (ascii_text c) c }
    ensures binary { (c : CircuitValue) → IsCircuit c → IsWritable c → HasNames (input_names c.inputs) → HasNames (output_names c.outputs) → MeansSame (binary_text c) c }
{}
