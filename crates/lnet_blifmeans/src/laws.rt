//! Laws of the circuits of written texts.

ghost use Rattle.std.specs.Prelude.{◌≡◌, ℕ, ◌≤◌, Bool, true, List, length, map, Some};
ghost use Rattle.std.specs.List.{IsDistinct};
ghost use Rattle.std.specs.Str.{bytes_eq};
ghost use Rattle.lnet_edge.specs.Circuits.{CircuitValue};
ghost use Rattle.lnet_edge.specs.Outside.{file_limit};
ghost use Rattle.lnet_edge.specs.Plain.{IsPlain};
ghost use Rattle.lnet_edge.specs.Values.{circuit_outputs, cover_value, row_number};
ghost use Rattle.lnet_edge.specs.Wires.{IsCircuit};
ghost use Rattle.lnet_naming.specs.Settling.{input_labels, output_labels};
ghost use Rattle.lnet_edge.specs.Shown.{input_names, output_names};
ghost use Rattle.lnet_blif.specs.Meanings.{Means};
ghost use Rattle.lnet_blif.specs.Texts.{circuit_of};
ghost use Rattle.lnet_blifwriter.specs.Texts.{blif_text};
ghost use Rattle.lnet_benchtext.specs.Written.{HasNames};
ghost use Rattle.lnet_benchmeans.specs.Driving.{HasWires};
ghost use Rattle.lnet_bliftext.specs.Written.{true_rows, written_statements};
ghost use Rattle.lnet_blifmeans.specs.Driving.{driven_names, HasRoom};

/// No two statements of a written text drive one name: names of inputs, gates and outputs differ.
pub fn names_are_driven_once()
    ensures { (c : CircuitValue) → HasWires c → IsCircuit c → IsDistinct bytes_eq (driven_names (written_statements c)) }
{}

/// The text of a plain circuit means the circuit of its statements, where its wires are together fewer than a circuit may have,
/// and where the text is no longer than a file may be.
pub fn written_text_means()
    ensures in_file { (c : CircuitValue) → HasNames c → HasWires c → IsCircuit c → IsPlain c.equations → length (blif_text c) ≤ file_limit → Means (blif_text c) (circuit_of (written_statements c)) }
    ensures with_room { (c : CircuitValue) → HasNames c → HasWires c → IsCircuit c → IsPlain c.equations → HasRoom c → Means (blif_text c) (circuit_of (written_statements c)) }
{}

/// Whatever the text of a plain circuit means has the circuit's outputs, for each assignment of the inputs.
pub fn written_text_keeps_outputs()
    ensures { (c d : CircuitValue) → HasNames c → IsCircuit c → IsPlain c.equations → Means (blif_text c) d → (a : ℕ → Bool) → circuit_outputs d a ≡ circuit_outputs c a }
{}

/// It has as many inputs and outputs, with the names that are settled for texts.
pub fn written_text_keeps_ports()
    ensures counts { (c d : CircuitValue) → HasNames c → Means (blif_text c) d → (length d.inputs ≡ length c.inputs) × (length d.outputs ≡ length c.outputs) }
    ensures inputs { (c d : CircuitValue) → HasNames c → Means (blif_text c) d → input_names d.inputs ≡ map Some (input_labels c.inputs) }
    ensures outputs { (c d : CircuitValue) → HasNames c → Means (blif_text c) d → output_names d.outputs ≡ map Some (output_labels c.inputs c.outputs) }
{}

/// A cover with a row for each row of its operands at which a function is true has the function's value at theirs.
pub fn true_rows_are_the_function()
    ensures { (value : ℕ → Bool) (k : ℕ) (bits : List Bool) → length bits ≡ k → cover_value (record { value = true; rows = true_rows value k }) bits ≡ value (row_number bits) }
{}
