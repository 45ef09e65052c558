//! Small texts.

ghost use Rattle.std.specs.Prelude.{◌≡◌, true, false, [], ◌∷◌, codes};
ghost use Rattle.lnet_gates.specs.declared.gate.Op.TheVariants.{Lut, Maj};
ghost use Rattle.lnet_model.specs.Networks.{Input, IsGate};
ghost use Rattle.lnet_print.specs.Printed.{node_line, output_line};

/// The lines of an input, of a majority of phase 1, and of look-up tables of one, two and three variables, and the line of a
/// complemented output.
pub fn worked_texts()
    ensures input { node_line 2 (Input 1) ≡ codes "node 2 input 1\n" }
    ensures majority { node_line 4 (IsGate (record { op = Maj; phase = true; fanins = (record { node = record { 0 = 0 }; complement = false }) ∷ (record { node = record { 0 = 1 }; complement = false }) ∷ (record { node = record { 0 = 3 }; complement = true }) ∷ [] })) ≡ codes "node 4 !maj 0 1 !3\n" }
    ensures table { node_line 3 (IsGate (record { op = Lut 2; phase = false; fanins = (record { node = record { 0 = 1 }; complement = false }) ∷ (record { node = record { 0 = 2 }; complement = false }) ∷ [] })) ≡ codes "node 3 lut 2 1 2\n" }
    ensures wide { node_line 9 (IsGate (record { op = Lut 202; phase = false; fanins = (record { node = record { 0 = 1 }; complement = false }) ∷ (record { node = record { 0 = 2 }; complement = false }) ∷ (record { node = record { 0 = 3 }; complement = false }) ∷ [] })) ≡ codes "node 9 lut ca 1 2 3\n" }
    ensures output { output_line 0 (record { node = record { 0 = 5 }; complement = true }) ≡ codes "output 0 !5\n" }
{}
