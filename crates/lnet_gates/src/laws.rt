//! Worked rows of what the gates compute, and the laws of their normal forms.

ghost use Rattle.std.specs.Prelude.{◌≡◌, ℕ, ◌&&◌, ◌||◌, Bool, true, false, not, [], ◌∷◌};
ghost use Rattle.lnet_gates.specs.declared.gate.Kind.{Kind};
ghost use Rattle.lnet_gates.specs.declared.gate.Op.TheVariants.{And, Xor, Maj, Lut};
ghost use Rattle.lnet_gates.specs.declared.normal.Normal.{Normal};
ghost use Rattle.lnet_gates.specs.declared.normal.Normal.TheVariants.{Gate};
ghost use Rattle.lnet_gates.specs.Gates.{GateValue, KeyValue, apply};
ghost use Rattle.lnet_gates.specs.NormalForms.{normal_and, normal_xor, normal_maj};
ghost use Rattle.lnet_gates.specs.NormalLaws.{NormalLaws, AndsKeepPhase, IsGateOf, gate_reading, form_reading};
ghost use Rattle.lnet_gates.specs.Natives.{IsNativeGate};
ghost use Rattle.lnet_gates.specs.Forms.{form_of};
ghost use Rattle.lnet_gates.specs.LutForms.{IsLutGate, IsLutForm, normal_lut};

/// An And is both of two, and a Xor is exactly one of two; a phase complements the value.
pub fn and_xor_rows()
    ensures both { apply And false (true ∷ true ∷ []) ≡ true }
    ensures one { apply And false (true ∷ false ∷ []) ≡ false }
    ensures nand { (a b : Bool) → apply And true (a ∷ b ∷ []) ≡ not (a && b) }
    ensures differ { apply Xor false (true ∷ false ∷ []) ≡ true }
    ensures alike { apply Xor false (true ∷ true ∷ []) ≡ false }
    ensures xnor { apply Xor true (true ∷ true ∷ []) ≡ true }
{}

/// A majority of three is an And where the third is false, and an Or where it is true.
pub fn majority_rows()
    ensures with_false { (a b : Bool) → apply Maj false (a ∷ b ∷ false ∷ []) ≡ a && b }
    ensures with_true { (a b : Bool) → apply Maj false (a ∷ b ∷ true ∷ []) ≡ a || b }
    ensures minority { apply Maj true (true ∷ true ∷ false ∷ []) ≡ false }
{}

/// Bit `i` of a table's row is the value of fanin `i`: the table `0x2` is true at the row of (1, 0), which is 1.
pub fn table_rows()
    ensures row_one { apply (Lut 2) false (true ∷ false ∷ []) ≡ true }
    ensures row_two { apply (Lut 2) false (false ∷ true ∷ []) ≡ false }
    ensures row_three { apply (Lut 8) false (true ∷ true ∷ []) ≡ true }
    ensures no_fanin { apply (Lut 1) false [] ≡ true }
    ensures phase { apply (Lut 2) true (true ∷ false ∷ []) ≡ false }
{}

/// The normal form of And keeps values, names, itself and replacement, and a key of it has the gate's phase.
pub fn and_forms_are_lawful()
    ensures laws { NormalLaws (IsGateOf And 2) normal_and }
    ensures phase { (g : GateValue) (k : KeyValue) (phase : Bool) → IsGateOf And 2 g → normal_and g ≡ Gate k phase → phase ≡ g.phase }
{}

/// The normal form of Xor keeps values, names, itself and replacement.
pub fn xor_forms_are_lawful()
    ensures { NormalLaws (IsGateOf Xor 2) normal_xor }
{}

/// The normal form of a gate of look-up tables keeps values, names, itself and replacement. The gates of two fanins with And
/// or Xor, of three with Maj, and of up to six with a table are native.
/// Gates of one function have one normal form. A key of it has a table whose row 0 is false, over two or more plain operands,
/// ascending, none of them constant and none without influence; and whatever form is so and has a gate's value is the gate's
/// normal form, by whatever steps it was found.
pub fn lut_forms_are_lawful()
    ensures laws { NormalLaws IsLutGate normal_lut }
    ensures canonical { (g h : GateValue) → ((V : ℕ → Bool) → V 0 ≡ false → gate_reading V g ≡ gate_reading V h) → normal_lut g ≡ normal_lut h }
    ensures proper { (g : GateValue) → IsLutGate g → IsLutForm (normal_lut g) }
    ensures only { (g : GateValue) (n : Normal) → IsLutForm n → ((V : ℕ → Bool) → V 0 ≡ false → form_reading V n ≡ gate_reading V g) → normal_lut g ≡ n }
{}

/// The normal form of Maj keeps values, names, itself and replacement.
pub fn maj_forms_are_lawful()
    ensures { NormalLaws (IsGateOf Maj 3) normal_maj }
{}

/// The normal forms of each kind keep values, names, themselves and replacement, and a key of an And is the form of an And
/// gate alone, and has its phase.
pub fn kind_forms_are_lawful()
    ensures laws { (kind : Kind) → NormalLaws (IsNativeGate kind) (form_of kind) }
    ensures phase { (kind : Kind) → AndsKeepPhase (IsNativeGate kind) (form_of kind) }
{}
