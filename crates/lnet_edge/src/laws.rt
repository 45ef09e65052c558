//! The laws of circuits and of their values.

ghost use Rattle.std.specs.Prelude.{◌≡◌, ◌<◌, ℕ, Bool, true, false, List, [], ◌∷◌, length, map, slice_index, Contains};
ghost use Rattle.lnet_edge.specs.declared.circuit.Rule.TheVariants.{Or, Xor, Maj, Lut, Cover};
ghost use Rattle.lnet_edge.specs.Circuits.{CircuitValue, EquationValue};
ghost use Rattle.lnet_edge.specs.Wires.{input_wires, IsCircuit};
ghost use Rattle.lnet_edge.specs.Values.{under_rule, wire_value, value_of, ref_value};

/// A wire that an equation drives has the value of the equation's rule on the values of its operands, under each
/// assignment; the wire of input `k` has the input's value, and wire 0 is false.
pub fn values_by_rules()
    ensures equations { (c : CircuitValue) (a : ℕ → Bool) (e : EquationValue) → IsCircuit c → Contains c.equations e → value_of c a e.target ≡ under_rule e.rule (map (ref_value c a) e.operands) }
    ensures inputs { (c : CircuitValue) (a : ℕ → Bool) (k : ℕ) → IsCircuit c → k < length c.inputs → value_of c a (slice_index (input_wires c.inputs) k) ≡ a k }
    ensures constant { (c : CircuitValue) (a : ℕ → Bool) → IsCircuit c → value_of c a 0 ≡ false }
{}

/// The meaning of rules on small rows: bit `i` of a table's row is operand `i`; `-` in a row of a cover says nothing of its
/// operand; rows of value 0 say where the target is false; a cover without rows is false.
pub fn rules_on_rows()
    ensures gates { (under_rule (Or false) (false ∷ true ∷ []) ≡ true) × (under_rule (Xor false) (true ∷ true ∷ true ∷ []) ≡ true) × (under_rule (Maj true) (true ∷ false ∷ true ∷ []) ≡ false) }
    ensures table { (under_rule (Lut 2) (true ∷ false ∷ []) ≡ true) × (under_rule (Lut 2) (false ∷ true ∷ []) ≡ false) }
    ensures rows { (b : Bool) → (under_rule (Cover (record { value = true; rows = (49 ∷ 45 ∷ []) ∷ [] })) (true ∷ b ∷ []) ≡ true) × (under_rule (Cover (record { value = true; rows = (49 ∷ 45 ∷ []) ∷ [] })) (false ∷ b ∷ []) ≡ false) }
    ensures zeros { (b : Bool) → (under_rule (Cover (record { value = false; rows = (48 ∷ 45 ∷ []) ∷ [] })) (false ∷ b ∷ []) ≡ false) × (under_rule (Cover (record { value = false; rows = (48 ∷ 45 ∷ []) ∷ [] })) (true ∷ b ∷ []) ≡ true) }
    ensures none { (value : Bool) (bits : List Bool) → under_rule (Cover (record { value = value; rows = [] })) bits ≡ false }
{}

/// A recursion to a greater depth than the count of equations gives the same value.
pub fn depth_is_enough()
    ensures { (c : CircuitValue) (a : ℕ → Bool) (d w : ℕ) → IsCircuit c → length c.equations < d → wire_value d c a w ≡ value_of c a w }
{}
