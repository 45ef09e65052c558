//! Rules: what a node's value is made of.

ghost use Rattle.std.specs.Prelude.{◌≡◌, ℕ, ◌<◌, List, map, length, slice_index_or, true};
ghost use Rattle.lnet_gates.specs.declared.signal.Signal.{Signal};
ghost use Rattle.lnet_gates.specs.Gates.{GateValue};
ghost use Rattle.lnet_gates.specs.Plans.{Takes};
ghost use Rattle.lnet_model.specs.Along.{In, nodes_read};

use lnet_gates::{Gate, Node};

/// A value for each node, made of the gate there and of its fanins' values. Values are told apart by their `eq` alone.
pub trait Rule: Drop {
    /// What a node has beside its level.
    type Value: Eq + Drop;

    /// The value of a node that is no gate.
    ghost first_of: { Self → ℕ → Self.Value };

    /// The value of a gate at a node, of its fanins' values.
    ghost gives: { Self → ℕ → GateValue → List (Signal × Self.Value) → Self.Value };

    /// The value of the node where it is the constant or an input: for one node always the same.
    fn first(&self, n: Node) -> Self::Value
        ensures { Self.Value.eq result (first_of self.now n.0) ≡ true };

    /// The value of the gate at the node, where `values` has each fanin's value at the fanin's number: of same values
    /// always the same.
    fn of(&self, n: Node, gate: &Gate, values: &[Self::Value]) -> Self::Value
        requires arity { Takes gate.now.op (length gate.now.fanins) }
        requires inside { (m : ℕ) → In m (nodes_read gate.now.fanins) → m < length values.now }
        ensures { Self.Value.eq result (gives self.now n.0 gate.now (map {B = Signal × Self.Value} (λ (s : Signal). (s, slice_index_or values.now s.node.0 (first_of self.now 0))) gate.now.fanins)) ≡ true };

    /// Same values at the gate's fanins give the same value.
    ghost agrees: { (r : Self) (n : ℕ) (g : GateValue) (V W : ℕ → Self.Value) → ((m : ℕ) → In m (nodes_read g.fanins) → Self.Value.eq (V m) (W m) ≡ true) → Self.Value.eq (gives r n g (map {B = Signal × Self.Value} (λ (s : Signal). (s, V s.node.0)) g.fanins)) (gives r n g (map {B = Signal × Self.Value} (λ (s : Signal). (s, W s.node.0)) g.fanins)) ≡ true };
}
