//! The laws of rules that are built.

ghost use Rattle.std.specs.Prelude.{◌≡◌, ◌≤◌, ℕ, Bool, List, length, map};
ghost use Rattle.lnet_gates.specs.declared.signal.Signal.{Signal};
ghost use Rattle.lnet_gates.specs.declared.gate.Kind.{Kind};
ghost use Rattle.lnet_model.specs.Networks.{NetworkValue, IsLive, entry_at, live_count};
ghost use Rattle.lnet_model.specs.Along.{nodes_read};
ghost use Rattle.lnet_model.specs.Values.{node_value, signal_value};
ghost use Rattle.lnet_model.specs.Changes.{AreLive};
ghost use Rattle.lnet_model.specs.Dags.{IsStored, NUMBERS};
ghost use Rattle.lnet_edge.specs.declared.circuit.Rule.{Rule};
ghost use Rattle.lnet_edge.specs.Wires.{HasArity};
ghost use Rattle.lnet_edge.specs.Values.{under_rule};
ghost use Rattle.lnet_rules.specs.Rules.{rule_built, FitsTable};

/// The signal of a rule that is built has the rule's value on the values of its operands, under each assignment, and whatever
/// was live stands as before with its values.
pub fn built_rules()
    ensures value { (kind : Kind) (N : NetworkValue) (r : Rule) (ss : List Signal) → HasArity r (length ss) → FitsTable r → IsStored N → AreLive N (nodes_read ss) → live_count (rule_built kind N r ss).network ≤ NUMBERS → (a : ℕ → Bool) → signal_value (rule_built kind N r ss).network a (rule_built kind N r ss).signal ≡ under_rule r (map (signal_value N a) ss) }
    ensures entries { (kind : Kind) (N : NetworkValue) (r : Rule) (ss : List Signal) → HasArity r (length ss) → FitsTable r → IsStored N → AreLive N (nodes_read ss) → live_count (rule_built kind N r ss).network ≤ NUMBERS → (n : ℕ) → IsLive N n → entry_at (rule_built kind N r ss).network n ≡ entry_at N n }
    ensures values { (kind : Kind) (N : NetworkValue) (r : Rule) (ss : List Signal) → HasArity r (length ss) → FitsTable r → IsStored N → AreLive N (nodes_read ss) → live_count (rule_built kind N r ss).network ≤ NUMBERS → (a : ℕ → Bool) (n : ℕ) → IsLive N n → node_value (rule_built kind N r ss).network a n ≡ node_value N a n }
{}
