//! Stores under structural hashing, and boxed views that are told each change.
#![tactic(auto)]

ghost use Rattle.std.specs.Prelude.{◌≡◌, ◌≤◌, ℕ, Bool, List, length, map};
ghost use Rattle.lnet_gates.specs.declared.gate.Kind.{Kind};
ghost use Rattle.lnet_gates.specs.declared.gate.Op.{Op as Operation};
ghost use Rattle.lnet_gates.specs.declared.signal.Signal.{Signal as SignalValue};
ghost use Rattle.lnet_gates.specs.Gates.{operate};
ghost use Rattle.lnet_gates.specs.Natives.{FitsWord};
ghost use Rattle.lnet_gates.specs.Plans.{Takes};
ghost use Rattle.lnet_model.specs.Networks.{NetworkValue, IsLive, entry_at, live_count};
ghost use Rattle.lnet_model.specs.Along.{nodes_read};
ghost use Rattle.lnet_model.specs.Values.{node_value, signal_value};
ghost use Rattle.lnet_model.specs.Changes.{AreLive};
ghost use Rattle.lnet_model.specs.Dags.{IsStored, NUMBERS};
ghost use Rattle.lnet_hashed.specs.Strashed.{IsStrashed};
ghost use Rattle.lnet_hashed.specs.Laid.{made};

mod hashed;
mod keys;
mod laying;
mod levels;
mod making;
mod notes;
mod placing;
mod subscribing;
mod sweeping;
mod telling;
mod watch;

pub use hashed::{Hashed, add_input, held, remove, reserve};
pub use keys::Keys;
pub use laying::lay;
pub use levels::depth;
pub use making::{gate_of, make};
pub use notes::Notes;
pub use placing::place;
pub use sweeping::sweep;
pub use watch::Watch;

/// An operation that is made on live operands computes the operation, and nothing that was live changes. A network whose
/// gates are hashed stays so.
pub fn made_operations()
    ensures value { (kind : Kind) (N : NetworkValue) (op : Operation) (operands : List SignalValue) → Takes op (length operands) → FitsWord op → IsStored N → AreLive N (nodes_read operands) → live_count (made kind N op operands).network ≤ NUMBERS → (a : ℕ → Bool) → signal_value (made kind N op operands).network a (made kind N op operands).signal ≡ operate op (map (signal_value N a) operands) }
    ensures entries { (kind : Kind) (N : NetworkValue) (op : Operation) (operands : List SignalValue) → Takes op (length operands) → FitsWord op → IsStored N → AreLive N (nodes_read operands) → live_count (made kind N op operands).network ≤ NUMBERS → (n : ℕ) → IsLive N n → entry_at (made kind N op operands).network n ≡ entry_at N n }
    ensures values { (kind : Kind) (N : NetworkValue) (op : Operation) (operands : List SignalValue) → Takes op (length operands) → FitsWord op → IsStored N → AreLive N (nodes_read operands) → live_count (made kind N op operands).network ≤ NUMBERS → (a : ℕ → Bool) (n : ℕ) → IsLive N n → node_value (made kind N op operands).network a n ≡ node_value N a n }
    ensures strashed { (kind : Kind) (N : NetworkValue) (op : Operation) (operands : List SignalValue) → Takes op (length operands) → FitsWord op → IsStrashed kind N → IsStrashed kind (made kind N op operands).network }
{}
