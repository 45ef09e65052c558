//! Substitution in a network of one kind, and what it keeps.

ghost use Rattle.std.specs.Prelude.{◌≡◌, ◌<◌, ℕ, Bool, length};
ghost use Rattle.lnet_model.specs.Along.{Depends};
ghost use Rattle.lnet_model.specs.Changes.{IsGateAt};
ghost use Rattle.lnet_model.specs.Dags.{IsStored};
ghost use Rattle.lnet_model.specs.Fanouts.{references};
ghost use Rattle.lnet_model.specs.Networks.{IsLive};
ghost use Rattle.lnet_model.specs.Values.{network_outputs, node_value, signal_value};
ghost use Rattle.lnet_hashed.specs.Strashed.{IsStrashed};
ghost use Rattle.lnet_hashed.specs.Watches.{AreFitBy, AreToldBy};
ghost use Rattle.lnet_substitution.specs.Substitutions.{Substitutes};

use lnet_gates::{Gates, Node, Signal};
use lnet_network::Network;
use lnet_store::View;
use lnet_substitution::{substitutions_keep_outputs, substitutions_keep_the_shape};

/// Replaces each reference to a gate by a signal.
pub(crate) fn substitute<G: Gates>(net: &mut Network<G>, gate: Node, signal: Signal)
    requires gate { IsGateAt net.old.core.network gate.0 }
    requires live { IsLive net.old.core.network signal.node.0 }
    requires free { Depends net.old.core.network signal gate.0 → ⊥ }
    requires in_step { AreFitBy ⟦<dyn View as View>⟧ net.old.core.network net.old.core.room net.old.watch }
    ensures substitutes { Substitutes G.KIND net.old.core.network gate.0 signal net.new.core.network }
    // Equal functions leave the outputs as they were.
    ensures outputs { ((a : ℕ → Bool) → signal_value net.old.core.network a signal ≡ node_value net.old.core.network a gate.0) → (a : ℕ → Bool) → network_outputs net.new.core.network a ≡ network_outputs net.old.core.network a }
    ensures stored { IsStored net.new.core.network }
    ensures strashed { IsStrashed G.KIND net.new.core.network }
    ensures tidy { ((n : ℕ) → IsGateAt net.old.core.network n → 0 < references net.old.core.network n) → (n : ℕ) → IsGateAt net.new.core.network n → 0 < references net.new.core.network n }
    ensures kind_is { net.old.core.network.kind ≡ G.KIND }
    ensures kind { net.new.core.network.kind ≡ net.old.core.network.kind }
    ensures inputs { net.new.core.network.inputs ≡ net.old.core.network.inputs }
    ensures outputs_count { length net.new.core.network.outputs ≡ length net.old.core.network.outputs }
    ensures room { net.new.core.room ≡ net.old.core.room }
    ensures in_step { AreToldBy ⟦<dyn View as View>⟧ net.new.core.network net.new.core.room net.old.watch net.new.watch }
{
    let _before = net.live_count();
    let _kind = net.kind();
    net.substitute(gate, signal);
    let _after = net.live_count();
    substitutions_keep_outputs();
    substitutions_keep_the_shape();
}
