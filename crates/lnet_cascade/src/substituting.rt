//! Substitution of a gate by a signal.
#![tactic(auto, using(lnet_hashed::proofs::KeptViews::told_twice, lnet_hashed::proofs::KeptViews::told_same))]

ghost use Rattle.std.specs.Prelude.{◌≡◌};
ghost use Rattle.lnet_model.specs.Networks.{IsLive};
ghost use Rattle.lnet_model.specs.Along.{Depends};
ghost use Rattle.lnet_model.specs.Changes.{IsGateAt};
ghost use Rattle.lnet_hashed.specs.Strashed.{IsStrashed};
ghost use Rattle.lnet_hashed.specs.Watches.{AreFitBy, AreToldBy};
ghost use Rattle.lnet_hashed.specs.Rooms.{HasRoom};
ghost use Rattle.lnet_substitution.specs.Substitutions.{Substitutes};

use crate::cascading::cascade;
use crate::losing::sweep_lost;
use crate::redirecting::{Redirection, replace};
use lnet_gates::{Gates, Node, Signal};
use lnet_hashed::{Hashed, Watch};
use lnet_store::View;

/// Replaces each reference to a gate by a signal, complement included, and lets gates of one structure be one.
///
/// `gate` stands for a gate of the network, and `signal` is live and doesn't depend on it. Each parent of the gate reads the
/// signal in its place, and so does each output; the gate goes. A parent whose normal form is then a signal, or has the key of
/// another gate, gives way in its turn, complemented where the phases differ, and else it is set to its normal form. At the end
/// the gates that lost their last reference go, and so on downward. The views are told each single change after it was made: one
/// `Modified` for all slots of a gate that change at once, one `Deleted` for each gate that goes. A change of an output is no
/// event.
///
/// It takes no memory, and can't be refused. It costs what it touches: each gate that goes, that takes another form or that reads
/// one that goes takes constant time, on average for its key, and amortized where the greatest number goes; where an output reads
/// one that goes, each output is looked at. The rest is what the views take.
pub fn substitute<G: Gates>(hashed: &mut Hashed, watch: &mut Watch, gate: Node, signal: Signal)
    requires strashed { IsStrashed G.KIND hashed.old.store.network }
    requires gate { IsGateAt hashed.old.store.network gate.0 }
    requires live { IsLive hashed.old.store.network signal.node.0 }
    requires free { Depends hashed.old.store.network signal gate.0 → ⊥ }
    requires room { HasRoom hashed.old }
    requires fit { AreFitBy ⟦<dyn View as View>⟧ hashed.old.store.network hashed.old.room watch.old }
    ensures substitutes { Substitutes G.KIND hashed.old.store.network gate.0 signal hashed.new.store.network }
    ensures strashed { IsStrashed G.KIND hashed.new.store.network }
    ensures room { HasRoom hashed.new }
    ensures same { hashed.new.room ≡ hashed.old.room }
    ensures told { AreToldBy ⟦<dyn View as View>⟧ hashed.new.store.network hashed.new.room watch.old watch.new }
{
    let _first = hashed.store.live_count();
    let redirection = Redirection {
        from: gate,
        to: signal,
    };
    replace(hashed, watch, redirection);
    cascade::<G>(hashed, watch);
    let _merged = hashed.store.live_count();
    sweep_lost(hashed, watch);
}
