//! Substitution of a gate by a signal.

ghost use Rattle.std.specs.Prelude.{◌≡◌};
ghost use Rattle.lnet_model.specs.Along.{Depends};
ghost use Rattle.lnet_model.specs.Changes.{IsGateAt};
ghost use Rattle.lnet_model.specs.Networks.{IsLive};
ghost use Rattle.lnet_hashed.specs.Watches.{AreFitBy, AreToldBy};
ghost use Rattle.lnet_substitution.specs.Substitutions.{Substitutes};

use crate::network::Network;
use lnet_cascade::substitute;
use lnet_gates::{Gates, Node, Signal};
use lnet_store::View;

impl<G: Gates> Network<G> {
    /// Replaces each reference to a gate by a signal, complement included, and lets gates of one structure be one, many levels up
    /// where need be; the gates that lose their last reference go. `gate` stands for a gate, and `signal` is live and doesn't
    /// depend on it. Each view is told each single change, after it was made.
    ///
    /// It takes no memory, and can't be refused. It costs what it touches: each gate that goes, that takes another form or that reads
    /// one that goes takes constant time, on average for its key, and amortized where the greatest number goes; where an output
    /// reads one that goes, each output is looked at. The rest is what the views take.
    pub fn substitute(&mut self, gate: Node, signal: Signal)
        requires gate { IsGateAt self.old.core.network gate.0 }
        requires live { IsLive self.old.core.network signal.node.0 }
        requires free { Depends self.old.core.network signal gate.0 → ⊥ }
        requires in_step { AreFitBy ⟦<dyn View as View>⟧ self.old.core.network self.old.core.room self.old.watch }
        ensures substitutes { Substitutes G.KIND self.old.core.network gate.0 signal self.new.core.network }
        ensures room { self.new.core.room ≡ self.old.core.room }
        ensures in_step { AreToldBy ⟦<dyn View as View>⟧ self.new.core.network self.new.core.room self.old.watch self.new.watch }
    {
        substitute::<G>(&mut self.core.hashed, &mut self.watch, gate, signal);
    }
}
