//! The outputs of a network. They are no event: no view keeps anything of them.

ghost use Rattle.std.specs.Prelude.{◌≡◌, ◌<◌, IfOk, OnErr, length};
ghost use Rattle.lnet_model.specs.Networks.{IsLive};
ghost use Rattle.lnet_model.specs.Dags.{OUTPUTS};
ghost use Rattle.lnet_hashed.specs.Watches.{AreFitBy, AreToldBy};
ghost use Rattle.lnet_network.specs.Uses.{HasNewOutput, HasOutput};

use crate::network::Network;
use lnet_gates::{Gates, Signal};
use lnet_store::View;
use std::alloc::AllocError;

impl<G: Gates> Network<G> {
    /// Adds an output, and tells its place, counted from 0. The signal's node is live, and there are fewer outputs than the
    /// limit of 100,000,000. Refused for want of memory, the network is as it was. Constant time, amortized.
    pub fn output(&mut self, s: Signal) -> Result<u32, AllocError>
        requires live { IsLive self.old.core.network s.node.0 }
        requires few { length self.old.core.network.outputs < OUTPUTS }
        requires in_step { AreFitBy ⟦<dyn View as View>⟧ self.old.core.network self.old.core.room self.old.watch }
        ensures added { IfOk result (λ k. HasNewOutput self.old.core.network self.new.core.network s k) }
        ensures refused { OnErr result (self.new.core.network ≡ self.old.core.network) }
        ensures room { self.new.core.room ≡ self.old.core.room }
        ensures watch { self.new.watch ≡ self.old.watch }
        ensures in_step { AreToldBy ⟦<dyn View as View>⟧ self.new.core.network self.new.core.room self.old.watch self.new.watch }
    {
        self.core.hashed.store.add_output(s)
    }

    /// Makes the signal output `k`, counted from 0, in place of the one before. Output `k` exists, and the signal's node is
    /// live. It takes no memory. Constant time.
    pub fn set_output(&mut self, k: u32, s: Signal)
        requires place { k < length self.old.core.network.outputs }
        requires live { IsLive self.old.core.network s.node.0 }
        requires in_step { AreFitBy ⟦<dyn View as View>⟧ self.old.core.network self.old.core.room self.old.watch }
        ensures set { HasOutput self.old.core.network self.new.core.network s k }
        ensures room { self.new.core.room ≡ self.old.core.room }
        ensures watch { self.new.watch ≡ self.old.watch }
        ensures in_step { AreToldBy ⟦<dyn View as View>⟧ self.new.core.network self.new.core.room self.old.watch self.new.watch }
    {
        self.core.hashed.store.set_output(k, s);
    }
}
