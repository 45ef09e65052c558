//! Changing gates and outputs of a store, and removing gates. No call takes memory.

ghost use Rattle.std.specs.Prelude.{◌≡◌, ◌≤◌, ◌<◌, ◌+◌, ℕ, length};
ghost use Rattle.lnet_model.specs.Networks.{IsLive, IsGate, live_count};
ghost use Rattle.lnet_model.specs.Along.{In, nodes_read, Reaches};
ghost use Rattle.lnet_model.specs.Changes.{with_entry, without, AreLive, GateAt, IsGateAt};
ghost use Rattle.lnet_model.specs.Fanouts.{references};
ghost use Rattle.lnet_gates.specs.Plans.{Takes};
ghost use Rattle.lnet_store.specs.StoreValues.{raised, with_output};

use crate::counting::{count_all, uncount_all};
use crate::linking::{relink, unlink_all};
use crate::store::Store;
use lnet_gates::{Gate, Node, Signal};

impl Store {
    /// Sets another gate at a gate's number, and gives the old one back. The new gate's fanins are live, as many as its
    /// operation takes, and none of them depends on the node. Constant time.
    pub fn set_gate(&mut self, n: Node, gate: Gate) -> Gate
        requires gate { IsGateAt self.old.network n.0 }
        requires live { AreLive self.old.network (nodes_read gate.fanins) }
        requires arity { Takes gate.op (length gate.fanins) }
        requires free { (m : ℕ) → In m (nodes_read gate.fanins) → Reaches self.old.network m n.0 → ⊥ }
        ensures network { self.new.network ≡ with_entry self.old.network n.0 (IsGate gate) }
        ensures old { GateAt self.old.network n.0 result }
        ensures was { with_entry self.new.network n.0 (IsGate result) ≡ self.old.network }
        ensures count { live_count self.new.network ≡ live_count self.old.network }
        ensures stamp { self.new.stamp ≡ raised self.old.stamp }
        ensures spare { self.old.spare ≤ self.new.spare }
    {
        count_all(&mut self.counts, &gate.fanins);
        relink(&self.nodes, &mut self.chains, n, &gate.fanins);
        let old = self.nodes.set_gate(n, gate);
        uncount_all(&mut self.counts, &old.fanins);
        self.stamp = self.stamp.saturating_add(1);
        old
    }

    /// Removes a gate that nothing names, and gives it back. Constant time, amortized: it goes down past free numbers where
    /// the greatest live number is removed.
    pub fn remove(&mut self, n: Node) -> Gate
        requires gate { IsGateAt self.old.network n.0 }
        requires free { references self.old.network n.0 ≡ 0 }
        ensures network { self.new.network ≡ without self.old.network n.0 }
        ensures old { GateAt self.old.network n.0 result }
        ensures was { with_entry self.new.network n.0 (IsGate result) ≡ self.old.network }
        ensures count { live_count self.new.network + 1 ≡ live_count self.old.network }
        ensures stamp { self.new.stamp ≡ raised self.old.stamp }
        ensures spare { self.new.spare ≡ self.old.spare + 1 }
    {
        let old = self.nodes.take_gate(n);
        uncount_all(&mut self.counts, &old.fanins);
        unlink_all(&mut self.chains, n, &old.fanins);
        self.stamp = self.stamp.saturating_add(1);
        old
    }

    /// Makes the signal output `k`, in place of the one before. Output `k` exists, and the signal's node is live. Constant
    /// time.
    pub fn set_output(&mut self, k: u32, s: Signal)
        requires place { k < length self.old.network.outputs }
        requires live { IsLive self.old.network s.node.0 }
        ensures network { self.new.network ≡ with_output self.old.network k s }
        ensures stamp { self.new.stamp ≡ raised self.old.stamp }
        ensures spare { self.old.spare ≤ self.new.spare }
    {
        let old = self.outputs[k as usize];
        count_all(&mut self.counts, &[s]);
        uncount_all(&mut self.counts, &[old]);
        self.outputs[k as usize] = s;
        self.stamp = self.stamp.saturating_add(1);
    }
}
