//! The chains of the fanin slots that name each node.

ghost use Rattle.std.specs.Prelude.{◌≡◌, ◌≤◌, ◌<◌, ◌+◌, ◌*◌, ◌↔◌, ◌⊎◌, ℕ, OnOk, Some, length};
ghost use Rattle.std.specs.FinMap.{get};
ghost use Rattle.lnet_gates.specs.Gates.{GateValue};
ghost use Rattle.lnet_model.specs.Networks.{gate_in};
ghost use Rattle.lnet_model.specs.Dags.{NUMBERS};
ghost use Rattle.lnet_model.specs.Along.{In, nodes_read};
ghost use Rattle.lnet_chains.specs.Lists.{Within, list_of};
ghost use Rattle.lnet_store.specs.Fields.{naming};
ghost use Rattle.lnet_store.specs.Linked.{AreRelinked, CanRelink, HasPlaces, IsSlotOf, KeepChains, place};

use crate::slots::NodeSlots;
use lnet_chains::Chains;
use lnet_gates::{Node, Signal};
use std::alloc::AllocError;

/// How many places a number has: one for each slot that a gate can have.
const SLOTS: u32 = 6;

/// Chains for so many numbers at least. What stands in them stays, whatever it answers. Linear in the numbers, and constant time
/// where there are enough.
pub(crate) fn grow_chains(chains: &mut Chains, room: u32) -> Result<(), AllocError>
    requires room { HasPlaces chains.old × (room ≤ NUMBERS) }
    ensures chains { KeepChains chains.old chains.new }
    ensures ok { OnOk result (room ≤ length chains.new.lists) }
{
    if chains.places() >= SLOTS * room {
        return Ok(());
    }
    chains.grow(room, SLOTS * room)
}

/// Lets the slots of the gate at the number stand in the chains of the nodes that they name.
pub(crate) fn link_all(chains: &mut Chains, n: Node, signals: &[Signal])
    requires six { length signals.now ≤ 6 }
    requires known { (m : ℕ) → In m (nodes_read signals.now) → m < length chains.old.lists }
    requires places { HasPlaces chains.old }
    requires within { n.0 < length chains.old.lists }
    requires absent { (m j : ℕ) → j < 6 → Within (place n.0 j) (list_of chains.old m) → ⊥ }
    ensures len { length chains.new.lists ≡ length chains.old.lists }
    ensures places { HasPlaces chains.new }
    ensures named { (m p : ℕ) → Within p (list_of chains.new m) ↔ (Within p (list_of chains.old m) ⊎ IsSlotOf n.0 signals.now m p) }
    ensures counted { (m : ℕ) → length (list_of chains.new m) ≡ length (list_of chains.old m) + naming m signals.now }
{
    let _places = chains.places();
    let mut slot = SLOTS * n.0;
    'signals: for signal in signals {
        chains.push(signal.node.0, slot);
        slot += 1;
    }
}

/// Takes the slots of the gate at the number out of the chains of the nodes that they name.
pub(crate) fn unlink_all(chains: &mut Chains, n: Node, signals: &[Signal])
    requires six { length signals.now ≤ 6 }
    requires places { HasPlaces chains.old }
    requires within { n.0 < length chains.old.lists }
    requires linked { (m p : ℕ) → IsSlotOf n.0 signals.now m p → Within p (list_of chains.old m) }
    ensures len { length chains.new.lists ≡ length chains.old.lists }
    ensures places { HasPlaces chains.new }
    ensures named { (m p : ℕ) → Within p (list_of chains.old m) ↔ (Within p (list_of chains.new m) ⊎ IsSlotOf n.0 signals.now m p) }
    ensures gone { (m p : ℕ) → Within p (list_of chains.new m) → IsSlotOf n.0 signals.now m p → ⊥ }
    ensures counted { (m : ℕ) → length (list_of chains.new m) + naming m signals.now ≡ length (list_of chains.old m) }
{
    let _places = chains.places();
    let mut slot = SLOTS * n.0;
    'signals: for signal in signals {
        let _apart = chains.places();
        chains.unlink(signal.node.0, slot);
        slot += 1;
    }
}

/// Takes the slots of the gate at the number out of the chains, and lets those of another gate there stand in them.
pub(crate) fn relink(nodes: &NodeSlots, chains: &mut Chains, n: Node, signals: &[Signal])
    requires ready { CanRelink nodes.now.nodes n.0 signals.now chains.old }
    requires six { length signals.now ≤ 6 }
    requires places { HasPlaces chains.old }
    ensures len { length chains.new.lists ≡ length chains.old.lists }
    ensures places { HasPlaces chains.new }
    ensures relinked { (g : GateValue) → gate_in (get nodes.now.nodes n.0) ≡ Some g → AreRelinked n.0 g.fanins signals.now chains.old chains.new }
{
    match nodes.gate_of(n) {
        Some(gate) => {
            unlink_all(chains, n, &gate.fanins);
            link_all(chains, n, signals);
        }
        None => unreachable!(),
    }
}
