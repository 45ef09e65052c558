//! The slots of gates in the lists of the nodes that they name.

ghost use Rattle.std.specs.Prelude.{◌≡◌, ◌≤◌, ◌<◌, ◌+◌, ◌↔◌, ◌⊎◌, ℕ, [], false, length, slice_index_or};
ghost use Rattle.lnet_model.specs.Networks.{entry_at};
ghost use Rattle.lnet_model.specs.Along.{In, nodes_read};
ghost use Rattle.lnet_model.specs.Dags.{numbers_of};
ghost use Rattle.lnet_chains.specs.Lists.{Within, list_of};
ghost use Rattle.lnet_pools.specs.Ascending.{AreAscending};
ghost use Rattle.lnet_store.specs.Linked.{HasPlaces, IsSlotOf, place};
ghost use Rattle.lnet_fanouts.specs.FanoutViews.{AreListed, AreLive, HasSlots, SameRoom, slots_at};

use lnet_gates::{Node, Signal};
use lnet_pools::Pool;
use lnet_store::{Look, Store, Visits};

/// How many places a number has: one for each slot that a gate can have.
pub(crate) const SLOTS: u32 = 6;

/// Lets the slots of the gate at the number stand in the lists of the nodes that they name. For each slot the time of `insert`.
pub(crate) fn place_all(pool: &mut Pool, n: Node, signals: &[Signal])
    requires six { length signals.now ≤ 6 }
    requires known { (m : ℕ) → In m (nodes_read signals.now) → m < length pool.old.lists }
    requires places { HasPlaces pool.old }
    requires within { n.0 < length pool.old.lists }
    requires absent { (m j : ℕ) → j < 6 → Within (place n.0 j) (list_of pool.old m) → ⊥ }
    ensures room { SameRoom pool.old pool.new }
    ensures ascending { AreAscending pool.new }
    ensures named { (m p : ℕ) → Within p (list_of pool.new m) ↔ (Within p (list_of pool.old m) ⊎ IsSlotOf n.0 signals.now m p) }
{
    let _places = pool.places();
    let mut slot = SLOTS * n.0;
    'signals: for signal in signals {
        pool.insert(signal.node.0, slot);
        slot += 1;
    }
    let _ascending = pool.places();
}

/// Takes the slots of the gate at the number out of the lists of the nodes that they name: a number past the lists has none there.
/// Constant time.
pub(crate) fn take_all(pool: &mut Pool, n: Node, signals: &[Signal])
    requires six { length signals.now ≤ 6 }
    requires places { HasPlaces pool.old }
    requires linked { (m p : ℕ) → IsSlotOf n.0 signals.now m p → Within p (list_of pool.old m) }
    ensures room { SameRoom pool.old pool.new }
    ensures ascending { AreAscending pool.new }
    ensures named { (m p : ℕ) → Within p (list_of pool.old m) ↔ (Within p (list_of pool.new m) ⊎ IsSlotOf n.0 signals.now m p) }
    ensures gone { (m p : ℕ) → Within p (list_of pool.new m) → IsSlotOf n.0 signals.now m p → ⊥ }
{
    let _places = pool.places();
    if n.0 as usize >= pool.nodes() {
        return;
    }
    let mut slot = SLOTS * n.0;
    'signals: for signal in signals {
        let _apart = pool.places();
        pool.remove(signal.node.0, slot);
        slot += 1;
    }
    let _ascending = pool.places();
}

/// Lets the slots of what stands at the number stand in the lists of the nodes that they name. One read.
pub(crate) fn link(pool: &mut Pool, n: Node, look: &Look, visits: &mut Visits)
    requires stamp { visits.old.stamp ≡ look.now.stamp }
    requires known { (m : ℕ) → In m (nodes_read (slots_at (entry_at look.now.network) n.0)) → m < length pool.old.lists }
    requires places { HasPlaces pool.old }
    requires within { n.0 < length pool.old.lists }
    requires absent { (m j : ℕ) → j < 6 → Within (place n.0 j) (list_of pool.old m) → ⊥ }
    ensures room { SameRoom pool.old pool.new }
    ensures ascending { AreAscending pool.new }
    ensures named { (m p : ℕ) → Within p (list_of pool.new m) ↔ (Within p (list_of pool.old m) ⊎ IsSlotOf n.0 (slots_at (entry_at look.now.network) n.0) m p) }
    ensures stamp { visits.new.stamp ≡ visits.old.stamp }
    ensures count { visits.new.count ≤ visits.old.count + 1 }
{
    match look.gate_of(n, visits) {
        Some(gate) => place_all(pool, n, &gate.fanins),
        None => {
            let _ascending = pool.places();
        }
    }
}

/// Lets the slots of the store's gates stand in empty lists, and says which numbers are live. Each gate's slots come at the end of
/// the lists: linear in the store's numbers and fanins.
pub(crate) fn fill(pool: &mut Pool, live: &mut Vec<bool>, store: &Store)
    requires slots { HasSlots pool.old live.old.items }
    requires room { numbers_of store.now.network ≤ length live.old.items }
    requires lists { (n : ℕ) → list_of pool.old n ≡ [] }
    requires none { (n : ℕ) → slice_index_or live.old.items n false ≡ false }
    ensures slots { HasSlots pool.new live.new.items }
    ensures len { length live.new.items ≡ length live.old.items }
    ensures ascending { AreAscending pool.new }
    ensures listed { AreListed pool.new (entry_at store.now.network) }
    ensures live { AreLive live.new.items (entry_at store.now.network) }
{
    let (look, mut visits) = store.look();
    let _stored = look.live_count();
    'numbers: for i in 0..store.numbers() {
        let n = Node(i);
        live[i as usize] = store.is_live(n);
        link(pool, n, &look, &mut visits);
    }
    let _ascending = pool.places();
}
