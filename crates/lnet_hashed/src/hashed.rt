//! A network's store under structural hashing, and its room.
#![tactic(auto, using(crate::proofs::KeptViews::told_twice, crate::proofs::KeptViews::told_same))]

ghost use Rattle.std.specs.Prelude.{◌≡◌, ◌≤◌, ◌<◌, ◌+◌, ◌↔◌, ℕ, Option, None, Some, IfOk, IfSome, OnOk, OnErr, length, cond, false, MatchOption, Err};
ghost use Rattle.lnet_gates.specs.Gates.{GateValue, KeyValue};
ghost use Rattle.lnet_gates.specs.NormalLaws.{keyed_gate};
ghost use Rattle.lnet_gates.specs.Plans.{Takes};
ghost use Rattle.lnet_model.specs.Networks.{IsGate, IsLive, gate_at, live_count};
ghost use Rattle.lnet_model.specs.Along.{nodes_read};
ghost use Rattle.lnet_model.specs.Changes.{AreLive, IsGateAt, with_entry, without};
ghost use Rattle.lnet_model.specs.Fanouts.{references};
ghost use Rattle.lnet_model.specs.Dags.{AreBelow, NUMBERS};
ghost use Rattle.lnet_store.specs.StoreValues.{first_network, with_input};
ghost use Rattle.lnet_hashed.specs.Strashed.{same_op, same_signals, same_key, key_of, found, least_free, HoldsKey};
ghost use Rattle.lnet_hashed.specs.Watches.{AreFitBy, AreToldBy};
ghost use Rattle.lnet_hashed.specs.Rooms.{HasRoom};

use crate::keys::Keys;
use crate::making::gate_of;
use crate::notes::Notes;
use crate::watch::Watch;
use lnet_gates::{Gate, Key, Node, Op, Signal};
use lnet_store::{AddError, Event, NUMBER_LIMIT, Store, View};
use std::alloc::{AllocError, Global};

/// A store, the keys of its gates, and for how many numbers, from 0, the store, the keys, the notes and each of the views have
/// memory.
///
/// Each call here keeps `HasRoom`: the network's numbers are below the room, the store has memory for so many, there is room for
/// notes of each, none is noted, and each gate stands under its key.
pub struct Hashed {
    /// The network.
    pub store: Store,
    /// Which gate has a key.
    pub keys: Keys,
    /// Which numbers gained a first reference or lost their last one; empty but while a substitution runs.
    pub notes: Notes,
    /// For how many numbers there is memory.
    pub room: u32,
}

impl Drop for Hashed {
    /// Lets its fields go. Where a value ends this is called; a derived one would be written out there.
    fn drop(self) {
        let Self {
            store: _,
            keys: _,
            notes: _,
            room: _,
        } = self;
    }
}

impl Hashed {
    /// The store of node 0 alone, with room for one number.
    pub fn new(alloc: Global) -> Result<Hashed, AllocError>
        ensures network { IfOk result (λ h. h.store.network ≡ first_network) }
        ensures room { IfOk result HasRoom }
    {
        let store = Store::new(alloc)?;
        let _live = store.live_count();
        let mut keys = Keys::new(alloc)?;
        keys.reserve(1)?;
        let mut notes = Notes::new(alloc);
        notes.reserve(1)?;
        Ok(Hashed {
            store,
            keys,
            notes,
            room: 1,
        })
    }
}

/// Whether two operations are one.
fn is_same_op(a: Op, b: Op) -> bool
    ensures { result ≡ same_op a b }
{
    match (a, b) {
        (Op::And, Op::And) | (Op::Xor, Op::Xor) | (Op::Maj, Op::Maj) => true,
        (Op::Lut(s), Op::Lut(t)) => s == t,
        _ => false,
    }
}

/// Whether two lists of signals are one.
fn are_same(a: &[Signal], b: &[Signal]) -> bool
    ensures { result ≡ same_signals a.now b.now }
{
    match a {
        [] => b.is_empty(),
        [first, rest @ ..] => match b {
            [] => false,
            [other, others @ ..] => first.is_same(*other) && are_same(rest, others),
        },
    }
}

/// Whether a gate has the key.
fn has_key(gate: &Gate, key: &Key) -> bool
    ensures { result ≡ same_key key.now (key_of gate.now) }
{
    is_same_op(key.op, gate.op) && are_same(key.fanins.as_slice(), gate.fanins.as_slice())
}

/// The signal of the gate at a number, where it has the key.
pub fn held(store: &Store, n: u32, key: &Key) -> Option<Signal>
    ensures { MatchOption result ((g : GateValue) → gate_at store.now.network n ≡ Some g → same_key key.now (key_of g) ≡ false) (λ s. HoldsKey store.now.network key.now n s) }
{
    match store.gate_of(Node(n)) {
        Some(gate) => if has_key(gate, key) {
            Some(Signal {
                node: Node(n),
                complement: gate.phase,
            })
        } else {
            None
        },
        None => None,
    }
}

/// The signal of the gate with the key; `None` exactly where no gate has it. Constant time on average.
pub(crate) fn find(hashed: &Hashed, key: &Key) -> Option<Signal>
    requires { HasRoom hashed.now }
    ensures found { result ≡ found hashed.now.store.network key.now }
    ensures live { IfSome result (λ s. IsLive hashed.now.store.network s.node.0) }
{
    hashed.keys.find(key)
}

/// Gets memory for `numbers` numbers in the store, for keys and notes, and in each view.
pub fn reserve(hashed: &mut Hashed, watch: &mut Watch, numbers: u32) -> Result<(), AllocError>
    requires room { HasRoom hashed.old }
    requires more { hashed.old.room ≤ numbers }
    requires limit { numbers ≤ NUMBERS }
    requires fit { AreFitBy ⟦<dyn View as View>⟧ hashed.old.store.network hashed.old.room watch.old }
    ensures network { hashed.new.store.network ≡ hashed.old.store.network }
    ensures stamp { hashed.new.store.stamp ≡ hashed.old.store.stamp }
    ensures room { HasRoom hashed.new }
    ensures grown { OnOk result (hashed.new.room ≡ numbers) }
    ensures refused { OnErr result (hashed.new.room ≡ hashed.old.room) }
    ensures visits { watch.new.visits.items ≡ watch.old.visits.items }
    ensures told { AreToldBy ⟦<dyn View as View>⟧ hashed.new.store.network hashed.new.room watch.old watch.new }
{
    let live = hashed.store.live_count();
    hashed.store.reserve(numbers.saturating_sub(live))?;
    hashed.keys.reserve(numbers)?;
    hashed.notes.reserve(numbers)?;
    watch.reserve(&hashed.store, hashed.room, numbers)?;
    hashed.room = numbers;
    Ok(())
}

/// Gets memory for one more number, where there is none: for twice as many numbers as before.
pub(crate) fn make_room(hashed: &mut Hashed, watch: &mut Watch) -> Result<(), AddError>
    requires room { HasRoom hashed.old }
    requires fit { AreFitBy ⟦<dyn View as View>⟧ hashed.old.store.network hashed.old.room watch.old }
    ensures network { hashed.new.store.network ≡ hashed.old.store.network }
    ensures stamp { hashed.new.store.stamp ≡ hashed.old.store.stamp }
    ensures room { HasRoom hashed.new }
    ensures grows { hashed.old.room ≤ hashed.new.room }
    ensures one_more { OnOk result (live_count hashed.new.store.network < hashed.new.room) }
    ensures enough { live_count hashed.old.store.network < hashed.old.room → hashed.new.room ≡ hashed.old.room }
    ensures refused { OnErr result (hashed.new.room ≡ hashed.old.room) }
    ensures full { (result ≡ Err AddError.Full) ↔ (live_count hashed.old.store.network ≡ NUMBERS) }
    ensures memory { result ≡ Err AddError.NoMemory → (hashed.old.room ≤ live_count hashed.old.store.network) × (live_count hashed.old.store.network < NUMBERS) }
    ensures told { AreToldBy ⟦<dyn View as View>⟧ hashed.new.store.network hashed.new.room watch.old watch.new }
{
    let live = hashed.store.live_count();
    if live < hashed.room {
        return Ok(());
    }
    if live == NUMBER_LIMIT {
        return Err(AddError::Full);
    }
    let numbers = (2 * live).min(NUMBER_LIMIT);
    match reserve(hashed, watch, numbers) {
        Ok(()) => Ok(()),
        Err(_) => Err(AddError::NoMemory),
    }
}

/// Adds a gate of the key, which no gate has, of phase false, under the least free number, and tells the views.
pub(crate) fn add_key(hashed: &mut Hashed, watch: &mut Watch, key: Key) -> Result<Node, AddError>
    requires room { HasRoom hashed.old }
    requires live { AreLive hashed.old.store.network (nodes_read key.fanins) }
    requires arity { Takes key.op (length key.fanins) }
    requires absent { found hashed.old.store.network key ≡ None }
    requires fit { AreFitBy ⟦<dyn View as View>⟧ hashed.old.store.network hashed.old.room watch.old }
    ensures node { IfOk result (λ n. n.0 ≡ least_free hashed.old.store.network) }
    ensures network { IfOk result (λ n. hashed.new.store.network ≡ with_entry hashed.old.store.network n.0 (IsGate (keyed_gate key false))) }
    ensures live { IfOk result (λ n. IsLive hashed.new.store.network n.0) }
    ensures room { HasRoom hashed.new }
    ensures grows { hashed.old.room ≤ hashed.new.room }
    ensures refused { OnErr result ((hashed.new.store.network ≡ hashed.old.store.network) × (hashed.new.store.stamp ≡ hashed.old.store.stamp)) }
    ensures full { (result ≡ Err AddError.Full) ↔ (live_count hashed.old.store.network ≡ NUMBERS) }
    ensures memory { result ≡ Err AddError.NoMemory → (hashed.old.room ≤ live_count hashed.old.store.network) × (live_count hashed.old.store.network < NUMBERS) }
    ensures told { AreToldBy ⟦<dyn View as View>⟧ hashed.new.store.network hashed.new.room watch.old watch.new }
{
    make_room(hashed, watch)?;
    let _live = hashed.store.live_count();
    let gate = gate_of(&key, false);
    match hashed.store.add(gate) {
        Ok(n) => {
            hashed.keys.enter(key, n, false);
            watch.tell(&hashed.store, &Event::Added(n), hashed.room);
            Ok(n)
        }
        Err(error) => Err(error),
    }
}

/// Removes a gate that nothing names, and tells the views.
pub fn remove(hashed: &mut Hashed, watch: &mut Watch, n: Node)
    requires gate { IsGateAt hashed.old.store.network n.0 }
    requires free { references hashed.old.store.network n.0 ≡ 0 }
    requires room { HasRoom hashed.old }
    requires fit { AreFitBy ⟦<dyn View as View>⟧ hashed.old.store.network hashed.old.room watch.old }
    ensures network { hashed.new.store.network ≡ without hashed.old.store.network n.0 }
    ensures room { HasRoom hashed.new }
    ensures same { hashed.new.room ≡ hashed.old.room }
    ensures told { AreToldBy ⟦<dyn View as View>⟧ hashed.new.store.network hashed.new.room watch.old watch.new }
{
    let _live = hashed.store.live_count();
    let gate = hashed.store.remove(n);
    hashed.keys.forget(n);
    watch.tell(&hashed.store, &Event::Deleted(n, gate), hashed.room);
}

/// Adds an input under the least free number, and tells the views.
pub fn add_input(hashed: &mut Hashed, watch: &mut Watch) -> Result<Node, AddError>
    requires room { HasRoom hashed.old }
    requires fit { AreFitBy ⟦<dyn View as View>⟧ hashed.old.store.network hashed.old.room watch.old }
    ensures node { IfOk result (λ n. n.0 ≡ least_free hashed.old.store.network) }
    ensures network { IfOk result (λ n. hashed.new.store.network ≡ with_input hashed.old.store.network n.0) }
    ensures room { HasRoom hashed.new }
    ensures grows { hashed.old.room ≤ hashed.new.room }
    ensures refused { OnErr result ((hashed.new.store.network ≡ hashed.old.store.network) × (hashed.new.store.stamp ≡ hashed.old.store.stamp)) }
    ensures full { (result ≡ Err AddError.Full) ↔ (live_count hashed.old.store.network ≡ NUMBERS) }
    ensures memory { result ≡ Err AddError.NoMemory → (hashed.old.room ≤ live_count hashed.old.store.network) × (live_count hashed.old.store.network < NUMBERS) }
    ensures told { AreToldBy ⟦<dyn View as View>⟧ hashed.new.store.network hashed.new.room watch.old watch.new }
{
    make_room(hashed, watch)?;
    let _live = hashed.store.live_count();
    match hashed.store.add_input() {
        Ok(n) => {
            watch.tell(&hashed.store, &Event::Added(n), hashed.room);
            Ok(n)
        }
        Err(error) => Err(error),
    }
}
