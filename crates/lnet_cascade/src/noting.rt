//! Changes of gates, and notes of what gains a first reference or loses its last one by them.

ghost use Rattle.std.specs.Prelude.{◌≡◌, ◌<◌, ◌+◌, ℕ, false, length};
ghost use Rattle.lnet_gates.specs.Plans.{Takes};
ghost use Rattle.lnet_model.specs.Networks.{IsGate, live_count};
ghost use Rattle.lnet_model.specs.Along.{In, Reaches, nodes_read};
ghost use Rattle.lnet_model.specs.Changes.{AreLive, GateAt, IsGateAt, with_entry, without};
ghost use Rattle.lnet_model.specs.Fanouts.{references};
ghost use Rattle.lnet_cascade.specs.Marks.{marks_of, MarkedMore};
ghost use Rattle.lnet_cascade.specs.Noting.{CanNoteAll, IsUnread, KeepsCount, NotesFollow};

use lnet_gates::{Gate, Node, Signal};
use lnet_hashed::Notes;
use lnet_numbers::NumberSet;
use lnet_store::Store;

/// Puts a number into the set where nothing names it and it isn't a member of the other set. Constant time.
pub(crate) fn note(set: &mut NumberSet, other: &NumberSet, store: &Store, n: Node)
    requires { n.0 < length set.old }
    ensures { MarkedMore (λ m. (m ≡ n.0) × IsUnread store.now.network other.now m) set.old set.new }
{
    if store.refs(n) > 0 || other.has(n.0) {
        return;
    }
    set.insert(n.0);
}

/// The same for the node of each signal. Linear in the signals.
fn note_all(set: &mut NumberSet, other: &NumberSet, store: &Store, signals: &[Signal])
    requires { (m : ℕ) → In m (nodes_read signals.now) → m < length set.old }
    ensures { MarkedMore (λ m. In m (nodes_read signals.now) × IsUnread store.now.network other.now m) set.old set.new }
{
    for signal in signals {
        note(set, other, store, signal.node);
    }
}

/// Sets another gate at a gate's number, and gives the old one back, as the store does. Constant time.
pub(crate) fn set_gate(store: &mut Store, notes: &mut Notes, n: Node, gate: Gate) -> Gate
    requires gate { IsGateAt store.old.network n.0 }
    requires live { AreLive store.old.network (nodes_read gate.fanins) }
    requires arity { Takes gate.op (length gate.fanins) }
    requires free { (m : ℕ) → In m (nodes_read gate.fanins) → Reaches store.old.network m n.0 → ⊥ }
    requires room { CanNoteAll store.old.network notes.old }
    ensures network { store.new.network ≡ with_entry store.old.network n.0 (IsGate gate) }
    ensures old { GateAt store.old.network n.0 result }
    ensures was { with_entry store.new.network n.0 (IsGate result) ≡ store.old.network }
    ensures kept { KeepsCount store.old store.new }
    ensures noted { NotesFollow store.old.network notes.old store.new.network notes.new }
{
    let _live = store.live_count();
    note_all(&mut notes.fresh, &notes.lost, store, gate.fanins.as_slice());
    let old = store.set_gate(n, gate);
    note_all(&mut notes.lost, &notes.fresh, store, old.fanins.as_slice());
    old
}

/// Removes a gate that nothing names, and gives it back, as the store does. Constant time, amortized.
pub(crate) fn remove_gate(store: &mut Store, notes: &mut Notes, n: Node) -> Gate
    requires gate { IsGateAt store.old.network n.0 }
    requires free { references store.old.network n.0 ≡ 0 }
    requires room { CanNoteAll store.old.network notes.old }
    ensures network { store.new.network ≡ without store.old.network n.0 }
    ensures old { GateAt store.old.network n.0 result }
    ensures was { with_entry store.new.network n.0 (IsGate result) ≡ store.old.network }
    ensures count { live_count store.new.network + 1 ≡ live_count store.old.network }
    ensures spare { store.new.spare ≡ store.old.spare + 1 }
    ensures noted { NotesFollow store.old.network notes.old store.new.network notes.new }
{
    let _live = store.live_count();
    let gate = store.remove(n);
    note_all(&mut notes.lost, &notes.fresh, store, gate.fanins.as_slice());
    gate
}

/// Takes each member out of the set. Linear in the members.
pub(crate) fn clear(set: &mut NumberSet)
    ensures none { (n : ℕ) → marks_of set.new n ≡ false }
    ensures len { length set.new ≡ length set.old }
{
    'members: while let Some(n) = set.least() {
        set.remove(n);
    }
}
