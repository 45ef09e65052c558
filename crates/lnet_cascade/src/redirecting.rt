//! Redirecting references from a gate to a signal, gate by gate, and the removal of the gate.
#![tactic(auto, using(lnet_hashed::proofs::KeptViews::told_twice, lnet_hashed::proofs::KeptViews::told_same))]

ghost use Rattle.std.specs.Prelude.{◌≡◌, ◌≤◌, ◌<◌, ◌+◌, ◌↔◌, ℕ, IsTrue, MatchOption, false, length, map, slice_set};
ghost use Rattle.lnet_model.specs.Networks.{IsLive, live_count, entry_at};
ghost use Rattle.lnet_model.specs.Along.{In, Depends, fanin_nodes, nodes_read};
ghost use Rattle.lnet_model.specs.Changes.{IsGateAt, without};
ghost use Rattle.lnet_model.specs.Fanouts.{references};
ghost use Rattle.lnet_substitution.specs.Replaced.{redirected, replaced};
ghost use Rattle.lnet_hashed.specs.Watches.{AreFitBy, AreToldBy};
ghost use Rattle.lnet_cascade.specs.Marks.{MarkedMore};
ghost use Rattle.lnet_cascade.specs.Noting.{CanNoteAll, NotesFollow};
ghost use Rattle.lnet_cascade.specs.Redirections.{RedirectedAll, RedirectedAt, outputs_redirected};
ghost use Rattle.lnet_cascade.specs.Rooms.{IsMidway, StaysMidway};

use crate::noting::{note, remove_gate, set_gate};
use arrayvec::ArrayVec;
use lnet_gates::{Gate, Node, Signal};
use lnet_hashed::{Hashed, Notes, Watch};
use lnet_store::{Event, Store, View};

/// Each reference to a node is to read a signal in its place.
#[derive(Clone, Copy)]
pub(crate) struct Redirection {
    pub(crate) from: Node,
    pub(crate) to: Signal,
}

impl Redirection {
    /// What the signal reads afterwards.
    fn of(self, signal: Signal) -> Signal
        ensures { result ≡ redirected self.from.0 self.to signal }
    {
        if signal.node.0 == self.from.0 {
            self.to.flipped(signal.complement)
        } else {
            signal
        }
    }

    /// Whether the gate reads the node.
    fn concerns(self, gate: &Gate) -> bool
        ensures { IsTrue result ↔ In self.from.0 (nodes_read gate.now.fanins) }
    {
        is_read(gate.fanins.as_slice(), self.from)
    }

    /// What the signals, at most 6, read afterwards.
    fn of_all(self, signals: &[Signal]) -> ArrayVec<Signal, 6>
        requires { length signals.now ≤ 6 }
        ensures { result.items ≡ map (redirected self.from.0 self.to) signals.now }
    {
        let mut afterwards = ArrayVec::new();
        for signal in signals {
            afterwards.push(self.of(*signal));
        }
        afterwards
    }

    /// The gate afterwards.
    fn of_gate(self, gate: &Gate) -> Gate
        ensures { result ≡ record { op = gate.now.op; phase = gate.now.phase; fanins = map (redirected self.from.0 self.to) gate.now.fanins } }
    {
        Gate {
            op: gate.op,
            phase: gate.phase,
            fanins: self.of_all(gate.fanins.as_slice()),
        }
    }
}

/// Whether one of the signals reads the node.
fn is_read(signals: &[Signal], node: Node) -> bool
    ensures { IsTrue result ↔ In node.0 (nodes_read signals.now) }
{
    for signal in signals {
        if signal.node.0 == node.0 {
            return true;
        }
    }
    false
}

/// Redirects the references of the gate at a number, lets it be dirty, and tells the views.
fn redirect_at(hashed: &mut Hashed, watch: &mut Watch, n: u32, redirection: Redirection)
    requires live { IsLive hashed.old.store.network redirection.to.node.0 }
    requires free { Depends hashed.old.store.network redirection.to redirection.from.0 → ⊥ }
    requires midway { IsMidway hashed.old }
    requires fit { AreFitBy ⟦<dyn View as View>⟧ hashed.old.store.network hashed.old.room watch.old }
    ensures redirected { RedirectedAt hashed.old.store.network redirection.from.0 redirection.to n hashed.new.store.network }
    ensures dirty { MarkedMore (λ m. (m ≡ n) × In redirection.from.0 (fanin_nodes (entry_at hashed.old.store.network m))) hashed.old.keys.dirty hashed.new.keys.dirty }
    ensures midway { StaysMidway hashed.old hashed.new }
    ensures told { AreToldBy ⟦<dyn View as View>⟧ hashed.new.store.network hashed.new.room watch.old watch.new }
{
    let _live = hashed.store.live_count();
    if let Some(gate) = hashed.store.gate_of(Node(n)) {
        if redirection.concerns(gate) {
            let new = redirection.of_gate(gate);
            let old = set_gate(&mut hashed.store, &mut hashed.notes, Node(n), new);
            hashed.keys.soil(Node(n));
            watch.tell(&hashed.store, &Event::Modified(Node(n), old), hashed.room);
        }
    }
}

/// A gate that reads the node, that of the first slot in its chain.
fn first_parent(store: &Store, node: Node) -> Option<Node>
    ensures { MatchOption result ((m : ℕ) → In node.0 (fanin_nodes (entry_at store.now.network m)) → ⊥) (λ p. In node.0 (fanin_nodes (entry_at store.now.network p.0))) }
{
    let (look, mut visits) = store.look();
    let mut parents = look.parents(node);
    match parents.next(&mut visits) {
        Some((parent, _)) => Some(parent),
        None => None,
    }
}

/// Redirects the references of each gate, marks those that had one as dirty, and tells the views of each. It looks at the gates
/// that read the node alone.
fn redirect_gates(hashed: &mut Hashed, watch: &mut Watch, redirection: Redirection)
    requires live { IsLive hashed.old.store.network redirection.to.node.0 }
    requires free { Depends hashed.old.store.network redirection.to redirection.from.0 → ⊥ }
    requires midway { IsMidway hashed.old }
    requires fit { AreFitBy ⟦<dyn View as View>⟧ hashed.old.store.network hashed.old.room watch.old }
    ensures redirected { RedirectedAll hashed.old.store.network redirection.from.0 redirection.to hashed.new.store.network }
    ensures dirty { MarkedMore (λ m. In redirection.from.0 (fanin_nodes (entry_at hashed.old.store.network m))) hashed.old.keys.dirty hashed.new.keys.dirty }
    ensures midway { StaysMidway hashed.old hashed.new }
    ensures told { AreToldBy ⟦<dyn View as View>⟧ hashed.new.store.network hashed.new.room watch.old watch.new }
{
    'parents: while let Some(parent) = first_parent(&hashed.store, redirection.from) {
        redirect_at(hashed, watch, parent.0, redirection);
    }
}

/// Redirects each output. A change of an output is no event. Linear in the outputs.
fn redirect_each_output(store: &mut Store, redirection: Redirection)
    requires { IsLive store.old.network redirection.to.node.0 }
    ensures network { store.new.network ≡ outputs_redirected store.old.network redirection.from.0 redirection.to }
    ensures spare { store.old.spare ≤ store.new.spare }
{
    for k in 0..store.output_count() {
        if let Some(signal) = store.output(k) {
            store.set_output(k, redirection.of(signal));
        }
    }
}

/// Redirects each output, where one names the node.
fn redirect_outputs(store: &mut Store, notes: &mut Notes, redirection: Redirection)
    requires live { IsLive store.old.network redirection.to.node.0 }
    requires live_from { IsLive store.old.network redirection.from.0 }
    requires room { CanNoteAll store.old.network notes.old }
    ensures network { store.new.network ≡ outputs_redirected store.old.network redirection.from.0 redirection.to }
    ensures spare { store.old.spare ≤ store.new.spare }
    ensures noted { NotesFollow store.old.network notes.old store.new.network notes.new }
{
    if store.refs(redirection.from) == 0 {
        return;
    }
    note(&mut notes.fresh, &notes.lost, store, redirection.to.node);
    redirect_each_output(store, redirection);
    note(&mut notes.lost, &notes.fresh, store, redirection.from);
}

/// Removes a gate that nothing names, and tells the views.
pub(crate) fn remove(hashed: &mut Hashed, watch: &mut Watch, n: Node)
    requires gate { IsGateAt hashed.old.store.network n.0 }
    requires free { references hashed.old.store.network n.0 ≡ 0 }
    requires midway { IsMidway hashed.old }
    requires fit { AreFitBy ⟦<dyn View as View>⟧ hashed.old.store.network hashed.old.room watch.old }
    ensures network { hashed.new.store.network ≡ without hashed.old.store.network n.0 }
    ensures dirty { hashed.new.keys.dirty ≡ slice_set hashed.old.keys.dirty n.0 false }
    ensures count { live_count hashed.new.store.network + 1 ≡ live_count hashed.old.store.network }
    ensures midway { StaysMidway hashed.old hashed.new }
    ensures told { AreToldBy ⟦<dyn View as View>⟧ hashed.new.store.network hashed.new.room watch.old watch.new }
{
    let _live = hashed.store.live_count();
    let gate = remove_gate(&mut hashed.store, &mut hashed.notes, n);
    hashed.keys.forget(n);
    watch.tell(&hashed.store, &Event::Deleted(n, gate), hashed.room);
}

/// Lets a gate give way to a signal: each reference reads the signal, the parents are marked as dirty, the gate goes, and the
/// views are told each single change.
pub(crate) fn replace(hashed: &mut Hashed, watch: &mut Watch, redirection: Redirection)
    requires gate { IsGateAt hashed.old.store.network redirection.from.0 }
    requires live { IsLive hashed.old.store.network redirection.to.node.0 }
    requires free { Depends hashed.old.store.network redirection.to redirection.from.0 → ⊥ }
    requires midway { IsMidway hashed.old }
    requires fit { AreFitBy ⟦<dyn View as View>⟧ hashed.old.store.network hashed.old.room watch.old }
    ensures network { hashed.new.store.network ≡ replaced hashed.old.store.network redirection.from.0 redirection.to }
    ensures dirty { MarkedMore (λ m. In redirection.from.0 (fanin_nodes (entry_at hashed.old.store.network m))) (slice_set hashed.old.keys.dirty redirection.from.0 false) hashed.new.keys.dirty }
    ensures count { live_count hashed.new.store.network + 1 ≡ live_count hashed.old.store.network }
    ensures midway { StaysMidway hashed.old hashed.new }
    ensures told { AreToldBy ⟦<dyn View as View>⟧ hashed.new.store.network hashed.new.room watch.old watch.new }
{
    let _first = hashed.store.numbers();
    redirect_gates(hashed, watch, redirection);
    redirect_outputs(&mut hashed.store, &mut hashed.notes, redirection);
    remove(hashed, watch, redirection.from);
}
