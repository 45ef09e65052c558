//! The cascade: dirty gates are merged or set to their normal forms, until none is dirty.
#![tactic(auto, using(lnet_hashed::proofs::KeptViews::told_twice, lnet_hashed::proofs::KeptViews::told_same))]

ghost use Rattle.std.specs.Prelude.{◌≡◌, ◌≢◌, ◌≤◌, ◌<◌, ◌+◌, ◌↔◌, ℕ, IsTrue, length, true, false};
ghost use Rattle.lnet_gates.specs.declared.normal.Normal.TheVariants as forms;
ghost use Rattle.lnet_gates.specs.Forms.{form_of};
ghost use Rattle.lnet_gates.specs.Gates.{GateValue};
ghost use Rattle.lnet_gates.specs.NormalLaws.{keyed_gate};
ghost use Rattle.lnet_model.specs.Networks.{IsLive};
ghost use Rattle.lnet_model.specs.Changes.{GateAt};
ghost use Rattle.lnet_hashed.specs.Watches.{AreFitBy, AreToldBy};
ghost use Rattle.lnet_substitution.specs.Cascades.{CanMerge, IsUnusedKey};
ghost use Rattle.lnet_cascade.specs.Marks.{marks_of, OnlyGates};
ghost use Rattle.lnet_cascade.specs.Cascading.{IsBegun, GoesOn, IsCleanHolder, left};
ghost use Rattle.lnet_cascade.specs.Rooms.{IsMidway, StaysMidway};

use crate::noting::set_gate;
use crate::redirecting::{Redirection, replace};
use lnet_gates::{Gates, Key, Node, Normal, Signal};
use lnet_hashed::{Hashed, Watch, gate_of, held};
use lnet_store::{Event, Store, View};

/// Whether the gate of the key and the phase stands at the number.
fn stands_at(store: &Store, n: Node, key: &Key, phase: bool) -> bool
    ensures { IsTrue result ↔ GateAt store.now.network n.0 (keyed_gate key.now phase) }
{
    match held(store, n.0, key) {
        Some(signal) => signal.complement == phase,
        None => false,
    }
}

/// Merges a dirty gate into the signal that its normal form is, or into the clean gate of its key.
fn merge<G: Gates>(hashed: &mut Hashed, watch: &mut Watch, redirection: Redirection)
    requires begun { IsBegun G.KIND hashed.old.store.network hashed.old.keys.dirty }
    requires dirty { marks_of hashed.old.keys.dirty redirection.from.0 ≡ true }
    requires merges { (g : GateValue) × GateAt hashed.old.store.network redirection.from.0 g × CanMerge G.KIND hashed.old.store.network g redirection.to }
    requires live { IsLive hashed.old.store.network redirection.to.node.0 }
    requires apart { redirection.to.node.0 ≢ redirection.from.0 }
    requires gates { OnlyGates hashed.old.store.network hashed.old.keys.dirty }
    requires midway { IsMidway hashed.old }
    requires fit { AreFitBy ⟦<dyn View as View>⟧ hashed.old.store.network hashed.old.room watch.old }
    ensures goes_on { GoesOn G.KIND hashed.old.store.network hashed.old.keys.dirty hashed.new.store.network hashed.new.keys.dirty }
    ensures gates { OnlyGates hashed.new.store.network hashed.new.keys.dirty }
    ensures less { left hashed.new.store.network hashed.new.keys.dirty < left hashed.old.store.network hashed.old.keys.dirty }
    ensures midway { StaysMidway hashed.old hashed.new }
    ensures long { length hashed.new.keys.dirty ≡ length hashed.old.keys.dirty }
    ensures told { AreToldBy ⟦<dyn View as View>⟧ hashed.new.store.network hashed.new.room watch.old watch.new }
{
    let _live = hashed.store.live_count();
    replace(hashed, watch, redirection);
}

/// Sets a dirty gate to its normal form, which it hasn't and whose key no clean gate has, and tells the views.
fn settle<G: Gates>(hashed: &mut Hashed, watch: &mut Watch, n: Node, key: Key, phase: bool)
    requires begun { IsBegun G.KIND hashed.old.store.network hashed.old.keys.dirty }
    requires dirty { marks_of hashed.old.keys.dirty n.0 ≡ true }
    requires form { (g : GateValue) × GateAt hashed.old.store.network n.0 g × (form_of G.KIND g ≡ forms.Gate key phase) }
    requires unused { IsUnusedKey hashed.old.store.network (marks_of hashed.old.keys.dirty) key }
    requires differs { GateAt hashed.old.store.network n.0 (keyed_gate key phase) → ⊥ }
    requires gates { OnlyGates hashed.old.store.network hashed.old.keys.dirty }
    requires midway { IsMidway hashed.old }
    requires fit { AreFitBy ⟦<dyn View as View>⟧ hashed.old.store.network hashed.old.room watch.old }
    ensures goes_on { GoesOn G.KIND hashed.old.store.network hashed.old.keys.dirty hashed.new.store.network hashed.new.keys.dirty }
    ensures gates { OnlyGates hashed.new.store.network hashed.new.keys.dirty }
    ensures less { left hashed.new.store.network hashed.new.keys.dirty < left hashed.old.store.network hashed.old.keys.dirty }
    ensures midway { StaysMidway hashed.old hashed.new }
    ensures long { length hashed.new.keys.dirty ≡ length hashed.old.keys.dirty }
    ensures told { AreToldBy ⟦<dyn View as View>⟧ hashed.new.store.network hashed.new.room watch.old watch.new }
{
    let _live = hashed.store.live_count();
    let gate = gate_of(&key, phase);
    let old = set_gate(&mut hashed.store, &mut hashed.notes, n, gate);
    hashed.keys.enter(key, n, phase);
    watch.tell(&hashed.store, &Event::Modified(n, old), hashed.room);
}

/// Takes a dirty gate: merges it where its normal form is a signal or has the key of a clean gate, and else sets it to its
/// normal form where it differs.
fn take_dirty<G: Gates>(hashed: &mut Hashed, watch: &mut Watch, n: Node)
    requires begun { IsBegun G.KIND hashed.old.store.network hashed.old.keys.dirty }
    requires dirty { marks_of hashed.old.keys.dirty n.0 ≡ true }
    requires gates { OnlyGates hashed.old.store.network hashed.old.keys.dirty }
    requires midway { IsMidway hashed.old }
    requires fit { AreFitBy ⟦<dyn View as View>⟧ hashed.old.store.network hashed.old.room watch.old }
    ensures goes_on { GoesOn G.KIND hashed.old.store.network hashed.old.keys.dirty hashed.new.store.network hashed.new.keys.dirty }
    ensures gates { OnlyGates hashed.new.store.network hashed.new.keys.dirty }
    ensures less { left hashed.new.store.network hashed.new.keys.dirty < left hashed.old.store.network hashed.old.keys.dirty }
    ensures midway { StaysMidway hashed.old hashed.new }
    ensures long { length hashed.new.keys.dirty ≡ length hashed.old.keys.dirty }
    ensures told { AreToldBy ⟦<dyn View as View>⟧ hashed.new.store.network hashed.new.room watch.old watch.new }
{
    let _live = hashed.store.live_count();
    match hashed.store.gate_of(n) {
        Some(gate) => match G::normal(gate) {
            Normal::Is(to) => merge::<G>(hashed, watch, Redirection { from: n, to }),
            Normal::Gate(key, phase) => match hashed.keys.find(&key) {
                Some(found) => {
                    let to = found.flipped(phase);
                    merge::<G>(hashed, watch, Redirection { from: n, to });
                }
                None if stands_at(&hashed.store, n, &key, phase) => hashed
                    .keys
                    .enter(key, n, phase),
                None => settle::<G>(hashed, watch, n, key, phase),
            },
        },
        None => unreachable!(),
    }
}

/// Takes dirty gates until none is dirty, the one of the least number first.
pub(crate) fn cascade<G: Gates>(hashed: &mut Hashed, watch: &mut Watch)
    requires begun { IsBegun G.KIND hashed.old.store.network hashed.old.keys.dirty }
    requires gates { OnlyGates hashed.old.store.network hashed.old.keys.dirty }
    requires midway { IsMidway hashed.old }
    requires fit { AreFitBy ⟦<dyn View as View>⟧ hashed.old.store.network hashed.old.room watch.old }
    ensures goes_on { GoesOn G.KIND hashed.old.store.network hashed.old.keys.dirty hashed.new.store.network hashed.new.keys.dirty }
    ensures clean { (n : ℕ) → marks_of hashed.new.keys.dirty n ≡ false }
    ensures midway { StaysMidway hashed.old hashed.new }
    ensures long { length hashed.new.keys.dirty ≡ length hashed.old.keys.dirty }
    ensures told { AreToldBy ⟦<dyn View as View>⟧ hashed.new.store.network hashed.new.room watch.old watch.new }
{
    'gates: while let Some(n) = hashed.keys.dirty.least() {
        take_dirty::<G>(hashed, watch, Node(n));
    }
}
