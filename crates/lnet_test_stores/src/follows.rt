//! Views beside a store that changes: levels and values as worked out by hand.

ghost use Rattle.std.specs.Prelude.{◌≡◌, ◌↔◌, ◌∷◌, [], IsTrue, IfOk, OnErr, false, refl, true};
ghost use Rattle.lnet_gates.specs.Gates.{GateValue};
ghost use Rattle.lnet_model.specs.Answers.{InStep};
ghost use Rattle.lnet_model.specs.Changes.{GateAt, IsEvent, IsGateAt, was};

use crate::stores::{added, and, read};
use lnet_gates::{Gate, Node, Signal};
use lnet_model::{Event, ViewKind, ViewSpec};
use lnet_store::{Store, View};
use lnet_views::{DepthView, Follow, Rule};
use std::marker::Model;
use std::process::Abort;
use std::test::Fail;

/// A change of a store.
#[derive(Clone, Copy)]
pub(crate) enum Change {
    Add,
    Set(u32),
    Remove(u32),
}

/// Whether a gate has the number.
fn is_gate(store: &Store, n: Node) -> bool
    ensures { IsTrue result ↔ IsGateAt store.now.network n.0 }
{
    store.gate_of(n).is_some()
}

/// Whether a gate stands at the number whose fanins aren't the two signals.
fn is_another(store: &Store, n: Node, a: Signal, b: Signal) -> bool
    ensures { IsTrue result → IsGateAt store.now.network n.0 × ((g : GateValue) → GateAt store.now.network n.0 g → (g.fanins ≡ a ∷ b ∷ []) → ⊥) }
{
    match store.gate_of(n) {
        Some(gate) => gate.fanins.as_slice() != [a, b].as_slice(),
        None => false,
    }
}

/// Makes the change, with a gate that is the And of two nodes, and tells its event.
pub(crate) fn made(
    rt: &impl Abort,
    store: &mut Store,
    change: Change,
    a: u32,
    b: u32,
) -> Result<Event, Fail>
    ensures was { IfOk result (λ e. was e store.new.network ≡ store.old.network) }
    ensures event { IfOk result (λ e. IsEvent e store.new.network) }
    ensures same { OnErr result (store.new.network ≡ store.old.network) }
{
    let (a, b) = (read(a, false), read(b, false));
    if !store.is_live(a.node) || !store.is_live(b.node) {
        return Err("no such node".into());
    }
    match change {
        Change::Add => {
            let n = store.add(and(a, b))?;
            assert!(rt; store.is_live(n));
            Ok(Event::Added(n))
        }
        Change::Set(n) => {
            if store.depends_on(a, Node(n))
                || store.depends_on(b, Node(n))
                || !is_another(store, Node(n), a, b)
            {
                return Err("no other gate there".into());
            }
            let old = store.set_gate(Node(n), and(a, b));
            assert!(rt; is_gate(store, Node(n)));
            Ok(Event::Modified(Node(n), old))
        }
        Change::Remove(n) => {
            if store.refs(Node(n)) > 0 || !is_gate(store, Node(n)) {
                return Err("no such gate".into());
            }
            let old = store.remove(Node(n));
            assert!(rt; !store.is_live(Node(n)));
            Ok(Event::Deleted(Node(n), old))
        }
    }
}

/// A store, and a depth view in step with it. A contract sees the store.
#[derive(Drop)]
struct Followed {
    store: Store,
    view: DepthView,
}

impl Model for Followed {
    ghost use Rattle.lnet_model.specs.Answers.{InStep};
    ghost use Rattle.lnet_store.specs.StoreValues.{StoreValue, store_code};

    ghost Value = { StoreValue };

    ghost coded = { store_code };

    ghost view = { λ f. f.store };

    ghost invariant = { λ f. InStep (⟦<DepthView as View>⟧.spec_of f.view) (⟦<DepthView as View>⟧.kept f.view) f.store.network };
}

impl Followed {
    /// Makes the change, and tells the view. How many reads the view counted.
    fn change(&mut self, rt: &impl Abort, change: Change, a: u32, b: u32) -> Result<u64, Fail> {
        self.view.reserve(1_048_576)?;
        let _before = self.store.live_count();
        let event = made(rt, &mut self.store, change, a, b)?;
        let (look, mut visits) = self.store.look();
        let _after = look.live_count();
        self.view.after(look, &event, &mut visits);
        Ok(visits.count())
    }
}

/// The levels of nodes 4 to 7, 9 for none.
fn levels(view: &DepthView) -> [u32; 4] {
    [
        view.level(Node(4)).unwrap_or(9),
        view.level(Node(5)).unwrap_or(9),
        view.level(Node(6)).unwrap_or(9),
        view.level(Node(7)).unwrap_or(9),
    ]
}

/// A change, with the fanins of its gate; how many reads it takes; and the levels of nodes 4 to 7 after it, 9 for none.
struct Row(Change, u32, u32, u64, [u32; 4]);

static ROWS: [Row; 8] = [
    Row(Change::Add, 1, 2, 1, [1, 9, 9, 9]),
    Row(Change::Add, 4, 3, 1, [1, 2, 9, 9]),
    Row(Change::Add, 5, 4, 1, [1, 2, 3, 9]),
    Row(Change::Add, 6, 5, 1, [1, 2, 3, 4]),
    // One level less at 5, and so at 6 and 7: one read, and two for each of 5's two parents and 6's one.
    Row(Change::Set(5), 1, 3, 7, [1, 1, 2, 3]),
    // No level changes, and no parent is read.
    Row(Change::Set(5), 2, 3, 1, [1, 1, 2, 3]),
    Row(Change::Set(5), 4, 4, 7, [1, 2, 3, 4]),
    Row(Change::Remove(7), 0, 0, 1, [1, 2, 3, 9]),
];

#[test]
fn levels_follow_a_store(rt: HostRuntime) -> Result<(), Fail> {
    let mut store = Store::new(rt.alloc())?;
    store.add_input()?;
    store.add_input()?;
    store.add_input()?;
    let mut view = DepthView::new(rt.alloc())?;
    view.attach(&store, ViewSpec::Depth)?;
    let mut followed = Followed { store, view };
    for row in ROWS.as_slice() {
        let reads = followed.change(&rt, row.0, row.1, row.2)?;
        assert!(rt; reads <= row.3, "{reads}");
        assert_eq!(rt; levels(&followed.view), row.4);
    }
    Ok(())
}

#[test]
fn a_view_answers_while_it_is_attached(rt: HostRuntime) -> Result<(), Fail> {
    let mut store = Store::new(rt.alloc())?;
    store.add_input()?;
    let mut view = DepthView::new(rt.alloc())?;
    assert!(rt; view.kind() == ViewKind::Depth && view.level(Node(1)).is_none());
    view.attach(&store, ViewSpec::Depth)?;
    assert_eq!(rt; view.spec(), Some(ViewSpec::Depth));
    assert_eq!(rt;
        [
            view.level(Node(1)),
            view.level(Node(2)),
            view.fanout_len(Node(1))
        ],
        [Some(0), None, None]
    );
    assert!(rt;
        view.cut_len(Node(1)).is_none()
            && view.fanout_at(Node(1), 0).is_none()
            && view.cut_at(Node(1), 0).is_none()
    );
    view.detach();
    assert!(rt; view.spec().is_none() && view.level(Node(1)).is_none());
    Ok(())
}

/// The rule that is true for gates alone.
#[derive(Clone, Copy, Drop)]
struct GatesAlone;

impl Rule for GatesAlone {
    type Value = bool;

    ghost first_of = { λ r n. false };

    ghost gives = { λ r n g rs. true };

    fn first(&self, n: Node) -> bool {
        false
    }

    fn of(&self, n: Node, gate: &Gate, values: &[bool]) -> bool {
        true
    }

    ghost agrees = { λ r n g V W same. refl };
}

#[test]
fn values_are_made_by_the_rule(rt: HostRuntime) -> Result<(), Fail> {
    let mut store = Store::new(rt.alloc())?;
    store.add_input()?;
    assert_eq!(rt; added(&mut store, read(1, false), read(0, true)), 2);
    let mut follow: Follow<GatesAlone> = Follow::new(rt.alloc())?;
    follow.reserve(10)?;
    follow.attach(&store, GatesAlone)?;
    assert!(rt; follow.is_attached());
    let values = [
        follow.value(Node(1)).copied(),
        follow.value(Node(2)).copied(),
        follow.value(Node(3)).copied(),
    ];
    assert_eq!(rt; values, [Some(false), Some(true), None]);
    assert_eq!(rt;
        [
            follow.level(Node(1)),
            follow.level(Node(2)),
            follow.level(Node(3))
        ],
        [Some(0), Some(1), None]
    );
    follow.detach();
    assert!(rt; !follow.is_attached() && follow.value(Node(1)).is_none());
    Ok(())
}
