//! The fanout view beside a store that changes: fanouts as worked out by hand.

use crate::follows::{Change, made};
use crate::stores::{added, read};
use lnet_fanouts::FanoutView;
use lnet_gates::Node;
use lnet_model::{ViewKind, ViewSpec};
use lnet_store::{Store, View};
use std::marker::Model;
use std::process::Abort;
use std::test::Fail;

/// A store, and a fanout view in step with it. A contract sees the store.
#[derive(Drop)]
struct Watched {
    store: Store,
    view: FanoutView,
}

impl Model for Watched {
    ghost use Rattle.lnet_model.specs.Answers.{InStep};
    ghost use Rattle.lnet_store.specs.StoreValues.{StoreValue, store_code};

    ghost Value = { StoreValue };

    ghost coded = { store_code };

    ghost view = { λ f. f.store };

    ghost invariant = { λ f. InStep (⟦<FanoutView as View>⟧.spec_of f.view) (⟦<FanoutView as View>⟧.kept f.view) f.store.network };
}

impl Watched {
    /// Makes the change, and tells the view. How many reads the view counted.
    fn change(&mut self, rt: &impl Abort, change: Change, a: u32, b: u32) -> Result<u64, Fail> {
        self.view.reserve(1_048_576)?;
        let _before = self.store.live_count();
        let event = made(rt, &mut self.store, change, a, b)?;
        let (look, mut visits) = self.store.look();
        let _after = look.live_count();
        self.view.after(look, &event, &mut visits);
        Ok(visits.count())
    }
}

/// The parent and the slot of pair `i` of a fanout as one number, `P.S`; 0 for none.
fn pair(view: &FanoutView, n: u32, i: u32) -> u32 {
    match view.fanout_at(Node(n), i) {
        Some((parent, slot)) => parent.0.saturating_mul(10).saturating_add(u32::from(slot)),
        None => 0,
    }
}

/// The first four pairs of the fanout of a node.
fn fanout(view: &FanoutView, n: u32) -> [u32; 4] {
    [
        pair(view, n, 0),
        pair(view, n, 1),
        pair(view, n, 2),
        pair(view, n, 3),
    ]
}

/// A change, with the fanins of its gate; how many reads it takes; and the fanouts of nodes 1 and 3 after it.
struct Row(Change, u32, u32, u64, [u32; 4], [u32; 4]);

static ROWS: [Row; 6] = [
    Row(Change::Add, 1, 2, 1, [40, 0, 0, 0], [0, 0, 0, 0]),
    Row(Change::Add, 4, 1, 1, [40, 51, 0, 0], [0, 0, 0, 0]),
    // A gate that names a node twice.
    Row(Change::Add, 1, 1, 1, [40, 51, 60, 61], [0, 0, 0, 0]),
    Row(Change::Set(4), 3, 2, 1, [51, 60, 61, 0], [40, 0, 0, 0]),
    // The slot comes before those of later gates.
    Row(Change::Set(4), 1, 3, 1, [40, 51, 60, 61], [41, 0, 0, 0]),
    Row(Change::Remove(6), 0, 0, 0, [40, 51, 0, 0], [41, 0, 0, 0]),
];

#[test]
fn fanouts_follow_a_store(rt: HostRuntime) -> Result<(), Fail> {
    let mut store = Store::new(rt.alloc())?;
    store.add_input()?;
    store.add_input()?;
    store.add_input()?;
    let mut view = FanoutView::new(rt.alloc())?;
    view.attach(&store, ViewSpec::Fanout)?;
    let mut watched = Watched { store, view };
    for row in ROWS.as_slice() {
        let reads = watched.change(&rt, row.0, row.1, row.2)?;
        assert_eq!(rt; reads, row.3);
        assert_eq!(rt; fanout(&watched.view, 1), row.4);
        assert_eq!(rt; fanout(&watched.view, 3), row.5);
    }
    Ok(())
}

#[test]
fn a_fanout_view_answers_while_it_is_attached(rt: HostRuntime) -> Result<(), Fail> {
    let mut store = Store::new(rt.alloc())?;
    store.add_input()?;
    store.add_input()?;
    added(&mut store, read(1, false), read(2, true));
    added(&mut store, read(3, false), read(1, true));
    let mut view = FanoutView::new(rt.alloc())?;
    assert!(rt; view.kind() == ViewKind::Fanout && view.fanout_len(Node(1)).is_none());
    view.reserve(10)?;
    view.attach(&store, ViewSpec::Fanout)?;
    assert_eq!(rt; view.spec(), Some(ViewSpec::Fanout));
    assert_eq!(rt; fanout(&view, 1), [30, 41, 0, 0]);
    assert_eq!(rt;
        [
            view.fanout_len(Node(1)),
            view.fanout_len(Node(4)),
            view.fanout_len(Node(5)),
        ],
        [Some(2), Some(0), None]
    );
    assert_eq!(rt; view.fanout_next(Node(1), None), Some((Node(3), 0)));
    assert!(rt;
        view.level(Node(1)).is_none()
            && view.cut_len(Node(1)).is_none()
            && view.cut_at(Node(1), 0).is_none()
    );
    view.detach();
    assert!(rt; view.spec().is_none() && view.fanout_len(Node(1)).is_none());
    view.attach(&store, ViewSpec::Fanout)?;
    assert_eq!(rt; fanout(&view, 1), [30, 41, 0, 0]);
    Ok(())
}
