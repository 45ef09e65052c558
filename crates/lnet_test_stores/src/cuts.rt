//! The cuts of a store's nodes: leaves and tables as worked out by hand.

use crate::stores::{added, read};
use lnet_cuts::{CutList, CutView, CutsByRule};
use lnet_gates::Node;
use lnet_model::{CutRule, ViewKind, ViewSpec};
use lnet_store::{Store, View};
use lnet_views::Follow;
use std::alloc::Global;
use std::process::Abort;
use std::test::Fail;

/// The rule of cuts with at most 3 leaves.
const RULE: CutRule = CutRule { size: 3, limit: 8 };

/// The store of four inputs, 1 to 4, and of the gates 5 = 1 2, 6 = 5 3 and 7 = 6 !4.
fn chain(alloc: Global) -> Result<Store, Fail> {
    let mut store = Store::new(alloc)?;
    store.add_input()?;
    store.add_input()?;
    store.add_input()?;
    store.add_input()?;
    added(&mut store, read(1, false), read(2, false));
    added(&mut store, read(5, false), read(3, false));
    added(&mut store, read(6, false), read(4, true));
    Ok(store)
}

/// Whether the cut at a place has these leaves and this table.
fn has(list: &CutList, place: usize, leaves: &[u32], table: u64) -> bool {
    let cuts = list.as_slice();
    if place >= cuts.len() {
        return false;
    }
    cuts[place].leaves() == leaves && cuts[place].words() == [table, 0, 0, 0]
}

#[test]
fn cuts_of_a_gate(rt: HostRuntime) -> Result<(), Fail> {
    let store = chain(rt.alloc())?;
    let mut follow: Follow<CutsByRule> = Follow::new(rt.alloc())?;
    follow.attach(&store, CutsByRule::new(RULE))?;
    let list = match follow.value(Node(7)) {
        Some(list) => list,
        None => return Err("no cuts".into()),
    };
    // The union 1 2 3 4 is larger than the size.
    assert!(rt; has(list, 0, [4, 6].as_slice(), 0b0100));
    assert!(rt; has(list, 1, [3, 4, 5].as_slice(), 0b0010_0000));
    assert!(rt; has(list, 2, [7].as_slice(), 0b10));
    assert!(rt; list.as_slice().len() == 3);
    Ok(())
}

#[test]
fn a_cut_view_answers_while_it_is_attached(rt: HostRuntime) -> Result<(), Fail> {
    let store = chain(rt.alloc())?;
    let mut view = CutView::new(rt.alloc())?;
    assert!(rt; view.kind() == ViewKind::Cuts && view.cut_len(Node(7)).is_none());
    view.reserve(10)?;
    view.attach(&store, ViewSpec::Cuts(RULE))?;
    assert_eq!(rt; view.spec(), Some(ViewSpec::Cuts(RULE)));
    assert_eq!(rt;
        [
            view.cut_len(Node(1)),
            view.cut_len(Node(7)),
            view.cut_len(Node(8))
        ],
        [Some(1), Some(3), None]
    );
    let cut = match view.cut_at(Node(7), 1) {
        Some(cut) => cut,
        None => return Err("no cut".into()),
    };
    assert!(rt; cut.leaves.as_slice() == [Node(3), Node(4), Node(5)].as_slice());
    assert!(rt; cut.table.words()[0] == 0b0010_0000 && view.cut_at(Node(7), 3).is_none());
    assert!(rt;
        view.level(Node(7)).is_none()
            && view.fanout_len(Node(7)).is_none()
            && view.fanout_at(Node(7), 0).is_none()
    );
    view.detach();
    assert!(rt; view.spec().is_none() && view.cut_len(Node(7)).is_none());
    Ok(())
}
