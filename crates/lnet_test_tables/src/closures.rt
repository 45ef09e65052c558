//! Stored closures, and that they are the ones that answer.

use crate::laid::assert_used;
use lnet_npn::table_of;
use lnet_resyn::resyn::{Call, Resyn};
use lnet_resyn::{Law, Proposal, shannon_proposal};
use lnet_tables::{Lit, Recipe, Table};
use std::cell::Cell;
use std::rc::Rc;
use std::test::Fail;

#[test]
fn stored_closures(rt: HostRuntime) -> Result<(), Fail> {
    let call: Call = Box::new(rt.alloc(), |t: Table| shannon_proposal(t))?;
    let resyn = Resyn::new("shannon".to_string(rt.alloc())?, 6, Law::Shannon, call);
    assert_eq!(rt; resyn.name(), "shannon");
    assert_eq!(rt; resyn.width(), 6);
    assert_eq!(rt; resyn.law(), Law::Shannon);
    assert_used(&rt, resyn.propose(Table::variable(6, 2)), &[], 6);
    Ok(())
}

/// A foreign closure may answer what no procedure does, here the complement of the first variable for the and of two and for their
/// xor, so that what comes is known for its answer. Each question is one call.
#[test]
fn counted_calls(rt: HostRuntime) -> Result<(), Fail> {
    let asked = Rc::new(rt.alloc(), Cell::new(0u64))?;
    let count = asked.clone()?;
    let call: Call = Box::new(rt.alloc(), move |_: Table| {
        count.set(count.get().wrapping_add(1));
        let mut recipe = Recipe::new(4);
        recipe.set_root(Lit(3));
        Proposal::Use(recipe)
    })?;
    let resyn = Resyn::new("count".to_string(rt.alloc())?, 4, Law::Foreign, call);
    assert_eq!(rt; asked.get(), 0);
    assert_used(&rt, resyn.propose(table_of(0x8888)), &[], 3);
    assert_eq!(rt; asked.get(), 1);
    assert_used(&rt, resyn.propose(table_of(0x6666)), &[], 3);
    assert_eq!(rt; asked.get(), 2);
    Ok(())
}
