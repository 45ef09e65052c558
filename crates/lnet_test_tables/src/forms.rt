//! Factored forms worked out from their rule, and the limit of 128 steps.

use crate::laid::assert_laid;
use lnet_npn::table_of;
use lnet_sop::{FactorError, factor, isop};
use lnet_tables::{RecipeFull, StepOp, Table};
use std::alloc::{AllocError, Global};
use std::process::Abort;
use std::test::Fail;

/// The step of a form: its operation and operands, by their literals.
type Row = (StepOp, u16, u16, u16);

/// Compares the factored form of the function of the word with these steps and this root.
fn assert_form<R: Abort>(
    rt: &R,
    alloc: Global,
    word: u16,
    steps: &[Row],
    root: u16,
) -> Result<(), Fail> {
    let table = table_of(word);
    let cover = isop(alloc, table, table)?;
    let recipe = factor(alloc, &cover)?;
    assert_laid(rt, &recipe, steps, root);
    Ok(())
}

#[test]
fn forms_with_a_common_literal(rt: HostRuntime) -> Result<(), Fail> {
    let majority = [
        (StepOp::And, 7, 5, 0),
        (StepOp::And, 2, 11, 0),
        (StepOp::And, 4, 6, 0),
        (StepOp::And, 13, 15, 0),
    ];
    assert_form(&rt, rt.alloc(), 0xe8e8, &majority, 17)?;
    let two_of_four = [
        (StepOp::And, 9, 7, 0),
        (StepOp::And, 10, 5, 0),
        (StepOp::And, 2, 13, 0),
        (StepOp::And, 9, 7, 0),
        (StepOp::And, 4, 17, 0),
        (StepOp::And, 15, 19, 0),
    ];
    assert_form(&rt, rt.alloc(), 0xeee8, &two_of_four, 21)
}

#[test]
fn forms_of_other_functions(rt: HostRuntime) -> Result<(), Fail> {
    let mixed = [
        (StepOp::And, 9, 3, 0),
        (StepOp::And, 7, 11, 0),
        (StepOp::And, 4, 6, 0),
        (StepOp::And, 13, 15, 0),
    ];
    assert_form(&rt, rt.alloc(), 0xcfca, &mixed, 17)?;
    let cube = [
        (StepOp::And, 2, 4, 0),
        (StepOp::And, 10, 7, 0),
        (StepOp::And, 12, 9, 0),
    ];
    assert_form(&rt, rt.alloc(), 0x0008, &cube, 14)?;
    assert_form(&rt, rt.alloc(), 0, &[], 0)
}

#[test]
fn parities_pass_the_limit(rt: HostRuntime) -> Result<(), Fail> {
    // Each further variable takes the steps twice, and three more: 93 for six variables, 189 for seven.
    let even = 0x9669_6996_6996_9669;
    let odd = 0x6996_9669_9669_6996;
    let seven = Table::from_words(7, [odd, even, 0, 0, 0, 0, 0, 0, 0, 0, 0, 0, 0, 0, 0, 0]);
    let cover = isop(rt.alloc(), seven, seven)?;
    assert_eq!(rt; cover.vars(), 7);
    assert_eq!(rt; cover.len(), 64);
    assert_eq!(rt; factor(rt.alloc(), &cover).err(), Some(FactorError::Full));
    Ok(())
}

#[test]
fn errors_of_a_form(rt: HostRuntime) {
    assert_eq!(rt; FactorError::from(RecipeFull), FactorError::Full);
    assert_eq!(rt; FactorError::from(AllocError), FactorError::NoMemory);
}
