//! Recipes of known circuits, the expansions, and the limit of 128 steps.

use crate::laid::assert_laid;
use lnet_npn::word_of;
use lnet_tables::{Lit, Recipe, Step, StepOp, Table, shannon};
use std::test::Fail;

#[test]
fn full_adder(rt: HostRuntime) -> Result<(), Fail> {
    let mut recipe = Recipe::new(3);
    let half = recipe.push(Step {
        op: StepOp::Xor,
        a: Lit(2),
        b: Lit(4),
        c: Lit(0),
    })?;
    let sum = recipe.push(Step {
        op: StepOp::Xor,
        a: half,
        b: Lit(6),
        c: Lit(0),
    })?;
    let carry = recipe.push(Step {
        op: StepOp::Maj,
        a: Lit(2),
        b: Lit(4),
        c: Lit(6),
    })?;
    recipe.set_root(sum);
    assert_eq!(rt; word_of(&recipe.simulate()), 0x96);
    recipe.set_root(carry.complement());
    assert_eq!(rt; word_of(&recipe.simulate()), 0x17);
    assert_eq!(rt; [recipe.leaves(), recipe.len()], [3, 3]);
    Ok(())
}

#[test]
fn full_recipe(rt: HostRuntime) {
    let mut recipe = Recipe::new(10);
    for _ in 0..128 {
        assert!(rt; recipe.push(Step::default()).is_ok());
    }
    assert!(rt; recipe.push(Step::default()).is_err());
    assert_eq!(rt; recipe.len(), 128);
}

#[test]
fn expansions(rt: HostRuntime) -> Result<(), Fail> {
    // One row for each case of the rule, and the majority.
    let rows: [(u64, &[(StepOp, u16, u16, u16)], u16); 8] = [
        (0xff, &[], 1),
        (0x33, &[], 5),
        (0xee, &[(StepOp::And, 5, 3, 0)], 9),
        (0x22, &[(StepOp::And, 5, 2, 0)], 8),
        (0xbb, &[(StepOp::And, 4, 3, 0)], 9),
        (0x88, &[(StepOp::And, 4, 2, 0)], 8),
        (0x66, &[(StepOp::Xor, 4, 2, 0)], 8),
        (
            0xe8,
            &[
                (StepOp::And, 5, 3, 0),
                (StepOp::And, 4, 2, 0),
                (StepOp::And, 6, 9, 0),
                (StepOp::And, 7, 10, 0),
                (StepOp::And, 13, 15, 0),
            ],
            17,
        ),
    ];
    for (word, steps, root) in &rows {
        let recipe = shannon(Table::from_words(3, [*word; 16]))?;
        assert_laid(&rt, &recipe, steps, *root);
    }
    Ok(())
}
