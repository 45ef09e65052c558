//! The comparison of a recipe, or of a proposal, with the steps that it is to have.

use lnet_resyn::Proposal;
use lnet_tables::{Lit, Recipe, Step, StepOp};
use std::process::Abort;

/// Asserts that the recipe has just these steps, each with its operands, and this root.
pub(crate) fn assert_laid(
    rt: &impl Abort,
    recipe: &Recipe,
    steps: &[(StepOp, u16, u16, u16)],
    root: u16,
) {
    assert_eq!(rt; recipe.len() as usize, steps.len());
    for i in 0..recipe.len() {
        let (op, a, b, c) = steps[i as usize];
        let step = Step {
            op,
            a: Lit(a),
            b: Lit(b),
            c: Lit(c),
        };
        assert_eq!(rt; recipe.step(i), step);
    }
    assert_eq!(rt; recipe.root(), Lit(root));
}

/// Asserts that the proposal is a recipe of just these steps and this root.
pub(crate) fn assert_used(
    rt: &impl Abort,
    proposal: Proposal,
    steps: &[(StepOp, u16, u16, u16)],
    root: u16,
) {
    match proposal {
        Proposal::Use(recipe) => assert_laid(rt, &recipe, steps, root),
        _ => assert!(rt; false, "no recipe"),
    }
}
