//! Plans of operations, worked by hand from the recipes that the plans' table gives.

use lnet_gates::{Kind, Op, Plan};
use lnet_tables::StepOp::{And, Maj};
use lnet_tables::{Lit, Recipe, Step, StepOp};
use std::test::Fail;

/// A plan: one gate, or steps, each an operation on three literals, and their root.
enum Lays {
    Native,
    Steps(&'static [(StepOp, u16, u16, u16)], u16),
}

/// How a kind lays an operation on so many operands.
struct Row(Kind, Op, u8, Lays);

const MAJORITY: &[(StepOp, u16, u16, u16)] = &[
    (And, 2, 4, 0),
    (And, 3, 5, 0),
    (And, 6, 11, 0),
    (And, 9, 13, 0),
];

static PLANS: [Row; 16] = [
    Row(Kind::Aig, Op::And, 2, Lays::Native),
    Row(Kind::Xag, Op::And, 2, Lays::Native),
    Row(Kind::Mig, Op::And, 2, Lays::Steps(&[(Maj, 0, 2, 4)], 6)),
    Row(Kind::Klut, Op::And, 2, Lays::Native),
    Row(
        Kind::Aig,
        Op::Xor,
        2,
        Lays::Steps(&[(And, 2, 5, 0), (And, 3, 4, 0), (And, 7, 9, 0)], 11),
    ),
    Row(Kind::Xag, Op::Xor, 2, Lays::Native),
    Row(
        Kind::Mig,
        Op::Xor,
        2,
        Lays::Steps(&[(Maj, 0, 2, 4), (Maj, 0, 3, 5), (Maj, 0, 7, 9)], 10),
    ),
    Row(Kind::Klut, Op::Xor, 2, Lays::Native),
    Row(Kind::Aig, Op::Maj, 3, Lays::Steps(MAJORITY, 15)),
    Row(Kind::Xag, Op::Maj, 3, Lays::Steps(MAJORITY, 15)),
    Row(Kind::Mig, Op::Maj, 3, Lays::Native),
    Row(Kind::Klut, Op::Maj, 3, Lays::Native),
    Row(Kind::Aig, Op::Lut(0x1), 0, Lays::Steps(&[], 1)),
    Row(Kind::Mig, Op::Lut(0x1), 1, Lays::Steps(&[], 3)),
    Row(
        Kind::Aig,
        Op::Lut(0x6),
        2,
        Lays::Steps(&[(And, 4, 3, 0), (And, 5, 2, 0), (And, 7, 9, 0)], 11),
    ),
    Row(Kind::Klut, Op::Lut(0x6), 2, Lays::Native),
];

/// The kind's plan of the operation, where it takes so many operands.
fn planned(kind: Kind, op: Op, arity: u8) -> Option<Plan> {
    match (op, arity) {
        (Op::And | Op::Xor, 2) => Some(kind.plan(&op, arity)),
        (Op::Maj, 3) => Some(kind.plan(&op, arity)),
        (Op::Lut(_), 0..=6) => Some(kind.plan(&op, arity)),
        _ => None,
    }
}

/// Whether the recipe has just these steps.
fn has_steps(recipe: &Recipe, steps: &[(StepOp, u16, u16, u16)]) -> bool {
    if recipe.len() as usize != steps.len() {
        return false;
    }
    for i in 0..recipe.len() {
        let (op, a, b, c) = steps[i as usize];
        let step = Step {
            op,
            a: Lit(a),
            b: Lit(b),
            c: Lit(c),
        };
        if recipe.step(i) != step {
            return false;
        }
    }
    true
}

#[test]
fn kinds_have_plans(rt: HostRuntime) -> Result<(), Fail> {
    for row in PLANS.as_slice() {
        let (kind, op) = (row.0, row.1);
        let plan = planned(kind, op, row.2).ok_or("another arity")?;
        let same = match (&plan, &row.3) {
            (Plan::Native, Lays::Native) => kind.has(&op),
            (Plan::Steps(recipe), Lays::Steps(steps, root)) => {
                !kind.has(&op) && recipe.root() == Lit(*root) && has_steps(recipe, steps)
            }
            _ => false,
        };
        assert!(rt; same, "{op:?} in {kind:?}");
    }
    Ok(())
}
