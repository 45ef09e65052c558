//! Laying: the plan of one step, pushed onto a recipe that grows.

ghost use Rattle.std.specs.Prelude.{◌≡◌, ◌+◌, ◌≤◌, ◌<◌, length};
ghost use Rattle.lnet_tables.specs.Recipes.{place, next_place};
ghost use Rattle.lnet_gates.specs.StepPlans.{and_plan, or_plan, xor_plan, maj_plan, either_plan, not_both_plan, most_plan, same_plan, step_plan};
ghost use Rattle.lnet_gates.specs.Laying.{HasLaid};

use crate::gate::Kind;
use lnet_tables::{Lit, Recipe, Step, StepOp};

/// Pushes the plan of a step. The recipe has room for four steps.
pub(crate) fn lay_step(recipe: &mut Recipe, kind: Kind, step: Step) -> Lit
    requires room { length recipe.old.steps + 4 ≤ 128 }
    requires a { place step.a < next_place recipe.old }
    requires b { place step.b < next_place recipe.old }
    requires c { place step.c < next_place recipe.old }
    ensures { HasLaid recipe.old recipe.new result (step_plan kind step.op (next_place recipe.old) step.a step.b step.c) }
{
    match step.op {
        StepOp::And => and(recipe, kind, step.a, step.b),
        StepOp::Xor => xor(recipe, kind, step.a, step.b),
        StepOp::Maj => maj(recipe, kind, step.a, step.b, step.c),
    }
}

/// Pushes the and of two literals.
fn and(recipe: &mut Recipe, kind: Kind, a: Lit, b: Lit) -> Lit
    requires room { length recipe.old.steps + 1 ≤ 128 }
    requires a { place a < next_place recipe.old }
    requires b { place b < next_place recipe.old }
    ensures { HasLaid recipe.old recipe.new result (and_plan kind (next_place recipe.old) a b) }
{
    match kind {
        Kind::Mig => push(recipe, StepOp::Maj, Lit(0), a, b),
        _ => push(recipe, StepOp::And, a, b, Lit(0)),
    }
}

/// Pushes the or of two literals: the complement of the and of their complements.
fn or(recipe: &mut Recipe, kind: Kind, a: Lit, b: Lit) -> Lit
    requires room { length recipe.old.steps + 1 ≤ 128 }
    requires a { place a < next_place recipe.old }
    requires b { place b < next_place recipe.old }
    ensures { HasLaid recipe.old recipe.new result (or_plan kind (next_place recipe.old) a b) }
{
    and(recipe, kind, a.complement(), b.complement()).complement()
}

/// Pushes the exclusive or of two literals.
fn xor(recipe: &mut Recipe, kind: Kind, a: Lit, b: Lit) -> Lit
    requires room { length recipe.old.steps + 4 ≤ 128 }
    requires a { place a < next_place recipe.old }
    requires b { place b < next_place recipe.old }
    ensures { HasLaid recipe.old recipe.new result (xor_plan kind (next_place recipe.old) a b) }
{
    match kind {
        Kind::Aig => either(recipe, kind, a, b),
        Kind::Mig => not_both(recipe, kind, a, b),
        _ => push(recipe, StepOp::Xor, a, b, Lit(0)),
    }
}

/// Pushes the majority of three literals.
fn maj(recipe: &mut Recipe, kind: Kind, a: Lit, b: Lit, c: Lit) -> Lit
    requires room { length recipe.old.steps + 4 ≤ 128 }
    requires a { place a < next_place recipe.old }
    requires b { place b < next_place recipe.old }
    requires c { place c < next_place recipe.old }
    ensures { HasLaid recipe.old recipe.new result (maj_plan kind (next_place recipe.old) a b c) }
{
    match kind {
        Kind::Aig | Kind::Xag => most(recipe, kind, a, b, c),
        _ => push(recipe, StepOp::Maj, a, b, c),
    }
}

/// Pushes `or(and(a, !b), and(!a, b))`.
fn either(recipe: &mut Recipe, kind: Kind, a: Lit, b: Lit) -> Lit
    requires room { length recipe.old.steps + 4 ≤ 128 }
    requires a { place a < next_place recipe.old }
    requires b { place b < next_place recipe.old }
    ensures { HasLaid recipe.old recipe.new result (either_plan kind (next_place recipe.old) a b) }
{
    let left = and(recipe, kind, a, b.complement());
    let right = and(recipe, kind, a.complement(), b);
    or(recipe, kind, left, right)
}

/// Pushes `and(!and(a, b), or(a, b))`.
fn not_both(recipe: &mut Recipe, kind: Kind, a: Lit, b: Lit) -> Lit
    requires room { length recipe.old.steps + 4 ≤ 128 }
    requires a { place a < next_place recipe.old }
    requires b { place b < next_place recipe.old }
    ensures { HasLaid recipe.old recipe.new result (not_both_plan kind (next_place recipe.old) a b) }
{
    let both = and(recipe, kind, a, b);
    let some = or(recipe, kind, a, b);
    and(recipe, kind, both.complement(), some)
}

/// Pushes `or(and(a, b), and(c, or(a, b)))`.
fn most(recipe: &mut Recipe, kind: Kind, a: Lit, b: Lit, c: Lit) -> Lit
    requires room { length recipe.old.steps + 4 ≤ 128 }
    requires a { place a < next_place recipe.old }
    requires b { place b < next_place recipe.old }
    requires c { place c < next_place recipe.old }
    ensures { HasLaid recipe.old recipe.new result (most_plan kind (next_place recipe.old) a b c) }
{
    let both = and(recipe, kind, a, b);
    let some = or(recipe, kind, a, b);
    let third = and(recipe, kind, c, some);
    or(recipe, kind, both, third)
}

/// Pushes one step.
fn push(recipe: &mut Recipe, op: StepOp, a: Lit, b: Lit, c: Lit) -> Lit
    requires room { length recipe.old.steps + 1 ≤ 128 }
    requires a { place a < next_place recipe.old }
    requires b { place b < next_place recipe.old }
    requires c { place c < next_place recipe.old }
    ensures { HasLaid recipe.old recipe.new result (same_plan op (next_place recipe.old) a b c) }
{
    recipe.push(Step { op, a, b, c }).unwrap()
}
