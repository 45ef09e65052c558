//! Plans: an operation by the operations that the gates of a network have.

ghost use Rattle.std.specs.Prelude.{◌≡◌, ℕ, ◌+◌, ◌≤◌, ◌<◌, ◌↔◌, IsTrue, length, map};
ghost use Rattle.std.specs.List.{range_with_len};
ghost use Rattle.lnet_tables.specs.Recipes.{place, next_place, sim, StepFits};
ghost use Rattle.lnet_tables.specs.Weights.{weight};
ghost use Rattle.lnet_tables.specs.Shannon.{plain};
ghost use Rattle.lnet_gates.specs.StepPlans.{cost, step_plan};
ghost use Rattle.lnet_gates.specs.Remade.{renamed as renamed_of, leaf_lits as leaf_lits_of, native_recipe};
ghost use Rattle.lnet_gates.specs.Plans as plans;
ghost use Rattle.lnet_gates.specs.Laying.{AllInside, HasLaid};

use crate::gate::{Kind, Op};
use crate::laying::lay_step;
use arrayvec::ArrayVec;
use lnet_tables::{Lit, Recipe, Step, StepOp, Table, shannon};

/// How a network lays an operation on its operands.
#[derive(Drop)]
pub enum Plan {
    /// By one gate of the operation: the gates of the kind have it.
    Native,
    /// By the steps of a recipe with a leaf for each operand, in order. The gates of the kind have each step's operation.
    Steps(Recipe),
}

impl Kind {
    /// Whether the gates of networks of this kind have the operation: `And` in `Aig`, `And` and `Xor` in `Xag`, `Maj` in
    /// `Mig`, and every operation in `Klut`. Constant time.
    pub fn has(self, op: &Op) -> bool
        ensures { result ≡ plans.is_native self op.now }
    {
        match (self, op) {
            (Kind::Aig | Kind::Xag, Op::And) => true,
            (Kind::Xag, Op::Xor) => true,
            (Kind::Mig, Op::Maj) => true,
            (Kind::Klut, _) => true,
            _ => false,
        }
    }

    /// How a network of this kind lays the operation on `arity` operands: natively, or by the steps of a recipe.
    ///
    /// `And` and `Xor` take 2 operands, `Maj` takes 3, and `Lut` 0 to 6. These are the recipes, where
    /// `or(a, b) = !and(!a, !b)`:
    ///
    /// | kind | operation | recipe |
    /// |---|---|---|
    /// | `Aig` | `xor(a, b)` | `or(and(a, !b), and(!a, b))` |
    /// | `Aig`, `Xag` | `maj(a, b, c)` | `or(and(a, b), and(c, or(a, b)))` |
    /// | `Mig` | `and(a, b)` | `maj(false, a, b)` |
    /// | `Mig` | `xor(a, b)` | `and(!and(a, b), or(a, b))` |
    /// | all but `Klut` | a `Lut` | the Shannon expansion of its table, each step by the kind's own recipe |
    ///
    /// The steps stand from left to right, the inner ones before the outer one. A recipe has at most 93 steps. Takes a few
    /// operations on tables for each step.
    pub fn plan(self, op: &Op, arity: u8) -> Plan
        requires { plans.Takes op.now arity }
        ensures plan { result ≡ plans.plan_of self op.now arity }
        ensures native { plans.IsPlanNative result ↔ IsTrue (plans.is_native self op.now) }
        ensures steps { plans.IfSteps result (λ r. plans.AllNative self r.steps) }
        ensures few { plans.IfSteps result (λ r. length r.steps ≤ 93) }
        ensures leaves { plans.IfSteps result (λ r. r.leaves ≡ arity) }
        ensures function { plans.IfSteps result (λ r. sim r ≡ plans.op_rows op.now arity) }
    {
        if self.has(op) {
            return Plan::Native;
        }
        let recipe = recipe_of(op, arity);
        Plan::Steps(in_kind(self, &recipe))
    }
}

/// The operation as a recipe: one step, or the expansion of a table.
fn recipe_of(op: &Op, arity: u8) -> Recipe
    requires { plans.Takes op.now arity }
    ensures { result ≡ plans.recipe_of op.now arity }
{
    match op {
        Op::And => one_step(StepOp::And, 2, Lit(0)),
        Op::Xor => one_step(StepOp::Xor, 2, Lit(0)),
        Op::Maj => one_step(StepOp::Maj, 3, Lit(6)),
        Op::Lut(table) => shannon(lut_table(*table, arity)).unwrap(),
    }
}

/// The recipe of one step that reads two leaves and `c`, over `leaves` leaves.
fn one_step(op: StepOp, leaves: u8, c: Lit) -> Recipe
    requires some { 2 ≤ leaves }
    requires few { leaves ≤ 10 }
    requires inside { place c ≤ leaves }
    ensures { result ≡ plans.one_step op leaves c }
{
    let mut recipe = Recipe::new(leaves);
    let step = Step {
        op,
        a: Lit(2),
        b: Lit(4),
        c,
    };
    let root = recipe.push(step).unwrap();
    recipe.set_root(root);
    recipe
}

/// The table of a look-up table with `arity` operands.
fn lut_table(table: u64, arity: u8) -> Table
    requires { arity ≤ 6 }
    ensures { result ≡ plans.lut_rows arity table }
{
    let mut words = [0; 16];
    words[0] = table;
    Table::from_words(arity, words)
}

/// The recipe with each step replaced by the steps of its plan.
fn in_kind(kind: Kind, whole: &Recipe) -> Recipe
    requires { weight (cost kind) whole.now.steps ≤ 124 }
    ensures { result ≡ native_recipe kind whole.now }
{
    let mut recipe = Recipe::new(whole.leaves());
    let mut lits = leaf_lits(whole.leaves());
    for i in 0..whole.len() {
        let lit = lay_renamed(&mut recipe, kind, whole.step(i), lits.as_slice());
        lits.push(lit);
    }
    let root = renamed(lits.as_slice(), whole.root());
    recipe.set_root(root);
    recipe
}

/// Pushes the plan of a step whose literals are renamed by `lits`.
fn lay_renamed(recipe: &mut Recipe, kind: Kind, step: Step, lits: &[Lit]) -> Lit
    requires room { length recipe.old.steps + 4 ≤ 128 }
    requires fits { StepFits (length lits.now) step }
    requires inside { AllInside (next_place recipe.old) lits.now }
    ensures { HasLaid recipe.old recipe.new result (step_plan kind step.op (next_place recipe.old) (renamed_of lits.now step.a) (renamed_of lits.now step.b) (renamed_of lits.now step.c)) }
{
    let new = Step {
        op: step.op,
        a: renamed(lits, step.a),
        b: renamed(lits, step.b),
        c: renamed(lits, step.c),
    };
    lay_step(recipe, kind, new)
}

/// The literals of the constant and of the leaves, with room for those of 128 steps.
fn leaf_lits(leaves: u8) -> ArrayVec<Lit, 139>
    requires { leaves ≤ 10 }
    ensures { result.items ≡ leaf_lits_of leaves }
{
    let mut lits: ArrayVec<Lit, 139> = ArrayVec::new();
    for p in 0..leaves + 1 {
        lits.push(Lit(2 * p as u16));
    }
    lits
}

/// What a literal becomes, where `lits` has the new literal of each place.
fn renamed(lits: &[Lit], lit: Lit) -> Lit
    requires { place lit < length lits.now }
    ensures { result ≡ renamed_of lits.now lit }
{
    let new = lits[(lit.0 / 2) as usize];
    if lit.0 % 2 == 1 {
        new.complement()
    } else {
        new
    }
}
