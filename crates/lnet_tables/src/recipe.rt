//! Recipes: straight-line programs of steps over leaves, and the tables that they compute.

ghost use Rattle.std.specs.Prelude.{◌≡◌, ℕ, ◌+◌, ◌*◌, ◌^◌, ◌/◌, ◌<◌, ◌≤◌, length, [], ◌∷◌, ◌++◌, OnOk, OnErr, IfOk, IsOk, ◌↔◌, slice_get};
ghost use Rattle.lnet_tables.specs.Bits.{Rows, xor_rows, and_rows};
ghost use Rattle.lnet_tables.specs.Recipes.{RecipeValue, StepFits, place, next_place, sim};
ghost use Rattle.lnet_tables.specs.WholeTables.{AllOf, lit_rows, step_rows, leaf_rows};

use crate::step::{Lit, Step, StepOp};
use crate::table::Table;
use arrayvec::ArrayVec;
use std::marker::Model;

/// Why a step was not pushed: the recipe holds 128 steps already. It is then as it was.
#[derive(Debug, Drop)]
pub struct RecipeFull;

/// A function of up to ten leaves as a straight-line program: up to 128 steps, each over constants, leaves and
/// earlier steps, and a root.
///
/// Contracts see the number of leaves, the list of the steps and the root. The type keeps that each operand comes
/// before its step and that the root exists. A recipe takes no memory of its own beside its 1,200 bytes.
#[derive(Drop)]
pub struct Recipe {
    leaves: u8,
    steps: ArrayVec<Step, 128>,
    root: Lit,
}

impl Model for Recipe {
    ghost use Rattle.lnet_tables.specs.Recipes.{RecipeValue, IsRecipe};

    ghost Value = { RecipeValue };

    ghost view = { λ r. record { leaves = r.leaves; steps = r.steps.items; root = r.root } };

    ghost invariant = { λ r. IsRecipe r.leaves r.steps.items r.root };
}

impl Recipe {
    /// The recipe over `leaves` leaves, at most 10, without steps, whose root is false.
    pub fn new(leaves: u8) -> Recipe
        requires { leaves ≤ 10 }
        ensures { result ≡ record { leaves = leaves; steps = []; root = record { 0 = 0 } } }
    {
        Recipe {
            leaves,
            steps: ArrayVec::new(),
            root: Lit(0),
        }
    }

    /// Adds a step at the end and answers its plain literal. Constant time.
    ///
    /// The places of the step's three operands exist: they are at most `leaves() + len()`.
    ///
    /// # Errors
    ///
    /// `RecipeFull` exactly where the recipe holds 128 steps. It is then as it was.
    pub fn push(&mut self, step: Step) -> Result<Lit, RecipeFull>
        requires { StepFits (next_place self.old) step }
        ensures room { IsOk result ↔ (length self.old.steps < 128) }
        ensures ok { OnOk result (self.new ≡ record self.old { steps = self.old.steps ++ step ∷ [] }) }
        ensures lit { IfOk result (λ l. l ≡ record { 0 = 2 * next_place self.old }) }
        ensures few { IfOk result (λ _. self.new.leaves ≤ 10) }
        ensures err { OnErr result (self.new ≡ self.old) }
    {
        if self.steps.is_full() {
            return Err(RecipeFull);
        }
        let place = self.leaves as u16 + 1 + self.steps.len() as u16;
        self.steps.push(step);
        Ok(Lit(2 * place))
    }

    /// Makes `root`, whose place exists, the literal of the recipe's function.
    pub fn set_root(&mut self, root: Lit)
        requires { place root < next_place self.old }
        ensures { self.new ≡ record self.old { root = root } }
    {
        self.root = root;
    }

    /// The number of leaves, at most 10.
    pub fn leaves(&self) -> u8
        ensures value { result ≡ self.now.leaves }
        ensures few { result ≤ 10 }
    {
        self.leaves
    }

    /// The number of steps, at most 128.
    pub fn len(&self) -> u8
        ensures value { result ≡ length self.now.steps }
        ensures few { result ≤ 128 }
    {
        self.steps.len() as u8
    }

    /// Step `i`, counted from 0; `i` is below `len()`. Its operands come before it.
    pub fn step(&self, i: u8) -> Step
        requires { i < length self.now.steps }
        ensures value { slice_get self.now.steps i ≡ Some result }
        ensures before { StepFits (self.now.leaves + 1 + i) result }
    {
        self.steps[i as usize]
    }

    /// The literal of the recipe's function. Its place exists.
    pub fn root(&self) -> Lit
        ensures value { result ≡ self.now.root }
        ensures inside { place result < next_place self.now }
    {
        self.root
    }

    /// The root's function of the leaves, as a table with one variable for each leaf: leaf `i`, at place `i + 1`, is
    /// variable `i`. A few operations on whole tables for each step.
    pub fn simulate(&self) -> Table
        ensures { result ≡ sim self.now }
    {
        let mut tables = leaf_tables(self.leaves);
        for step in self.steps.as_slice() {
            let next = step_table(tables.as_slice(), step, self.leaves);
            tables.push(next);
        }
        lit_table(tables.as_slice(), self.root, self.leaves)
    }
}

/// The table of a literal, from the tables of the places, each of `leaves` variables.
fn lit_table(tables: &[Table], lit: Lit, leaves: u8) -> Table
    requires inside { place lit < length tables.now }
    requires all { AllOf leaves tables.now }
    ensures value { result ≡ lit_rows tables.now lit }
    ensures vars { result.vars ≡ leaves }
{
    let table = tables[(lit.0 / 2) as usize];
    if lit.0 % 2 == 1 { table.not() } else { table }
}

/// The table of a step, from the tables of the places before it, each of `leaves` variables.
fn step_table(tables: &[Table], step: &Step, leaves: u8) -> Table
    requires inside { StepFits (length tables.now) step.now }
    requires all { AllOf leaves tables.now }
    ensures value { result ≡ step_rows tables.now step.now }
    ensures vars { result.vars ≡ leaves }
{
    let a = lit_table(tables, step.a, leaves);
    let b = lit_table(tables, step.b, leaves);
    match step.op {
        StepOp::And => a.and(b),
        StepOp::Xor => a.xor(b),
        StepOp::Maj => {
            let c = lit_table(tables, step.c, leaves);
            maj_table(a, b, c)
        }
    }
}

/// The tables of the constant and of the leaves, with room for those of 128 steps.
fn leaf_tables(leaves: u8) -> ArrayVec<Table, 139>
    requires { leaves ≤ 10 }
    ensures { result.items ≡ leaf_rows leaves }
{
    let mut tables: ArrayVec<Table, 139> = ArrayVec::new();
    tables.push(Table::constant(leaves, false));
    for i in 0..leaves {
        tables.push(Table::variable(leaves, i));
    }
    tables
}

/// The majority of three tables: both of the first two, or the third where exactly one of them holds.
fn maj_table(a: Table, b: Table, c: Table) -> Table
    requires ab { a.vars ≡ b.vars }
    requires ac { a.vars ≡ c.vars }
    ensures { result ≡ xor_rows (and_rows a b) (and_rows c (xor_rows a b)) }
{
    let both = a.and(b);
    let one = a.xor(b);
    both.xor(c.and(one))
}
