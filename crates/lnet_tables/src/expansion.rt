//! The Shannon expansion of a table as a recipe.

ghost use Rattle.std.specs.Prelude.{◌≡◌, ℕ, Bool, true, false, ◌+◌, ◌*◌, ◌^◌, ◌/◌, ◌%◌, ◌<◌, ◌≤◌, ◌++◌, ◌↔◌, length, IfOk, OnOk, IsOk};
ghost use Rattle.lnet_tables.specs.Bits.{bit_of};
ghost use Rattle.lnet_tables.specs.Recipes.{RecipeValue, place, next_place, sim};
ghost use Rattle.lnet_tables.specs.Shannon.{Lays, step_of, plain, other, and_at, or_at, xor_at, choice_at, one_step_at, is_constant as constant_is, case_of, rest_of, expansion, shannon_of};

use crate::recipe::{Recipe, RecipeFull};
use crate::step::{Lit, Step, StepOp};
use crate::table::Table;

/// Which case of the expansion decides for a table and one of its variables. High is the cofactor where the variable
/// is true, low that where it is false.
#[derive(Clone, Copy)]
enum Case {
    /// Both cofactors are one: the table doesn't depend on the variable.
    Unused,
    /// The table is the variable.
    Plain,
    /// The table is the variable's complement.
    Complement,
    /// High is true: the variable or low.
    HighTrue,
    /// High is false: not the variable and low.
    HighFalse,
    /// Low is true: not the variable or high.
    LowTrue,
    /// Low is false: the variable and high.
    LowFalse,
    /// High is the complement of low: the variable xor low.
    Opposite,
    /// None of these: the variable and high, or not the variable and low.
    Neither,
}

/// The recipe of `table` by the Shannon expansion, with one leaf for each variable.
///
/// A constant or a literal of one leaf takes no step. Else let `v` be the greatest variable on which the table
/// depends, and `f1` and `f0` its cofactors where `v` is true and where it is false. The first case that holds
/// decides:
///
/// | case | result |
/// |---|---|
/// | `f1` is true | `or(v, f0)` |
/// | `f1` is false | `and(!v, f0)` |
/// | `f0` is true | `or(!v, f1)` |
/// | `f0` is false | `and(v, f1)` |
/// | `f1` is the complement of `f0` | `xor(v, f0)` |
/// | else | `or(and(v, f1), and(!v, f0))` |
///
/// The steps of `f1` come before those of `f0`, then the case's own from left to right. Nothing is shared.
/// `or(a, b)` is the complement of one `And` step, over the complements of `a` and `b`.
///
/// After C. E. Shannon, "The Synthesis of Two-Terminal Switching Circuits", Bell System Technical Journal 28 (1949).
/// At most three steps and a few operations on whole tables for each of up to `2^vars` cofactors.
///
/// # Errors
///
/// `RecipeFull` exactly where the expansion has more than 128 steps. With at most 7 variables it never has.
pub fn shannon(table: Table) -> Result<Recipe, RecipeFull>
    ensures fits { IsOk result ↔ (length (shannon_of table).steps ≤ 128) }
    ensures steps { IfOk result (λ r. r ≡ shannon_of table) }
    ensures function { IfOk result (λ r. sim r ≡ table) }
    ensures small { table.vars ≤ 7 → IsOk result }
{
    let vars = table.vars();
    let mut recipe = Recipe::new(vars);
    let root = lay(&mut recipe, table, vars)?;
    recipe.set_root(root);
    Ok(recipe)
}

/// Pushes the steps of `table`, which depends on no variable but the first `count`, and answers its literal.
fn lay(recipe: &mut Recipe, table: Table, count: u8) -> Result<Lit, RecipeFull>
    requires leaves { recipe.old.leaves ≡ table.vars }
    requires inside { count ≤ table.vars }
    requires short { length recipe.old.steps ≤ 128 }
    ensures { Lays recipe.old recipe.new result (expansion count (next_place recipe.old) table) }
{
    if count == 0 {
        return Ok(constant(table.get(0)));
    }
    let variable = count - 1;
    let high = table.cofactor(variable, true);
    let low = table.cofactor(variable, false);
    let leaf = leaf(variable);
    let case = decide(&high, &low);
    match case {
        Case::Unused => {
            let lit = lay(recipe, low, variable)?;
            Ok(lit)
        }
        Case::Plain => Ok(leaf),
        Case::Complement => Ok(leaf.complement()),
        Case::Neither => {
            let if_true = lay(recipe, high, variable)?;
            let if_false = lay(recipe, low, variable)?;
            let lit = choice(recipe, leaf, if_true, if_false)?;
            Ok(lit)
        }
        _ => {
            let other = lay(recipe, rest(case, high, low), variable)?;
            let lit = one_step(recipe, case, leaf, other)?;
            Ok(lit)
        }
    }
}

/// The literal of a variable.
fn leaf(variable: u8) -> Lit
    requires { variable < 10 }
    ensures { result ≡ plain (variable + 1) }
{
    Lit(2 * (variable as u16 + 1))
}

/// The literal of a constant.
fn constant(value: bool) -> Lit
    ensures value { result ≡ record { 0 = bit_of value } }
    ensures place { place result ≡ 0 }
{
    if value { Lit(1) } else { Lit(0) }
}

/// Which case decides, given the two cofactors.
fn decide(high: &Table, low: &Table) -> Case
    ensures { result ≡ case_of high.now low.now }
{
    if high == low {
        return Case::Unused;
    }
    if is_constant(high, true) {
        return if is_constant(low, false) {
            Case::Plain
        } else {
            Case::HighTrue
        };
    }
    if is_constant(high, false) {
        return if is_constant(low, true) {
            Case::Complement
        } else {
            Case::HighFalse
        };
    }
    if is_constant(low, true) {
        return Case::LowTrue;
    }
    if is_constant(low, false) {
        return Case::LowFalse;
    }
    if *high == low.not() {
        Case::Opposite
    } else {
        Case::Neither
    }
}

/// Whether all rows of the table are `value`.
fn is_constant(table: &Table, value: bool) -> bool
    ensures { result ≡ constant_is table.now value }
{
    *table == Table::constant(table.vars(), value)
}

/// The cofactor that is enough in a case with one step.
fn rest(case: Case, high: Table, low: Table) -> Table
    ensures { result ≡ rest_of case high low }
{
    match case {
        Case::LowTrue | Case::LowFalse => high,
        _ => low,
    }
}

/// Pushes the step of a case in which one cofactor, at literal `rest`, is enough; `leaf` is the variable.
fn one_step(recipe: &mut Recipe, case: Case, leaf: Lit, rest: Lit) -> Result<Lit, RecipeFull>
    requires leaf { place leaf < next_place recipe.old }
    requires rest { place rest < next_place recipe.old }
    ensures fits { IsOk result ↔ (length recipe.old.steps < 128) }
    ensures steps { OnOk result (recipe.new ≡ record recipe.old { steps = recipe.old.steps ++ (one_step_at case (next_place recipe.old) leaf rest).steps }) }
    ensures root { IfOk result (λ l. l ≡ (one_step_at case (next_place recipe.old) leaf rest).root) }
    ensures inside { IfOk result (λ l. place l < next_place recipe.new) }
{
    match case {
        Case::HighTrue => or(recipe, leaf, rest),
        Case::HighFalse => and(recipe, leaf.complement(), rest),
        Case::LowTrue => or(recipe, leaf.complement(), rest),
        Case::LowFalse => and(recipe, leaf, rest),
        _ => xor(recipe, leaf, rest),
    }
}

/// Pushes the three steps of `if_true` where `leaf` holds and of `if_false` where it doesn't.
fn choice(recipe: &mut Recipe, leaf: Lit, if_true: Lit, if_false: Lit) -> Result<Lit, RecipeFull>
    requires leaf { place leaf < next_place recipe.old }
    requires if_true { place if_true < next_place recipe.old }
    requires if_false { place if_false < next_place recipe.old }
    ensures fits { IsOk result ↔ (length recipe.old.steps + 3 ≤ 128) }
    ensures steps { OnOk result (recipe.new ≡ record recipe.old { steps = recipe.old.steps ++ (choice_at (next_place recipe.old) leaf if_true if_false).steps }) }
    ensures root { IfOk result (λ l. l ≡ (choice_at (next_place recipe.old) leaf if_true if_false).root) }
    ensures inside { IfOk result (λ l. place l < next_place recipe.new) }
{
    let high = and(recipe, leaf, if_true)?;
    let low = and(recipe, leaf.complement(), if_false)?;
    let lit = or(recipe, high, low)?;
    Ok(lit)
}

/// Pushes the and of two literals.
fn and(recipe: &mut Recipe, a: Lit, b: Lit) -> Result<Lit, RecipeFull>
    requires a { place a < next_place recipe.old }
    requires b { place b < next_place recipe.old }
    ensures fits { IsOk result ↔ (length recipe.old.steps < 128) }
    ensures steps { OnOk result (recipe.new ≡ record recipe.old { steps = recipe.old.steps ++ (and_at (next_place recipe.old) a b).steps }) }
    ensures root { IfOk result (λ l. l ≡ (and_at (next_place recipe.old) a b).root) }
    ensures inside { IfOk result (λ l. place l < next_place recipe.new) }
{
    let lit = recipe.push(step(StepOp::And, a, b))?;
    Ok(lit)
}

/// Pushes the or of two literals: the complement of the and of their complements.
fn or(recipe: &mut Recipe, a: Lit, b: Lit) -> Result<Lit, RecipeFull>
    requires a { place a < next_place recipe.old }
    requires b { place b < next_place recipe.old }
    ensures fits { IsOk result ↔ (length recipe.old.steps < 128) }
    ensures steps { OnOk result (recipe.new ≡ record recipe.old { steps = recipe.old.steps ++ (or_at (next_place recipe.old) a b).steps }) }
    ensures root { IfOk result (λ l. l ≡ (or_at (next_place recipe.old) a b).root) }
    ensures inside { IfOk result (λ l. place l < next_place recipe.new) }
{
    let lit = recipe.push(step(StepOp::And, a.complement(), b.complement()))?;
    Ok(lit.complement())
}

/// Pushes the xor of two literals.
fn xor(recipe: &mut Recipe, a: Lit, b: Lit) -> Result<Lit, RecipeFull>
    requires a { place a < next_place recipe.old }
    requires b { place b < next_place recipe.old }
    ensures fits { IsOk result ↔ (length recipe.old.steps < 128) }
    ensures steps { OnOk result (recipe.new ≡ record recipe.old { steps = recipe.old.steps ++ (xor_at (next_place recipe.old) a b).steps }) }
    ensures root { IfOk result (λ l. l ≡ (xor_at (next_place recipe.old) a b).root) }
    ensures inside { IfOk result (λ l. place l < next_place recipe.new) }
{
    let lit = recipe.push(step(StepOp::Xor, a, b))?;
    Ok(lit)
}

/// A step of two operands.
fn step(op: StepOp, a: Lit, b: Lit) -> Step
    ensures { result ≡ step_of op a b }
{
    Step {
        op,
        a,
        b,
        c: Lit(0),
    }
}
