//! The irredundant sum of products between two bounds.

ghost use Rattle.std.specs.Prelude.{◌≡◌, ◌≤◌, ◌<◌, ◌+◌, ◌-◌, ◌*◌, ◌^◌, ℕ, map, ◌++◌, true, false, IfOk, OnOk, IsTrue, All, ◌&&◌, ◌||◌, ◌==◌};
ghost use Rattle.lnet_tables.specs.Bits.{row as row_of, and_rows, bit_of, equal_rows, by_rows};
ghost use Rattle.lnet_tables.specs.Shannon.{is_constant as constant_is};
ghost use Rattle.lnet_sop.specs.Covers.{covers, union_rows};
ghost use Rattle.lnet_sop.specs.Isop.{half as half_of, or_rows, minus_rows, in_context, joined_rows, cubes_of, isop_of};
ghost use Rattle.lnet_sop.specs.Irredundant.{IsPrime, IsNeeded};

use crate::cover::{Cover, Cube};
use lnet_tables::Table;
use std::alloc::{AllocError, Global};

/// An irredundant sum of products between two bounds: a cover whose function is true wherever `lower` is and nowhere that
/// `upper` isn't.
///
/// Both have the same number of variables, and `lower` implies `upper`.
///
/// No cube where `lower` is false, and the cube without literals where `upper` is true. Else `v` is the greatest variable
/// on which one of them depends, `l0`, `l1`, `u0` and `u1` are their cofactors where it is false and true, and
///
/// | cubes | are the cover between | and |
/// |---|---|---|
/// | `c0` | `l0` and not `u1` | `u0` |
/// | `c1` | `l1` and not `u0` | `u1` |
/// | `cd` | the rows of `l0` that `c0` doesn't cover and those of `l1` that `c1` doesn't | `u0` and `u1` |
///
/// The result is `c0` with the literal `!v`, then `c1` with `v`, then `cd`.
///
/// After S. Minato, "Fast Generation of Irredundant Sum-of-Products Forms from Binary Decision Diagrams", SASIMI 1992, on
/// tables. Each turn takes a few operations on tables of one variable less, and makes at most three further turns.
///
/// # Errors
///
/// `AllocError` exactly where memory runs out.
pub fn isop(alloc: Global, lower: Table, upper: Table) -> Result<Cover, AllocError>
    requires vars { lower.vars ≡ upper.vars }
    requires implies { (r : ℕ) → r < 2 ^ lower.vars → IsTrue (row_of lower r) → IsTrue (row_of upper r) }
    ensures cubes { IfOk result (λ c. c ≡ isop_of lower upper) }
    ensures due { IfOk result (λ c. (r : ℕ) → r < 2 ^ lower.vars → IsTrue (row_of lower r) → IsTrue (covers c.vars c.cubes r)) }
    ensures within { IfOk result (λ c. (r : ℕ) → r < 2 ^ lower.vars → IsTrue (covers c.vars c.cubes r) → IsTrue (row_of upper r)) }
    ensures prime { IfOk result (λ c. All (IsPrime c.vars upper) c.cubes) }
    ensures irredundant { IfOk result (λ c. All (IsNeeded c.vars lower c.cubes) c.cubes) }
{
    let vars = lower.vars();
    let mut cubes = Vec::new(alloc);
    lay(&mut cubes, Cube { care: 0, value: 0 }, lower, upper)?;
    Ok(Cover { vars, cubes })
}

/// Adds the cubes of the cover between `lower` and `upper`, each with the literals of `context`, and answers the function
/// of these cubes without them. The literals of `context` are of variables past those of the two tables.
fn lay(
    cubes: &mut Vec<Cube>,
    context: Cube,
    lower: Table,
    upper: Table,
) -> Result<Table, AllocError>
    requires vars { lower.vars ≡ upper.vars }
    requires care { context.care + 2 ^ lower.vars ≤ 1024 }
    requires value { context.value ≤ context.care }
    ensures cubes { OnOk result (cubes.new.items ≡ cubes.old.items ++ map (in_context context) (cubes_of lower.vars lower upper)) }
    ensures function { IfOk result (λ t. t ≡ union_rows lower.vars (cubes_of lower.vars lower upper)) }
{
    let vars = lower.vars();
    if is_constant(&lower, false) {
        return Ok(Table::constant(vars, false));
    }
    if is_whole(&upper) {
        cubes.push(context)?;
        return Ok(Table::constant(vars, true));
    }
    let low = half(lower, false);
    let high = half(lower, true);
    let under = half(upper, false);
    let over = half(upper, true);
    if are_same(&low, &high, &under, &over) {
        let table = lay(cubes, context, low, under)?;
        return Ok(table.expand(vars));
    }
    let if_false = lay(
        cubes,
        with_literal(context, vars - 1, false),
        minus(low, over),
        under,
    )?;
    let if_true = lay(
        cubes,
        with_literal(context, vars - 1, true),
        minus(high, under),
        over,
    )?;
    let left = or(minus(low, if_false), minus(high, if_true));
    let for_both = lay(cubes, context, left, under.and(over))?;
    Ok(joined(or(if_false, for_both), or(if_true, for_both)))
}

/// Whether an upper bound of a function that isn't false is covered by the cube without literals: it is true, which it is
/// where it has no variable.
fn is_whole(upper: &Table) -> bool
    ensures { result ≡ (upper.now.vars == 0 || constant_is upper.now true) }
{
    upper.vars() == 0 || is_constant(upper, true)
}

/// Whether neither bound depends on the last variable, given their halves.
fn are_same(low: &Table, high: &Table, under: &Table, over: &Table) -> bool
    ensures { result ≡ (equal_rows low.now high.now && equal_rows under.now over.now) }
{
    low == high && under == over
}

/// Whether all rows of the table are `value`.
fn is_constant(table: &Table, value: bool) -> bool
    ensures { result ≡ constant_is table.now value }
{
    *table == Table::constant(table.vars(), value)
}

/// The function of the other variables where the last variable is `value`.
fn half(table: Table, value: bool) -> Table
    requires { 0 < table.vars }
    ensures rows { result ≡ half_of table (table.vars - 1) value }
    ensures vars { result.vars ≡ table.vars - 1 }
{
    let last = table.vars() - 1;
    Table::from_words(last, table.cofactor(last, value).words())
}

/// The function of one variable more, the last, that is `low` where it is false and `high` where it is true.
fn joined(low: Table, high: Table) -> Table
    requires vars { low.vars ≡ high.vars }
    requires few { low.vars < 10 }
    ensures { result ≡ joined_rows low high }
{
    let vars = low.vars() + 1;
    let last = Table::variable(vars, vars - 1);
    or(
        low.expand(vars).and(last.not()),
        high.expand(vars).and(last),
    )
}

/// The rows of `a` that aren't rows of `b`.
fn minus(a: Table, b: Table) -> Table
    requires { a.vars ≡ b.vars }
    ensures rows { result ≡ minus_rows a b }
    ensures vars { result.vars ≡ a.vars }
{
    a.and(b.not())
}

/// The rows of `a` and those of `b`.
fn or(a: Table, b: Table) -> Table
    requires { a.vars ≡ b.vars }
    ensures rows { result ≡ or_rows a b }
    ensures vars { result.vars ≡ a.vars }
{
    a.not().and(b.not()).not()
}

/// The cube with a literal of `variable` added, plain where `value` is set.
fn with_literal(cube: Cube, variable: u8, value: bool) -> Cube
    requires few { variable < 10 }
    requires care { cube.care + 2 ^ variable < 2 ^ 16 }
    requires value { cube.value + 2 ^ variable < 2 ^ 16 }
    ensures { result ≡ record { care = cube.care + 2 ^ variable; value = cube.value + bit_of value * 2 ^ variable } }
{
    let bit = 1 << variable;
    Cube {
        care: cube.care + bit,
        value: if value { cube.value + bit } else { cube.value },
    }
}
