//! Factored forms of covers.

ghost use Rattle.std.specs.Prelude.{◌≡◌, ◌≤◌, ◌<◌, ◌+◌, ◌-◌, ◌*◌, ◌/◌, ℕ, length, All, false, IfOk, IsOk};
ghost use Rattle.std.specs.List.{list_any};
ghost use Rattle.lnet_tables.specs.Bits.{is_set as set_in, with_bit};
ghost use Rattle.lnet_tables.specs.Recipes.{sim, place, next_place};
ghost use Rattle.lnet_tables.specs.Shannon.{Lays, and_at, or_at};
ghost use Rattle.lnet_sop.specs.Covers.{IsCube, cover_rows};
ghost use Rattle.lnet_sop.specs.Irredundant.{without as cube_without};
ghost use Rattle.lnet_sop.specs.Factored.{Forms, factored_of, form_of, is_universe, most_common as most_common_of, uses as uses_of, stands_in as stands, quotient as quotient_of, remainder as remainder_of, product_at, sum_at, multiple_at, literal_at, cube_at, literal_of as cube_literal, conjunction as conjunction_of, disjunction as disjunction_of};

use crate::cover::{Cover, Cube};
use lnet_tables::{Lit, Recipe, RecipeFull, Step, StepOp};
use std::alloc::{AllocError, Global};

/// Why a cover was not factored.
#[derive(Clone, Copy, Debug, PartialEq, Eq)]
pub enum FactorError {
    /// The factored form has more than 128 steps.
    Full,
    /// Memory ran out.
    NoMemory,
}

impl From<RecipeFull> for FactorError {
    ghost use Rattle.std.specs.Prelude.{◌≡◌};
    ghost use Rattle.lnet_sop.specs.declared.factoring.FactorError.TheVariants.{Full};

    ghost from_gives = { λ _ e. e ≡ Full };

    fn from(error: RecipeFull) -> FactorError {
        let RecipeFull = error;
        FactorError::Full
    }
}

impl From<AllocError> for FactorError {
    ghost use Rattle.std.specs.Prelude.{◌≡◌};
    ghost use Rattle.lnet_sop.specs.declared.factoring.FactorError.TheVariants.{NoMemory};

    ghost from_gives = { λ _ e. e ≡ NoMemory };

    fn from(_: AllocError) -> FactorError {
        FactorError::NoMemory
    }
}

/// The factored form of a cover, as a recipe with one leaf for each variable.
///
/// No cube gives false, and a cube without literals gives true. Else the literal that stands in most cubes is taken, ties
/// by the lower variable, then the plain one before the complemented one.
///
/// - Where it stands in one cube at most, each cube is the `and` of its literals in order of their variables, and the
///   cubes are folded by `or` in order, the steps of each after the `or` of those before it.
/// - Else the cubes in which it stands are factored without it, which gives `q`, and the product is the literal where `q`
///   is true and `and(literal, q)` else. The other cubes, where there are some, are factored into `r`, and the result is
///   `or(product, r)`. The steps of `q` come first, then the product's, then those of `r`.
///
/// `or(a, b)` is the complement of one `And` step over the complements of `a` and `b`.
///
/// After R. K. Brayton, "Factoring Logic Functions", IBM Journal of Research and Development 31 (1987), with literals as
/// the only divisors. Each division counts the literals of its cubes once for each of up to 20 literals, and at most 20
/// are nested, since none of two nested ones takes the same literal.
///
/// # Errors
///
/// `Full` exactly where the form has more than 128 steps, unless memory runs out first: then `NoMemory`.
pub fn factor(alloc: Global, cover: &Cover) -> Result<Recipe, FactorError>
    ensures form { IfOk result (λ r. r ≡ factored_of cover.now) }
    ensures function { IfOk result (λ r. sim r ≡ cover_rows cover.now) }
    // The recipe's limit, and the only cause of this error.
    ensures fits { IsOk result → length (factored_of cover.now).steps ≤ 128 }
    ensures full { result ≡ Err FactorError.Full → 128 < length (factored_of cover.now).steps }
{
    let mut recipe = Recipe::new(cover.vars);
    let root = lay(alloc, &mut recipe, &cover.cubes)?;
    recipe.set_root(root);
    Ok(recipe)
}

/// Pushes the steps of the form of some cubes, and answers its literal.
fn lay(alloc: Global, recipe: &mut Recipe, cubes: &[Cube]) -> Result<Lit, FactorError>
    requires few { recipe.old.leaves ≤ 10 }
    requires short { length recipe.old.steps ≤ 128 }
    requires each { All (IsCube recipe.old.leaves) cubes.now }
    ensures { Forms recipe.old recipe.new result (form_of recipe.old.leaves (next_place recipe.old) cubes.now) }
{
    if has_universe(cubes) {
        return Ok(Lit(1));
    }
    let literal = most_common(cubes, recipe.leaves());
    if uses(cubes, literal) <= 1 {
        let lit = disjunction(recipe, cubes)?;
        return Ok(lit);
    }
    let divided = quotient(alloc, cubes, literal)?;
    let quotient = lay(alloc, recipe, &divided)?;
    let product = multiple(recipe, literal, quotient)?;
    let left = remainder(alloc, cubes, literal)?;
    if left.is_empty() {
        return Ok(product);
    }
    let rest = lay(alloc, recipe, &left)?;
    let lit = or(recipe, product, rest)?;
    Ok(lit)
}

/// Whether some cube has no literal.
fn has_universe(cubes: &[Cube]) -> bool
    ensures { result ≡ list_any is_universe cubes.now }
{
    cubes.iter().any(|cube| cube.care == 0)
}

/// The first of the literals that stand in most cubes, where the cubes are of `vars` variables.
fn most_common(cubes: &[Cube], vars: u8) -> Lit
    requires { vars ≤ 10 }
    ensures value { result ≡ most_common_of (2 * vars) cubes.now }
    ensures leaf { 2 ≤ result.0 }
    ensures last { result.0 < 22 }
{
    let mut best = Lit(2);
    let mut most = uses(cubes, best);
    for k in 0..2 * vars as u16 {
        let literal = Lit(k + 2);
        let count = uses(cubes, literal);
        if most < count {
            best = literal;
            most = count;
        }
    }
    best
}

/// In how many cubes a literal of a leaf stands.
fn uses(cubes: &[Cube], literal: Lit) -> usize
    requires leaf { 2 ≤ literal.0 }
    requires last { literal.0 < 22 }
    ensures { result ≡ uses_of cubes.now literal }
{
    let mut count = 0;
    for cube in cubes {
        if stands_in(literal, cube) {
            count += 1;
        }
    }
    count
}

/// Whether a literal of a leaf stands in a cube.
fn stands_in(literal: Lit, cube: &Cube) -> bool
    requires leaf { 2 ≤ literal.0 }
    requires last { literal.0 < 22 }
    ensures { result ≡ stands literal cube.now }
{
    let variable = literal.0 / 2 - 1;
    is_set(cube.care, variable) && is_set(cube.value, variable) == (literal.0 % 2 == 0)
}

/// Whether bit `index` is set.
fn is_set(bits: u16, index: u16) -> bool
    requires { index < 16 }
    ensures { result ≡ set_in bits index }
{
    (bits >> index) & 1 == 1
}

/// The cubes in which a literal of a leaf stands, without it.
fn quotient(alloc: Global, cubes: &[Cube], literal: Lit) -> Result<Vec<Cube>, AllocError>
    requires leaf { 2 ≤ literal.0 }
    requires last { literal.0 < 22 }
    ensures { IfOk result (λ v. v.items ≡ quotient_of literal cubes.now) }
{
    let mut quotient = Vec::new(alloc);
    for cube in cubes {
        if stands_in(literal, cube) {
            quotient.push(without(literal.0 / 2 - 1, cube))?;
        }
    }
    Ok(quotient)
}

/// The cubes in which a literal of a leaf does not stand.
fn remainder(alloc: Global, cubes: &[Cube], literal: Lit) -> Result<Vec<Cube>, AllocError>
    requires leaf { 2 ≤ literal.0 }
    requires last { literal.0 < 22 }
    ensures { IfOk result (λ v. v.items ≡ remainder_of literal cubes.now) }
{
    let mut remainder = Vec::new(alloc);
    for cube in cubes {
        if !stands_in(literal, cube) {
            remainder.push(*cube)?;
        }
    }
    Ok(remainder)
}

/// A cube without its literal of a variable.
fn without(variable: u16, cube: &Cube) -> Cube
    requires { variable < 10 }
    ensures { result ≡ cube_without variable cube.now }
{
    Cube {
        care: cleared(cube.care, variable),
        value: cleared(cube.value, variable),
    }
}

/// The number with bit `index` cleared.
fn cleared(bits: u16, index: u16) -> u16
    requires { index < 10 }
    ensures { result ≡ with_bit bits index false }
{
    bits - (((bits >> index) & 1) << index)
}

/// Pushes the steps of the or of some cubes, in order.
fn disjunction(recipe: &mut Recipe, cubes: &[Cube]) -> Result<Lit, RecipeFull>
    requires few { recipe.old.leaves ≤ 10 }
    requires short { length recipe.old.steps ≤ 128 }
    ensures { Lays recipe.old recipe.new result (disjunction_of (length cubes.now) recipe.old.leaves (next_place recipe.old) cubes.now) }
{
    let mut lit = Lit(0);
    for cube in cubes {
        lit = with_cube(recipe, lit, cube)?;
    }
    Ok(lit)
}

/// Pushes the steps of a cube, and of its or with `a`, which may be false.
fn with_cube(recipe: &mut Recipe, a: Lit, cube: &Cube) -> Result<Lit, RecipeFull>
    requires few { recipe.old.leaves ≤ 10 }
    requires short { length recipe.old.steps ≤ 128 }
    requires inside { place a < next_place recipe.old }
    ensures { Lays recipe.old recipe.new result (cube_at recipe.old.leaves (next_place recipe.old) a cube.now) }
{
    let term = conjunction(recipe, cube)?;
    let lit = sum(recipe, a, term)?;
    Ok(lit)
}

/// Pushes the steps of the and of a cube's literals, in the order of their variables.
fn conjunction(recipe: &mut Recipe, cube: &Cube) -> Result<Lit, RecipeFull>
    requires few { recipe.old.leaves ≤ 10 }
    requires short { length recipe.old.steps ≤ 128 }
    ensures { Lays recipe.old recipe.new result (conjunction_of recipe.old.leaves (next_place recipe.old) cube.now) }
{
    let mut lit = Lit(1);
    for variable in 0..recipe.leaves() {
        lit = with_literal(recipe, lit, cube, variable)?;
    }
    Ok(lit)
}

/// Pushes the and of `a`, which may be true, and the cube's literal of a variable, where it has one.
fn with_literal(recipe: &mut Recipe, a: Lit, cube: &Cube, variable: u8) -> Result<Lit, RecipeFull>
    requires short { length recipe.old.steps ≤ 128 }
    requires inside { place a < next_place recipe.old }
    requires leaf { variable < recipe.old.leaves }
    requires few { variable < 10 }
    ensures { Lays recipe.old recipe.new result (literal_at (next_place recipe.old) a cube.now variable) }
{
    if !is_set(cube.care, variable as u16) {
        return Ok(a);
    }
    let lit = product(recipe, a, literal_of(cube, variable))?;
    Ok(lit)
}

/// The cube's literal of a variable that it cares about.
fn literal_of(cube: &Cube, variable: u8) -> Lit
    requires { variable < 10 }
    ensures value { result ≡ cube_literal cube.now variable }
    ensures place { place result ≡ variable + 1 }
{
    let plain = 2 * (variable as u16 + 1);
    if is_set(cube.value, variable as u16) {
        Lit(plain)
    } else {
        Lit(plain + 1)
    }
}

/// The and of `a`, which may be true, and `b`.
fn product(recipe: &mut Recipe, a: Lit, b: Lit) -> Result<Lit, RecipeFull>
    requires short { length recipe.old.steps ≤ 128 }
    requires a { place a < next_place recipe.old }
    requires b { place b < next_place recipe.old }
    ensures { Lays recipe.old recipe.new result (product_at (next_place recipe.old) a b) }
{
    if a.0 == 1 {
        return Ok(b);
    }
    let lit = and(recipe, a, b)?;
    Ok(lit)
}

/// The or of `a`, which may be false, and `b`.
fn sum(recipe: &mut Recipe, a: Lit, b: Lit) -> Result<Lit, RecipeFull>
    requires short { length recipe.old.steps ≤ 128 }
    requires a { place a < next_place recipe.old }
    requires b { place b < next_place recipe.old }
    ensures { Lays recipe.old recipe.new result (sum_at (next_place recipe.old) a b) }
{
    if a.0 == 0 {
        return Ok(b);
    }
    let lit = or(recipe, a, b)?;
    Ok(lit)
}

/// The and of a literal and a quotient, which may be true.
fn multiple(recipe: &mut Recipe, literal: Lit, quotient: Lit) -> Result<Lit, RecipeFull>
    requires short { length recipe.old.steps ≤ 128 }
    requires literal { place literal < next_place recipe.old }
    requires quotient { place quotient < next_place recipe.old }
    ensures { Lays recipe.old recipe.new result (multiple_at (next_place recipe.old) literal quotient) }
{
    if quotient.0 == 1 {
        return Ok(literal);
    }
    let lit = and(recipe, literal, quotient)?;
    Ok(lit)
}

/// Pushes the and of two literals.
fn and(recipe: &mut Recipe, a: Lit, b: Lit) -> Result<Lit, RecipeFull>
    requires a { place a < next_place recipe.old }
    requires b { place b < next_place recipe.old }
    ensures { Lays recipe.old recipe.new result (and_at (next_place recipe.old) a b) }
{
    let lit = recipe.push(Step {
        op: StepOp::And,
        a,
        b,
        c: Lit(0),
    })?;
    Ok(lit)
}

/// Pushes the or of two literals: the complement of the and of their complements.
fn or(recipe: &mut Recipe, a: Lit, b: Lit) -> Result<Lit, RecipeFull>
    requires a { place a < next_place recipe.old }
    requires b { place b < next_place recipe.old }
    ensures { Lays recipe.old recipe.new result (or_at (next_place recipe.old) a b) }
{
    let lit = and(recipe, a.complement(), b.complement())?;
    Ok(lit.complement())
}
