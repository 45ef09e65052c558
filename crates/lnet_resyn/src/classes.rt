//! Resynthesis by the classes of functions of four variables.

ghost use Rattle.std.specs.Prelude.{◌≡◌, ◌≢◌, ◌≤◌, ◌<◌, ◌^◌, ◌⊎◌, ℕ, Bool, true, false, length, nat_eq, slice_index_or, IfOk, IfSome, OnOk, IsSome, Some, cond, leb, ◌+◌, ◌==◌};
ghost use Rattle.std.proofs.Props.{props};
ghost use Rattle.lnet_tables.specs.Bits.{Rows, by_rows, is_set};
ghost use Rattle.lnet_tables.specs.Recipes.{sim};
ghost use Rattle.lnet_npn.specs.Transforms.{IsTransform, number_of, transformed, image_of};
ghost use Rattle.indexmap.specs.IndexMap.{get, index_map_len};
ghost use Rattle.lnet_resyn.specs.Procedures.{recipe_in, class_recipe as recipe_of_class, IsLeast, IsByClass};
ghost use Rattle.lnet_resyn.specs.Underway.{Holds, AreOfLess, HoldBelow};
ghost use Rattle.lnet_npn.specs.Marks.{is_marked, IsImage};

use crate::proposal::Proposal;
use indexmap::IndexMap;
use lnet_npn::{canonise, mark_class, table_of, word_of};
use lnet_sop::{FactorError, factor, isop};
use lnet_tables::{Recipe, Table, shannon};
use std::alloc::{AllocError, Global};

/// One recipe for each of the 222 classes of functions of four variables, by the number of the class's least table.
///
/// The recipe is the factored form of the table's irredundant sum of products or its Shannon expansion, whichever has fewer
/// steps, and the factored form where they have as many. The type keeps that each class has it.
#[derive(Drop)]
pub struct NpnCache {
    recipes: IndexMap<u16, Recipe>,
    ghost holds: { (g : Rows) → IsLeast g → Holds (get nat_eq recipes (number_of g)) g } by { Prim.hlevel props },
}

impl NpnCache {
    /// The recipes of all classes. Goes over the 65,536 functions, and makes the 768 functions of each class once.
    pub fn new(alloc: Global) -> Result<NpnCache, AllocError> {
        let mut recipes = IndexMap::new(alloc);
        let mut marks = no_marks(alloc, 65536)?;
        for number in 0..65536u32 {
            add_class(alloc, &mut recipes, &mut marks, number as u16)?;
        }
        Ok(NpnCache { recipes })
    }

    /// How many classes there are: 222. Constant time.
    pub fn len(&self) -> usize
        ensures { result ≡ index_map_len self.now.recipes }
    {
        self.recipes.len()
    }

    /// Whether there is no class: never. Constant time.
    pub fn is_empty(&self) -> bool
        ensures { result ≡ (index_map_len self.now.recipes == 0) }
    {
        self.recipes.is_empty()
    }
}

/// Places for marks, none of them set.
fn no_marks(alloc: Global, count: usize) -> Result<Vec<bool>, AllocError>
    ensures len { IfOk result (λ v. length v.items ≡ count) }
    ensures none { IfOk result (λ v. (m : ℕ) → is_marked v.items m ≡ false) }
{
    let marks = vec![in alloc; false; count]?;
    Ok(marks)
}

/// Adds the recipe of a function's class and marks the class, unless the function is marked.
fn add_class(
    alloc: Global,
    recipes: &mut IndexMap<u16, Recipe>,
    marks: &mut Vec<bool>,
    number: u16,
) -> Result<(), AllocError>
    requires marks { AreOfLess number marks.old.items }
    requires recipes { HoldBelow number (λ n. get nat_eq recipes.old n) }
    requires long { length marks.old.items ≡ 65536 }
    ensures marks { OnOk result (AreOfLess (number + 1) marks.new.items) }
    ensures recipes { OnOk result (HoldBelow (number + 1) (λ n. get nat_eq recipes.new n)) }
    ensures long { length marks.new.items ≡ 65536 }
{
    if is_set(marks, number) {
        return Ok(());
    }
    let recipe = class_recipe(alloc, table_of(number))?;
    recipes.insert(number, recipe)?;
    mark(marks, number);
    Ok(())
}

/// Whether a function is marked.
fn is_set(marks: &Vec<bool>, number: u16) -> bool
    requires { length marks.now.items ≡ 65536 }
    ensures { result ≡ is_marked marks.now.items number }
{
    match marks.get(number as usize) {
        Some(mark) => *mark,
        None => false,
    }
}

/// Marks the class of a function.
fn mark(marks: &mut Vec<bool>, number: u16)
    requires { length marks.old.items ≡ 65536 }
    ensures only { (m : ℕ) → is_marked marks.new.items m ≡ true → (is_marked marks.old.items m ≡ true) ⊎ IsImage number m }
    ensures long { length marks.new.items ≡ 65536 }
{
    mark_class(number, marks.as_mut_slice());
}

/// The recipe of a class, by its least table.
fn class_recipe(alloc: Global, table: Table) -> Result<Recipe, AllocError>
    requires { table.vars ≡ 4 }
    ensures recipe { IfOk result (λ r. r ≡ recipe_of_class table) }
    ensures function { OnOk result (sim (recipe_of_class table) ≡ table) }
{
    let _vars = table.vars();
    let Ok(expansion) = shannon(table) else {
        // not: reached, since a table of four variables has a short expansion
        return Err(AllocError);
    };
    let cover = isop(alloc, table, table)?;
    match factor(alloc, &cover) {
        Ok(form) => Ok(shorter(form, expansion)),
        Err(FactorError::Full) => Ok(expansion),
        Err(FactorError::NoMemory) => Err(AllocError),
    }
}

/// The recipe of fewer steps, the first where both have as many.
fn shorter(first: Recipe, second: Recipe) -> Recipe
    ensures { result ≡ cond (leb (length first.steps) (length second.steps)) first second }
{
    if first.len() <= second.len() {
        first
    } else {
        second
    }
}

/// The recipe of `table`, a table of four variables, by its class: the class's recipe, rewired by the first transform that
/// takes the class's least table to `table`. Two searches over the 768 transforms, a look-up, and a few operations for each
/// step.
pub fn npn_proposal(cache: &NpnCache, table: Table) -> Proposal
    requires { table.vars ≡ 4 }
    ensures used { IsSome (recipe_in result) }
    ensures recipe { IfSome (recipe_in result) (IsByClass table) }
    ensures function { IfSome (recipe_in result) (λ r. sim r ≡ table) }
{
    let _vars = table.vars();
    let (least, back) = canonise(table);
    match cache.recipes.get(&word_of(&least)) {
        Some(recipe) => Proposal::Use(back.on_recipe(recipe)),
        // not: reached, since each class has a recipe
        None => Proposal::None,
    }
}
