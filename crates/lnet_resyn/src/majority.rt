//! Majority resynthesis.

ghost use Rattle.std.specs.Prelude.{◌≡◌, ◌≤◌, ◌<◌, ◌+◌, ◌*◌, ◌-◌, ◌^◌, ◌%◌, ◌/◌, ◌++◌, ℕ, Bool, length, map, MatchOption, IfSome, None, Some, option_map, cond, max, ltb, slice_index_or};
ghost use Rattle.std.specs.List.{range_with_len, flat_map};
ghost use Rattle.lnet_tables.specs.Bits.{Rows, row, is_set, bit_of, bit_xor2, by_rows};
ghost use Rattle.lnet_tables.specs.Recipes.{RecipeValue, apply, place, next_place, sim};
ghost use Rattle.lnet_tables.specs.declared.step.StepOp.TheVariants.{Maj};
ghost use Rattle.lnet_tables.specs.Shannon.{Laid};
ghost use Rattle.lnet_resyn.specs.Majority.{word_rows, words_rows, agreements as agreements_of, first_pool, column, candidate_rows, score, IsInside, IsScored, by_complements, by_third, by_second, candidates, best_of, best_candidate as best_of_all, first_candidate, reach as reach_of, pool_reach, lit_at as literal_at, step_of as candidate_step, turns as turns_of, HasTurned, literal_rows, literal_among, literal_of as literal_of_rows, majority_of};
ghost use Rattle.lnet_resyn.specs.declared.proposal.Proposal.TheVariants.{Use};

use crate::plain::shannon_proposal;
use crate::proposal::Proposal;
use arrayvec::ArrayVec;
use lnet_tables::{Lit, Recipe, Step, StepOp, Table, first_rows};

/// A majority of three columns of the pool, each plain or complemented.
#[derive(Clone, Copy)]
struct Candidate {
    /// The place of the first column.
    first: u8,
    /// The place of the second column, above the first.
    second: u8,
    /// The place of the third column, above the second.
    third: u8,
    /// Bits 0, 1 and 2 complement the first, the second and the third column.
    complements: u8,
}

/// A candidate, and in how many rows it agrees with the target.
#[derive(Clone, Copy)]
struct Scored {
    candidate: Candidate,
    agreements: u32,
}

/// In how many rows a function of `vars` variables agrees with the target.
fn agreements(vars: u8, target: u64, word: u64) -> u32
    requires few { vars ≤ 4 }
    ensures value { result ≡ agreements_of (word_rows vars target) (word_rows vars word) }
    ensures few { result ≤ 2 ^ vars }
{
    (!(target ^ word) & first_rows(vars as usize)).count_ones()
}

/// How many rows a function of up to four variables has.
fn row_count(vars: u8) -> u32
    requires { vars ≤ 4 }
    ensures { result ≡ 2 ^ vars }
{
    match vars {
        0 => 1,
        1 => 2,
        2 => 4,
        3 => 8,
        _ => 16,
    }
}

/// The column at a place, complemented where the flag is set.
fn operand(pool: &[u64], place: u8, complement: bool) -> u64
    requires { place < length pool.now }
    ensures { (n r : ℕ) → n ≤ 4 → r < 2 ^ n → is_set result r ≡ bit_xor2 complement (row (word_rows n (slice_index_or pool.now place 0)) r) }
{
    let word = pool[place as usize];
    if complement { !word } else { word }
}

/// The majority of three functions.
fn majority(a: u64, b: u64, c: u64) -> u64
    ensures { (r : ℕ) → is_set result r ≡ apply Maj (is_set a r) (is_set b r) (is_set c r) }
{
    (a & b) ^ (c & (a ^ b))
}

/// The function of a candidate.
fn candidate_word(pool: &[u64], x: Candidate) -> u64
    requires { IsInside (length pool.now) x }
    ensures { (n : ℕ) → n ≤ 4 → word_rows n result ≡ candidate_rows n (words_rows n pool.now) x }
{
    let a = operand(pool, x.first, has_bit(x.complements, 0));
    let b = operand(pool, x.second, has_bit(x.complements, 1));
    let c = operand(pool, x.third, has_bit(x.complements, 2));
    majority(a, b, c)
}

/// Whether bit `i` of a number is set.
fn has_bit(number: u8, i: u8) -> bool
    requires { i < 8 }
    ensures { result ≡ is_set number i }
{
    (number >> i) & 1 == 1
}

/// The better of a scored candidate and one that is looked at after it: the later one only where it agrees in more rows.
fn better(vars: u8, target: u64, pool: &[u64], best: Scored, x: Candidate) -> Scored
    requires few { vars ≤ 4 }
    requires inside { IsInside (length pool.now) x }
    requires best_inside { IsInside (length pool.now) best.candidate }
    requires best { IsScored (word_rows vars target) (words_rows vars pool.now) best }
    ensures candidate { result.candidate ≡ cond (ltb (score (word_rows vars target) (words_rows vars pool.now) best.candidate) (score (word_rows vars target) (words_rows vars pool.now) x)) x best.candidate }
    ensures inside { IsInside (length pool.now) result.candidate }
    ensures scored { IsScored (word_rows vars target) (words_rows vars pool.now) result }
{
    let agreements = agreements(vars, target, candidate_word(pool, x));
    if best.agreements < agreements {
        Scored {
            candidate: x,
            agreements,
        }
    } else {
        best
    }
}

/// The best of a scored candidate and those of three columns.
fn best_by_complements(
    vars: u8,
    target: u64,
    pool: &[u64],
    best: Scored,
    first: u8,
    second: u8,
    third: u8,
) -> Scored
    requires few { vars ≤ 4 }
    requires first { first < length pool.now }
    requires second { second < length pool.now }
    requires third { third < length pool.now }
    requires best_inside { IsInside (length pool.now) best.candidate }
    requires best { IsScored (word_rows vars target) (words_rows vars pool.now) best }
    ensures candidate { result.candidate ≡ best_of (score (word_rows vars target) (words_rows vars pool.now)) best.candidate (by_complements first second third) }
    ensures inside { IsInside (length pool.now) result.candidate }
    ensures scored { IsScored (word_rows vars target) (words_rows vars pool.now) result }
{
    let mut best = best;
    for complements in 0..8u8 {
        best = better(
            vars,
            target,
            pool,
            best,
            Candidate {
                first,
                second,
                third,
                complements,
            },
        );
    }
    best
}

/// The best of a scored candidate and those of two columns and each later one.
fn best_by_third(vars: u8, target: u64, pool: &[u64], best: Scored, first: u8, second: u8) -> Scored
    requires few { vars ≤ 4 }
    requires small { length pool.now ≤ 13 }
    requires first { first < length pool.now }
    requires second { second < length pool.now }
    requires best_inside { IsInside (length pool.now) best.candidate }
    requires best { IsScored (word_rows vars target) (words_rows vars pool.now) best }
    ensures candidate { result.candidate ≡ best_of (score (word_rows vars target) (words_rows vars pool.now)) best.candidate (by_third (length pool.now) first second) }
    ensures inside { IsInside (length pool.now) result.candidate }
    ensures scored { IsScored (word_rows vars target) (words_rows vars pool.now) result }
{
    let mut best = best;
    for third in second + 1..pool.len() as u8 {
        best = best_by_complements(vars, target, pool, best, first, second, third);
    }
    best
}

/// The best of a scored candidate and those of one column and each two later ones.
fn best_by_second(vars: u8, target: u64, pool: &[u64], best: Scored, first: u8) -> Scored
    requires few { vars ≤ 4 }
    requires small { length pool.now ≤ 13 }
    requires first { first < length pool.now }
    requires best_inside { IsInside (length pool.now) best.candidate }
    requires best { IsScored (word_rows vars target) (words_rows vars pool.now) best }
    ensures candidate { result.candidate ≡ best_of (score (word_rows vars target) (words_rows vars pool.now)) best.candidate (by_second (length pool.now) first) }
    ensures inside { IsInside (length pool.now) result.candidate }
    ensures scored { IsScored (word_rows vars target) (words_rows vars pool.now) result }
{
    let mut best = best;
    for second in first + 1..pool.len() as u8 {
        best = best_by_third(vars, target, pool, best, first, second);
    }
    best
}

/// The candidate that agrees with the target in most rows, the first of those that do.
fn best_candidate(vars: u8, target: u64, pool: &[u64]) -> Scored
    requires few { vars ≤ 4 }
    requires small { length pool.now ≤ 13 }
    requires three { 3 ≤ length pool.now }
    ensures candidate { result.candidate ≡ best_of_all (word_rows vars target) (words_rows vars pool.now) }
    ensures inside { IsInside (length pool.now) result.candidate }
    ensures scored { IsScored (word_rows vars target) (words_rows vars pool.now) result }
{
    let candidate = Candidate {
        first: 0,
        second: 1,
        third: 2,
        complements: 0,
    };
    let mut best = Scored {
        candidate,
        agreements: agreements(vars, target, candidate_word(pool, candidate)),
    };
    for first in 0..pool.len() as u8 {
        best = best_by_second(vars, target, pool, best, first);
    }
    best
}

/// In how many rows a column, plain or complemented, agrees with the target, whichever is more.
fn reach(vars: u8, target: u64, word: u64) -> u32
    requires few { vars ≤ 4 }
    ensures { result ≡ reach_of (word_rows vars target) (word_rows vars word) }
{
    agreements(vars, target, word).max(agreements(vars, target, !word))
}

/// The greatest reach of the columns.
#[tactic(auto, unfolding(crate::specs::Majority::pool_reach))]
fn greatest_reach(vars: u8, target: u64, pool: &[u64]) -> u32
    requires few { vars ≤ 4 }
    ensures { result ≡ pool_reach (word_rows vars target) (words_rows vars pool.now) }
{
    match pool {
        [] => 0,
        [first, rest @ ..] => reach(vars, target, *first).max(greatest_reach(vars, target, rest)),
    }
}

/// The literal of the column at a place of the pool.
fn lit_at(place: u8, complement: bool) -> Lit
    ensures { result ≡ literal_at place complement }
{
    Lit(2 * place as u16 + u16::from(complement))
}

/// The step of a candidate.
fn step_of(x: Candidate) -> Step
    ensures { result ≡ candidate_step x }
{
    Step {
        op: StepOp::Maj,
        a: lit_at(x.first, has_bit(x.complements, 0)),
        b: lit_at(x.second, has_bit(x.complements, 1)),
        c: lit_at(x.third, has_bit(x.complements, 2)),
    }
}

/// Up to `left` turns: the literal of the target, or none where they don't end.
fn turns(
    left: u8,
    vars: u8,
    target: u64,
    recipe: &mut Recipe,
    pool: &mut ArrayVec<u64, 13>,
) -> Option<Lit>
    requires few { vars ≤ 4 }
    requires three { 3 ≤ length pool.old.items }
    requires room { length pool.old.items + left ≤ 13 }
    requires places { next_place recipe.old ≡ length pool.old.items }
    requires short { length recipe.old.steps + left ≤ 128 }
    ensures { HasTurned recipe.old recipe.new result (turns_of left (word_rows vars target) (words_rows vars pool.old.items)) }
{
    if left == 0 {
        return None;
    }
    let best = best_candidate(vars, target, pool.as_slice());
    if best.agreements <= greatest_reach(vars, target, pool.as_slice()) {
        return None;
    }
    let Ok(lit) = recipe.push(step_of(best.candidate)) else {
        // not: reached, since a recipe has room for 128 steps
        return None;
    };
    if best.agreements == row_count(vars) {
        return Some(lit);
    }
    pool.push(candidate_word(pool.as_slice(), best.candidate));
    turns(left - 1, vars, target, recipe, pool)
}

/// The word of a function of up to four variables: bit `r` is row `r`.
fn word_of(table: &Table) -> u64
    requires { table.now.vars ≤ 4 }
    ensures { word_rows table.now.vars result ≡ table.now }
{
    let _vars = table.vars();
    table.words()[0]
}

/// The columns at the beginning: false, and the variables in order.
fn first_columns(vars: u8) -> ArrayVec<u64, 13>
    requires { vars ≤ 4 }
    ensures value { words_rows vars result.items ≡ first_pool vars }
    ensures count { length result.items ≡ vars + 1 }
{
    let mut pool = ArrayVec::new();
    pool.push(0);
    for i in 0..vars {
        pool.push(word_of(&Table::variable(vars, i)));
    }
    pool
}

/// The column at a place at the beginning.
fn column_table(vars: u8, place: u8) -> Table
    requires few { vars ≤ 4 }
    requires inside { place ≤ vars }
    ensures value { result ≡ column vars (first_pool vars) place }
    ensures vars { result.vars ≡ vars }
{
    if place == 0 {
        Table::constant(vars, false)
    } else {
        Table::variable(vars, place - 1)
    }
}

/// The function of a literal over the columns at the beginning.
fn literal_table(vars: u8, literal: u16) -> Table
    requires few { vars ≤ 4 }
    requires inside { literal < 2 * (vars + 1) }
    ensures { result ≡ literal_rows vars (first_pool vars) literal }
{
    let column = column_table(vars, (literal / 2) as u8);
    if literal % 2 == 1 {
        column.not()
    } else {
        column
    }
}

/// The constant or the literal that a function is; none where it is neither.
fn literal_of(table: &Table) -> Option<Lit>
    requires { table.now.vars ≤ 4 }
    ensures value { result ≡ literal_of_rows table.now }
    ensures inside { IfSome result (λ l. place l < table.now.vars + 1) }
{
    let vars = table.vars();
    for literal in 0..2 * (vars as u16 + 1) {
        if literal_table(vars, literal) == *table {
            return Some(Lit(literal));
        }
    }
    None
}

/// The recipe of majorities for `table`, a table of three or four variables.
///
/// A constant or a literal takes no step. Else a pool of columns is kept, which begins as false and the leaves in order. Up to
/// eight times, the majority of three columns, each plain or complemented, that agrees with the table in most rows becomes a
/// step and a further column; of those that agree in as many rows the first, by the three columns' places and then by their
/// complements as bits. It ends where that majority agrees in all rows. Where it agrees in no more rows than a column, plain or
/// complemented, or eight steps don't end it, the recipe is the Shannon expansion of the table.
///
/// In outline after S. B. Akers, "Synthesis of Combinational Logic Using Three-Input Majority Gates" (1962). Looks at up to
/// 8 times C(p, 3) majorities for each of up to eight pools of p columns, each by a few operations on a word.
pub fn majority_proposal(table: Table) -> Proposal
    requires least { 3 ≤ table.vars }
    requires greatest { table.vars ≤ 4 }
    ensures recipe { result ≡ Use (majority_of table) }
    ensures function { sim (majority_of table) ≡ table }
{
    let vars = table.vars();
    let mut recipe = Recipe::new(vars);
    if let Some(root) = literal_of(&table) {
        recipe.set_root(root);
        return Proposal::Use(recipe);
    }
    let mut pool = first_columns(vars);
    match turns(8, vars, word_of(&table), &mut recipe, &mut pool) {
        Some(root) => {
            recipe.set_root(root);
            Proposal::Use(recipe)
        }
        None => shannon_proposal(table),
    }
}
