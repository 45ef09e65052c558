//! Times the calls of tables and recipes, beside the same on one plain word.

ghost use Rattle.std.specs.Prelude.{◌≡◌, ◌<◌, ◌≤◌};

use crate::report::report;
use lnet_tables::{Lit, Recipe, Step, StepOp, Table};
use std::io;
use std::rt::Clock;
use std::time::Instant;

const SEED: u64 = 0x9e37_79b9_7f4a_7c15;

/// A table whose words differ.
fn sample(vars: u8) -> Table
    requires { vars ≤ 10 }
    ensures { result.vars ≡ vars }
{
    let mut words = [0; 16];
    let mut word = SEED;
    for place in &mut words {
        word = word.rotate_left(11) ^ SEED;
        *place = word;
    }
    Table::from_words(vars, words)
}

/// Twenty steps, each of the two places before it.
fn chain(leaves: u8) -> Recipe
    requires low { 2 ≤ leaves }
    requires high { leaves ≤ 10 }
{
    let mut recipe = Recipe::new(leaves);
    for step in 0..20u8 {
        let op = if step % 2 == 0 {
            StepOp::And
        } else {
            StepOp::Xor
        };
        let place = u16::from(recipe.leaves()) + u16::from(recipe.len());
        let pushed = recipe.push(Step {
            op,
            a: Lit(2 * place + 1),
            b: Lit(2 * place.saturating_sub(1)),
            c: Lit(0),
        });
        if let Ok(root) = pushed {
            recipe.set_root(root);
        }
    }
    recipe
}

/// Cofactors one after the other; what comes out is used, so that no call is left out.
fn cofactors(table: Table, calls: u32) -> u64 {
    let mut table = table;
    let mut sum = 0;
    for call in 0..calls {
        if table.vars() > 0 {
            let index = (call % u32::from(table.vars())) as u8;
            let half = table.cofactor(index, call % 2 == 1);
            sum ^= half.words()[0].rotate_left(call % 64);
            table = half.not();
        }
    }
    sum
}

/// Supports of a table and of its complement in turn.
fn supports(table: Table, calls: u32) -> u64 {
    let mut table = table;
    let mut sum = 0;
    for call in 0..calls {
        sum ^= u64::from(table.support()).rotate_left(call % 64);
        table = table.not();
    }
    sum
}

fn conjunctions(table: Table, other: Table, calls: u32) -> u64
    requires { table.vars ≡ other.vars }
{
    let mut table = table;
    for _ in 0..calls {
        table = table.and(other).not();
    }
    table.words()[0]
}

fn complements(table: Table, calls: u32) -> u64 {
    let mut table = table;
    let mut sum = 0;
    for call in 0..calls {
        sum ^= table.words()[0].rotate_left(call % 64);
        table = table.not();
    }
    sum
}

fn simulations(recipe: &Recipe, calls: u32) -> u64 {
    let mut sum = 0;
    for call in 0..calls {
        sum ^= recipe.simulate().words()[0].rotate_left(call % 64);
    }
    sum
}

/// Cofactors of one word by its first variable, in plain arithmetic, complemented in turn.
fn plain_cofactors(calls: u32) -> u64 {
    let mut word = SEED;
    let mut sum = 0;
    for call in 0..calls {
        let low = word & 0x5555_5555_5555_5555;
        let half = low | low << 1;
        sum ^= half.rotate_left(call % 64);
        word = !(half ^ u64::from(call));
    }
    sum
}

/// Times each call, and prints a line for it.
pub fn time_all<R: Print + Clock>(rt: &R, calls: u32) -> io::Result<()> {
    let start = Instant::now(rt)?;
    let sum = plain_cofactors(calls);
    report(rt, "plain word, cofactor", calls, start.elapsed(rt)?, sum)?;
    time_tables(rt, 4, calls)?;
    time_tables(rt, 6, calls)?;
    time_tables(rt, 10, calls)?;
    time_recipe(rt, 6, calls)?;
    time_recipe(rt, 10, calls)
}

fn time_tables<R: Print + Clock>(rt: &R, vars: u8, calls: u32) -> io::Result<()>
    requires { vars ≤ 10 }
{
    let table = sample(vars);
    println!(rt; "tables of {vars} variables")?;
    let start = Instant::now(rt)?;
    let sum = complements(table, calls);
    report(rt, "  not", calls, start.elapsed(rt)?, sum)?;
    let start = Instant::now(rt)?;
    let sum = conjunctions(table, table, calls);
    report(rt, "  and, not", calls, start.elapsed(rt)?, sum)?;
    let start = Instant::now(rt)?;
    let sum = cofactors(table, calls);
    report(rt, "  cofactor, not", calls, start.elapsed(rt)?, sum)?;
    let start = Instant::now(rt)?;
    let sum = supports(table, calls);
    report(rt, "  support, not", calls, start.elapsed(rt)?, sum)
}

fn time_recipe<R: Print + Clock>(rt: &R, leaves: u8, calls: u32) -> io::Result<()>
    requires low { 2 ≤ leaves }
    requires high { leaves ≤ 10 }
{
    let recipe = chain(leaves);
    let start = Instant::now(rt)?;
    let sum = simulations(&recipe, calls);
    let time = start.elapsed(rt)?;
    println!(rt; "recipe of {} steps over {leaves} leaves", recipe.len())?;
    report(rt, "  simulate", calls, time, sum)
}
