//! Times covers, factored forms, and classes.

ghost use Rattle.std.specs.Prelude.{◌≡◌, ◌≤◌};

use crate::report::report;
use lnet_npn::{canonise, word_of};
use lnet_resyn::{NpnCache, Proposal, npn_proposal};
use lnet_sop::{Cover, FactorError, factor, isop};
use lnet_tables::Table;
use std::alloc::{AllocError, Global};
use std::io;
use std::rt::Clock;
use std::time::Instant;

/// A table of which about half the rows are true, without a pattern.
fn scattered(vars: u8) -> Table
    requires { vars ≤ 10 }
    ensures { result.vars ≡ vars }
{
    let mut words = [0; 16];
    let mut word = 0x9e37_79b9_7f4a_7c15u64;
    for place in &mut words {
        word = word.wrapping_mul(0x5851_f42d_4c95_7f2d).rotate_left(23) ^ 0x1405_7b7e_f767_814f;
        *place = word;
    }
    Table::from_words(vars, words)
}

/// The or of ands of pairs of ten variables.
fn pairs() -> Table
    ensures { result.vars ≡ 10 }
{
    let mut table = Table::constant(10, false);
    for pair in 0..5u8 {
        let both = Table::variable(10, 2 * pair).and(Table::variable(10, 2 * pair + 1));
        table = table.not().and(both.not()).not();
    }
    table
}

/// The cubes of covers of a function and of its complement in turn, all told.
fn covers(alloc: Global, table: Table, calls: u32) -> Result<u64, AllocError> {
    let mut table = table;
    let mut sum = 0u64;
    for call in 0..calls {
        let cover = isop(alloc, table, table)?;
        sum ^= u64::from(cover.len()).rotate_left(call % 64);
        table = table.not();
    }
    Ok(sum)
}

/// The steps of a cover's factored form, time and again.
fn forms(alloc: Global, cover: &Cover, calls: u32) -> Result<u64, AllocError> {
    let mut sum = 0u64;
    for call in 0..calls {
        let steps = match factor(alloc, cover) {
            Ok(recipe) => u64::from(recipe.len()),
            Err(FactorError::Full) => u64::MAX,
            Err(FactorError::NoMemory) => return Err(AllocError),
        };
        sum ^= steps.rotate_left(call % 64);
    }
    Ok(sum)
}

/// The function of four variables of this number.
fn function(number: u32) -> Table
    ensures { result.vars ≡ 4 }
{
    let mut words = [0; 16];
    words[0] = u64::from(number % 0x1_0000);
    Table::from_words(4, words)
}

/// The least tables of functions of four variables.
fn leasts(calls: u32) -> u64 {
    let mut sum = 0u64;
    for call in 0..calls {
        let (least, _) = canonise(function(call));
        sum ^= u64::from(word_of(&least)).rotate_left(call % 64);
    }
    sum
}

/// The steps of recipes of functions of four variables.
fn proposals(cache: &NpnCache, calls: u32) -> u64 {
    let mut sum = 0u64;
    for call in 0..calls {
        if let Proposal::Use(recipe) = npn_proposal(cache, function(call)) {
            sum ^= u64::from(recipe.len()).rotate_left(call % 64);
        }
    }
    sum
}

/// Times each call, and prints a line for it.
pub fn time_all<R: Print + Clock>(rt: &R, alloc: Global, calls: u32) -> io::Result<()> {
    time_covers(rt, alloc, calls / 1000)?;
    time_classes(rt, alloc, calls / 10)
}

fn time_covers<R: Print + Clock>(rt: &R, alloc: Global, calls: u32) -> io::Result<()> {
    println!(rt; "covers of 10 variables")?;
    let table = scattered(10);
    let start = Instant::now(rt)?;
    let sum = covers(alloc, table, calls)?;
    report(
        rt,
        "  isop, without a pattern",
        calls,
        start.elapsed(rt)?,
        sum,
    )?;
    let cover = isop(alloc, table, table)?;
    let start = Instant::now(rt)?;
    let sum = forms(alloc, &cover, calls)?;
    report(
        rt,
        "  factor, without a pattern",
        calls,
        start.elapsed(rt)?,
        sum,
    )?;
    let table = pairs();
    let cover = isop(alloc, table, table)?;
    let start = Instant::now(rt)?;
    let sum = forms(alloc, &cover, calls)?;
    report(
        rt,
        "  factor, or of five ands",
        calls,
        start.elapsed(rt)?,
        sum,
    )
}

fn time_classes<R: Print + Clock>(rt: &R, alloc: Global, calls: u32) -> io::Result<()> {
    println!(rt; "functions of 4 variables")?;
    let start = Instant::now(rt)?;
    let sum = leasts(calls);
    report(rt, "  canonise", calls, start.elapsed(rt)?, sum)?;
    let start = Instant::now(rt)?;
    let cache = NpnCache::new(alloc)?;
    report(rt, "  recipes of all classes", 1, start.elapsed(rt)?, 0)?;
    let start = Instant::now(rt)?;
    let sum = proposals(&cache, calls);
    report(rt, "  recipe by class", calls, start.elapsed(rt)?, sum)
}
