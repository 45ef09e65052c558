//! Binary gates: differences of literals in groups of seven bits.

ghost use Rattle.std.specs.Prelude.{◌≡◌, ◌<◌, ◌≤◌, ◌+◌, ◌^◌, length, MatchResult, IfOk, Ok, Err};
ghost use Rattle.lnet_edge.specs.CircuitLists.{equation_view};
ghost use Rattle.lnet_aiger.specs.Chain.{GivesAt};
ghost use Rattle.lnet_aiger.specs.Deltas.{groups_at, delta_at, gate_at, difference_at};

use crate::body::{Gate, equation};
use crate::fault::malformed;
use lnet_edge::{Equation, Fault, ReadError};
use lnet_lines::Lines;
use std::alloc::Global;

/// The most groups of a difference.
const GROUPS: u32 = 5;
/// The greatest difference.
const GREATEST: u64 = 2_147_483_647;

/// The number at the front in at most five groups, and what is behind it.
fn groups(bytes: &[u8]) -> Result<(u64, &[u8]), Fault>
    ensures number { MatchResult result (λ x. groups_at 5 bytes.now ≡ Ok (x.0, x.1.now)) (λ f. groups_at 5 bytes.now ≡ Err f) }
    ensures shorter { IfOk result (λ x. length x.1.now < length bytes.now) }
{
    let mut value = 0;
    let mut scale = 1;
    let mut rest = bytes;
    for group in 0..GROUPS {
        let Some((byte, after)) = rest.split_first() else {
            return Err(Fault::Missing);
        };
        if *byte < 128 {
            return Ok((value + u64::from(*byte) * scale, after));
        }
        value += u64::from(*byte - 128) * scale;
        scale *= 128;
        rest = after;
    }
    if rest.is_empty() {
        Err(Fault::Missing)
    } else {
        Err(Fault::Delta)
    }
}

/// The difference at the front, in this range, and what is behind it.
#[tactic(auto, unfolding(crate::specs::Deltas::delta_at))]
fn delta(least: u32, most: u32, bytes: &[u8]) -> Result<(u32, &[u8]), Fault>
    ensures delta { MatchResult result (λ x. delta_at least most bytes.now ≡ Ok (x.0, x.1.now)) (λ f. delta_at least most bytes.now ≡ Err f) }
    ensures bound { IfOk result (λ x. x.0 ≤ most) }
    ensures shorter { IfOk result (λ x. length x.1.now < length bytes.now) }
{
    let (value, rest) = groups(bytes)?;
    if value <= GREATEST && u64::from(least) <= value && value <= u64::from(most) {
        Ok((value as u32, rest))
    } else {
        Err(Fault::Delta)
    }
}

/// The gate of a literal, and what is behind it.
#[tactic(auto, unfolding(crate::specs::Deltas::gate_at))]
fn gate_behind(target: u32, bytes: &[u8]) -> Result<(Gate, &[u8]), Fault>
    ensures gate { MatchResult result (λ x. gate_at target bytes.now ≡ Ok (x.0, x.1.now)) (λ f. gate_at target bytes.now ≡ Err f) }
    ensures shorter { IfOk result (λ x. length x.1.now < length bytes.now) }
{
    let (first, rest) = delta(1, target, bytes)?;
    let first = target - first;
    let (second, rest) = delta(0, first, rest)?;
    let second = first - second;
    let gate = Gate {
        target,
        first,
        second,
    };
    Ok((gate, rest))
}

/// Reads the gate of a literal, which counts as a line.
#[tactic(auto, unfolding(crate::specs::Deltas::difference_at))]
pub fn read_difference(
    alloc: Global,
    target: u32,
    lines: &mut Lines<'_>,
) -> Result<Equation, ReadError>
    ensures { GivesAt equation_view result lines.new (difference_at target lines.old) }
{
    let number = lines.number();
    match gate_behind(target, lines.rest()) {
        Ok((gate, rest)) => {
            let equation = equation(alloc, gate)?;
            *lines = Lines::new(rest, number + 1);
            Ok(equation)
        }
        Err(kind) => Err(malformed(number, kind)),
    }
}
