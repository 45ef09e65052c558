//! Times the normal forms of gates in a network of look-up tables.

ghost use Rattle.std.specs.Prelude.{◌≡◌, ◌≤◌, length};
ghost use Rattle.lnet_gates.specs.LutForms.{IsLutGate};

use crate::report::report;
use arrayvec::ArrayVec;
use lnet_gates::{Gate, Node, Normal, Op, Signal, normal_lut};
use std::io;
use std::rt::Clock;
use std::time::Instant;

const SEED: u64 = 0x9e37_79b9_7f4a_7c15;

/// So many signals, six at most, with descending nodes, every other one complemented.
fn descending(count: u32) -> ArrayVec<Signal, 6>
    requires { count ≤ 6 }
    ensures { length result.items ≡ count }
{
    let mut fanins = ArrayVec::new();
    for place in 0..count {
        fanins.push(Signal {
            node: Node(9 - place),
            complement: place % 2 == 1,
        });
    }
    fanins
}

/// A word that tells forms apart.
fn digest(form: &Normal) -> u64 {
    match form {
        Normal::Is(signal) => signal.code(),
        Normal::Gate(key, phase) => match key.op {
            Op::Lut(table) => table ^ u64::from(*phase),
            _ => 0,
        },
    }
}

/// Forms of tables of so many fanins, each table made of the form before it.
fn table_forms(count: u32, calls: u32) -> u64
    requires { count ≤ 6 }
{
    let mut gate = Gate {
        op: Op::Lut(SEED),
        phase: false,
        fanins: descending(count),
    };
    let mut sum = 0u64;
    for call in 0..calls {
        sum = (sum ^ digest(&normal_lut(&gate))).rotate_left(call % 64);
        gate.op = Op::Lut(sum ^ SEED);
    }
    sum
}

/// Forms of an And of two fanins, with each phase in turn.
fn and_forms(calls: u32) -> u64 {
    let mut gate = Gate {
        op: Op::And,
        phase: false,
        fanins: descending(2),
    };
    let mut sum = 0u64;
    for call in 0..calls {
        sum = (sum ^ digest(&normal_lut(&gate))).rotate_left(call % 64);
        gate.phase = sum % 2 == 1;
    }
    sum
}

/// Times each normal form, and prints a line for it.
pub fn time_all<R: Print + Clock>(rt: &R, calls: u32) -> io::Result<()> {
    println!(rt; "gates of look-up tables")?;
    let start = Instant::now(rt)?;
    let sum = and_forms(calls);
    report(
        rt,
        "  normal form, And of 2 fanins",
        calls,
        start.elapsed(rt)?,
        sum,
    )?;
    let start = Instant::now(rt)?;
    let sum = table_forms(3, calls);
    report(
        rt,
        "  normal form, table of 3 fanins",
        calls,
        start.elapsed(rt)?,
        sum,
    )?;
    let start = Instant::now(rt)?;
    let sum = table_forms(6, calls);
    report(
        rt,
        "  normal form, table of 6 fanins",
        calls,
        start.elapsed(rt)?,
        sum,
    )
}
