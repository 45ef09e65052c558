//! Tabling: the normal form of a gate in a network of look-up tables, by the table of its function.

ghost use Rattle.std.specs.Prelude.{◌≡◌, ◌≤◌, ◌<◌, ◌^◌, ℕ, Bool, false, length};
ghost use Rattle.lnet_tables.specs.Bits.{is_set};
ghost use Rattle.lnet_gates.specs.Gates.{flip};
ghost use Rattle.lnet_gates.specs.NormalLaws.{form_reading};
ghost use Rattle.lnet_gates.specs.LutForms as luts;
ghost use Rattle.lnet_gates.specs.LutForms.{IsLutGate, IsLutForm};
ghost use Rattle.lnet_gates.specs.Wiring.{computes, IsReduced, AreOrdered, named};

use crate::gate::{Gate, Op};
use crate::normal::{Key, Normal};
use crate::signal::Signal;
use crate::wiring::{Wired, merged, needed, ordered, plain, wired_gate};
use arrayvec::ArrayVec;
use lnet_tables::first_rows;

/// The normal form of a gate in a network of look-up tables: an And or a Xor of two fanins, a Maj of three, or a table of up
/// to six. The operands are the nodes that the gate's value changes with, plain and ascending; equal and constant fanins,
/// and those without influence, go. Of no node the form is a constant, of one node that node or its complement. Of more
/// nodes it is the key of their table; where row 0 of the table is true, the table is complemented, and the phase is true.
/// The gate's phase is carried to the result. Constant time: the fanins are compared in pairs, and each costs a few operations
/// on one word.
pub fn normal_lut(gate: &Gate) -> Normal
    requires { IsLutGate gate.now }
    ensures { result ≡ luts.normal_lut gate.now }
{
    let wired = merged(plain(wired_gate(gate)));
    form_of(ordered(needed(wired)), gate.phase)
}

/// The form of a reduced table in order, complemented where `phase` is true.
fn form_of(wired: Wired, phase: bool) -> Normal
    requires reduced { IsReduced wired }
    requires ordered { AreOrdered wired.operands }
    ensures proper { IsLutForm result }
    ensures value { (V : ℕ → Bool) → V 0 ≡ false → form_reading V result ≡ flip phase (computes V wired) }
{
    let first = wired.table & 1 == 1;
    let fanins = named(&wired.operands);
    if fanins.is_empty() {
        Normal::Is(Signal::constant(phase != first))
    } else if fanins.len() == 1 {
        Normal::Is(fanins.as_slice()[0].flipped(phase != first))
    } else {
        let op = Op::Lut(key_table(wired.table, first, fanins.len()));
        Normal::Gate(Key { op, fanins }, phase != first)
    }
}

/// The signals of other nodes than node 0.
fn named(operands: &[Signal; 6]) -> ArrayVec<Signal, 6>
    ensures { result.items ≡ named operands.now }
{
    let mut signals = ArrayVec::new();
    for operand in operands {
        if operand.node.0 != 0 {
            signals.push(*operand);
        }
    }
    signals
}

/// The table at the rows of its first `count` variables, the others false; complemented where `complement` is true.
fn key_table(table: u64, complement: bool, count: usize) -> u64
    requires { count ≤ 6 }
    ensures rows { (r : ℕ) → r < 2 ^ count → is_set result r ≡ flip complement (is_set table r) }
    ensures clear { result < 2 ^ 2 ^ count }
{
    let rows = if complement { !table } else { table };
    rows & first_rows(count)
}
