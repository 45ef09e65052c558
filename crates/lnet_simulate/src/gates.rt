//! The words of gates: 64 lanes, each with the values under one assignment.

ghost use Rattle.std.specs.Prelude.{◌≡◌, ℕ, ◌^◌, ◌<◌, ◌≤◌, length, map, All, eqb, ◌&&◌, slice_index};
ghost use Rattle.lnet_tables.specs.Bits.{is_set};
ghost use Rattle.lnet_gates.specs.Gates.{apply, operate, row_of};
ghost use Rattle.lnet_gates.specs.Plans.{Takes};
ghost use Rattle.lnet_simulate.specs.Lanes.{AreInside, lane_of};

use lnet_gates::{Gate, Op, Signal};

/// The word of a signal, by the words of the nodes.
pub(crate) fn signal_word(words: &[u64], s: Signal) -> u64
    requires { s.node.0 < length words.now }
    ensures { (j : ℕ) → j < 64 → is_set result j ≡ lane_of words.now j s }
{
    let word = words[s.node.0 as usize];
    if s.complement { !word } else { word }
}

/// The lanes at which the fanins have the values of a row: fanin `i` has bit `i` of it.
fn row_word(words: &[u64], fanins: &[Signal], row: u64) -> u64
    requires inside { AreInside words.now fanins.now }
    requires row { row < 2 ^ length fanins.now }
    ensures { (j : ℕ) → j < 64 → is_set result j ≡ eqb row (row_of (map (lane_of words.now j) fanins.now)) }
{
    let mut word = u64::MAX;
    let mut rest = row;
    for fanin in fanins {
        let value = signal_word(words, *fanin);
        word &= if rest % 2 == 1 { value } else { !value };
        rest /= 2;
    }
    word
}

/// The word of a table, by its true rows.
fn table_word(words: &[u64], fanins: &[Signal], table: u64) -> u64
    requires inside { AreInside words.now fanins.now }
    requires few { length fanins.now ≤ 6 }
    ensures { (j : ℕ) → j < 64 → is_set result j ≡ is_set table (row_of (map (lane_of words.now j) fanins.now)) }
{
    let mut word = 0;
    for row in 0..1u64 << fanins.len() {
        if (table >> row) & 1 == 1 {
            word |= row_word(words, fanins, row);
        }
    }
    word
}

/// The word of an operation on as many fanins as it takes.
fn operation_word(words: &[u64], op: Op, fanins: &[Signal]) -> u64
    requires inside { AreInside words.now fanins.now }
    requires arity { Takes op (length fanins.now) }
    ensures { (j : ℕ) → j < 64 → is_set result j ≡ operate op (map (lane_of words.now j) fanins.now) }
{
    match op {
        Op::And => signal_word(words, fanins[0]) & signal_word(words, fanins[1]),
        Op::Xor => signal_word(words, fanins[0]) ^ signal_word(words, fanins[1]),
        Op::Maj => {
            let a = signal_word(words, fanins[0]);
            let b = signal_word(words, fanins[1]);
            (a & b) | (signal_word(words, fanins[2]) & (a | b))
        }
        Op::Lut(table) => table_word(words, fanins, table),
    }
}

/// The word of a gate that has as many fanins as its operation takes.
pub(crate) fn gate_word(words: &[u64], gate: &Gate) -> u64
    requires inside { AreInside words.now gate.now.fanins }
    requires arity { Takes gate.now.op (length gate.now.fanins) }
    ensures { (j : ℕ) → j < 64 → is_set result j ≡ apply gate.now.op gate.now.phase (map (lane_of words.now j) gate.now.fanins) }
{
    let word = operation_word(words, gate.op, gate.fanins.as_slice());
    if gate.phase { !word } else { word }
}
