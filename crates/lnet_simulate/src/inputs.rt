//! The words of the inputs in a block of 64 assignments, of which each is a number: input `i` is bit `i`.

ghost use Rattle.std.specs.Prelude.{◌≡◌, ℕ, ◌+◌, ◌*◌, ◌^◌, ◌<◌, ◌≤◌, ◌-◌, length, slice_index, nat_lt};
ghost use Rattle.lnet_tables.specs.Bits.{is_set};

use lnet_tables::{first_rows, high_rows};

/// The lanes of one block that are assignments of so many inputs: all 64 from 6 inputs on.
pub(crate) fn used_lanes(inputs: u32) -> u64
    ensures { (j : ℕ) → j < 64 → is_set result j ≡ nat_lt j (2 ^ inputs) }
{
    first_rows(inputs.min(6) as usize)
}

/// How many blocks of 64 hold the assignments of so many inputs.
pub(crate) fn block_count(inputs: u32) -> u32
    requires { inputs ≤ 16 }
    ensures few { result ≤ 1024 }
    ensures within { (b j : ℕ) → b < result → j < 64 → j < 2 ^ inputs → 64 * b + j < 2 ^ inputs }
    ensures all { 2 ^ inputs ≤ 64 * result }
{
    if inputs < 6 { 1 } else { 1 << (inputs - 6) }
}

/// The word of input `i` in a block: lane `j` is bit `i` of `64 * block + j`.
fn input_word(i: usize, block: u32) -> u64
    requires few { i < 16 }
    ensures { (j : ℕ) → j < 64 → is_set result j ≡ is_set (64 * block + j) i }
{
    if i < 6 {
        high_rows(i)
    } else if (block >> (i - 6)) & 1 == 1 {
        u64::MAX
    } else {
        0
    }
}

/// The words of the inputs in a block.
pub(crate) fn set_block(inputs: &mut [u64], block: u32)
    requires few { length inputs.old ≤ 16 }
    ensures lanes { (i j : ℕ) → i < length inputs.old → j < 64 → is_set (slice_index inputs.new i) j ≡ is_set (64 * block + j) i }
    ensures length { length inputs.new ≡ length inputs.old }
{
    for (i, word) in inputs.iter_mut().enumerate() {
        *word = input_word(i, block);
    }
}
