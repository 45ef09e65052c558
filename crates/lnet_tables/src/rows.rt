//! Tables made row by row, and the numbers of rows.

ghost use Rattle.std.specs.Prelude.{◌≡◌, ℕ, ◌+◌, ◌*◌, ◌^◌, ◌<◌, ◌≤◌, length, slice_index, true, ◌≢◌};
ghost use Rattle.lnet_tables.specs.Bits.{row as row_of, with_bit as bit_put, moved};
ghost use Rattle.lnet_tables.specs.Kept.{places, rank, spread, padded};
ghost use Rattle.lnet_tables.specs.Words.{word_bit};

use crate::table::Table;

/// Makes row `row` true, and leaves the others.
fn set_row(words: &mut [u64; 16], row: u16)
    requires { row < 1024 }
    ensures here { word_bit words.new row ≡ true }
    ensures others { (k : ℕ) → k ≢ row → word_bit words.new k ≡ word_bit words.old k }
{
    words[(row / 64) as usize] |= 1 << (row % 64);
}

/// The table of `vars` variables whose row `r` is `test(r)`. Calls `test` once for each row, ascending.
pub(crate) fn by_test<F: Fn(u16) -> bool>(vars: u8, test: F) -> Table
    requires few { vars ≤ 10 }
    requires callable { (r : ℕ) → r < 2 ^ vars → F.pre test r }
    ensures vars { result.vars ≡ vars }
    ensures long { length result.bits ≡ 2 ^ vars }
    ensures rows { (r : ℕ) → r < 2 ^ vars → F.post test r (row_of result r) }
{
    let mut words = [0; 16];
    for row in 0..(1u16 << vars) {
        if test(row) {
            set_row(&mut words, row);
        }
    }
    Table::from_words(vars, words)
}

/// The row whose bit `i` is bit `order[i]` of `row`, for each `i` below `vars`.
pub(crate) fn permuted_row(row: u16, order: &[u8; 10], vars: u8) -> u16
    requires few { vars ≤ 10 }
    requires inside { (i : ℕ) → i < vars → slice_index order.now i < vars }
    ensures value { result ≡ moved row order.now vars }
    ensures inside { result < 2 ^ vars }
{
    let mut out = 0u16;
    for i in 0..vars {
        if (row >> order[i as usize]) & 1 == 1 {
            out += 1 << i;
        }
    }
    out
}

/// `row` with bit `index` set to `value`.
pub(crate) fn with_bit(row: u16, index: u8, value: bool, vars: u8) -> u16
    requires few { vars ≤ 10 }
    requires inside { index < vars }
    requires row { row < 2 ^ vars }
    ensures value { result ≡ bit_put row index value }
    ensures inside { result < 2 ^ vars }
{
    let cleared = row - (((row >> index) & 1) << index);
    if value {
        cleared + (1 << index)
    } else {
        cleared
    }
}

/// The row with the bits of `row`, in order, at the places of the set bits of `support`, and 0 elsewhere.
pub(crate) fn spread_row(row: u16, support: u16, vars: u8) -> u16
    requires { vars ≤ 10 }
    ensures value { result ≡ spread row support vars }
    ensures inside { result < 2 ^ vars }
{
    let mut out = 0u16;
    let mut kept = 0u8;
    for index in 0..vars {
        let bit = (support >> index) & 1;
        out += ((row >> kept) & bit) << index;
        kept += bit as u8;
    }
    out
}

/// The places of the set bits of `support` below `vars`, ascending, with zeros after them.
pub(crate) fn set_places(support: u16, vars: u8) -> [u8; 10]
    requires { vars ≤ 10 }
    ensures { result ≡ padded (places support vars) }
{
    let mut out = [0u8; 10];
    let mut kept = 0u8;
    for index in 0..vars {
        if (support >> index) & 1 == 1 {
            out[kept as usize] = index;
            kept += 1;
        }
    }
    out
}

/// How many bits of `support` below `vars` are set.
pub(crate) fn count_places(support: u16, vars: u8) -> u8
    requires { vars ≤ 10 }
    ensures value { result ≡ rank support vars }
    ensures few { result ≤ vars }
{
    let mut kept = 0u8;
    for index in 0..vars {
        kept += ((support >> index) & 1) as u8;
    }
    kept
}
