//! Tables made word by word, and the work within one word of 64 rows.

ghost use Rattle.std.specs.Prelude.{◌≡◌, ℕ, ◌+◌, ◌*◌, ◌^◌, ◌<◌, ◌≤◌, ◌-◌, ◌/◌, ◌%◌, length, slice_index, false};
ghost use Rattle.lnet_tables.specs.Bits.{is_set, with_bit, by_rows, row as row_of};
ghost use Rattle.lnet_tables.specs.Words.{word_bit};

use crate::masks::low_rows;
use crate::rows::with_bit as row_with_bit;
use crate::table::Table;

/// The rows of `word` with bit `index` of their number set to `value`: row `r` is the row of `word` whose number is
/// `r` so changed.
pub fn cofactor_word(word: u64, index: usize, value: bool) -> u64
    requires { index < 6 }
    ensures { (r : ℕ) → r < 64 → is_set result r ≡ is_set word (with_bit r index value) }
{
    let distance = 1u32 << index;
    let moved = if value { word >> distance } else { word };
    let half = moved & low_rows(index);
    half | (half << distance)
}

/// How many words hold the rows of a table of `vars` variables: 1 for up to 6, and `2^(vars - 6)` above.
pub(crate) fn word_count(vars: u8) -> usize
    requires { vars ≤ 10 }
    ensures few { result ≤ 16 }
    ensures rows { (r : ℕ) → r < 2 ^ vars → r / 64 < result }
{
    if vars < 6 { 1 } else { 1 << (vars - 6) }
}

/// The words that `word` gives, for those that hold rows of a table of `vars` variables; 0 for the others.
pub(crate) fn by_words<F: Fn(usize) -> u64>(vars: u8, word: F) -> [u64; 16]
    requires few { vars ≤ 10 }
    requires callable { (k : ℕ) → k < 16 → F.pre word k }
    ensures { (r : ℕ) → r < 2 ^ vars → F.post word (r / 64) (slice_index result (r / 64)) }
{
    let mut words = [0; 16];
    for k in 0..word_count(vars) {
        words[k] = word(k);
    }
    words
}

/// The rows of `words` with bit `index` of their number set to `value`, for the rows below `2^vars`: within each word
/// for the variables below 6, and by words for the others.
pub(crate) fn cofactor_words(words: &[u64; 16], vars: u8, index: u8, value: bool) -> [u64; 16]
    requires few { vars ≤ 10 }
    requires inside { index < vars }
    ensures { (r : ℕ) → r < 2 ^ vars → word_bit result r ≡ word_bit words.now (with_bit r index value) }
{
    if index < 6 {
        by_words(vars, |k| cofactor_word(words[k], index as usize, value))
    } else {
        by_words(
            vars,
            |k| words[row_with_bit(k as u16, index - 6, value, 4) as usize],
        )
    }
}

impl Table {
    /// The first 64 rows.
    pub(crate) fn word(&self) -> u64
        ensures { (r : ℕ) → r < 64 → is_set result r ≡ row_of self.now r }
    {
        self.words[0]
    }

    /// The table of `vars` variables, at most 6, whose rows are those of `word`.
    pub(crate) fn from_word(vars: u8, word: u64) -> Table
        requires { vars ≤ 6 }
        ensures { result ≡ by_rows vars (is_set word) }
    {
        let mut words = [0; 16];
        words[0] = word;
        Table::from_words(vars, words)
    }
}

/// The rows of `word` below `2^from`, again and again up to row `2^to`.
pub(crate) fn repeat_word(word: u64, from: u8, to: u8) -> u64
    requires few { to ≤ 6 }
    requires more { from ≤ to }
    ensures { (r : ℕ) → r < 2 ^ to → is_set result r ≡ is_set word (r % 2 ^ from) }
{
    let mut out = word;
    for index in from..to {
        out = cofactor_word(out, index as usize, false);
    }
    out
}

/// The rows of `words` below `2^from`, again and again up to row `2^to`.
pub(crate) fn repeat_words(words: &[u64; 16], from: u8, to: u8) -> [u64; 16]
    requires few { to ≤ 10 }
    requires more { from ≤ to }
    ensures { (r : ℕ) → r < 2 ^ to → word_bit result r ≡ word_bit words.now (r % 2 ^ from) }
{
    let mut out = *words;
    for index in from..to {
        out = cofactor_words(&out, to, index, false);
    }
    out
}
