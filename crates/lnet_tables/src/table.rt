//! A boolean function as the table of its values.

ghost use Rattle.std.specs.Prelude.{◌≡◌, ℕ, ◌+◌, ◌-◌, ◌*◌, ◌/◌, ◌%◌, ◌^◌, ◌<◌, ◌≤◌, length, IsTrue, ◌↔◌, false};
ghost use Rattle.std.proofs.Common.{rules};
ghost use Rattle.std.specs.Cmp.Rules.{comparing};
ghost use Rattle.lnet_tables.specs.Bits.{by_rows, variable_rows, row as row_of, constant_rows, equal_rows};
ghost use Rattle.lnet_tables.specs.Words.{word_bit, words_of};

use crate::masks::{ones, variable_words};
use std::marker::Model;
use std::simd::prelude::*;

/// A boolean function of up to ten variables, as the list of its values: one row for each assignment to the
/// variables.
///
/// Row `r` is the value where variable `i` has bit `i` of `r`, so that the rows of the variables themselves are
/// `10`, `1100`, `11110000`, .. read from the greatest row. Two tables are equal exactly where they have the same
/// number of variables and the same rows: a function with an unused variable added is another table.
///
/// Row `r` is stored as bit `r % 64` of word `r / 64`. The bits from `2^vars` on are 0.
#[derive(Clone, Copy, Debug)]
pub struct Table {
    pub(crate) vars: u8,
    pub(crate) words: [u64; 16],
}

impl Model for Table {
    ghost use Rattle.lnet_tables.specs.Bits.{Rows, by_rows};
    ghost use Rattle.lnet_tables.specs.Words.{word_bit, Fit, words_of};
    ghost use Rattle.lnet_tables.specs.Inverse.{same_words};
    ghost use Rattle.std.specs.Prelude.{refl};

    ghost Value = { Rows };

    ghost view = { λ t. by_rows t.vars (word_bit t.words) };

    ghost invariant = { λ t. Fit t.vars t.words };

    ghost inverse = { λ v. record { vars = v.vars; words = words_of v } };

    ghost inverse_ok = { λ a h. Prim.rw same_words refl };
}

impl Table {
    /// The table of `vars` variables, at most 10, whose rows are all `value`. Constant time.
    pub fn constant(vars: u8, value: bool) -> Table
        requires { vars ≤ 10 }
        ensures { result ≡ constant_rows vars value }
    {
        let words = if value { [u64::MAX; 16] } else { [0; 16] };
        Table::from_words(vars, words)
    }

    /// Variable `index` as a function of `vars` variables, at most 10. Constant time.
    pub fn variable(vars: u8, index: u8) -> Table
        requires few { vars ≤ 10 }
        requires inside { index < vars }
        ensures { result ≡ variable_rows vars index }
    {
        Table::from_words(vars, variable_words(index))
    }

    /// The table of `vars` variables, at most 10, whose row `r` is bit `r % 64` of `words[r / 64]`. What `words` has
    /// from row `2^vars` on is ignored. Constant time.
    pub fn from_words(vars: u8, words: [u64; 16]) -> Table
        requires { vars ≤ 10 }
        ensures { result ≡ by_rows vars (word_bit words) }
    {
        Table {
            vars,
            words: (u64x16::from_array(words) & u64x16::from_array(ones(vars))).to_array(),
        }
    }

    /// The number of variables, at most 10.
    pub fn vars(&self) -> u8
        ensures value { result ≡ self.now.vars }
        ensures few { result ≤ 10 }
        ensures long { length self.now.bits ≡ 2 ^ self.now.vars }
    {
        self.vars
    }

    /// The rows as words: row `r` is bit `r % 64` of word `r / 64`, and every bit from `2^vars` on is 0.
    /// `from_words` makes the table again of them.
    pub fn words(&self) -> [u64; 16]
        ensures value { result ≡ words_of self.now }
        ensures rows { (r : ℕ) → word_bit result r ≡ row_of self.now r }
        ensures table { self.now ≡ by_rows self.now.vars (word_bit result) }
    {
        self.words
    }

    /// The value at row `row`, below `2^vars`. Constant time.
    pub fn get(&self, row: u16) -> bool
        requires { row < 2 ^ self.now.vars }
        ensures { result ≡ row_of self.now row }
    {
        (self.words[(row / 64) as usize] >> (row % 64)) & 1 == 1
    }
}

impl PartialEq for Table {
    ghost use Rattle.lnet_tables.specs.Bits.{equal_rows};

    ghost eq = { equal_rows };

    ghost laws = { Prim.search (comparing, rules) };

    /// Whether the two tables have one number of variables and one list of rows. Constant time.
    fn eq(&self, other: &Table) -> bool
        ensures value { result ≡ equal_rows self.now other.now }
        ensures same { IsTrue result ↔ (self.now ≡ other.now) }
    {
        self.vars == other.vars && self.words == other.words
    }
}

impl Eq for Table {
    ghost laws = { Prim.search (comparing, rules) };
}

impl Default for Table {
    /// The constant false of no variables.
    fn default() -> Table
        ensures { result ≡ constant_rows 0 false }
    {
        Table::constant(0, false)
    }
}
