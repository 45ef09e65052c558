//! The operations of logic on whole tables.

ghost use Rattle.std.specs.Prelude.{◌≡◌};
ghost use Rattle.lnet_tables.specs.Bits.{not_rows, and_rows, xor_rows};

use crate::table::Table;
use std::simd::prelude::*;

impl Table {
    /// The complement: each row is turned. Constant time.
    pub fn not(self) -> Table
        ensures { result ≡ not_rows self }
    {
        Table::from_words(self.vars, (!u64x16::from_array(self.words)).to_array())
    }

    /// Both of two functions, row by row. `other` has as many variables. Constant time.
    pub fn and(self, other: Table) -> Table
        requires { self.vars ≡ other.vars }
        ensures { result ≡ and_rows self other }
    {
        Table {
            vars: self.vars,
            words: (u64x16::from_array(self.words) & u64x16::from_array(other.words)).to_array(),
        }
    }

    /// Exactly one of two functions, row by row. `other` has as many variables. Constant time.
    pub fn xor(self, other: Table) -> Table
        requires { self.vars ≡ other.vars }
        ensures { result ≡ xor_rows self other }
    {
        Table {
            vars: self.vars,
            words: (u64x16::from_array(self.words) ^ u64x16::from_array(other.words)).to_array(),
        }
    }
}
