//! A table with one variable set, and the variables that a table depends on.

ghost use Rattle.std.specs.Prelude.{◌≡◌, ◌<◌, ◌^◌, ◌≤◌, ℕ, ◌+◌, ◌*◌, ◌%◌, IsTrue, ◌↔◌, ◌≢◌, false, true};
ghost use Rattle.lnet_tables.specs.Bits.{cofactor_rows, is_set, depends_on as depends, support_of};

use crate::table::Table;
use crate::words::{cofactor_word, cofactor_words};

impl Table {
    /// The function with variable `index` set to `value`. It has as many variables as before, and does not depend on
    /// variable `index`. A few operations for each word that holds rows.
    pub fn cofactor(self, index: u8, value: bool) -> Table
        requires { index < self.vars }
        ensures { result ≡ cofactor_rows self index value }
    {
        Table::from_words(
            self.vars,
            cofactor_words(&self.words, self.vars, index, value),
        )
    }

    /// The variables that the function depends on, as a mask: bit `i` is set exactly where some row differs from the row
    /// with variable `i` turned, that is, where the two cofactors by `i` differ. Two cofactors for each variable.
    pub fn support(self) -> u16
        ensures value { result ≡ support_of self }
        ensures few { result < 2 ^ self.vars }
        ensures each { (i : ℕ) → i < self.vars → (IsTrue (is_set result i) ↔ (cofactor_rows self i false ≢ cofactor_rows self i true)) }
    {
        let mut mask = 0u16;
        for index in 0..self.vars {
            if self.depends_on(index) {
                mask += 1 << index;
            }
        }
        mask
    }

    /// Whether the function depends on variable `index`.
    fn depends_on(&self, index: u8) -> bool
        requires { index < self.now.vars }
        ensures { result ≡ depends self.now index }
    {
        if self.vars <= 6 {
            let word = self.word();
            cofactor_word(word, index as usize, false) != cofactor_word(word, index as usize, true)
        } else {
            self.cofactors_differ(index)
        }
    }

    /// The same, by comparing the two cofactors as tables.
    fn cofactors_differ(&self, index: u8) -> bool
        requires { index < self.now.vars }
        ensures { result ≡ depends self.now index }
    {
        self.cofactor(index, false) != self.cofactor(index, true)
    }
}
