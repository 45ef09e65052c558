//! Tables over other variables: permuted, added, and dropped.

ghost use Rattle.std.specs.Prelude.{◌≡◌, ◌<◌, ◌^◌, ◌≤◌, ℕ, slice_index, ◌%◌, ◌*◌, IfSome};
ghost use Rattle.lnet_tables.specs.Bits.{by_rows, permute_rows, expand_rows, support_of, is_set, row as row_of, moved};
ghost use Rattle.lnet_tables.specs.Kept.{places, padded, rank, shrink_rows, spread};

use crate::rows::{by_test, count_places, permuted_row, set_places, spread_row};
use crate::swaps::{permute_word, shrink_word};
use crate::table::Table;
use crate::words::{repeat_word, repeat_words};

impl Table {
    /// The function `g(x) = f(y)` with `y_i = x_order[i]`: what was variable `i` is read where `order[i]` stands.
    ///
    /// The first `vars` entries of `order` are below `vars`, mostly a permutation; an entry that stands twice makes one
    /// variable of two. The entries from `vars` on are not read. Up to six variables a permutation takes at most one
    /// exchange within a word for each variable; otherwise each row is looked up, `2^vars` times `vars` steps.
    pub fn permute(self, order: [u8; 10]) -> Table
        requires inside { (i : ℕ) → i < self.vars → slice_index order i < self.vars }
        ensures { result ≡ permute_rows self order }
    {
        match self.permuted_word(order) {
            Some(word) => Table::from_word(self.vars, word),
            None => self.permute_by_rows(order),
        }
    }

    /// The word of the permuted table, where up to six variables are permuted.
    fn permuted_word(&self, order: [u8; 10]) -> Option<u64>
        requires inside { (i : ℕ) → i < self.now.vars → slice_index order i < self.now.vars }
        ensures few { IfSome result (λ word. self.now.vars ≤ 6) }
        ensures rows { IfSome result (λ word. (r : ℕ) → r < 2 ^ self.now.vars → is_set word r ≡ row_of self.now (moved r order self.now.vars)) }
    {
        if self.vars <= 6 {
            permute_word(self.word(), order, self.vars)
        } else {
            None
        }
    }

    /// The permuted table, row by row.
    fn permute_by_rows(self, order: [u8; 10]) -> Table
        requires inside { (i : ℕ) → i < self.vars → slice_index order i < self.vars }
        ensures { result ≡ permute_rows self order }
    {
        by_test(
            self.vars,
            |row| self.get(permuted_row(row, &order, self.vars)),
        )
    }

    /// The same function with unused variables added above, so that it has `vars` variables: not fewer than before, and
    /// at most 10. A few operations on each word for each added variable.
    pub fn expand(self, vars: u8) -> Table
        requires few { vars ≤ 10 }
        requires more { self.vars ≤ vars }
        ensures { result ≡ expand_rows self vars }
    {
        if vars <= 6 {
            Table::from_word(vars, repeat_word(self.word(), self.vars, vars))
        } else {
            Table::from_words(vars, repeat_words(&self.words, self.vars, vars))
        }
    }

    /// The function of the variables in its support alone, and which these are: variable `j` of the answer is variable
    /// `names[j]` of this table, ascending. The names past the answer's variables are 0.
    ///
    /// The support's cost, and up to six variables one exchange within a word for each variable; above, a look-up of
    /// `vars` steps for each row of the answer.
    pub fn shrink(self) -> (Table, [u8; 10])
        ensures table { result.0 ≡ shrink_rows self }
        ensures names { result.1 ≡ padded (places (support_of self) self.vars) }
        ensures same { (r : ℕ) → r < 2 ^ self.vars → row_of self r ≡ row_of result.0 (moved r result.1 result.0.vars) }
    {
        let support = self.support();
        (self.kept_table(support), set_places(support, self.vars))
    }

    /// The function where the variables outside `support` are false, as a function of those in it.
    fn kept_table(self, support: u16) -> Table
        ensures { result ≡ by_rows (rank support self.vars) (λ r. row_of self (spread r support self.vars)) }
    {
        let kept = count_places(support, self.vars);
        if self.vars <= 6 {
            Table::from_word(kept, shrink_word(self.word(), support, self.vars))
        } else {
            by_test(kept, |row| self.get(spread_row(row, support, self.vars)))
        }
    }
}
