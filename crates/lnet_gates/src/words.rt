//! Words of 64 rows, each the table of a function of six variables: bit `i` of a row's number is the value of variable `i`.

ghost use Rattle.std.specs.Prelude.{◌≡◌, ℕ, ◌<◌, ◌↔◌, true, false};
ghost use Rattle.lnet_tables.specs.Bits.{is_set, with_bit};
ghost use Rattle.lnet_gates.specs.Gates.{flip};

use lnet_tables::{cofactor_word, low_rows};

/// The table with one variable read from the variable `source`, complemented where `complement` is true. The two may be one.
pub(crate) fn tied(table: u64, variable: usize, source: usize, complement: bool) -> u64
    requires inside { variable < 6 }
    requires source { source < 6 }
    ensures { (r : ℕ) → r < 64 → is_set result r ≡ is_set table (with_bit r variable (flip complement (is_set r source))) }
{
    let low = cofactor_word(table, variable, complement);
    let high = cofactor_word(table, variable, !complement);
    let rows = low_rows(source);
    (low & rows) | (high & !rows)
}

/// Whether the table changes with the variable at one of the rows of `among`.
pub(crate) fn changes(table: u64, variable: usize, among: u64) -> bool
    requires { variable < 6 }
    ensures { (result ≡ false) ↔ ((r : ℕ) → r < 64 → is_set among r ≡ true → is_set table (with_bit r variable false) ≡ is_set table (with_bit r variable true)) }
{
    (cofactor_word(table, variable, false) ^ cofactor_word(table, variable, true)) & among != 0
}
