//! A table of four variables as a number, and back.

ghost use Rattle.std.specs.Prelude.{◌≡◌};
ghost use Rattle.lnet_tables.specs.Bits.{by_rows, is_set};
ghost use Rattle.lnet_npn.specs.Transforms.{number_of};

use lnet_tables::Table;

/// The rows of a table of up to four variables as a number: row `r` is bit `r`. Of a table of more variables the first
/// sixteen rows. Constant time.
pub fn word_of(table: &Table) -> u16
    ensures value { result ≡ number_of table.now }
    ensures table { table.now.vars ≡ 4 → table.now ≡ by_rows 4 (is_set result) }
{
    (table.words()[0] % 0x10000) as u16
}

/// The table of four variables whose row `r` is bit `r` of `word`. Constant time.
pub fn table_of(word: u16) -> Table
    ensures { result ≡ by_rows 4 (is_set word) }
{
    let mut words = [0; 16];
    words[0] = word as u64;
    Table::from_words(4, words)
}
