//! Tables of up to six variables as hexadecimal digits.

ghost use Rattle.std.specs.Prelude.{◌≡◌, ◌<◌, ◌≤◌, ◌++◌, ◌/◌, ◌%◌, ◌^◌, false, OnOk, string_bytes};
ghost use Rattle.std.specs.Fmt.{digits};
ghost use Rattle.lnet_tables.specs.Digits.{digit_count as count_of, hex_digits};

use std::alloc::AllocError;

/// One digit: that of the rows from `4 * place` on.
fn put_digit(out: &mut String, table: u64, place: u32) -> Result<(), AllocError>
    requires { place < 16 }
    ensures { OnOk result (string_bytes out.new ≡ string_bytes out.old ++ digits 16 false ((table / 16 ^ place) % 16)) }
{
    let digit = table / 16u64.pow(place) % 16;
    write!(out, "{digit:x}")
}

/// The least `count` digits, the most significant first.
fn put_least_digits(out: &mut String, table: u64, count: u32) -> Result<(), AllocError>
    requires { count ≤ 16 }
    ensures { OnOk result (string_bytes out.new ≡ string_bytes out.old ++ hex_digits count table) }
{
    for done in 0..count {
        put_digit(out, table, count - 1 - done)?;
    }
    Ok(())
}

/// How many digits a table of so many variables has.
fn digit_count(vars: usize) -> u32
    requires { vars ≤ 6 }
    ensures value { result ≡ count_of vars }
    ensures few { result ≤ 16 }
{
    match vars {
        0 | 1 | 2 => 1,
        3 => 2,
        4 => 4,
        5 => 8,
        _ => 16,
    }
}

/// Adds the hexadecimal digits of a table of so many variables to a text: the most significant first, in lower case.
pub fn put_digits(out: &mut String, table: u64, vars: usize) -> Result<(), AllocError>
    requires { vars ≤ 6 }
    ensures { OnOk result (string_bytes out.new ≡ string_bytes out.old ++ hex_digits (count_of vars) table) }
{
    put_least_digits(out, table, digit_count(vars))
}
