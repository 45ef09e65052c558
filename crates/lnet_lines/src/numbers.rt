//! Numbers in texts.

ghost use Rattle.std.specs.Prelude.{◌≡◌, ◌&&◌, ◌<◌, ◌^◌, true, Some, None, length, nat_lt, if◌then◌else◌};
ghost use Rattle.std.specs.Char.{is_ascii_digit};
ghost use Rattle.std.specs.List.{list_all};
ghost use Rattle.std.specs.Str.{all_ascii_digits};
ghost use Rattle.std.specs.Str.Parse.{digits_value};
ghost use Rattle.lnet_lines.specs.Numbers.{number_of, up_to_greatest};

use std::str;

const GREATEST: u32 = 2_147_483_647;

const DIGITS: usize = 10;

/// The number that the text is: 1 to 10 decimal digits with a value up to 2,147,483,647. Leading zeros are accepted; None
/// where it is another text. Constant time beside a look at each byte.
pub fn number(text: &[u8]) -> Option<u32>
    ensures { result ≡ number_of text.now }
{
    if !are_digits(text) {
        return None;
    }
    if text.len() > DIGITS {
        return None;
    }
    up_to_greatest(value(text))
}

fn are_digits(text: &[u8]) -> bool
    ensures { result ≡ list_all is_ascii_digit text.now }
{
    text.iter().all(|b| b.is_ascii_digit())
}

/// The value of digits, None where there is none or where it is past 32 bits.
fn value(digits: &[u8]) -> Option<u32>
    requires { all_ascii_digits digits.now ≡ true }
    ensures { result ≡ (if nat_lt 0 (length digits.now) && nat_lt (digits_value 10 digits.now) (2 ^ 32) then Some (digits_value 10 digits.now) else None) }
{
    match str::from_utf8(digits) {
        Ok(text) => text.parse::<u32>().ok(),
        Err(_) => None,
    }
}

fn up_to_greatest(value: Option<u32>) -> Option<u32>
    ensures { result ≡ up_to_greatest value }
{
    match value {
        Some(value) if value <= GREATEST => Some(value),
        _ => None,
    }
}
