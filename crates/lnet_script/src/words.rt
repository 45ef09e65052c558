//! Words, and what a word stands for.

ghost use Rattle.std.specs.Prelude.{◌≡◌, ◌<◌, ◌≤◌, ◌∷◌, [], Bool, true, false, length, position, MatchOption};
ghost use Rattle.std.specs.List.{list_all};
ghost use Rattle.std.specs.Option.{option_copied};
ghost use Rattle.std.specs.Char.{is_ascii_digit};
ghost use Rattle.std.specs.Str.{all_ascii_digits};
ghost use Rattle.std.specs.Str.Parse.{digits_value};
ghost use Rattle.lnet_script.specs.Given.{Gives};
ghost use Rattle.lnet_words.specs.Cutting.{parts, parts_behind, left};
ghost use Rattle.lnet_script.specs.Pieces.{is_blank, is_word_byte, is_word, words_of};
ghost use Rattle.lnet_script.specs.Keywords.{is_numeral, long_number_of, number_of, signal_of, count_of, name_of};

use crate::refusal::Refusal;
use lnet_edge::Name;
use lnet_gates::{Node, Signal};
use std::alloc::Global;
use std::str;

/// Whether the byte stands between words: a space, a tab or a carriage return.
fn is_blank(byte: u8) -> bool
    ensures { result ≡ is_blank byte }
{
    byte == b' ' || byte == b'\t' || byte == b'\r'
}

/// The place of the first blank.
fn place_of_blank(bytes: &[u8]) -> Option<usize>
    ensures { result ≡ position is_blank bytes.now }
{
    bytes.iter().position(|byte| is_blank(*byte))
}

/// The part before the first blank, and what stands behind that blank.
fn cut_at_blank(bytes: &[u8]) -> (&[u8], Option<&[u8]>)
    ensures parts { parts is_blank bytes.now ≡ result.0.now ∷ parts_behind is_blank (option_copied result.1) }
    ensures shorter { left (option_copied result.1) ≤ length bytes.now }
{
    match place_of_blank(bytes) {
        Some(place) => (&bytes[..place], Some(&bytes[place + 1..])),
        None => (bytes, None),
    }
}

/// The first word, and what stands behind it.
pub(crate) fn next_word(bytes: &[u8]) -> Option<(&[u8], &[u8])>
    ensures { MatchOption result (words_of bytes.now ≡ []) (λ x. words_of bytes.now ≡ x.0.now ∷ words_of x.1.now) }
{
    let mut rest = Some(bytes);
    while let Some(text) = rest {
        let (part, behind) = cut_at_blank(text);
        if !part.is_empty() {
            return Some((part, behind.unwrap_or(&[])));
        }
        rest = behind;
    }
    None
}

/// The value of digits that have no leading zero, below 2 ^ 64.
fn numeral(digits: &[u8]) -> Option<u64>
    requires { all_ascii_digits digits.now ≡ true }
    ensures { MatchOption result (is_numeral digits.now ≡ false) (λ n. (is_numeral digits.now ≡ true) × (n ≡ digits_value 10 digits.now)) }
{
    if digits.len() > 1 && digits[0] == b'0' {
        return None;
    }
    match str::from_utf8(digits) {
        Ok(text) => text.parse::<u64>().ok(),
        Err(_) => None,
    }
}

/// Whether there are only digits.
fn are_digits(word: &[u8]) -> bool
    ensures { result ≡ list_all is_ascii_digit word.now }
{
    word.iter().all(|byte| byte.is_ascii_digit())
}

/// The number of a word: decimal digits without a leading zero, below 2 ^ 64.
#[tactic(auto, unfolding(crate::specs::Keywords::long_number_of))]
pub(crate) fn long_number(word: &[u8]) -> Result<u64, Refusal>
    ensures { Gives (λ n. n) result (long_number_of word.now) }
{
    if !are_digits(word) {
        return Err(Refusal::NoCommand);
    }
    match numeral(word) {
        Some(number) => Ok(number),
        None => Err(Refusal::NoCommand),
    }
}

/// The number of a word, up to 4,294,967,295.
#[tactic(auto, unfolding(crate::specs::Keywords::number_of))]
pub(crate) fn number(word: &[u8]) -> Result<u32, Refusal>
    ensures { Gives (λ n. n) result (number_of word.now) }
{
    match u32::try_from(long_number(word)?) {
        Ok(number) => Ok(number),
        Err(_) => Err(Refusal::NoCommand),
    }
}

/// The signal of a word: a number, or `!` and a number.
#[tactic(auto, unfolding(crate::specs::Keywords::signal_of))]
pub(crate) fn signal(word: &[u8]) -> Result<Signal, Refusal>
    ensures { Gives (λ s. s) result (signal_of word.now) }
{
    match word {
        [b'!', digits @ ..] => Ok(Signal {
            node: Node(number(digits)?),
            complement: true,
        }),
        _ => Ok(Signal {
            node: Node(number(word)?),
            complement: false,
        }),
    }
}

/// The number of a word, between these two.
#[tactic(auto, unfolding(crate::specs::Keywords::count_of))]
pub(crate) fn count(word: &[u8], least: u32, most: u32) -> Result<u32, Refusal>
    ensures { Gives (λ n. n) result (count_of least most word.now) }
{
    let number = number(word)?;
    if number < least || number > most {
        return Err(Refusal::NoCommand);
    }
    Ok(number)
}

/// Whether a word may have the byte: from 33 to 126, and neither `;` nor `#`.
fn is_word_byte(byte: u8) -> bool
    ensures { result ≡ is_word_byte byte }
{
    byte >= 33 && byte <= 126 && byte != b';' && byte != b'#'
}

/// Whether each byte is one that a word may have.
fn are_word_bytes(bytes: &[u8]) -> bool
    ensures { result ≡ list_all is_word_byte bytes.now }
{
    bytes.iter().all(|byte| is_word_byte(*byte))
}

/// Whether these are 1 to 255 bytes that a word may have.
fn is_word(bytes: &[u8]) -> bool
    ensures { result ≡ is_word bytes.now }
{
    !bytes.is_empty() && bytes.len() <= 255 && are_word_bytes(bytes)
}

/// The word as a name.
#[tactic(auto, unfolding(crate::specs::Keywords::name_of))]
pub(crate) fn name(alloc: Global, word: &[u8]) -> Result<Name, Refusal>
    ensures { Gives (λ n. n) result (name_of word.now) }
{
    if !is_word(word) {
        return Err(Refusal::NoCommand);
    }
    match str::from_utf8(word) {
        Ok(text) => Ok(Name::new(String::from_str(alloc, text)?)),
        Err(_) => Err(Refusal::NoCommand),
    }
}
