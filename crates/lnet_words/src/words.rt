//! Cutting off the first part, and the first word.

ghost use Rattle.std.specs.Prelude.{◌≡◌, ◌+◌, ◌<◌, ◌≤◌, ◌∷◌, [], length, position, MatchOption, IfSome};
ghost use Rattle.std.specs.List.{before_first};
ghost use Rattle.std.specs.Option.{option_copied};
ghost use Rattle.lnet_words.specs.Cutting.{is_byte, is_blank, parts, parts_behind, cut_of, left, left_length, words_of, only_of};

/// The place of the first such byte.
fn place_of(bytes: &[u8], separator: u8) -> Option<usize>
    ensures { result ≡ position (is_byte separator) bytes.now }
{
    bytes.iter().position(|byte| *byte == separator)
}

/// The part before the first byte that is the separator, and what stands behind that byte, None where there is no such
/// byte. Linear time in the part.
pub fn cut(bytes: &[u8], separator: u8) -> (&[u8], Option<&[u8]>)
    ensures cut { (result.0.now, option_copied result.1) ≡ cut_of (is_byte separator) bytes.now }
    ensures before { result.0.now ≡ before_first (is_byte separator) bytes.now }
    ensures parts { parts (is_byte separator) bytes.now ≡ result.0.now ∷ parts_behind (is_byte separator) (option_copied result.1) }
    ensures shorter { left (option_copied result.1) ≤ length bytes.now }
    ensures within { length result.0.now + left_length (option_copied result.1) ≤ length bytes.now }
{
    match place_of(bytes, separator) {
        Some(place) => (&bytes[..place], Some(&bytes[place + 1..])),
        None => (bytes, None),
    }
}

/// Whether the byte stands between words: a space or a tab.
fn is_blank(byte: u8) -> bool
    ensures { result ≡ is_blank byte }
{
    byte == b' ' || byte == b'\t'
}

/// The place of the first blank.
fn place_of_blank(bytes: &[u8]) -> Option<usize>
    ensures { result ≡ position is_blank bytes.now }
{
    bytes.iter().position(|byte| is_blank(*byte))
}

/// The part before the first blank, and what stands behind that blank.
fn cut_at_blank(bytes: &[u8]) -> (&[u8], Option<&[u8]>)
    ensures parts { parts is_blank bytes.now ≡ result.0.now ∷ parts_behind is_blank (option_copied result.1) }
    ensures shorter { left (option_copied result.1) ≤ length bytes.now }
    ensures within { length result.0.now ≤ length bytes.now }
    ensures within_rest { left_length (option_copied result.1) ≤ length bytes.now }
{
    match place_of_blank(bytes) {
        Some(place) => (&bytes[..place], Some(&bytes[place + 1..])),
        None => (bytes, None),
    }
}

/// The first word, and what stands behind it; None where there is no word. Words are bytes other than spaces and tabs, one
/// after the other. Linear time in what is passed.
pub fn next_word(bytes: &[u8]) -> Option<(&[u8], &[u8])>
    ensures words { MatchOption result (words_of bytes.now ≡ []) (λ x. words_of bytes.now ≡ x.0.now ∷ words_of x.1.now) }
    ensures shorter { IfSome result (λ x. length x.0.now ≤ length bytes.now) }
{
    let mut rest = Some(bytes);
    while let Some(text) = rest {
        let (part, behind) = cut_at_blank(text);
        if !part.is_empty() {
            return Some((part, behind.unwrap_or(&[])));
        }
        rest = behind;
    }
    None
}

/// The word where there is exactly one, with blanks around it or without.
pub fn only_word(bytes: &[u8]) -> Option<&[u8]>
    ensures value { option_copied result ≡ only_of (words_of bytes.now) }
    ensures shorter { IfSome result (λ word. length word.now ≤ length bytes.now) }
{
    let (word, behind) = next_word(bytes)?;
    match next_word(behind) {
        None => Some(word),
        Some(_) => None,
    }
}
