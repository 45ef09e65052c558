//! Which names stand in texts as they are.

ghost use Rattle.std.specs.Prelude.{◌≡◌};
ghost use Rattle.std.specs.Char.{is_ascii_digit};
ghost use Rattle.std.specs.List.{list_all};
ghost use Rattle.lnet_naming.specs.Settling.{is_text_byte, is_letter, is_made, is_constant, is_plain};

/// Whether a name in a text may have the byte.
fn is_text_byte(byte: u8) -> bool
    ensures { result ≡ is_text_byte byte }
{
    byte >= 33
        && byte <= 126
        && !matches!(byte, b'(' | b')' | b',' | b'=' | b'#' | b'\\' | b';' | b'"')
}

/// Whether each byte is one that a name in a text may have.
fn are_text_bytes(bytes: &[u8]) -> bool
    ensures { result ≡ list_all is_text_byte bytes.now }
{
    bytes.iter().all(|byte| is_text_byte(*byte))
}

/// Whether each byte is a decimal digit.
fn are_digits(bytes: &[u8]) -> bool
    ensures { result ≡ list_all is_ascii_digit bytes.now }
{
    bytes.iter().all(|byte| byte.is_ascii_digit())
}

/// Whether names are made with the letter.
fn is_letter(byte: u8) -> bool
    ensures { result ≡ is_letter byte }
{
    byte == b'i' || byte == b'o' || byte == b'n' || byte == b'c'
}

/// Whether the name could be a made one: `_`, a letter and digits.
fn is_made(name: &[u8]) -> bool
    ensures { result ≡ is_made name.now }
{
    name.len() > 2 && name[0] == b'_' && is_letter(name[1]) && are_digits(&name[2..])
}

/// Whether the name is that of a constant, in any letter case.
fn is_constant(name: &[u8]) -> bool
    ensures { result ≡ is_constant name.now }
{
    name.eq_ignore_ascii_case(b"gnd") || name.eq_ignore_ascii_case(b"vdd")
}

/// Whether the name stands in texts as it is, unless it stands there already.
pub(crate) fn is_plain(name: &[u8]) -> bool
    ensures { result ≡ is_plain name.now }
{
    are_text_bytes(name) && name.first() != Some(&b'.') && !is_constant(name) && !is_made(name)
}
