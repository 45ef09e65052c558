//! A cursor over the lines of a text.

ghost use Rattle.std.specs.Prelude.{◌≡◌, ◌+◌, ◌<◌, ◌≤◌, ◌^◌, ◌∷◌, [], length, MatchOption, IfSome};
ghost use Rattle.std.specs.List.{position_or_len};
ghost use Rattle.lnet_lines.specs.Lines.{is_newline, lines_of, first_line, after_line, without_return};

use std::marker::Model;

/// A cursor over the lines of a text.
///
/// A text is cut at newlines. A last piece without newline is a line where it isn't empty. A carriage return right before
/// a newline is dropped. A contract sees the bytes that are left and the number of the line that is due.
#[derive(Drop)]
pub struct Lines<'a> {
    rest: &'a [u8],
    number: u32,
}

impl<'a> Model for Lines<'a> {
    ghost use Rattle.std.specs.Prelude.{◌+◌, ◌<◌, ◌^◌, length};
    ghost use Rattle.lnet_lines.specs.Lines.{Place};

    ghost Value = { Place };

    ghost view = { λ l. record { rest = l.rest.now; number = l.number } };

    ghost invariant = { λ l. l.number + length l.rest.now < 2 ^ 32 };
}

impl<'a> Lines<'a> {
    /// The lines of these bytes, the first of which has this number. The first line of a text has number 1.
    pub fn new(bytes: &'a [u8], number: u32) -> Lines<'a>
        requires { number + length bytes.now < 2 ^ 32 }
        ensures { result ≡ record { rest = bytes.now; number = number } }
    {
        Lines {
            rest: bytes,
            number,
        }
    }

    /// The bytes that are left.
    pub fn rest(&self) -> &'a [u8]
        ensures value { result.now ≡ self.now.rest }
        // What the type keeps.
        ensures few { self.now.number + length self.now.rest < 2 ^ 32 }
    {
        self.rest
    }

    /// The number of the line that is due.
    pub fn number(&self) -> u32
        ensures { result ≡ self.now.number }
    {
        self.number
    }

    /// The next line, without its newline; None where no byte is left. Linear time in the line.
    pub fn next_line(&mut self) -> Option<&'a [u8]>
        // None comes exactly where no byte is left, and nothing changes then.
        ensures end { MatchOption result ((self.old.rest ≡ []) × (self.new ≡ self.old)) (λ line. self.old.rest ≡ [] → ⊥) }
        // It is the first line of those that are left, which are then the others.
        ensures line { MatchOption result (lines_of self.old.rest ≡ []) (λ line. lines_of self.old.rest ≡ line.now ∷ lines_of self.new.rest) }
        ensures first { IfSome result (λ line. line.now ≡ first_line self.old.rest) }
        ensures after { IfSome result (λ line. self.new ≡ record { rest = after_line self.old.rest; number = self.old.number + 1 }) }
    {
        if self.rest.is_empty() {
            return None;
        }
        let (line, rest) = cut(self.rest);
        self.rest = rest;
        self.number += 1;
        Some(line)
    }
}

/// How many bytes stand before the first newline, or in all.
fn piece_len(bytes: &[u8]) -> usize
    ensures place { result ≡ position_or_len is_newline bytes.now }
    ensures within { result ≤ length bytes.now }
{
    for (i, byte) in bytes.iter().enumerate() {
        if *byte == b'\n' {
            return i;
        }
    }
    bytes.len()
}

/// The piece without the carriage return at its end, if it has one.
fn without_return(piece: &[u8]) -> &[u8]
    ensures { result.now ≡ without_return piece.now }
{
    match piece.last() {
        Some(b'\r') => &piece[..piece.len() - 1],
        _ => piece,
    }
}

/// The first line of bytes, and what is behind it.
fn cut(bytes: &[u8]) -> (&[u8], &[u8])
    ensures line { result.0.now ≡ first_line bytes.now }
    ensures rest { result.1.now ≡ after_line bytes.now }
{
    let len = piece_len(bytes);
    if len < bytes.len() {
        (without_return(&bytes[..len]), &bytes[len + 1..])
    } else {
        (bytes, &bytes[len..])
    }
}
