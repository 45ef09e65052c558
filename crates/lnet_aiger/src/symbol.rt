//! The lines of symbols.

ghost use Rattle.std.specs.Prelude.{◌≡◌, MatchResult, IfOk, IsTrue, Ok, Err};
ghost use Rattle.std.specs.List.{list_all};
ghost use Rattle.lnet_aiger.specs.Symbols.{side_of, is_name, is_printable, begins_comment, symbol_line};
ghost use Rattle.lnet_aiger.specs.Views.{symbol_view};

use crate::header::cut_word;
use lnet_edge::Fault;
use lnet_lines::number;
use std::str;

/// The two kinds of ports.
#[derive(Clone, Copy)]
pub enum Side {
    /// A port by which values come in.
    Input,
    /// A port that shows a value.
    Output,
}

/// A symbol: which port it names, and the name.
#[derive(Clone, Copy)]
pub struct Symbol<'a> {
    /// The kind of the port.
    pub side: Side,
    /// The place of the port among its kind, counted from 0.
    pub place: u32,
    /// The name: one or more bytes, each from 32 to 126.
    pub name: &'a str,
}

/// The kind that a first byte stands for.
fn side_by(letter: u8) -> Option<Side>
    ensures { result ≡ side_of letter }
{
    match letter {
        b'i' => Some(Side::Input),
        b'o' => Some(Side::Output),
        _ => None,
    }
}

fn is_name(bytes: &[u8]) -> bool
    ensures { result ≡ is_name bytes.now }
{
    !bytes.is_empty() && are_printable(bytes)
}

fn are_printable(bytes: &[u8]) -> bool
    ensures { result ≡ list_all is_printable bytes.now }
{
    bytes.iter().all(|b| is_printable(*b))
}

fn is_printable(byte: u8) -> bool
    ensures { result ≡ is_printable byte }
{
    32 <= byte && byte <= 126
}

/// The rule of a symbol's line.
#[tactic(auto, unfolding(crate::specs::Symbols::symbol_line))]
pub fn symbol_in(line: &[u8]) -> Result<Symbol<'_>, Fault>
    ensures symbol { MatchResult result (λ s. symbol_line line.now ≡ Ok (symbol_view s)) (λ f. symbol_line line.now ≡ Err f) }
    ensures name { IfOk result (λ s. IsTrue (is_name s.name.now)) }
{
    let Some((letter, text)) = line.split_first() else {
        return Err(Fault::Symbol);
    };
    let (place, name) = cut_word(text);
    let Some(name) = name else {
        return Err(Fault::Symbol);
    };
    let Some(side) = side_by(*letter) else {
        return Err(Fault::Symbol);
    };
    let Some(place) = number(place) else {
        return Err(Fault::Symbol);
    };
    if !is_name(name) {
        return Err(Fault::Symbol);
    }
    match str::from_utf8(name) {
        Ok(name) => Ok(Symbol { side, place, name }),
        Err(_) => Err(Fault::Symbol),
    }
}

/// Whether a comment begins with this line.
pub fn begins_comment(line: &[u8]) -> bool
    ensures { result ≡ begins_comment line.now }
{
    !line.is_empty() && line[0] == b'c'
}
