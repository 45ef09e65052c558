//! The rules of gates, by their words.

ghost use Rattle.std.specs.Prelude.{◌≡◌, ◌≤◌, length, IfOk};
ghost use Rattle.std.specs.Char.{is_ascii_hexdigit};
ghost use Rattle.std.specs.List.{list_all};
ghost use Rattle.lnet_edge.specs.Wires.{HasArity};
ghost use Rattle.lnet_bench.specs.Gates.{is_keyword, table_of, fits_rows, gate_rule, other_gate_rule, table_rule, one_operand};

use lnet_edge::{Fault, Rule};
use std::str;

/// Whether the word is that keyword, in either letter case.
pub(crate) fn is_keyword(word: &[u8], keyword: &[u8]) -> bool
    ensures { result ≡ is_keyword word.now keyword.now }
{
    word.eq_ignore_ascii_case(keyword)
}

/// The rule of a gate that takes one operand.
fn one_operand(rule: Rule, count: usize) -> Result<Rule, Fault>
    ensures { result ≡ one_operand rule count }
{
    if count == 1 {
        Ok(rule)
    } else {
        Err(Fault::Syntax)
    }
}

/// The rule of a gate word for so many operands, of which there are some.
#[tactic(auto, unfolding(crate::specs::Gates::gate_rule))]
pub(crate) fn gate_rule(word: &[u8], count: usize) -> Result<Rule, Fault>
    ensures { result ≡ gate_rule word.now count }
{
    if is_keyword(word, b"AND") {
        Ok(Rule::And(false))
    } else if is_keyword(word, b"OR") {
        Ok(Rule::Or(false))
    } else if is_keyword(word, b"XOR") {
        Ok(Rule::Xor(false))
    } else if is_keyword(word, b"NAND") {
        Ok(Rule::And(true))
    } else if is_keyword(word, b"NOR") {
        Ok(Rule::Or(true))
    } else if is_keyword(word, b"XNOR") {
        Ok(Rule::Xor(true))
    } else {
        other_gate_rule(word, count)
    }
}

/// The same for the words that aren't of all counts of operands.
#[tactic(auto, unfolding(crate::specs::Gates::other_gate_rule))]
fn other_gate_rule(word: &[u8], count: usize) -> Result<Rule, Fault>
    ensures { result ≡ other_gate_rule word.now count }
{
    if is_keyword(word, b"NOT") {
        one_operand(Rule::And(true), count)
    } else if is_keyword(word, b"BUF") || is_keyword(word, b"BUFF") {
        one_operand(Rule::And(false), count)
    } else if is_keyword(word, b"LUT") {
        Err(Fault::Syntax)
    } else if is_keyword(word, b"DFF") {
        Err(Fault::Sequential)
    } else {
        Err(Fault::Unsupported)
    }
}

/// Whether each byte is a hexadecimal digit.
fn are_hexadecimal(digits: &[u8]) -> bool
    ensures { result ≡ list_all is_ascii_hexdigit digits.now }
{
    digits.iter().all(|byte| byte.is_ascii_hexdigit())
}

/// The table that 1 to 16 hexadecimal digits are.
#[tactic(auto, unfolding(crate::specs::Gates::table_of))]
fn table(digits: &[u8]) -> Option<u64>
    ensures { result ≡ table_of digits.now }
{
    if digits.is_empty() || digits.len() > 16 || !are_hexadecimal(digits) {
        return None;
    }
    match str::from_utf8(digits) {
        Ok(text) => u64::from_str_radix(text, 16).ok(),
        Err(_) => None,
    }
}

/// Whether the table has no true row past those of so many operands, at most 6.
fn fits_rows(table: u64, operands: usize) -> bool
    ensures { result ≡ fits_rows table operands }
{
    match operands {
        0 => table < 2,
        1 => table < 4,
        2 => table < 16,
        3 => table < 256,
        4 => table < 65_536,
        5 => table < 4_294_967_296,
        _ => true,
    }
}

/// The rule of a look-up table, by the word `0xDIGITS`, for so many operands.
#[tactic(auto, unfolding(crate::specs::Gates::table_rule))]
pub(crate) fn table_rule(word: &[u8], count: usize) -> Result<Rule, Fault>
    ensures { result ≡ table_rule word.now count }
{
    let Some(digits) = word.strip_prefix(b"0x") else {
        return Err(Fault::Syntax);
    };
    let Some(table) = table(digits) else {
        return Err(Fault::Cover);
    };
    if count > 6 {
        return Err(Fault::Syntax);
    }
    if fits_rows(table, count) {
        Ok(Rule::Lut(table))
    } else {
        Err(Fault::Cover)
    }
}
