//! The lines of a text, read as statements.

ghost use Rattle.std.specs.Prelude.{◌≡◌, ◌≤◌, length, count_by, IfOk};
ghost use Rattle.std.specs.List.{list_all};
ghost use Rattle.std.specs.Option.{option_copied};
ghost use Rattle.lnet_words.specs.Cutting.{is_byte, words_of};
ghost use Rattle.lnet_bench.specs.Statements.{is_name_byte, is_name, name_of, are_names, operand_count, arguments_of, rule_of, gate_of, constant_of, port_of, drive_of, statement_of, statement_view, operands_length, or_syntax, Reads};

use crate::gates::{gate_rule, is_keyword, table_rule};
use lnet_edge::{Fault, Rule};
use lnet_words::{cut, next_word, only_word};

/// A line that is neither blank nor a comment. Names and operands are parts of the text.
#[derive(Drop)]
pub(crate) enum Statement<'a> {
    /// `INPUT(NAME)`.
    Input(&'a [u8]),
    /// `OUTPUT(NAME)`.
    Output(&'a [u8]),
    /// `NAME = WORD(OPERANDS)`: the name, the rule and the text of the operands.
    Gate(&'a [u8], Rule, &'a [u8]),
    /// `NAME = gnd` or `NAME = vdd`.
    Constant(&'a [u8], bool),
}

/// Whether a name may have the byte.
fn is_name_byte(byte: u8) -> bool
    ensures { result ≡ is_name_byte byte }
{
    byte >= 33 && byte <= 126 && !matches!(byte, b'(' | b')' | b',' | b'=' | b'#')
}

/// Whether each byte is one that a name may have.
fn are_name_bytes(bytes: &[u8]) -> bool
    ensures { result ≡ list_all is_name_byte bytes.now }
{
    bytes.iter().all(|byte| is_name_byte(*byte))
}

/// Whether these are one or more bytes that a name may have.
fn is_name(bytes: &[u8]) -> bool
    ensures { result ≡ is_name bytes.now }
{
    !bytes.is_empty() && are_name_bytes(bytes)
}

/// The name that the text is, with blanks around it or without.
pub(crate) fn name(text: &[u8]) -> Option<&[u8]>
    ensures { option_copied result ≡ name_of text.now }
{
    match only_word(text) {
        Some(word) if is_name(word) => Some(word),
        _ => None,
    }
}

/// The same, where there has to be one.
fn due_name(text: &[u8]) -> Result<&[u8], Fault>
    ensures { Reads (λ n. n.now) result (or_syntax (name_of text.now)) }
{
    match name(text) {
        Some(name) => Ok(name),
        None => Err(Fault::Syntax),
    }
}

/// Whether each operand between commas is a name.
fn are_names(args: &[u8]) -> bool
    ensures { result ≡ are_names args.now }
{
    let mut rest = Some(args);
    while let Some(text) = rest {
        let (part, behind) = cut(text, b',');
        if name(part).is_none() {
            return false;
        }
        rest = behind;
    }
    true
}

/// How many commas there are.
fn commas(args: &[u8]) -> usize
    ensures value { result ≡ count_by (is_byte 44) args.now }
    ensures few { result ≤ length args.now }
{
    args.iter().filter(|byte| **byte == b',').count()
}

/// How many operands there are, each of which has to be a name.
fn operand_count(args: &[u8]) -> Result<usize, Fault>
    ensures value { Reads (λ n. n) result (or_syntax (operand_count args.now)) }
{
    if !are_names(args) {
        return Err(Fault::Syntax);
    }
    Ok(commas(args) + 1)
}

/// What stands up to the `)`, behind which are only blanks.
fn arguments(inside: &[u8]) -> Result<&[u8], Fault>
    ensures value { Reads (λ a. a.now) result (or_syntax (arguments_of inside.now)) }
    ensures shorter { IfOk result (λ a. length a.now ≤ length inside.now) }
{
    let (args, behind) = cut(inside, b')');
    match behind {
        Some(blanks) if next_word(blanks).is_none() => Ok(args),
        _ => Err(Fault::Syntax),
    }
}

/// The rule of the words before a `(`, for so many operands.
fn rule(head: &[u8], count: usize) -> Result<Rule, Fault>
    ensures { Reads (λ r. r) result (rule_of (words_of head.now) count) }
{
    let Some((word, rest)) = next_word(head) else {
        return Err(Fault::Syntax);
    };
    let Some((table, rest)) = next_word(rest) else {
        return if is_name(word) {
            gate_rule(word, count)
        } else {
            Err(Fault::Syntax)
        };
    };
    if next_word(rest).is_none() && is_name(table) && is_keyword(word, b"LUT") {
        table_rule(table, count)
    } else {
        Err(Fault::Syntax)
    }
}

/// `NAME = WORD(OPERANDS)`.
#[tactic(auto, unfolding(crate::specs::Statements::gate_of))]
fn gate<'a>(target: &'a [u8], head: &[u8], inside: &'a [u8]) -> Result<Statement<'a>, Fault>
    ensures value { Reads statement_view result (gate_of target.now head.now inside.now) }
    ensures shorter { IfOk result (λ s. operands_length s ≤ length inside.now) }
{
    let args = arguments(inside)?;
    let count = operand_count(args)?;
    let rule = rule(head, count)?;
    Ok(Statement::Gate(target, rule, args))
}

/// `NAME = gnd` or `NAME = vdd`.
#[tactic(auto, unfolding(crate::specs::Statements::constant_of))]
fn constant<'a>(target: &'a [u8], text: &[u8]) -> Result<Statement<'a>, Fault>
    ensures value { Reads statement_view result (constant_of target.now text.now) }
    ensures shorter { IfOk result (λ s. operands_length s ≡ 0) }
{
    let word = due_name(text)?;
    if is_keyword(word, b"gnd") {
        Ok(Statement::Constant(target, false))
    } else if is_keyword(word, b"vdd") {
        Ok(Statement::Constant(target, true))
    } else {
        Err(Fault::Syntax)
    }
}

/// A line with a `=`, by what stands before and behind it.
#[tactic(auto, unfolding(crate::specs::Statements::drive_of))]
fn drive<'a>(left: &'a [u8], right: &'a [u8]) -> Result<Statement<'a>, Fault>
    ensures value { Reads statement_view result (drive_of left.now right.now) }
    ensures shorter { IfOk result (λ s. operands_length s ≤ length right.now) }
{
    let target = due_name(left)?;
    match cut(right, b'(') {
        (head, Some(inside)) => gate(target, head, inside),
        (word, None) => constant(target, word),
    }
}

/// `INPUT(NAME)` or `OUTPUT(NAME)`, by what stands before the `(` and behind it.
#[tactic(auto, unfolding(crate::specs::Statements::port_of))]
fn port<'a>(head: &[u8], inside: &'a [u8]) -> Result<Statement<'a>, Fault>
    ensures value { Reads statement_view result (port_of head.now inside.now) }
    ensures shorter { IfOk result (λ s. operands_length s ≡ 0) }
{
    let args = arguments(inside)?;
    let word = due_name(head)?;
    let name = due_name(args)?;
    if is_keyword(word, b"INPUT") {
        Ok(Statement::Input(name))
    } else if is_keyword(word, b"OUTPUT") {
        Ok(Statement::Output(name))
    } else {
        Err(Fault::Syntax)
    }
}

/// The statement of a line without its comment.
#[tactic(auto, unfolding(crate::specs::Statements::statement_of))]
pub(crate) fn statement_in(text: &[u8]) -> Result<Statement<'_>, Fault>
    ensures value { Reads statement_view result (statement_of text.now) }
    ensures shorter { IfOk result (λ s. operands_length s ≤ length text.now) }
{
    if let (left, Some(right)) = cut(text, b'=') {
        return drive(left, right);
    }
    match cut(text, b'(') {
        (head, Some(inside)) => port(head, inside),
        _ => Err(Fault::Syntax),
    }
}
