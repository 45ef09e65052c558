//! The lines of a text.

ghost use Rattle.std.specs.Prelude.{◌≡◌, ◌+◌, ◌*◌, ◌<◌, ◌≤◌, ◌||◌, length, codes, OnOk, IfOk};
ghost use Rattle.std.specs.Option.{option_copied};
ghost use Rattle.lnet_edge.specs.Outside.{file_limit};
ghost use Rattle.lnet_lines.specs.Lines.{lines_of};
ghost use Rattle.lnet_bench.specs.Statements.{statement_view, operands_length};
ghost use Rattle.lnet_bench.specs.Listing.{nothing, lists_view};
ghost use Rattle.lnet_bench.specs.Texts.{uncommented, target_of, is_target, line_target, driven_in};

use crate::statements::{Statement, statement_in};
use crate::wiring::Driven;
use lnet_lines::Lines;
use lnet_words::{cut, next_word};

/// The line up to its comment.
pub(crate) fn uncommented(line: &[u8]) -> &[u8]
    ensures value { result.now ≡ uncommented line.now }
    ensures shorter { length result.now ≤ length line.now }
{
    let (text, _) = cut(line, b'#');
    text
}

/// The name that a statement drives.
fn target<'a>(statement: Statement<'a>) -> Option<&'a [u8]>
    ensures { option_copied result ≡ target_of (statement_view statement.entry) }
{
    match statement {
        Statement::Input(name) => Some(name),
        Statement::Output(_) => None,
        Statement::Gate(target, _, _) => Some(target),
        Statement::Constant(target, _) => Some(target),
    }
}

/// The name that a line drives, if it is a statement that drives one.
fn line_target(line: &[u8]) -> Option<&[u8]>
    ensures { option_copied result ≡ line_target line.now }
{
    let text = uncommented(line);
    if next_word(text).is_none() {
        return None;
    }
    match statement_in(text) {
        Ok(statement) => target(statement),
        Err(_) => None,
    }
}

/// Whether that is the name.
fn is_target(name: &[u8], target: Option<&[u8]>) -> bool
    ensures { result ≡ is_target name.now (option_copied target.entry) }
{
    match target {
        Some(target) => name == target,
        None => false,
    }
}

/// Which of the names of the constants the lines drive. Lines of no stated form drive none.
pub(crate) fn driven_in(bytes: &[u8]) -> Driven
    requires { length bytes.now ≤ file_limit }
    ensures { result ≡ driven_in (lines_of bytes.now) }
{
    let mut driven = Driven {
        gnd: false,
        vdd: false,
    };
    let mut lines = Lines::new(bytes, 1);
    while let Some(line) = lines.next_line() {
        let target = line_target(line);
        driven = Driven {
            gnd: is_target(b"gnd", target) || driven.gnd,
            vdd: is_target(b"vdd", target) || driven.vdd,
        };
    }
    driven
}
