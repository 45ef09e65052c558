//! Scripts as text.

ghost use Rattle.std.specs.Prelude.{◌≡◌, ◌≤◌, ◌<◌, ◌+◌, ◌∷◌, [], length, map, filter, nat_lt, IfOk, IfErr, Ok, OnOk};
ghost use Rattle.lnet_script.specs.Pieces.{line_pieces, pieces_on, pieces_of};
ghost use Rattle.lnet_script.specs.Scripts.{script_limit, commands_in, commands_of, IsScript, Refuses, FailsScript, GivesScript};
ghost use Rattle.lnet_script.specs.Adding.{GivesLine, commands_after};

use crate::command::Command;
use crate::reading::command;
use crate::refusal::Refusal;
use crate::words::next_word;
use lnet_words::cut;
use std::alloc::{AllocFailed, Global};

/// A script has at most this many bytes.
const SCRIPT_LIMIT: usize = 1_048_576;

/// Why a script could not be read.
#[derive(Clone, Copy, Debug, PartialEq, Eq)]
pub enum ScriptError {
    /// The bytes are no script: line 0 where they are more than 1,048,576, else the line, from 1, of the first piece
    /// that is no command.
    BadLine(u32),
    /// Memory ran out.
    NoMemory,
}

impl<T: Drop> From<AllocFailed<T>> for ScriptError {
    ghost use Rattle.std.specs.Prelude.{◌≡◌};
    ghost use Rattle.lnet_script.specs.declared.script.ScriptError.TheVariants.{NoMemory};

    ghost from_gives = { λ _ e. e ≡ NoMemory };

    fn from(_: AllocFailed<T>) -> ScriptError {
        ScriptError::NoMemory
    }
}

/// Adds the command of a piece, unless it has no words.
fn add_command(
    alloc: Global,
    line: u32,
    piece: &[u8],
    commands: &mut Vec<Command>,
) -> Result<(), ScriptError>
    ensures added { GivesLine result commands.new.items (commands_after commands.old.items (pieces_on line (piece.now ∷ []))) }
    ensures few { OnOk result (length commands.new.items ≤ length commands.old.items + length piece.now) }
{
    let Some((first, rest)) = next_word(piece) else {
        return Ok(());
    };
    match command(alloc, first, rest) {
        Ok(command) => {
            commands.push(command)?;
            Ok(())
        }
        Err(Refusal::NoCommand) => Err(ScriptError::BadLine(line)),
        Err(Refusal::NoMemory) => Err(ScriptError::NoMemory),
    }
}

/// Adds the commands of a line.
fn add_line(
    alloc: Global,
    line: u32,
    content: &[u8],
    commands: &mut Vec<Command>,
) -> Result<(), ScriptError>
    ensures added { GivesLine result commands.new.items (commands_after commands.old.items (line_pieces line content.now)) }
    ensures few { OnOk result (length commands.new.items ≤ length commands.old.items + length content.now) }
{
    let (text, _) = cut(content, b'#');
    let mut rest = Some(text);
    while let Some(pieces) = rest {
        let (piece, behind) = cut(pieces, b';');
        add_command(alloc, line, piece, commands)?;
        rest = behind;
    }
    Ok(())
}

/// The commands of a script that is not too long.
fn read_lines(alloc: Global, bytes: &[u8]) -> Result<Vec<Command>, ScriptError>
    requires { length bytes.now ≤ script_limit }
    ensures read { GivesScript (λ v. v.items) result (commands_in (pieces_of bytes.now)) }
    ensures few { IfOk result (λ v. length v.items ≤ length bytes.now) }
{
    let mut commands = Vec::new(alloc);
    let mut rest = Some(bytes);
    let mut line: u32 = 1;
    while let Some(lines) = rest {
        let (content, behind) = cut(lines, b'\n');
        add_line(alloc, line, content, &mut commands)?;
        line += 1;
        rest = behind;
    }
    Ok(commands)
}

/// The commands of a script.
///
/// `alloc` is where the commands are kept, `bytes` the whole script. `#` begins a comment that runs to the end of the
/// line. Commands are separated by `;` and newline, words by spaces, tabs and carriage returns; a piece without words is
/// no command. A word has 1 to 255 bytes from 33 to 126 other than `;` and `#`, and a number is decimal digits without a
/// leading zero, up to 4,294,967,295. Time and memory are linear in the length.
///
/// # Errors
/// `BadLine(0)` exactly where the bytes are more than 1,048,576, else `BadLine` with the line, from 1, of the first piece
/// that is no command, exactly where there is one. `NoMemory` where memory runs out.
pub fn parse_script(alloc: Global, bytes: &[u8]) -> Result<Vec<Command>, ScriptError>
    ensures found { IfOk result (λ v. commands_of bytes.now ≡ Ok v.items) }
    ensures spelled { IfOk result (λ v. (length bytes.now ≤ script_limit) × IsScript bytes.now v.items) }
    ensures few { IfOk result (λ v. length v.items ≤ length bytes.now) }
    ensures bad { IfErr result (λ e. FailsScript e (commands_of bytes.now)) }
    ensures refused { IfErr result (Refuses bytes.now) }
{
    if bytes.len() > SCRIPT_LIMIT {
        return Err(ScriptError::BadLine(0));
    }
    read_lines(alloc, bytes)
}
