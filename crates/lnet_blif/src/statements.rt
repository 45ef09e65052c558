//! The lines of a text, read as statements.

ghost use Rattle.std.specs.Prelude.{◌≡◌, ◌≤◌, ◌+◌, length, IfOk, MatchOption, IsTrue, None, Some};
ghost use Rattle.std.specs.List.{list_all};
ghost use Rattle.lnet_edge.specs.Covers.{is_cell};
ghost use Rattle.lnet_bliflines.specs.Words.{is_word, word_lists};
ghost use Rattle.lnet_blif.specs.Statements.{bit_of, row_of, same_bit, agrees, row_at, is_command, command_of, model_at, cover_by, command_at, line_at, statement_at};
ghost use Rattle.lnet_blif.specs.Listing.{statement_view, names_count};
ghost use Rattle.lnet_blif.specs.Reading.{Reads};

use lnet_edge::Fault;

/// A command by its first word.
#[derive(Clone, Copy)]
pub(crate) enum Command {
    /// `.model`.
    Model,
    /// `.inputs`.
    Inputs,
    /// `.outputs`.
    Outputs,
    /// `.names`.
    Names,
    /// `.latch`.
    Latch,
    /// `.end`.
    End,
    /// Another word that begins with `.`.
    Other,
}

/// Where a line stands.
#[derive(Clone, Copy)]
pub(crate) enum Position {
    /// Before each other line that isn't blank.
    First,
    /// Outside covers.
    Outside,
    /// In a cover of so many operands, whose first row has this value, if there is a row.
    Inside(usize, Option<bool>),
    /// Behind `.end`.
    Behind,
}

/// What a line says. Names are parts of the text.
#[derive(Drop)]
pub(crate) enum Statement<'w, 'a> {
    /// `.model` and at most one name.
    Model,
    /// `.inputs` and names.
    Inputs(&'w [&'a [u8]]),
    /// `.outputs` and names.
    Outputs(&'w [&'a [u8]]),
    /// `.names` and names: the operands and the target.
    Names(&'w [&'a [u8]], &'a [u8]),
    /// A row of a cover: a byte for each operand, and the value.
    Row(&'a [u8], bool),
    /// `.end`.
    End,
}

/// The bit that a word is.
fn bit(word: &[u8]) -> Option<bool>
    ensures { result ≡ bit_of word.now }
{
    match word {
        b"0" => Some(false),
        b"1" => Some(true),
        _ => None,
    }
}

/// Whether each byte is `0`, `1` or `-`.
fn are_cells(cells: &[u8]) -> bool
    ensures { result ≡ list_all is_cell cells.now }
{
    cells
        .iter()
        .all(|cell| *cell == b'0' || *cell == b'1' || *cell == b'-')
}

/// The row of so many operands that words are: its bytes and the value.
fn row<'a>(operands: usize, words: &[&'a [u8]]) -> Option<(&'a [u8], bool)>
    ensures { MatchOption result (row_of operands (word_lists words.now) ≡ None) (λ x. row_of operands (word_lists words.now) ≡ Some (record { cells = x.0.now; value = x.1 })) }
{
    match *words {
        [value] if operands == 0 => Some((&[], bit(value)?)),
        [cells, value] if cells.len() == operands && are_cells(cells) => {
            Some((cells, bit(value)?))
        }
        _ => None,
    }
}

/// Whether the value is that of the first row, if there is one.
fn agrees(first: Option<bool>, value: bool) -> bool
    ensures { result ≡ agrees first value }
{
    match first {
        Some(first) => first == value,
        None => true,
    }
}

/// The row that words are at a position.
fn row_at<'w, 'a>(position: Position, words: &'w [&'a [u8]]) -> Result<Statement<'w, 'a>, Fault>
    ensures { Reads statement_view result (row_at position (word_lists words.now)) }
{
    let Position::Inside(operands, first) = position else {
        return Err(Fault::Syntax);
    };
    match row(operands, words) {
        Some((cells, value)) if agrees(first, value) => Ok(Statement::Row(cells, value)),
        _ => Err(Fault::Cover),
    }
}

/// Whether the word begins with `.`.
fn is_command(word: &[u8]) -> bool
    ensures { result ≡ is_command word.now }
{
    word.first() == Some(&b'.')
}

/// The command of a word.
fn command_of(word: &[u8]) -> Command
    ensures { result ≡ command_of word.now }
{
    match word {
        b".model" => Command::Model,
        b".inputs" => Command::Inputs,
        b".outputs" => Command::Outputs,
        b".names" => Command::Names,
        b".latch" => Command::Latch,
        b".end" => Command::End,
        _ => Command::Other,
    }
}

/// `.model` and these names.
fn model_at<'w, 'a>(position: Position, names: &'w [&'a [u8]]) -> Result<Statement<'w, 'a>, Fault>
    ensures { Reads statement_view result (model_at position (word_lists names.now)) }
{
    match position {
        Position::First if names.len() <= 1 => Ok(Statement::Model),
        Position::First => Err(Fault::Syntax),
        _ => Err(Fault::Unsupported),
    }
}

/// `.names` and these names.
fn cover_by<'w, 'a>(names: &'w [&'a [u8]]) -> Result<Statement<'w, 'a>, Fault>
    ensures value { Reads statement_view result (cover_by (word_lists names.now)) }
    ensures few { IfOk result (λ s. names_count s ≤ length names.now) }
{
    if names.is_empty() {
        return Err(Fault::Syntax);
    }
    let operands = names.len() - 1;
    Ok(Statement::Names(&names[..operands], names[operands]))
}

/// The command with these names at a position.
fn command_at<'w, 'a>(
    position: Position,
    command: Command,
    names: &'w [&'a [u8]],
) -> Result<Statement<'w, 'a>, Fault>
    ensures value { Reads statement_view result (command_at position command (word_lists names.now)) }
    ensures few { IfOk result (λ s. names_count s ≤ length names.now) }
{
    match command {
        Command::Model => model_at(position, names),
        Command::Inputs => Ok(Statement::Inputs(names)),
        Command::Outputs => Ok(Statement::Outputs(names)),
        Command::Names => cover_by(names),
        Command::Latch => Err(Fault::Sequential),
        Command::End if names.is_empty() => Ok(Statement::End),
        Command::End => Err(Fault::Syntax),
        Command::Other => Err(Fault::Unsupported),
    }
}

/// What a line with these words, of which there are some, says at a position.
#[tactic(auto, unfolding(crate::specs::Statements::statement_at))]
pub(crate) fn statement_at<'w, 'a>(
    position: Position,
    words: &'w [&'a [u8]],
) -> Result<Statement<'w, 'a>, Fault>
    ensures value { Reads statement_view result (statement_at position (word_lists words.now)) }
    ensures few { IfOk result (λ s. names_count s ≤ length words.now) }
{
    if matches!(position, Position::Behind) {
        return Err(Fault::Unsupported);
    }
    match words {
        [word, names @ ..] if is_command(word) => command_at(position, command_of(word), names),
        [] => Err(Fault::Syntax),
        _ => row_at(position, words),
    }
}
