//! Joining lines, and their words.

ghost use Rattle.std.specs.Prelude.{◌≡◌, true, ◌+◌, ◌<◌, ◌≤◌, ◌++◌, ◌^◌, length, IfOk, IfErr, OnOk, IsTrue};
ghost use Rattle.std.specs.List.{list_all};
ghost use Rattle.lnet_words.specs.Cutting.{words_of};
ghost use Rattle.lnet_bliflines.specs.Joining.{uncommented, goes_on, shortened};
ghost use Rattle.lnet_bliflines.specs.Words.{is_text_byte, words_at, word_lists, piece_text, ReadsPiece, are_words, word_count, TakesLine};

use lnet_edge::{Fault, Malformed, ReadError};
use lnet_lines::Lines;
use lnet_words::{cut, next_word};
use std::alloc::{AllocError, Global};

/// A line, joined with those that it goes on in.
#[derive(Drop)]
pub struct TextLine<'a> {
    /// The number of its first line.
    pub number: u32,
    /// Its words in order.
    pub words: Vec<&'a [u8]>,
}

/// The line up to its comment.
fn uncommented(line: &[u8]) -> &[u8]
    ensures value { result.now ≡ uncommented line.now }
    ensures shorter { length result.now ≤ length line.now }
{
    let (text, _) = cut(line, b'#');
    text
}

/// Whether the line without its comment goes on in the next one.
fn goes_on(piece: &[u8]) -> bool
    ensures { result ≡ goes_on piece.now }
{
    piece.last() == Some(&b'\\')
}

/// The line without the byte at its end, where it goes on.
fn shortened(piece: &[u8]) -> &[u8]
    requires { goes_on piece.now ≡ true }
    ensures value { result.now ≡ shortened piece.now }
    ensures shorter { length result.now ≤ length piece.now }
{
    &piece[..piece.len() - 1]
}

/// Whether each byte may stand outside comments.
fn are_text_bytes(text: &[u8]) -> bool
    ensures { result ≡ list_all is_text_byte text.now }
{
    text.iter()
        .all(|byte| (*byte >= 32 && *byte <= 126) || *byte == b'\t')
}

/// Adds the words of a text.
fn add_words<'a>(text: &'a [u8], words: &mut Vec<&'a [u8]>) -> Result<(), AllocError>
    ensures added { OnOk result (word_lists words.new.items ≡ word_lists words.old.items ++ words_of text.now) }
    ensures few { OnOk result (length words.new.items ≤ length words.old.items + length text.now) }
{
    let mut rest = text;
    while let Some((word, behind)) = next_word(rest) {
        words.push(word)?;
        rest = behind;
    }
    Ok(())
}

/// Adds the words of a piece of the line of this number, and answers whether it goes on.
fn add_piece<'a>(number: u32, piece: &'a [u8], words: &mut Vec<&'a [u8]>) -> Result<bool, ReadError>
    ensures reads { ReadsPiece number piece.now result }
    ensures added { OnOk result (word_lists words.new.items ≡ word_lists words.old.items ++ words_of (piece_text piece.now)) }
    ensures few { OnOk result (length words.new.items ≤ length words.old.items + length piece.now) }
{
    let on = goes_on(piece);
    let text = if on { shortened(piece) } else { piece };
    if !are_text_bytes(text) {
        return Err(ReadError::Malformed(Malformed {
            line: number,
            kind: Fault::Syntax,
        }));
    }
    add_words(text, words)?;
    Ok(on)
}

/// The next line, joined with those that it goes on in, and cut into words.
fn joined_line<'a>(alloc: Global, lines: &mut Lines<'a>) -> Result<Option<TextLine<'a>>, ReadError>
    ensures line { TakesLine result (words_at lines.old) (words_at lines.new) }
    ensures few { word_count result + length lines.new.rest ≤ length lines.old.rest }
{
    let number = lines.number();
    let Some(line) = lines.next_line() else {
        return Ok(None);
    };
    let mut words = Vec::new(alloc);
    let mut piece = uncommented(line);
    while add_piece(number, piece, &mut words)? {
        let due = lines.number();
        let Some(line) = lines.next_line() else {
            return Err(ReadError::Malformed(Malformed {
                line: due,
                kind: Fault::Missing,
            }));
        };
        piece = uncommented(line);
    }
    Ok(Some(TextLine { number, words }))
}

/// The next line, joined with those that it goes on in, and cut into words.
///
/// `alloc` is where the words are listed, `lines` the lines that are left. `#` begins a comment to the line's end. A line
/// that then ends in `\` is joined with the next one by a space. None comes where no line is left. A line without words is
/// a line too. Linear time and memory in the line.
///
/// # Errors
/// `Malformed` with `Syntax` and the number of the line where a byte outside comments is none of a word, space or tab;
/// words have bytes from 33 to 126. Otherwise `Malformed` with `Missing` and the number of the line that isn't there
/// where the content ends in a line that goes on. `NoMemory` where memory runs out. What is left then is not told.
pub fn next_line<'a>(
    alloc: Global,
    lines: &mut Lines<'a>,
) -> Result<Option<TextLine<'a>>, ReadError>
    // The words of the first line that is left or its fault, where there is a line; after words the others are left.
    ensures line { TakesLine result (words_at lines.old) (words_at lines.new) }
    ensures words { IsTrue (are_words result) }
    // Each word has a byte.
    ensures few { word_count result + length lines.new.rest ≤ length lines.old.rest }
{
    joined_line(alloc, lines)
}
