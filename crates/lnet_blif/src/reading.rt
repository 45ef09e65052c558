//! Reading a content as a circuit.

ghost use Rattle.std.specs.Prelude.{◌≡◌, ◌+◌, ◌<◌, ◌≤◌, length, OnOk, IfOk, IfErr, IsTrue};
ghost use Rattle.std.specs.List.{list_all};
ghost use Rattle.lnet_edge.specs.Circuits.{CircuitValue, wire_limit, output_limit};
ghost use Rattle.lnet_edge.specs.CircuitLists.{equation_views};
ghost use Rattle.lnet_edge.specs.Outside.{file_limit};
ghost use Rattle.lnet_edge.specs.Wires.{HasArities, IsCircuit};
ghost use Rattle.lnet_bliflines.specs.Words.{is_word, word_lists, words_in, line_view};
ghost use Rattle.lnet_blif.specs.Listing.{circuit_in, lists_view, state_view, size};
ghost use Rattle.lnet_blif.specs.Meanings.{Means, Refuses, Answers, RefusesCircuit};
ghost use Rattle.lnet_blif.specs.Reading.{start, line_after, lines_after, finished, Gives};

use crate::listing::{Lists, no_lists};
use crate::statements::statement_at;
use crate::tables::Place;
use lnet_bliflines::{TextLine, next_line};
use lnet_edge::{Circuit, CircuitError, Malformed, ReadError};
use lnet_lines::Lines;
use std::alloc::Global;

/// Adds what a line at the place says, and answers where the next line stands.
fn add_line<'a>(
    alloc: Global,
    lists: &mut Lists<'a>,
    place: Place,
    line: TextLine<'a>,
) -> Result<Place, ReadError>
    requires room { length lists.old.wires + length line.words.items < wire_limit }
    requires names { IsTrue (list_all is_word (word_lists line.words.items)) }
    ensures added { Gives (λ after. state_view lists.new after) result (line_after (state_view lists.old place) (line_view line.entry)) }
    ensures few { OnOk result (length lists.new.wires ≤ length lists.old.wires + length line.entry.words.items) }
    ensures few_ports { IfOk result (λ after. size (state_view lists.new after) ≤ size (state_view lists.old place) + length line.entry.words.items) }
{
    if line.words.is_empty() {
        return Ok(place);
    }
    match statement_at(place.position(), line.words.as_slice()) {
        Ok(statement) => Ok(lists.add(alloc, place, statement)?),
        Err(kind) => Err(ReadError::Malformed(Malformed {
            line: line.number,
            kind,
        })),
    }
}

/// The names, ports and equations of the lines.
fn read_lines<'a>(alloc: Global, bytes: &'a [u8]) -> Result<Lists<'a>, ReadError>
    requires { length bytes.now ≤ file_limit }
    ensures value { Gives lists_view result (finished (lines_after start (words_in bytes.now))) }
    ensures few { IfOk result (λ l. length l.inputs.items + length l.outputs.items + length l.equations.items ≤ length bytes.now) }
{
    let mut lists = no_lists(alloc);
    let mut place = Place::First;
    let mut lines = Lines::new(bytes, 1);
    while let Some(line) = next_line(alloc, &mut lines)? {
        place = add_line(alloc, &mut lists, place, line)?;
    }
    lists.close(place)?;
    Ok(lists)
}

/// The circuit of the lists.
fn circuit_from<'a>(alloc: Global, lists: Lists<'a>) -> Result<Circuit, ReadError>
    requires arities { HasArities (equation_views lists.equations.items) }
    requires few { length lists.inputs.items + length lists.equations.items < 4294967296 }
    requires few_outputs { length lists.outputs.items ≤ output_limit }
    ensures found { IfOk result (λ c. (c ≡ circuit_in (lists_view lists.entry)) × IsCircuit c) }
    ensures refused { IfErr result (RefusesCircuit (circuit_in (lists_view lists.entry))) }
{
    let Lists {
        wires: _,
        inputs,
        outputs,
        equations,
    } = lists;
    match Circuit::new(alloc, inputs, outputs, equations) {
        Ok(circuit) => Ok(circuit),
        Err(CircuitError::Fault(kind)) => Err(ReadError::Malformed(Malformed { line: 0, kind })),
        Err(CircuitError::NoMemory) => Err(ReadError::NoMemory),
    }
}

/// Reads the circuit that the bytes mean, all of the bytes.
///
/// `alloc` is where the circuit's lists are kept, `bytes` the whole content of a file, at most 67,108,864 bytes.
///
/// The format is BLIF ("Berkeley Logic Interchange Format (BLIF)", University of California, Berkeley, 1992), the part of
/// one combinational model. `#` begins a comment to the line's end; a line that then ends in `\` goes on in the next one,
/// and has the number of its first line. Wires are numbered from 1 in the order in which their names are first seen. Each
/// `.names` is an equation with a cover, in the order of the file, and its operands keep their order. `.model` and `.end`
/// may be left out. Expected time and memory are linear in the length of the bytes.
///
/// # Errors
/// `Malformed` exactly where the bytes mean no circuit. Its line and fault are those of the first line that is refused: for
/// its bytes `Syntax`, or `Missing` on the line behind it where the content ends in a line that goes on; else for what it
/// says, `Unsupported` for a `.model` that isn't the first line, for another command, and for a line behind `.end`,
/// `Sequential` for `.latch`, `Cover` for a row that isn't one of its cover, `Syntax` for a row outside covers and for a
/// wrong count of words. Where no line is refused, the line is 0 and the fault the first of `Undriven`, `Twice` and
/// `Cycle`. `NoMemory` where memory runs out.
pub fn read(alloc: Global, bytes: &[u8]) -> Result<Circuit, ReadError>
    requires { length bytes.now ≤ file_limit }
    // What is read is meant.
    ensures found { IfOk result (Means bytes.now) }
    // What is refused as malformed means no circuit, and the fault is that of the content.
    ensures malformed { IfErr result (Refuses bytes.now) }
    // What is meant is read, unless memory runs out.
    ensures only { (c : CircuitValue) → Means bytes.now c → Answers result c }
{
    match read_lines(alloc, bytes) {
        Ok(lists) => circuit_from(alloc, lists),
        Err(error) => Err(error),
    }
}
