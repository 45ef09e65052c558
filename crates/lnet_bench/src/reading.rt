//! Reading a text as a circuit.

ghost use Rattle.std.specs.Prelude.{◌≡◌, ◌+◌, ◌*◌, ◌<◌, ◌≤◌, length, OnOk, IfOk, IfErr};
ghost use Rattle.lnet_edge.specs.Circuits.{CircuitValue, wire_limit, output_limit};
ghost use Rattle.lnet_edge.specs.CircuitLists.{equation_views};
ghost use Rattle.lnet_edge.specs.Outside.{file_limit};
ghost use Rattle.lnet_edge.specs.Wires.{HasArities, IsCircuit};
ghost use Rattle.lnet_lines.specs.Lines.{lines_of};
ghost use Rattle.lnet_bench.specs.Listing.{nothing, circuit_in, lists_view};
ghost use Rattle.lnet_bench.specs.Meanings.{Means, Refuses, Answers, RefusesCircuit};
ghost use Rattle.lnet_bench.specs.Reading.{line_after, lines_after, Adds, Gives};

use crate::listing::{Lists, no_lists};
use crate::statements::statement_in;
use crate::texts::{driven_in, uncommented};
use crate::wiring::Driven;
use lnet_edge::{Circuit, CircuitError, Malformed, ReadError};
use lnet_lines::Lines;
use lnet_words::next_word;
use std::alloc::Global;

/// Adds what a line says.
fn add_line<'a>(
    alloc: Global,
    driven: Driven,
    number: u32,
    line: &'a [u8],
    lists: &mut Lists<'a>,
) -> Result<(), ReadError>
    requires { length lists.old.wires + length line.now + 2 < wire_limit }
    ensures added { Adds result (lists_view lists.new) (line_after driven number (lists_view lists.old) line.now) }
    ensures few { OnOk result (length lists.new.wires ≤ length lists.old.wires + length line.now + 2) }
{
    let text = uncommented(line);
    if next_word(text).is_none() {
        return Ok(());
    }
    match statement_in(text) {
        Ok(statement) => {
            lists.add(alloc, driven, statement)?;
            Ok(())
        }
        Err(kind) => Err(ReadError::Malformed(Malformed { line: number, kind })),
    }
}

/// The names, ports and equations of the lines.
fn read_lines<'a>(alloc: Global, driven: Driven, bytes: &'a [u8]) -> Result<Lists<'a>, ReadError>
    requires { length bytes.now ≤ file_limit }
    ensures { Gives lists_view result (lines_after driven 1 nothing (lines_of bytes.now)) }
{
    let mut lists = no_lists(alloc);
    let mut lines = Lines::new(bytes, 1);
    while let Some(line) = lines.next_line() {
        add_line(alloc, driven, lines.number() - 1, line, &mut lists)?;
    }
    Ok(lists)
}

/// The circuit of the lists.
fn circuit_from<'a>(alloc: Global, lists: Lists<'a>) -> Result<Circuit, ReadError>
    requires arities { HasArities (equation_views lists.equations.items) }
    requires few { length lists.inputs.items + length lists.equations.items < 4294967296 }
    requires few_outputs { length lists.outputs.items ≤ output_limit }
    ensures found { IfOk result (λ c. (c ≡ circuit_in (lists_view lists.entry)) × IsCircuit c) }
    ensures refused { IfErr result (RefusesCircuit (circuit_in (lists_view lists.entry))) }
{
    let Lists {
        wires: _,
        inputs,
        outputs,
        equations,
    } = lists;
    match Circuit::new(alloc, inputs, outputs, equations) {
        Ok(circuit) => Ok(circuit),
        Err(CircuitError::Fault(kind)) => Err(ReadError::Malformed(Malformed { line: 0, kind })),
        Err(CircuitError::NoMemory) => Err(ReadError::NoMemory),
    }
}

/// Reads the circuit that the bytes mean, all of the bytes.
///
/// `alloc` is where the circuit's lists are kept, `bytes` the whole content of a file, at most 67,108,864 bytes.
///
/// The format is BENCH (F. Brglez, D. Bryan and K. Kozminski, "Combinational Profiles of Sequential Benchmark Circuits",
/// 1989) with look-up tables and constants as in ABC. Wires are numbered from 1 in the order in which their names are
/// first seen. As operands and outputs the names `gnd` and `vdd` are constants where no line drives them. The operands
/// keep their order. Expected time and memory are linear in the length of the bytes.
///
/// # Errors
/// `Malformed` exactly where the bytes mean no circuit. Its line and fault are those of the first line of no stated form:
/// `Syntax`, but `Unsupported` for an unknown gate word, `Sequential` for `DFF`, and `Cover` for a table whose digits
/// aren't 1 to 16 hexadecimal ones, or that has a true row past those of its operands. Where each line has a form, the
/// line is 0 and the fault the first of `Undriven`, `Twice` and `Cycle`. `NoMemory` where memory runs out.
pub fn read(alloc: Global, bytes: &[u8]) -> Result<Circuit, ReadError>
    requires { length bytes.now ≤ file_limit }
    // What is read is meant.
    ensures found { IfOk result (Means bytes.now) }
    // What is refused as malformed means no circuit, and the fault is that of the text.
    ensures malformed { IfErr result (Refuses bytes.now) }
    // What is meant is read, unless memory runs out.
    ensures only { (c : CircuitValue) → Means bytes.now c → Answers result c }
{
    let driven = driven_in(bytes);
    match read_lines(alloc, driven, bytes) {
        Ok(lists) => circuit_from(alloc, lists),
        Err(error) => Err(error),
    }
}
