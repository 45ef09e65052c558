//! Reading from left to right. Each function gives what the function on lists of its name gives.

ghost use Rattle.std.specs.Prelude.{◌≡◌, ◌+◌, ◌*◌, ◌<◌, ◌≤◌, length, IfOk, IfErr, Ok};
ghost use Rattle.lnet_edge.specs.CircuitLists.{equation_view, equation_views};
ghost use Rattle.lnet_edge.specs.Circuits.{CircuitValue, circuit_limit, output_limit};
ghost use Rattle.lnet_aiger.specs.Grammar.{Means};
ghost use Rattle.lnet_aiger.specs.Faults.{Rejects};
ghost use Rattle.lnet_aiger.specs.Chain.{Gives, GivesAt};
ghost use Rattle.lnet_aiger.specs.Header.{header_line};
ghost use Rattle.lnet_aiger.specs.LineRules.{numbered_inputs, input_line, output_line, equation_line};
ghost use Rattle.lnet_aiger.specs.Reading.{line_due, item_at, lines_at, differences_at, ascii_at, binary_at, body_at, named_at, content_at};
ghost use Rattle.lnet_aiger.specs.Views.{parts_view};
ghost use Rattle.lnet_edge.specs.Outside.{file_limit};

use crate::body::{equation, gate_in, input, output};
use crate::delta::read_difference;
use crate::fault::malformed;
use crate::header::{Form, Header, header_in};
use crate::naming::{PortLists, read_symbols};
use crate::parts::Parts;
use lnet_edge::{Circuit, CircuitError, Equation, Fault, InputPort, OutputPort, ReadError, Wire};
use lnet_lines::Lines;
use std::alloc::{AllocError, Global};

/// The line that is due.
fn due<'a>(lines: &mut Lines<'a>) -> Result<&'a [u8], ReadError>
    ensures { GivesAt (λ x. x.now) result lines.new (line_due lines.old) }
{
    let number = lines.number();
    match lines.next_line() {
        Some(line) => Ok(line),
        None => Err(malformed(number, Fault::Missing)),
    }
}

#[tactic(auto, unfolding(crate::specs::Reading::item_at))]
fn read_header(lines: &mut Lines<'_>) -> Result<Header, ReadError>
    ensures header { GivesAt (λ x. x) result lines.new (item_at header_line lines.old) }
    ensures few { IfOk result (λ h. h.inputs + h.gates ≤ circuit_limit) }
    ensures few_outputs { IfOk result (λ h. h.outputs ≤ output_limit) }
{
    let number = lines.number();
    let line = due(lines)?;
    match header_in(line) {
        Ok(header) => Ok(header),
        Err(kind) => Err(malformed(number, kind)),
    }
}

#[tactic(auto, unfolding(crate::specs::Reading::item_at))]
fn read_input(top: u32, lines: &mut Lines<'_>) -> Result<InputPort, ReadError>
    ensures { GivesAt (λ x. x) result lines.new (item_at (input_line top) lines.old) }
{
    let number = lines.number();
    let line = due(lines)?;
    match input(top, line) {
        Ok(port) => Ok(port),
        Err(kind) => Err(malformed(number, kind)),
    }
}

#[tactic(auto, unfolding(crate::specs::Reading::item_at))]
fn read_output(top: u32, lines: &mut Lines<'_>) -> Result<OutputPort, ReadError>
    ensures { GivesAt (λ x. x) result lines.new (item_at (output_line top) lines.old) }
{
    let number = lines.number();
    let line = due(lines)?;
    match output(top, line) {
        Ok(port) => Ok(port),
        Err(kind) => Err(malformed(number, kind)),
    }
}

#[tactic(auto, unfolding(crate::specs::Reading::item_at, crate::specs::LineRules::equation_line))]
fn read_equation(alloc: Global, top: u32, lines: &mut Lines<'_>) -> Result<Equation, ReadError>
    ensures { GivesAt equation_view result lines.new (item_at (equation_line top) lines.old) }
{
    let number = lines.number();
    let line = due(lines)?;
    match gate_in(top, line) {
        Ok(gate) => {
            let equation = equation(alloc, gate)?;
            Ok(equation)
        }
        Err(kind) => Err(malformed(number, kind)),
    }
}

fn read_inputs(
    alloc: Global,
    count: u32,
    top: u32,
    lines: &mut Lines<'_>,
) -> Result<Vec<InputPort>, ReadError>
    ensures { GivesAt (λ x. x.items) result lines.new (lines_at (input_line top) count lines.old) }
{
    let mut items = Vec::new(alloc);
    for place in 0..count {
        let item = read_input(top, lines)?;
        items.push(item)?;
    }
    Ok(items)
}

fn read_outputs(
    alloc: Global,
    count: u32,
    top: u32,
    lines: &mut Lines<'_>,
) -> Result<Vec<OutputPort>, ReadError>
    ensures { GivesAt (λ x. x.items) result lines.new (lines_at (output_line top) count lines.old) }
{
    let mut items = Vec::new(alloc);
    for place in 0..count {
        let item = read_output(top, lines)?;
        items.push(item)?;
    }
    Ok(items)
}

fn read_equations(
    alloc: Global,
    count: u32,
    top: u32,
    lines: &mut Lines<'_>,
) -> Result<Vec<Equation>, ReadError>
    ensures { GivesAt (λ x. equation_views x.items) result lines.new (lines_at (equation_line top) count lines.old) }
{
    let mut items = Vec::new(alloc);
    for place in 0..count {
        let item = read_equation(alloc, top, lines)?;
        items.push(item)?;
    }
    Ok(items)
}

/// The inputs of the binary form: variables 1, 2 and so on.
fn numbered_inputs(alloc: Global, count: u32) -> Result<Vec<InputPort>, AllocError>
    requires { count ≤ circuit_limit }
    ensures { IfOk result (λ v. v.items ≡ numbered_inputs count) }
{
    let mut items = Vec::new(alloc);
    for place in 0..count {
        let wire = Wire(place + 1);
        items.push(InputPort { wire, name: None })?;
    }
    Ok(items)
}

/// The gates of the binary form, the first of which is the variable behind the inputs.
fn read_differences(
    alloc: Global,
    inputs: u32,
    count: u32,
    lines: &mut Lines<'_>,
) -> Result<Vec<Equation>, ReadError>
    requires { inputs + count ≤ circuit_limit }
    ensures { GivesAt (λ x. equation_views x.items) result lines.new (differences_at inputs count lines.old) }
{
    let mut items = Vec::new(alloc);
    for place in 0..count {
        let item = read_difference(alloc, 2 * (inputs + 1 + place), lines)?;
        items.push(item)?;
    }
    Ok(items)
}

/// The body of the ASCII form.
#[tactic(auto, unfolding(crate::specs::Reading::ascii_at))]
fn read_ascii(alloc: Global, header: &Header, lines: &mut Lines<'_>) -> Result<Parts, ReadError>
    ensures { GivesAt parts_view result lines.new (ascii_at header.now lines.old) }
{
    let inputs = read_inputs(alloc, header.inputs, header.top, lines)?;
    let outputs = read_outputs(alloc, header.outputs, header.top, lines)?;
    let equations = read_equations(alloc, header.gates, header.top, lines)?;
    let ports = PortLists { inputs, outputs };
    Ok(Parts { ports, equations })
}

/// The body of the binary form.
#[tactic(auto, unfolding(crate::specs::Reading::binary_at))]
fn read_binary(alloc: Global, header: &Header, lines: &mut Lines<'_>) -> Result<Parts, ReadError>
    requires { header.now.inputs + header.now.gates ≤ circuit_limit }
    ensures { GivesAt parts_view result lines.new (binary_at header.now lines.old) }
{
    let outputs = read_outputs(alloc, header.outputs, header.top, lines)?;
    let equations = read_differences(alloc, header.inputs, header.gates, lines)?;
    let inputs = numbered_inputs(alloc, header.inputs)?;
    let ports = PortLists { inputs, outputs };
    Ok(Parts { ports, equations })
}

fn read_body(alloc: Global, header: &Header, lines: &mut Lines<'_>) -> Result<Parts, ReadError>
    requires { header.now.inputs + header.now.gates ≤ circuit_limit }
    ensures { GivesAt parts_view result lines.new (body_at header.now lines.old) }
{
    match header.form {
        Form::Ascii => read_ascii(alloc, header, lines),
        Form::Binary => read_binary(alloc, header, lines),
    }
}

/// Names the ports of a body.
#[tactic(auto, unfolding(crate::specs::Reading::named_at))]
fn named(alloc: Global, body: Parts, lines: &mut Lines<'_>) -> Result<Parts, ReadError>
    ensures { Gives parts_view result (named_at (parts_view body) lines.old) }
{
    let Parts {
        mut ports,
        equations,
    } = body;
    read_symbols(alloc, lines, &mut ports)?;
    Ok(Parts { ports, equations })
}

/// The ports and equations of a content.
#[tactic(auto, unfolding(crate::specs::Reading::content_at))]
fn content(alloc: Global, bytes: &[u8]) -> Result<Parts, ReadError>
    requires { length bytes.now ≤ file_limit }
    ensures { Gives parts_view result (content_at bytes.now) }
{
    let mut lines = Lines::new(bytes, 1);
    let header = read_header(&mut lines)?;
    let body = read_body(alloc, &header, &mut lines)?;
    let parts = named(alloc, body, &mut lines)?;
    Ok(parts)
}

/// Reads the circuit that a content in the AIGER format means.
///
/// `alloc` is where the circuit's lists are kept, `bytes` the whole content of a file, at most 67,108,864 bytes.
///
/// Both forms of the format are read (Biere, "The AIGER And-Inverter Graph (AIG) Format", version 20070427), with symbols
/// and comments, and headers of up to nine counts (Biere, Heljanko and Wieringa, "AIGER 1.9 And Beyond", 2011). Gate lines
/// of the ASCII form may stand in any order. An equation `And(false)` comes of each gate, with its operands in the order
/// of the file; the wires are the variables, and wire 0 is the constant. Expected time and memory are linear in the length
/// of the bytes.
///
/// # Errors
/// `Malformed` exactly where the bytes mean no circuit, with the first broken rule and its line, or line 0 where that is
/// a rule of the whole circuit (`Undriven`, `Twice` or `Cycle`). `NoMemory` where memory runs out.
pub fn read(alloc: Global, bytes: &[u8]) -> Result<Circuit, ReadError>
    requires { length bytes.now ≤ file_limit }
    // What is read is meant.
    ensures found { IfOk result (λ c. Means bytes.now c) }
    // What is refused as malformed means no circuit, and the fault is the first broken rule with its line.
    ensures malformed { IfErr result (Rejects bytes.now) }
    // What is meant is read, unless memory runs out.
    ensures only { (c : CircuitValue) → Means bytes.now c → Gives (λ x. x) result (Ok c) }
{
    let parts = content(alloc, bytes)?;
    let PortLists { inputs, outputs } = parts.ports;
    match Circuit::new(alloc, inputs, outputs, parts.equations) {
        Ok(circuit) => Ok(circuit),
        Err(CircuitError::Fault(kind)) => Err(malformed(0, kind)),
        Err(CircuitError::NoMemory) => Err(ReadError::NoMemory),
    }
}
