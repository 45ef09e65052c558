//! Writing both forms, the greater operand literal first.

ghost use Rattle.std.specs.Prelude.{◌≡◌, ◌+◌, ◌≤◌, ◌++◌, length, codes, IfOk, OnOk, IfSome, string_bytes};
ghost use Rattle.lnet_edge.specs.Names.{IsName};
ghost use Rattle.lnet_aiger.specs.Written.{HasNames, MeansSame};
ghost use Rattle.std.specs.List.{flat_map};
ghost use Rattle.lnet_edge.specs.CircuitLists.{equation_view, equation_views};
ghost use Rattle.lnet_aiger.specs.Numberings.{place_in, literals_view};
ghost use Rattle.lnet_aiger.specs.Texts.{IsWritable, gate_of, number_text, header_text, input_text, output_text, gate_text, groups_text, delta_text, symbol_text, symbols_text, names_text, ports_by, gates_by, head_by, tail_by, ascii_text, binary_text};
ghost use Rattle.lnet_edge.specs.Shown.{input_names, output_names};
ghost use Rattle.lnet_edge.specs.Circuits.{circuit_limit};

use crate::numbering::{Literals, Variables, literal, literals_of, plain_literal, variables_of};
use lnet_edge::{Circuit, Equation, InputPort, Name, OutputPort};
use std::alloc::{AllocError, Global};

/// The first line in ASCII.
fn put_ascii_header(
    out: &mut String,
    inputs: usize,
    outputs: usize,
    gates: usize,
) -> Result<(), AllocError>
    requires { inputs + gates ≤ circuit_limit }
    ensures { OnOk result (string_bytes out.new ≡ string_bytes out.old ++ header_text (codes "aag ") inputs outputs gates) }
{
    let top = inputs + gates;
    writeln!(out, "aag {top} {inputs} 0 {outputs} {gates}")
}

/// The first line in binary.
fn put_binary_header(
    out: &mut String,
    inputs: usize,
    outputs: usize,
    gates: usize,
) -> Result<(), AllocError>
    requires { inputs + gates ≤ circuit_limit }
    ensures { OnOk result (string_bytes out.new ≡ string_bytes out.old ++ header_text (codes "aig ") inputs outputs gates) }
{
    let top = inputs + gates;
    writeln!(out, "aig {top} {inputs} 0 {outputs} {gates}")
}

fn put_number(out: &mut String, number: u64) -> Result<(), AllocError>
    ensures { OnOk result (string_bytes out.new ≡ string_bytes out.old ++ number_text number) }
{
    writeln!(out, "{number}")
}

fn put_inputs(
    out: &mut String,
    variables: &Variables,
    ports: &[InputPort],
) -> Result<(), AllocError>
    ensures { OnOk result (string_bytes out.new ≡ string_bytes out.old ++ flat_map (input_text (place_in variables.now)) ports.now) }
{
    for port in ports {
        put_number(out, plain_literal(variables, port.wire.0))?;
    }
    Ok(())
}

fn put_outputs(
    out: &mut String,
    variables: &Variables,
    ports: &[OutputPort],
) -> Result<(), AllocError>
    ensures { OnOk result (string_bytes out.new ≡ string_bytes out.old ++ flat_map (output_text (place_in variables.now)) ports.now) }
{
    for port in ports {
        put_number(out, literal(variables, port.source))?;
    }
    Ok(())
}

fn put_gate(out: &mut String, gate: Literals) -> Result<(), AllocError>
    ensures { OnOk result (string_bytes out.new ≡ string_bytes out.old ++ gate_text (literals_view gate)) }
{
    let Literals {
        target,
        first,
        second,
    } = gate;
    writeln!(out, "{target} {first} {second}")
}

fn put_gates(
    out: &mut String,
    variables: &Variables,
    equations: &[Equation],
) -> Result<(), AllocError>
    ensures { OnOk result (string_bytes out.new ≡ string_bytes out.old ++ flat_map (λ e. gate_text (gate_of (place_in variables.now) e)) (equation_views equations.now)) }
{
    for equation in equations {
        put_gate(out, literals_of(variables, equation))?;
    }
    Ok(())
}

/// A number in at most five groups of seven bits, as few as possible.
fn put_groups(out: &mut Vec<u8>, number: u64) -> Result<(), AllocError>
    ensures { OnOk result (out.new.items ≡ out.old.items ++ groups_text 5 number) }
{
    let mut rest = number;
    for group in 0..5u8 {
        if rest < 128 {
            out.push(rest as u8)?;
            return Ok(());
        }
        out.push(128 + (rest % 128) as u8)?;
        rest /= 128;
    }
    Ok(())
}

fn put_delta(out: &mut Vec<u8>, gate: Literals) -> Result<(), AllocError>
    ensures { OnOk result (out.new.items ≡ out.old.items ++ delta_text (literals_view gate)) }
{
    put_groups(out, gate.target.saturating_sub(gate.first))?;
    put_groups(out, gate.first.saturating_sub(gate.second))?;
    Ok(())
}

fn put_deltas(
    out: &mut Vec<u8>,
    variables: &Variables,
    equations: &[Equation],
) -> Result<(), AllocError>
    ensures { OnOk result (out.new.items ≡ out.old.items ++ flat_map (λ e. delta_text (gate_of (place_in variables.now) e)) (equation_views equations.now)) }
{
    for equation in equations {
        put_delta(out, literals_of(variables, equation))?;
    }
    Ok(())
}

/// The line that names the input at a place, if it has a name.
fn put_input_symbol(out: &mut String, place: usize, name: &Option<Name>) -> Result<(), AllocError>
    ensures text { OnOk result (string_bytes out.new ≡ string_bytes out.old ++ symbol_text 105 place name.now) }
    ensures name { OnOk result (IfSome name.now IsName) }
{
    match name {
        Some(name) => {
            let name = name.as_str();
            writeln!(out, "i{place} {name}")
        }
        None => Ok(()),
    }
}

/// The line that names the output at a place, if it has a name.
fn put_output_symbol(out: &mut String, place: usize, name: &Option<Name>) -> Result<(), AllocError>
    ensures text { OnOk result (string_bytes out.new ≡ string_bytes out.old ++ symbol_text 111 place name.now) }
    ensures name { OnOk result (IfSome name.now IsName) }
{
    match name {
        Some(name) => {
            let name = name.as_str();
            writeln!(out, "o{place} {name}")
        }
        None => Ok(()),
    }
}

fn put_input_symbols(out: &mut String, ports: &[InputPort]) -> Result<(), AllocError>
    ensures text { OnOk result (string_bytes out.new ≡ string_bytes out.old ++ symbols_text 105 0 (input_names ports.now)) }
    ensures names { OnOk result (HasNames (input_names ports.now)) }
{
    for (place, port) in ports.iter().enumerate() {
        put_input_symbol(out, place, &port.name)?;
    }
    Ok(())
}

fn put_output_symbols(out: &mut String, ports: &[OutputPort]) -> Result<(), AllocError>
    ensures text { OnOk result (string_bytes out.new ≡ string_bytes out.old ++ symbols_text 111 0 (output_names ports.now)) }
    ensures names { OnOk result (HasNames (output_names ports.now)) }
{
    for (place, port) in ports.iter().enumerate() {
        put_output_symbol(out, place, &port.name)?;
    }
    Ok(())
}

/// The names of the ports.
fn put_names(out: &mut String, circuit: &Circuit) -> Result<(), AllocError>
    ensures text { OnOk result (string_bytes out.new ≡ string_bytes out.old ++ names_text circuit.now) }
    ensures inputs { OnOk result (HasNames (input_names circuit.now.inputs)) }
    ensures outputs { OnOk result (HasNames (output_names circuit.now.outputs)) }
{
    put_input_symbols(out, circuit.inputs())?;
    put_output_symbols(out, circuit.outputs())?;
    Ok(())
}

/// The text in ASCII, up to the gates.
fn put_ports(out: &mut String, variables: &Variables, circuit: &Circuit) -> Result<(), AllocError>
    requires { IsWritable circuit.now }
    ensures { OnOk result (string_bytes out.new ≡ string_bytes out.old ++ ports_by (place_in variables.now) circuit.now) }
{
    put_ascii_header(
        out,
        circuit.inputs().len(),
        circuit.outputs().len(),
        circuit.equations().len(),
    )?;
    put_inputs(out, variables, circuit.inputs())?;
    put_outputs(out, variables, circuit.outputs())
}

/// The text in ASCII from the gates on.
fn put_rest(out: &mut String, variables: &Variables, circuit: &Circuit) -> Result<(), AllocError>
    ensures text { OnOk result (string_bytes out.new ≡ string_bytes out.old ++ gates_by (place_in variables.now) circuit.now) }
    ensures inputs { OnOk result (HasNames (input_names circuit.now.inputs)) }
    ensures outputs { OnOk result (HasNames (output_names circuit.now.outputs)) }
{
    put_gates(out, variables, circuit.equations())?;
    put_names(out, circuit)?;
    Ok(())
}

/// The text in binary, up to the gates.
fn put_head(out: &mut String, variables: &Variables, circuit: &Circuit) -> Result<(), AllocError>
    requires { IsWritable circuit.now }
    ensures { OnOk result (string_bytes out.new ≡ string_bytes out.old ++ head_by (place_in variables.now) circuit.now) }
{
    put_binary_header(
        out,
        circuit.inputs().len(),
        circuit.outputs().len(),
        circuit.equations().len(),
    )?;
    put_outputs(out, variables, circuit.outputs())
}

/// The text in binary from the gates on.
fn put_tail(
    alloc: Global,
    out: &mut Vec<u8>,
    variables: &Variables,
    circuit: &Circuit,
) -> Result<(), AllocError>
    ensures text { OnOk result (out.new.items ≡ out.old.items ++ tail_by (place_in variables.now) circuit.now) }
    ensures inputs { OnOk result (HasNames (input_names circuit.now.inputs)) }
    ensures outputs { OnOk result (HasNames (output_names circuit.now.outputs)) }
{
    put_deltas(out, variables, circuit.equations())?;
    let mut names = String::new(alloc);
    put_names(&mut names, circuit)?;
    out.extend_from_slice(names.as_bytes())?;
    Ok(())
}

/// Writes a circuit in the ASCII form of AIGER, with the names of its ports.
///
/// `alloc` is where the bytes are kept. Inputs are variables from 1 on and gates the next ones, in the order of the
/// circuit, whatever its wires' numbers are; the greater operand literal of each gate stands first. Expected time and
/// memory are linear in the size of the circuit.
///
/// # Errors
/// `AllocError` where memory runs out.
pub fn write_ascii(alloc: Global, circuit: &Circuit) -> Result<Vec<u8>, AllocError>
    // Each equation is an And of two operands, and stands after those it uses; they aren't too many.
    requires { IsWritable circuit.now }
    // The bytes are the circuit's text.
    ensures text { IfOk result (λ v. v.items ≡ ascii_text circuit.now) }
    // They mean a circuit with the same names, and the same outputs under each assignment of the inputs.
    ensures means { IfOk result (λ v. MeansSame v.items circuit.now) }
{
    let variables = variables_of(alloc, circuit)?;
    let mut out = String::new(alloc);
    put_ports(&mut out, &variables, circuit)?;
    put_rest(&mut out, &variables, circuit)?;
    Ok(out.into_bytes())
}

/// Writes a circuit in the binary form of AIGER, with the names of its ports.
///
/// `alloc` is where the bytes are kept. Inputs are variables from 1 on and gates the next ones, in the order of the
/// circuit, whatever its wires' numbers are; differences take as few bytes as they can. Expected time and memory are
/// linear in the size of the circuit.
///
/// # Errors
/// `AllocError` where memory runs out.
pub fn write_binary(alloc: Global, circuit: &Circuit) -> Result<Vec<u8>, AllocError>
    // Each equation is an And of two operands, and stands after those it uses; they aren't too many.
    requires { IsWritable circuit.now }
    // The bytes are the circuit's text.
    ensures text { IfOk result (λ v. v.items ≡ binary_text circuit.now) }
    // They mean a circuit with the same names, and the same outputs under each assignment of the inputs.
    ensures means { IfOk result (λ v. MeansSame v.items circuit.now) }
{
    let variables = variables_of(alloc, circuit)?;
    let mut head = String::new(alloc);
    put_head(&mut head, &variables, circuit)?;
    let mut out = head.into_bytes();
    put_tail(alloc, &mut out, &variables, circuit)?;
    Ok(out)
}
