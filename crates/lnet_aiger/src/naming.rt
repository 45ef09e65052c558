//! Names of ports, from the lines of symbols.

ghost use Rattle.std.specs.Prelude.{◌≡◌, IfOk, IsTrue};
ghost use Rattle.lnet_edge.specs.Names.{IsName};
ghost use Rattle.lnet_lines.specs.Lines.{lines_of};
ghost use Rattle.lnet_aiger.specs.Chain.{at_line, GivesLeft};
ghost use Rattle.lnet_aiger.specs.Symbols.{is_name, name_input, name_output, name_port, naming_line};
ghost use Rattle.lnet_aiger.specs.Reading.{symbols_at};
ghost use Rattle.lnet_aiger.specs.Views.{symbol_view, ports_view};

use crate::fault::malformed;
use crate::symbol::{Side, Symbol, begins_comment, symbol_in};
use lnet_edge::{Fault, InputPort, Name, OutputPort, ReadError};
use lnet_lines::Lines;
use std::alloc::{AllocError, Global};

/// The ports of a circuit.
#[derive(Drop)]
pub struct PortLists {
    /// The inputs in order.
    pub inputs: Vec<InputPort>,
    /// The outputs in order.
    pub outputs: Vec<OutputPort>,
}

fn name_of(alloc: Global, text: &str) -> Result<Name, AllocError>
    requires { IsTrue (is_name text.now) }
    ensures { IfOk result (λ n. n ≡ text.now) }
{
    let text = String::from_str(alloc, text)?;
    Ok(Name::new(text))
}

#[tactic(auto, unfolding(crate::specs::Symbols::name_input))]
fn name_input(
    alloc: Global,
    line: u32,
    symbol: &Symbol<'_>,
    ports: &mut [InputPort],
) -> Result<(), ReadError>
    requires { IsTrue (is_name symbol.now.name.now) }
    ensures { GivesLeft result ports.new (at_line line (name_input ports.old symbol.now.place symbol.now.name.now)) }
{
    let place = symbol.place as usize;
    if place >= ports.len() {
        return Err(malformed(line, Fault::Symbol));
    }
    let port = &mut ports[place];
    if port.name.is_some() {
        return Err(malformed(line, Fault::Symbol));
    }
    port.name = Some(name_of(alloc, symbol.name)?);
    Ok(())
}

#[tactic(auto, unfolding(crate::specs::Symbols::name_output))]
fn name_output(
    alloc: Global,
    line: u32,
    symbol: &Symbol<'_>,
    ports: &mut [OutputPort],
) -> Result<(), ReadError>
    requires { IsTrue (is_name symbol.now.name.now) }
    ensures { GivesLeft result ports.new (at_line line (name_output ports.old symbol.now.place symbol.now.name.now)) }
{
    let place = symbol.place as usize;
    if place >= ports.len() {
        return Err(malformed(line, Fault::Symbol));
    }
    let port = &mut ports[place];
    if port.name.is_some() {
        return Err(malformed(line, Fault::Symbol));
    }
    port.name = Some(name_of(alloc, symbol.name)?);
    Ok(())
}

#[tactic(auto, unfolding(crate::specs::Symbols::naming_line))]
fn read_symbol(
    alloc: Global,
    number: u32,
    line: &[u8],
    ports: &mut PortLists,
) -> Result<(), ReadError>
    ensures { GivesLeft result (ports_view ports.new) (at_line number (naming_line (ports_view ports.old) line.now)) }
{
    match symbol_in(line) {
        Ok(symbol) => match symbol.side {
            Side::Input => name_input(alloc, number, &symbol, &mut ports.inputs),
            Side::Output => name_output(alloc, number, &symbol, &mut ports.outputs),
        },
        Err(kind) => Err(malformed(number, kind)),
    }
}

/// Names the ports by the symbols that are left, up to the end or a comment.
pub fn read_symbols(
    alloc: Global,
    lines: &mut Lines<'_>,
    ports: &mut PortLists,
) -> Result<(), ReadError>
    ensures { GivesLeft result (ports_view ports.new) (symbols_at lines.old.number (lines_of lines.old.rest) (ports_view ports.old)) }
{
    loop {
        let number = lines.number();
        let Some(line) = lines.next_line() else {
            return Ok(());
        };
        if begins_comment(line) {
            return Ok(());
        }
        read_symbol(alloc, number, line, ports)?;
    }
}
