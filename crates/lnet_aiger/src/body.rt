//! The lines of ports and gates.

ghost use Rattle.std.specs.Prelude.{◌≡◌, ◌+◌, ◌*◌, ◌≤◌, IfOk};
ghost use Rattle.lnet_edge.specs.CircuitLists.{equation_view};
ghost use Rattle.lnet_aiger.specs.Header.{numbers_of};
ghost use Rattle.lnet_aiger.specs.LineRules.{ref_of, equation_of, one_of, three_of, is_plain, is_within, input_line, output_line, gate_line};

use crate::header::numbers;
use lnet_edge::{Equation, Fault, InputPort, OutputPort, Rule, Wire, WireRef};
use smallvec::SmallVec;
use std::alloc::{AllocError, Global};

/// A gate by its literals.
#[derive(Clone, Copy)]
pub struct Gate {
    /// The gate's own literal.
    pub target: u32,
    /// The literal of the first operand.
    pub first: u32,
    /// The literal of the second operand.
    pub second: u32,
}

fn reference(literal: u32) -> WireRef
    ensures { result ≡ ref_of literal }
{
    WireRef {
        wire: Wire(literal / 2),
        complement: literal % 2 == 1,
    }
}

/// The number of a line that is one number.
fn one_number(line: &[u8]) -> Result<u32, Fault>
    ensures { result ≡ one_of (numbers_of line.now) }
{
    let Some(numbers) = numbers(line) else {
        return Err(Fault::Syntax);
    };
    match numbers.as_slice() {
        [number] => Ok(*number),
        _ => Err(Fault::Syntax),
    }
}

/// The gate of a line that is three numbers.
fn three_numbers(line: &[u8]) -> Result<Gate, Fault>
    ensures { result ≡ three_of (numbers_of line.now) }
{
    let Some(numbers) = numbers(line) else {
        return Err(Fault::Syntax);
    };
    match numbers.as_slice() {
        [target, first, second] => Ok(Gate {
            target: *target,
            first: *first,
            second: *second,
        }),
        _ => Err(Fault::Syntax),
    }
}

fn is_plain(top: u32, literal: u32) -> bool
    ensures { result ≡ is_plain top literal }
{
    literal % 2 == 0 && literal >= 2 && u64::from(literal) <= 2 * u64::from(top)
}

fn is_within(top: u32, literal: u32) -> bool
    ensures { result ≡ is_within top literal }
{
    u64::from(literal) <= 2 * u64::from(top) + 1
}

/// The rule of an input's line.
#[tactic(auto, unfolding(crate::specs::LineRules::input_line))]
pub fn input(top: u32, line: &[u8]) -> Result<InputPort, Fault>
    ensures { result ≡ input_line top line.now }
{
    let literal = one_number(line)?;
    if is_plain(top, literal) {
        Ok(InputPort {
            wire: Wire(literal / 2),
            name: None,
        })
    } else {
        Err(Fault::Literal)
    }
}

/// The rule of an output's line.
#[tactic(auto, unfolding(crate::specs::LineRules::output_line))]
pub fn output(top: u32, line: &[u8]) -> Result<OutputPort, Fault>
    ensures { result ≡ output_line top line.now }
{
    let literal = one_number(line)?;
    if is_within(top, literal) {
        Ok(OutputPort {
            source: reference(literal),
            name: None,
        })
    } else {
        Err(Fault::Literal)
    }
}

/// The rule of a gate's line.
#[tactic(auto, unfolding(crate::specs::LineRules::gate_line))]
pub fn gate_in(top: u32, line: &[u8]) -> Result<Gate, Fault>
    ensures { result ≡ gate_line top line.now }
{
    let gate = three_numbers(line)?;
    if is_plain(top, gate.target) && is_within(top, gate.first) && is_within(top, gate.second) {
        Ok(gate)
    } else {
        Err(Fault::Literal)
    }
}

/// The equation of a gate: an And of its two operands, in the order of the file.
pub fn equation(alloc: Global, gate: Gate) -> Result<Equation, AllocError>
    ensures { IfOk result (λ e. equation_view e ≡ equation_of gate) }
{
    let operands = SmallVec::from_slice(alloc, &[reference(gate.first), reference(gate.second)])?;
    Ok(Equation {
        target: Wire(gate.target / 2),
        rule: Rule::And(false),
        operands,
    })
}
