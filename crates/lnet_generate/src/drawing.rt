//! Uses, gates and ports, drawn from a generator's words.

ghost use Rattle.std.specs.Prelude.{◌≡◌, ◌<◌, ◌≤◌, ◌+◌, length, map, IfOk};
ghost use Rattle.lnet_edge.specs.CircuitLists.{equation_view, equation_views};
ghost use Rattle.lnet_edge.specs.Circuits.{wire_limit};
ghost use Rattle.lnet_generate.specs.Drawing.{draw_use, draw_uses, draw_rule, operand_count, draw_gate, draw_gates, inputs_from, shown};

use lnet_edge::{Equation, InputPort, OutputPort, Rule, Wire, WireRef};
use lnet_gates::Kind;
use rand_core::Rng;
use smallvec::SmallVec;
use std::alloc::{AllocError, Global};

/// A use of one of the last 256 of so many wires.
fn draw_use<R: Rng>(rng: &mut R, wires: u32) -> WireRef
    requires { 0 < wires }
    ensures { (result, R.stream rng.new) ≡ draw_use wires (R.stream rng.old) }
{
    let word = rng.next_u32();
    WireRef {
        wire: Wire(wires - word / 2 % wires.min(256)),
        complement: word % 2 == 1,
    }
}

/// So many operands, from first to last.
fn draw_operands<R: Rng>(
    alloc: Global,
    rng: &mut R,
    count: u32,
    wires: u32,
) -> Result<SmallVec<WireRef, 4>, AllocError>
    requires { 0 < wires }
    ensures { IfOk result (λ operands. (operands.items, R.stream rng.new) ≡ draw_uses count wires (R.stream rng.old)) }
{
    let mut operands = SmallVec::new(alloc);
    for place in 0..count {
        operands.push(draw_use(rng, wires))?;
    }
    Ok(operands)
}

/// The rule of a gate.
fn draw_rule<R: Rng>(rng: &mut R, kind: Kind) -> Rule
    ensures { (result, R.stream rng.new) ≡ draw_rule kind (R.stream rng.old) }
{
    match kind {
        Kind::Aig => Rule::And(false),
        Kind::Mig => Rule::Maj(false),
        Kind::Xag | Kind::Klut => {
            if rng.next_u32() % 2 == 1 {
                Rule::Xor(false)
            } else {
                Rule::And(false)
            }
        }
    }
}

/// How many operands a gate has.
fn operand_count(kind: Kind) -> u32
    ensures { result ≡ operand_count kind }
{
    match kind {
        Kind::Aig | Kind::Xag | Kind::Klut => 2,
        Kind::Mig => 3,
    }
}

/// A gate that sees so many wires, on the next one.
fn draw_gate<R: Rng>(
    alloc: Global,
    rng: &mut R,
    kind: Kind,
    wires: u32,
) -> Result<Equation, AllocError>
    requires some { 0 < wires }
    requires few { wires < wire_limit }
    ensures { IfOk result (λ e. (equation_view e, R.stream rng.new) ≡ draw_gate kind wires (R.stream rng.old)) }
{
    let rule = draw_rule(rng, kind);
    let operands = draw_operands(alloc, rng, operand_count(kind), wires)?;
    Ok(Equation {
        target: Wire(wires + 1),
        rule,
        operands,
    })
}

/// So many gates on the wires behind the inputs, each of which sees the wires before it.
pub(crate) fn draw_gates<R: Rng>(
    alloc: Global,
    rng: &mut R,
    kind: Kind,
    inputs: u32,
    gates: u32,
) -> Result<Vec<Equation>, AllocError>
    requires some { 0 < inputs }
    requires few { inputs + gates < wire_limit }
    ensures { IfOk result (λ es. (equation_views es.items, R.stream rng.new) ≡ draw_gates kind gates inputs (R.stream rng.old)) }
{
    let mut equations = Vec::new(alloc);
    for gate in 0..gates {
        equations.push(draw_gate(alloc, rng, kind, inputs + gate)?)?;
    }
    Ok(equations)
}

/// So many outputs, each of one of the last 256 wires.
pub(crate) fn draw_outputs<R: Rng>(
    alloc: Global,
    rng: &mut R,
    outputs: u32,
    wires: u32,
) -> Result<Vec<OutputPort>, AllocError>
    requires { 0 < wires }
    ensures { IfOk result (λ ports. ports.items ≡ map shown (draw_uses outputs wires (R.stream rng.old)).0) }
{
    let mut ports = Vec::new(alloc);
    for place in 0..outputs {
        ports.push(OutputPort {
            source: draw_use(rng, wires),
            name: None,
        })?;
    }
    Ok(ports)
}

/// So many inputs, on the wires from 1 on.
pub(crate) fn number_inputs(alloc: Global, inputs: u32) -> Result<Vec<InputPort>, AllocError>
    requires { inputs < wire_limit }
    ensures { IfOk result (λ ports. ports.items ≡ inputs_from 1 inputs) }
{
    let mut ports = Vec::new(alloc);
    for place in 0..inputs {
        ports.push(InputPort {
            wire: Wire(place + 1),
            name: None,
        })?;
    }
    Ok(ports)
}
