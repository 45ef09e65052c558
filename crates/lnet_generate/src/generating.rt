//! Generating a circuit.

ghost use Rattle.std.specs.Prelude.{◌≡◌, ◌<◌, ◌≤◌, ◌+◌, IfOk};
ghost use Rattle.lnet_edge.specs.Plain.{IsPlain};
ghost use Rattle.lnet_generate.specs.Drawing.{drawn, generated};

use crate::drawing::{draw_gates, draw_outputs, number_inputs};
use lnet_edge::{Circuit, CircuitError};
use lnet_gates::Kind;
use rand_core::Rng;
use rand_pcg::Lcg64Xsh32;
use std::alloc::{AllocError, Global};

/// The circuit of so many inputs, gates and outputs by the generator's words.
fn draw_circuit<R: Rng>(
    alloc: Global,
    rng: &mut R,
    kind: Kind,
    inputs: u32,
    gates: u32,
    outputs: u32,
) -> Result<Circuit, AllocError>
    requires inputs { (1 ≤ inputs) × (inputs ≤ 4096) }
    requires gates { gates ≤ 262144 }
    requires outputs { outputs ≤ 4096 }
    ensures { IfOk result (λ c. c ≡ drawn kind inputs gates outputs (R.stream rng.old)) }
{
    let ports = number_inputs(alloc, inputs)?;
    let equations = draw_gates(alloc, rng, kind, inputs, gates)?;
    let shown = draw_outputs(alloc, rng, outputs, inputs + gates)?;
    match Circuit::new(alloc, ports, shown, equations) {
        Ok(circuit) => Ok(circuit),
        Err(CircuitError::NoMemory) => Err(AllocError),
        // No wire is used before it is driven.
        Err(CircuitError::Fault(_)) => unreachable!(),
    }
}

/// The circuit that is generated from a number.
///
/// `alloc` is where the circuit is kept. It has `inputs` inputs, from 1 to 4,096, on the wires from 1 on; `gates` gates, at
/// most 262,144, on the wires behind them; and `outputs` outputs, at most 4,096. Nothing has a name. `start` is the number
/// that it is generated from. Each draw is the next word of the generator PCG XSH RR 64/32 (M. O'Neill, "PCG: A Family of
/// Simple Fast Space-Efficient Statistically Good Algorithms for Random Number Generation", 2014) on its stream 54. A gate
/// of `Aig` is an And of two operands, one of `Mig` a Maj of three, and one of `Xag` or `Klut` an And or a Xor of two, by a
/// draw of its own. An operand and an output is one draw, a use of one of the last 256 wires so far. Expected time and
/// memory are linear in the counts.
///
/// # Errors
/// `AllocError` where memory runs out.
pub fn generate(
    alloc: Global,
    kind: Kind,
    inputs: u32,
    gates: u32,
    outputs: u32,
    start: u64,
) -> Result<Circuit, AllocError>
    requires inputs { (1 ≤ inputs) × (inputs ≤ 4096) }
    requires gates { gates ≤ 262144 }
    requires outputs { outputs ≤ 4096 }
    // The circuit is that of the definition, draw by draw.
    ensures drawn { IfOk result (λ c. c ≡ generated kind inputs gates outputs start) }
    // Each equation is an And or a Xor of two operands or a Maj, and stands after those it uses.
    ensures plain { IfOk result (λ c. IsPlain c.equations) }
{
    let mut rng = Lcg64Xsh32::new(start, 54);
    let circuit = draw_circuit(alloc, &mut rng, kind, inputs, gates, outputs)?;
    Ok(circuit)
}
