//! What drives each wire.

ghost use Rattle.std.specs.Prelude.{◌≡◌, ◌&&◌, ◌++◌, [], ◌∷◌, ℕ, List, Some, length, is_some, IfOk};
ghost use Rattle.std.specs.List.{list_all};
ghost use Rattle.lnet_edge.specs.CircuitLists.{equation_view, equation_views};
ghost use Rattle.lnet_edge.specs.Wires.{input_wires, targets};
ghost use Rattle.lnet_edge.specs.Drivers.{driver_at, is_driven, drives_operands, place_in, KnowsWires, KnowsEquations};

use crate::circuit::{Equation, InputPort, OutputPort};
use std::alloc::{AllocError, Global};
use std::collections::HashMap;

/// From each wire that is driven: the place of the equation that drives it, None where an input or the constant does.
pub type Drivers = HashMap<u32, Option<usize>>;

/// The drivers of the wires, and whether some wire is driven twice. Of such a wire the last driver is kept.
pub fn drivers_of(
    alloc: Global,
    inputs: &[InputPort],
    equations: &[Equation],
) -> Result<(Drivers, bool), AllocError>
    ensures wires { IfOk result (λ r. KnowsWires r.0 r.1 (0 ∷ (input_wires inputs.now ++ targets (equation_views equations.now)))) }
    ensures equations { IfOk result (λ r. KnowsEquations r.0 r.1 (equation_views equations.now) (length equations.now)) }
{
    let mut drivers = HashMap::new(alloc);
    let inputs_twice = put_inputs(&mut drivers, inputs)?;
    let twice = put_equations(&mut drivers, inputs_twice, equations)?;
    Ok((drivers, twice))
}

/// Adds the constant and the inputs to an empty map, and says whether some wire is driven twice.
fn put_inputs(drivers: &mut Drivers, inputs: &[InputPort]) -> Result<bool, AllocError>
    requires { drivers.old.entries ≡ [] }
    ensures wires { IfOk result (λ twice. KnowsWires drivers.new twice (0 ∷ input_wires inputs.now)) }
    ensures equations { IfOk result (λ twice. (w k : ℕ) → driver_at drivers.new w ≡ Some (Some k) → ⊥) }
{
    let mut twice = false;
    drivers.insert(0, None)?;
    for input in inputs {
        let replaced = drivers.insert(input.wire.0, None)?;
        twice |= replaced.is_some();
    }
    Ok(twice)
}

/// Adds the equations, and says whether some wire is driven twice where `before` says it of the wires before.
fn put_equations(
    drivers: &mut Drivers,
    before: bool,
    equations: &[Equation],
) -> Result<bool, AllocError>
    requires { (w k : ℕ) → driver_at drivers.old w ≡ Some (Some k) → ⊥ }
    ensures wires { IfOk result (λ r. (xs : List ℕ) → KnowsWires drivers.old before xs → KnowsWires drivers.new r (xs ++ targets (equation_views equations.now))) }
    ensures equations { IfOk result (λ r. KnowsEquations drivers.new r (equation_views equations.now) (length equations.now)) }
{
    let mut twice = before;
    for (place, equation) in equations.iter().enumerate() {
        let replaced = drivers.insert(equation.target.0, Some(place))?;
        twice |= replaced.is_some();
    }
    Ok(twice)
}

/// Whether each wire that an output or an operand names is driven.
pub fn drive_all(drivers: &Drivers, outputs: &[OutputPort], equations: &[Equation]) -> bool
    ensures { result ≡ (list_all (λ p. is_driven drivers.now p.source.wire.0) outputs.now && list_all (λ e. drives_operands drivers.now (equation_view e)) equations.now) }
{
    drive_outputs(drivers, outputs) && drive_equations(drivers, equations)
}

fn drive_outputs(drivers: &Drivers, outputs: &[OutputPort]) -> bool
    ensures { result ≡ list_all (λ p. is_driven drivers.now p.source.wire.0) outputs.now }
{
    outputs
        .iter()
        .all(|output| drivers.contains_key(&output.source.wire.0))
}

fn drive_equations(drivers: &Drivers, equations: &[Equation]) -> bool
    ensures { result ≡ list_all (λ e. drives_operands drivers.now (equation_view e)) equations.now }
{
    equations
        .iter()
        .all(|equation| drive_operands(drivers, equation))
}

fn drive_operands(drivers: &Drivers, equation: &Equation) -> bool
    ensures { result ≡ drives_operands drivers.now (equation_view equation.now) }
{
    let operands = equation.operands.as_slice();
    operands
        .iter()
        .all(|operand| drivers.contains_key(&operand.wire.0))
}

/// The place of the equation that drives the wire; None where an input, the constant or nothing does.
pub fn place_of(drivers: &Drivers, wire: u32) -> Option<usize>
    ensures { result ≡ place_in (driver_at drivers.now wire) }
{
    match drivers.get(&wire) {
        Some(driver) => *driver,
        None => None,
    }
}
