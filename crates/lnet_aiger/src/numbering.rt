//! The variables of a circuit's wires.

ghost use Rattle.std.specs.Prelude.{◌≡◌, ◌++◌, ◌∷◌, [], ◌+◌, ◌*◌, ◌<◌, ◌≤◌, List, ℕ, length, max, min, IfOk, OnOk};
ghost use Rattle.lnet_edge.specs.CircuitLists.{equation_view, equation_views};
ghost use Rattle.lnet_edge.specs.Wires.{input_wires, targets, driven_wires, IsCircuit};
ghost use Rattle.lnet_edge.specs.Circuits.{circuit_limit};
ghost use Rattle.lnet_aiger.specs.Numberings.{KnowsPlaces, place_in, literals_view};
ghost use Rattle.lnet_aiger.specs.Texts.{literal_of, gate_of};

use lnet_edge::{Circuit, Equation, InputPort, WireRef};
use std::alloc::{AllocError, Global};
use std::collections::HashMap;

/// From each wire that is driven: its variable.
pub type Variables = HashMap<u32, u32>;

/// The variables of a circuit's wires: 0 for the constant, then the inputs from 1 on, then the equations in order.
pub fn variables_of(alloc: Global, circuit: &Circuit) -> Result<Variables, AllocError>
    requires { length circuit.now.inputs + length circuit.now.equations ≤ circuit_limit }
    ensures places { IfOk result (λ m. KnowsPlaces m (driven_wires circuit.now)) }
    // What the type keeps of the whole circuit.
    ensures circuit { OnOk result (IsCircuit circuit.now) }
{
    let mut variables = HashMap::new(alloc);
    number_wire(&mut variables, 0, 0)?;
    number_inputs(&mut variables, circuit.inputs())?;
    let first = circuit.inputs().len() as u32 + 1;
    number_equations(&mut variables, first, circuit.equations())?;
    Ok(variables)
}

/// Gives a wire a variable, unless it has one.
fn number_wire(variables: &mut Variables, wire: u32, variable: u32) -> Result<(), AllocError>
    ensures { OnOk result ((xs : List ℕ) → KnowsPlaces variables.old xs → variable ≡ length xs → KnowsPlaces variables.new (xs ++ wire ∷ [])) }
{
    if !variables.contains_key(&wire) {
        variables.insert(wire, variable)?;
    }
    Ok(())
}

fn number_inputs(variables: &mut Variables, inputs: &[InputPort]) -> Result<(), AllocError>
    requires { length inputs.now ≤ circuit_limit }
    ensures { OnOk result ((xs : List ℕ) → KnowsPlaces variables.old xs → length xs ≡ 1 → KnowsPlaces variables.new (xs ++ input_wires inputs.now)) }
{
    for (place, input) in inputs.iter().enumerate() {
        number_wire(variables, input.wire.0, place as u32 + 1)?;
    }
    Ok(())
}

fn number_equations(
    variables: &mut Variables,
    first: u32,
    equations: &[Equation],
) -> Result<(), AllocError>
    requires { first + length equations.now ≤ 1048577 }
    ensures { OnOk result ((xs : List ℕ) → KnowsPlaces variables.old xs → length xs ≡ first → KnowsPlaces variables.new (xs ++ targets (equation_views equations.now))) }
{
    for (place, equation) in equations.iter().enumerate() {
        number_wire(variables, equation.target.0, first + place as u32)?;
    }
    Ok(())
}

/// The variable of a wire, 0 where it has none.
fn variable(variables: &Variables, wire: u32) -> u64
    ensures place { result ≡ place_in variables.now wire }
    ensures bound { result < 4294967296 }
{
    let variable = match variables.get(&wire) {
        Some(variable) => *variable,
        None => 0,
    };
    u64::from(variable)
}

/// The literal of a wire that isn't complemented.
pub fn plain_literal(variables: &Variables, wire: u32) -> u64
    ensures { result ≡ 2 * place_in variables.now wire }
{
    2 * variable(variables, wire)
}

/// The literal of a use of a wire.
pub fn literal(variables: &Variables, reference: WireRef) -> u64
    ensures { result ≡ literal_of (place_in variables.now) reference }
{
    let plain = 2 * variable(variables, reference.wire.0);
    if reference.complement {
        plain + 1
    } else {
        plain
    }
}

/// A gate by its literals.
#[derive(Clone, Copy)]
pub struct Literals {
    /// The gate's own literal.
    pub target: u64,
    /// The greater literal of the operands.
    pub first: u64,
    /// The lesser literal of the operands.
    pub second: u64,
}

/// The literals of an equation of two operands.
pub fn literals_of(variables: &Variables, equation: &Equation) -> Literals
    ensures { literals_view result ≡ gate_of (place_in variables.now) (equation_view equation.now) }
{
    let target = plain_literal(variables, equation.target.0);
    match equation.operands.as_slice() {
        [first, second] => {
            let first = literal(variables, *first);
            let second = literal(variables, *second);
            Literals {
                target,
                first: first.max(second),
                second: first.min(second),
            }
        }
        _ => Literals {
            target,
            first: 0,
            second: 0,
        },
    }
}
