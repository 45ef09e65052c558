//! Facts that the types of a circuit's parts keep. The bodies change nothing and answer nothing: each reads what a type keeps, so
//! that a contract can say it.

ghost use Rattle.std.specs.List.{AllByRecursion};
ghost use Rattle.lnet_edge.specs.CircuitLists.{equation_view, equation_views};
ghost use Rattle.lnet_edge.specs.Wires.{IsCircuit};
ghost use Rattle.lnet_benchtext.specs.Written.{HasNames};
ghost use Rattle.lnet_benchmeans.specs.Driving.{HasWires};
ghost use Rattle.lnet_kept.specs.Kept.{IsKeptInput, IsKeptOutput, IsKeptEquation};

use lnet_edge::{Circuit, Equation, InputPort, OutputPort};

fn keep_input(port: &InputPort)
    ensures { IsKeptInput port.now }
{
    let _wire = port.wire.0;
    if let Some(name) = &port.name {
        let _text = name.as_str();
    }
}

fn keep_inputs(ports: &[InputPort])
    ensures { AllByRecursion IsKeptInput ports.now }
{
    for port in ports {
        keep_input(port);
    }
}

fn keep_output(port: &OutputPort)
    ensures { IsKeptOutput port.now }
{
    if let Some(name) = &port.name {
        let _text = name.as_str();
    }
}

fn keep_outputs(ports: &[OutputPort])
    ensures { AllByRecursion IsKeptOutput ports.now }
{
    for port in ports {
        keep_output(port);
    }
}

fn keep_equation(equation: &Equation)
    ensures { IsKeptEquation (equation_view equation.now) }
{
    let _target = equation.target.0;
}

fn keep_equations(equations: &[Equation])
    ensures { AllByRecursion IsKeptEquation (equation_views equations.now) }
{
    for equation in equations {
        keep_equation(equation);
    }
}

/// Says what the types of a circuit and its parts keep; it changes nothing and answers nothing.
///
/// Each port and each equation is read once.
pub fn keep(circuit: &Circuit)
    // What names of ports there are have one byte or more, each from 32 to 126.
    ensures names { HasNames circuit.now }
    // Each wire that is driven has a number of 32 bits.
    ensures wires { HasWires circuit.now }
    // The circuit keeps the rules of circuits.
    ensures rules { IsCircuit circuit.now }
{
    keep_inputs(circuit.inputs());
    keep_outputs(circuit.outputs());
    keep_equations(circuit.equations());
}
