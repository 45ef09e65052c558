//! The names of a circuit's ports.

ghost use Rattle.std.specs.Prelude.{◌≡◌, map, IfOk};
ghost use Rattle.lnet_build.specs.Built.{names_of as port_names};

use lnet_edge::{Circuit, InputPort, Name, OutputPort};
use lnet_names::Names;
use std::alloc::{AllocError, Global};

/// A copy of a name, where there is one.
fn copy_of(alloc: Global, name: &Option<Name>) -> Result<Option<Name>, AllocError>
    ensures { IfOk result (λ copy. copy ≡ name.now) }
{
    match name {
        Some(name) => {
            let text = String::from_str(alloc, name.as_str())?;
            Ok(Some(Name::new(text)))
        }
        None => Ok(None),
    }
}

/// The names of the inputs, in order.
fn input_names(alloc: Global, ports: &[InputPort]) -> Result<Vec<Option<Name>>, AllocError>
    ensures { IfOk result (λ names. names.items ≡ map (λ p. p.name) ports.now) }
{
    let mut names = Vec::new(alloc);
    for port in ports {
        names.push(copy_of(alloc, &port.name)?)?;
    }
    Ok(names)
}

/// The names of the outputs, in order.
fn output_names(alloc: Global, ports: &[OutputPort]) -> Result<Vec<Option<Name>>, AllocError>
    ensures { IfOk result (λ names. names.items ≡ map (λ p. p.name) ports.now) }
{
    let mut names = Vec::new(alloc);
    for port in ports {
        names.push(copy_of(alloc, &port.name)?)?;
    }
    Ok(names)
}

/// The names of a circuit's inputs and outputs.
pub(crate) fn names_of(alloc: Global, circuit: &Circuit) -> Result<Names, AllocError>
    ensures { IfOk result (λ names. names ≡ port_names circuit.now) }
{
    let _circuit = circuit.equations();
    let inputs = input_names(alloc, circuit.inputs())?;
    let outputs = output_names(alloc, circuit.outputs())?;
    Ok(Names::new(inputs, outputs))
}
