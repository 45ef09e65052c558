//! The inputs and outputs of a network's circuit.

ghost use Rattle.std.specs.Prelude.{◌≡◌, ◌≤◌, ℕ, length, map, zip, option_map, IfOk, IfSome};
ghost use Rattle.lnet_edge.specs.Names.{IsName};
ghost use Rattle.lnet_export.specs.Exported.{input_port, output_port};

use crate::equations::ref_of;
use lnet_edge::{InputPort, Name, OutputPort, Wire};
use lnet_gates::Gates;
use lnet_names::Names;
use lnet_network::Network;
use std::alloc::{AllocError, Global};

/// A copy of a name, where there is one.
fn copy_of(alloc: Global, name: Option<&str>) -> Result<Option<Name>, AllocError>
    requires { IfSome name (λ s. IsName s.now) }
    ensures { IfOk result (λ copy. copy ≡ option_map (λ s. s.now) name.entry) }
{
    match name {
        Some(text) => Ok(Some(Name::new(String::from_str(alloc, text)?))),
        None => Ok(None),
    }
}

/// The inputs in order, each with its name.
pub(crate) fn input_ports<G: Gates>(
    alloc: Global,
    net: &Network<G>,
    names: &Names,
) -> Result<Vec<InputPort>, AllocError>
    requires { length names.now.inputs ≡ length net.now.core.network.inputs }
    ensures { IfOk result (λ ports. ports.items ≡ map input_port (zip net.now.core.network.inputs names.now.inputs)) }
{
    let mut ports = Vec::new(alloc);
    for k in 0..net.input_count() {
        if let Some(node) = net.input_at(k) {
            let name = copy_of(alloc, names.input_name(k))?;
            ports.push(InputPort {
                wire: Wire(node.0),
                name,
            })?;
        }
    }
    Ok(ports)
}

/// The outputs in order, each with its name.
pub(crate) fn output_ports<G: Gates>(
    alloc: Global,
    net: &Network<G>,
    names: &Names,
) -> Result<Vec<OutputPort>, AllocError>
    requires { length names.now.outputs ≡ length net.now.core.network.outputs }
    ensures { IfOk result (λ ports. ports.items ≡ map (output_port net.now.core.network) (zip net.now.core.network.outputs names.now.outputs)) }
{
    let mut ports = Vec::new(alloc);
    for k in 0..net.output_count() {
        if let Some(signal) = net.output_at(k) {
            let name = copy_of(alloc, names.output_name(k))?;
            ports.push(OutputPort {
                source: ref_of(net, signal),
                name,
            })?;
        }
    }
    Ok(ports)
}
