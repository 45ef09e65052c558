//! The network of a circuit.
#![tactic(auto, using(lnet_hashed::proofs::KeptViews::bare_fit, lnet_hashed::proofs::KeptViews::bare_told))]

ghost use Rattle.std.specs.Prelude.{◌≡◌, ◌<◌, ◌≤◌, [], ℕ, Bool, All, IfOk, OnOk, Err, length};
ghost use Rattle.lnet_model.specs.Along.{Acyclic};
ghost use Rattle.lnet_model.specs.Changes.{IsGateAt};
ghost use Rattle.lnet_model.specs.Dags.{IsStored, NUMBERS};
ghost use Rattle.lnet_model.specs.Fanouts.{references};
ghost use Rattle.lnet_model.specs.Values.{network_outputs};
ghost use Rattle.lnet_hashed.specs.Strashed.{IsStrashed, of_kind};
ghost use Rattle.lnet_store.specs.StoreValues.{first_network};
ghost use Rattle.lnet_edge.specs.Values.{circuit_outputs};
ghost use Rattle.lnet_order.specs.Orders.{order_of};
ghost use Rattle.lnet_build.specs.Built.{IsBuilt, names_of as port_names, numbers_needed, unswept};
ghost use Rattle.lnet_build.specs.Signals.{FitsPlace};
ghost use Rattle.lnet_hashed.specs.Watches.{IsBare};

use crate::equations::build_equations;
use crate::naming::names_of;
use crate::ports::{add_inputs, add_outputs};
use lnet_edge::Circuit;
use lnet_gates::Gates;
use lnet_names::Names;
use lnet_network::Network;
use lnet_order::order;
use lnet_store::{AddError, NUMBER_LIMIT};
use std::alloc::Global;
use std::collections::HashMap;

/// Builds the network of a circuit in a network of node 0 alone without views, and tells the names of its inputs and outputs.
///
/// The inputs are the nodes from 1 on, in order. The equations that the outputs need are built after those of their operands: for
/// the outputs in order, and for each equation its operands from the first to the last, each once. Then the outputs are set, and
/// the gates that no output reaches are removed. The network has no views. It is handed in, since a call of another crate can't
/// hand out a network that it makes.
///
/// # Errors
/// `Full` exactly where a moment of this building needs more than 1,048,576 numbers, node 0 and the inputs included; the count of
/// inputs is compared before any is made. `NoMemory` where memory runs out. The network that was handed in is of no use then.
///
/// As many gates are made as the equations have operands and cells; what a gate costs `Network::gate` says. The rest is linear in
/// the circuit, in expectation.
pub fn build<G: Gates>(
    alloc: Global,
    net: &mut Network<G>,
    circuit: &Circuit,
) -> Result<Names, AddError>
    requires first { net.old.core.network ≡ of_kind G.KIND first_network }
    requires none { IsBare net.old.watch }
    ensures network { OnOk result (IsBuilt G.KIND circuit.now net.new.core.network) }
    ensures names { IfOk result (λ names. names ≡ port_names circuit.now) }
    ensures inputs { OnOk result (length net.new.core.network.inputs ≡ length circuit.now.inputs) }
    ensures outputs_count { OnOk result (length net.new.core.network.outputs ≡ length circuit.now.outputs) }
    ensures outputs { OnOk result ((a : ℕ → Bool) → network_outputs net.new.core.network a ≡ circuit_outputs circuit.now a) }
    ensures acyclic { OnOk result (Acyclic net.new.core.network) }
    ensures strashed { OnOk result (IsStrashed G.KIND net.new.core.network) }
    ensures tidy { OnOk result ((n : ℕ) → IsGateAt net.new.core.network n → 0 < references net.new.core.network n) }
    ensures views { OnOk result (IsBare net.new.watch) }
    ensures fits { OnOk result (numbers_needed G.KIND circuit.now ≤ NUMBERS) }
    ensures full { result ≡ Err AddError.Full → NUMBERS < numbers_needed G.KIND circuit.now }
{
    let _circuit = circuit.equations();
    let names = match names_of(alloc, circuit) {
        Ok(names) => names,
        Err(_) => return Err(AddError::NoMemory),
    };
    raise(alloc, net, circuit)?;
    net.sweep();
    let _swept = net.live_count();
    Ok(names)
}

/// Makes of the first network the circuit's, before the gates that no output reaches are removed.
fn raise<G: Gates>(alloc: Global, net: &mut Network<G>, circuit: &Circuit) -> Result<(), AddError>
    requires first { net.old.core.network ≡ of_kind G.KIND first_network }
    requires none { IsBare net.old.watch }
    ensures network { OnOk result (net.new.core.network ≡ unswept G.KIND circuit.now) }
    ensures stored { OnOk result (IsStored net.new.core.network) }
    ensures words { OnOk result (All (FitsPlace circuit.now.equations) (order_of circuit.now)) }
    ensures none { OnOk result (IsBare net.new.watch) }
    ensures fits { OnOk result (numbers_needed G.KIND circuit.now ≤ NUMBERS) }
    ensures full { result ≡ Err AddError.Full → NUMBERS < numbers_needed G.KIND circuit.now }
{
    let ports = circuit.inputs();
    let equations = circuit.equations();
    let outputs = circuit.outputs();
    if ports.len() >= NUMBER_LIMIT as usize {
        return Err(AddError::Full);
    }
    let places = match order(alloc, circuit) {
        Ok(places) => places,
        Err(_) => return Err(AddError::NoMemory),
    };
    let mut signals = HashMap::new(alloc);
    add_inputs(net, &mut signals, ports)?;
    build_equations(alloc, net, &mut signals, equations, &places)?;
    let _raised = net.live_count();
    match add_outputs(net, &signals, outputs) {
        Ok(()) => {
            let _unswept = net.live_count();
            Ok(())
        }
        Err(_) => Err(AddError::NoMemory),
    }
}
