//! Networks made call by call.
#![tactic(auto, using(lnet_hashed::proofs::KeptViews::told_twice, lnet_hashed::proofs::KeptViews::bare_fit))]

ghost use Rattle.std.specs.Prelude.{◌≡◌, ◌+◌, ◌≤◌, OnOk, length};
ghost use Rattle.lnet_model.specs.Dags.{OUTPUTS};
ghost use Rattle.lnet_hashed.specs.Watches.{AreFitBy, AreToldBy};

use lnet_gates::{AigGates, Gates, KlutGates, MigGates, XagGates};
use lnet_network::Network;
use lnet_store::{AddError, View};
use std::alloc::Global;

/// Adds a full adder to a network of any kind: three inputs, and the outputs of their sum and of the carry. Its views are told.
pub fn adder_in<G: Gates>(net: &mut Network<G>) -> Result<(), AddError>
    requires few { length net.old.core.network.outputs + 2 ≤ OUTPUTS }
    requires in_step { AreFitBy ⟦<dyn View as View>⟧ net.old.core.network net.old.core.room net.old.watch }
    ensures inputs { OnOk result (length net.new.core.network.inputs ≡ length net.old.core.network.inputs + 3) }
    ensures outputs { OnOk result (length net.new.core.network.outputs ≡ length net.old.core.network.outputs + 2) }
    ensures in_step { AreToldBy ⟦<dyn View as View>⟧ net.new.core.network net.new.core.room net.old.watch net.new.watch }
{
    let a = net.input()?;
    let b = net.input()?;
    let carry = net.input()?;
    let half = net.xor(a, b)?;
    let sum = net.xor(half, carry)?;
    let over = net.maj(a, b, carry)?;
    if net.output(sum).is_err() {
        return Err(AddError::NoMemory);
    }
    if net.output(over).is_err() {
        return Err(AddError::NoMemory);
    }
    Ok(())
}

/// How many nodes a full adder of a kind has, node 0 and its inputs among them.
fn nodes_of<G: Gates>(alloc: Global) -> Result<u32, AddError> {
    let Ok(mut net) = Network::<G>::new(alloc) else {
        return Err(AddError::NoMemory);
    };
    adder_in(&mut net)?;
    Ok(net.live_count())
}

/// How many nodes a full adder has as an and-inverter graph, with xors, of majorities, and of look-up tables.
pub fn adder_nodes(alloc: Global) -> Result<[u32; 4], AddError> {
    Ok([
        nodes_of::<AigGates>(alloc)?,
        nodes_of::<XagGates>(alloc)?,
        nodes_of::<MigGates>(alloc)?,
        nodes_of::<KlutGates>(alloc)?,
    ])
}
