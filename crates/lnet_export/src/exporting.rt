//! The circuit of a network.

ghost use Rattle.std.specs.Prelude.{◌≡◌, ◌+◌, ◌≤◌, ℕ, Bool, false, map, length, All, IfOk};
ghost use Rattle.lnet_gates.specs.declared.gate.Kind.TheVariants.{Aig};
ghost use Rattle.lnet_model.specs.Values.{network_outputs};
ghost use Rattle.lnet_edge.specs.declared.circuit.Rule.TheVariants as rule;
ghost use Rattle.lnet_edge.specs.Plain.{IsPlain};
ghost use Rattle.lnet_edge.specs.Values.{circuit_outputs};
ghost use Rattle.lnet_edge.specs.Circuits.{circuit_limit};
ghost use Rattle.lnet_export.specs.Exported.{exported};

use crate::equations::equations_of;
use crate::levels::levels_of;
use crate::ports::{input_ports, output_ports};
use crate::rows::rows_of;
use lnet_edge::{Circuit, CircuitError};
use lnet_gates::Gates;
use lnet_names::Names;
use lnet_network::Network;
use std::alloc::{AllocError, Global};

/// The circuit of a network, with these names of its inputs and outputs.
///
/// The wire of an input and of a gate is its number, and wire 0 is the constant. The inputs and the outputs keep their order and
/// have the names in order: there is an entry for each. Each gate has one equation, whether an output reaches it or not: its
/// operands are its fanins in their order, with their complements, and its rule is its operation with its phase; the table of a
/// `Lut` is complemented, within its rows, where the phase is true. The equations stand in order of the gates' levels, and of
/// their numbers within a level, so each stands after those that it reads.
///
/// # Errors
/// `AllocError` where memory runs out.
///
/// Linear in the network and the names, in expectation.
pub fn export<G: Gates>(
    alloc: Global,
    net: &Network<G>,
    names: &Names,
) -> Result<Circuit, AllocError>
    requires inputs { length names.now.inputs ≡ length net.now.core.network.inputs }
    requires outputs { length names.now.outputs ≡ length net.now.core.network.outputs }
    ensures circuit { IfOk result (λ c. c ≡ exported net.now.core.network names.now) }
    // The circuit computes what the network does.
    ensures outputs { IfOk result (λ c. (a : ℕ → Bool) → circuit_outputs c a ≡ network_outputs net.now.core.network a) }
    ensures plain { IfOk result (λ c. IsPlain c.equations) }
    // An and-inverter graph gives And equations alone, without complement.
    ensures ands { IfOk result (λ c. G.KIND ≡ Aig → All (λ e. e.rule ≡ rule.And false) c.equations) }
    ensures few { IfOk result (λ c. length c.inputs + length c.equations ≤ circuit_limit) }
    ensures input_names { IfOk result (λ c. map (λ p. p.name) c.inputs ≡ names.now.inputs) }
    ensures output_names { IfOk result (λ c. map (λ p. p.name) c.outputs ≡ names.now.outputs) }
{
    let _live = net.live_count();
    let levels = levels_of(alloc, net)?;
    let rows = rows_of(alloc, net, &levels)?;
    let equations = equations_of(alloc, net, &rows)?;
    let inputs = input_ports(alloc, net, names)?;
    let outputs = output_ports(alloc, net, names)?;
    match Circuit::new(alloc, inputs, outputs, equations) {
        Ok(circuit) => Ok(circuit),
        Err(CircuitError::Fault(_)) => unreachable!(),
        Err(CircuitError::NoMemory) => Err(AllocError),
    }
}
