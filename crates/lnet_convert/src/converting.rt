//! The network of another kind that computes what a network computes.

ghost use Rattle.std.specs.Prelude.{◌≡◌, ◌<◌, ◌≤◌, ℕ, Bool, IfOk, OnOk, Err, length, map};
ghost use Rattle.lnet_model.specs.Dags.{NUMBERS};
ghost use Rattle.lnet_model.specs.Values.{network_outputs};
ghost use Rattle.lnet_hashed.specs.Watches.{IsBare};
ghost use Rattle.lnet_edge.specs.Values.{circuit_outputs};
ghost use Rattle.lnet_build.specs.Built.{IsBuilt, names_of, numbers_needed};
ghost use Rattle.lnet_build.specs.Sound.{IsSound};
ghost use Rattle.lnet_export.specs.Exported.{exported};

use lnet_build::build;
use lnet_edge::Circuit;
use lnet_export::export;
use lnet_gates::Gates;
use lnet_hashed::Watch;
use lnet_names::Names;
use lnet_network::{Core, Network};
use lnet_store::AddError;
use std::alloc::Global;

/// The network of another kind that computes what `net` computes, and the names of its inputs and outputs, which are those that are
/// given: there is an entry for each input and each output. It is the network built of the circuit of `net`, without views.
///
/// # Errors
/// `Full` exactly where a moment of this building needs more than 1,048,576 numbers, node 0 and the inputs included. `NoMemory`
/// where memory runs out. `net` is as it was.
///
/// As many gates are made as the gates of `net` have operands and cells; what a gate costs `Network::gate` says. The rest is
/// linear in the network and the names, in expectation.
pub fn convert<G: Gates, H: Gates>(
    alloc: Global,
    net: &Network<G>,
    names: &Names,
) -> Result<(Network<H>, Names), AddError>
    requires inputs { length names.now.inputs ≡ length net.now.core.network.inputs }
    requires outputs { length names.now.outputs ≡ length net.now.core.network.outputs }
    ensures outputs { IfOk result (λ r. (a : ℕ → Bool) → network_outputs r.0.core.network a ≡ network_outputs net.now.core.network a) }
    ensures ports { IfOk result (λ r. (length r.0.core.network.inputs ≡ length net.now.core.network.inputs) × (length r.0.core.network.outputs ≡ length net.now.core.network.outputs)) }
    ensures names { IfOk result (λ r. r.1 ≡ names.now) }
    ensures built { IfOk result (λ r. IsBuilt H.KIND (exported net.now.core.network names.now) r.0.core.network) }
    ensures sound { IfOk result (λ r. IsSound r.0.core.network) }
    ensures views { IfOk result (λ r. IsBare r.0.watch) }
    ensures fits { OnOk result (numbers_needed H.KIND (exported net.now.core.network names.now) ≤ NUMBERS) }
    ensures full { result ≡ Err AddError.Full → NUMBERS < numbers_needed H.KIND (exported net.now.core.network names.now) }
{
    let Ok(circuit) = export(alloc, net, names) else {
        return Err(AddError::NoMemory);
    };
    made(alloc, &circuit)
}

/// The network of a circuit, made by its fields here, and the names of its inputs and outputs.
fn made<H: Gates>(alloc: Global, circuit: &Circuit) -> Result<(Network<H>, Names), AddError>
    ensures outputs { IfOk result (λ r. (a : ℕ → Bool) → network_outputs r.0.core.network a ≡ circuit_outputs circuit.now a) }
    ensures ports { IfOk result (λ r. (length r.0.core.network.inputs ≡ length circuit.now.inputs) × (length r.0.core.network.outputs ≡ length circuit.now.outputs)) }
    ensures names { IfOk result (λ r. r.1 ≡ names_of circuit.now) }
    ensures built { IfOk result (λ r. IsBuilt H.KIND circuit.now r.0.core.network) }
    ensures sound { IfOk result (λ r. IsSound r.0.core.network) }
    ensures views { IfOk result (λ r. IsBare r.0.watch) }
    ensures fits { OnOk result (numbers_needed H.KIND circuit.now ≤ NUMBERS) }
    ensures full { result ≡ Err AddError.Full → NUMBERS < numbers_needed H.KIND circuit.now }
{
    let core = match Core::new(alloc) {
        Ok(core) => core,
        Err(_) => return Err(AddError::NoMemory),
    };
    let mut net = Network {
        core,
        watch: Watch {
            views: Vec::new(alloc),
            visits: Vec::new(alloc),
        },
    };
    let names = build(alloc, &mut net, circuit)?;
    // Read, so that the proof sees what its type keeps.
    let (_live, _kind) = (net.live_count(), net.kind());
    Ok((net, names))
}
