//! Networks made of circuits, and circuits of networks, in a kind that is told.

ghost use Rattle.std.specs.Prelude.{◌≡◌, ◌<◌, ◌≤◌, ◌+◌, [], ℕ, Bool, false, All, IfOk, Err, length, map};
ghost use Rattle.lnet_gates.specs.declared.gate.Kind.TheVariants.{Aig};
ghost use Rattle.lnet_model.specs.Dags.{NUMBERS};
ghost use Rattle.lnet_model.specs.Values.{network_outputs};
ghost use Rattle.lnet_edge.specs.Circuits.{circuit_limit};
ghost use Rattle.lnet_edge.specs.Values.{circuit_outputs};
ghost use Rattle.lnet_edge.specs.Plain.{IsPlain};
ghost use Rattle.lnet_edge.specs.declared.circuit.Rule.TheVariants.{And};
ghost use Rattle.lnet_build.specs.Built.{names_of, numbers_needed};
ghost use Rattle.lnet_export.specs.Exported.{exported};
ghost use Rattle.lnet_any.specs.AnyNets.{network_in, watch_in};
ghost use Rattle.lnet_hashed.specs.Watches.{IsBare};
ghost use Rattle.lnet_session.specs.Made.{IsMadeOf};

use lnet_any::AnyNet;
use lnet_build::build as fill;
use lnet_edge::Circuit;
use lnet_export::export as export_one;
use lnet_gates::{Gates, Kind};
use lnet_hashed::Watch;
use lnet_names::Names;
use lnet_network::{Core, Network};
use lnet_store::AddError;
use std::alloc::{AllocError, Global};

/// The network of a circuit in one kind, and the names of its inputs and outputs.
fn made<G: Gates>(alloc: Global, circuit: &Circuit) -> Result<(Network<G>, Names), AddError>
    ensures made { IfOk result (λ r. IsMadeOf G.KIND circuit.now r.0.core.network) }
    ensures names { IfOk result (λ r. r.1 ≡ names_of circuit.now) }
    ensures views { IfOk result (λ r. IsBare r.0.watch) }
    ensures full { result ≡ Err AddError.Full → NUMBERS < numbers_needed G.KIND circuit.now }
{
    let core = match Core::new(alloc) {
        Ok(core) => core,
        Err(_) => return Err(AddError::NoMemory),
    };
    let mut net = Network {
        core,
        watch: Watch {
            views: Vec::new(alloc),
            visits: Vec::new(alloc),
        },
    };
    let names = fill(alloc, &mut net, circuit)?;
    let _stored = net.live_count();
    let _kind = net.kind();
    Ok((net, names))
}

/// The network of a circuit in this kind, without views, and the names of its inputs and outputs.
pub(crate) fn build(
    alloc: Global,
    kind: Kind,
    circuit: &Circuit,
) -> Result<(AnyNet, Names), AddError>
    ensures made { IfOk result (λ r. IsMadeOf kind circuit.now (network_in r.0)) }
    ensures names { IfOk result (λ r. r.1 ≡ names_of circuit.now) }
    ensures views { IfOk result (λ r. IsBare (watch_in r.0)) }
    ensures full { result ≡ Err AddError.Full → NUMBERS < numbers_needed kind circuit.now }
{
    match kind {
        Kind::Aig => match made(alloc, circuit) {
            Ok((net, names)) => Ok((AnyNet::Aig(net), names)),
            Err(error) => Err(error),
        },
        Kind::Xag => match made(alloc, circuit) {
            Ok((net, names)) => Ok((AnyNet::Xag(net), names)),
            Err(error) => Err(error),
        },
        Kind::Mig => match made(alloc, circuit) {
            Ok((net, names)) => Ok((AnyNet::Mig(net), names)),
            Err(error) => Err(error),
        },
        Kind::Klut => match made(alloc, circuit) {
            Ok((net, names)) => Ok((AnyNet::Klut(net), names)),
            Err(error) => Err(error),
        },
    }
}

/// The circuit of a network of one kind, with the names of its inputs and outputs.
fn circuit_of<G: Gates>(
    alloc: Global,
    net: &Network<G>,
    names: &Names,
) -> Result<Circuit, AllocError>
    requires inputs { length names.now.inputs ≡ length net.now.core.network.inputs }
    requires outputs { length names.now.outputs ≡ length net.now.core.network.outputs }
    ensures circuit { IfOk result (λ c. c ≡ exported net.now.core.network names.now) }
    ensures outputs { IfOk result (λ c. (a : ℕ → Bool) → circuit_outputs c a ≡ network_outputs net.now.core.network a) }
    ensures plain { IfOk result (λ c. IsPlain c.equations) }
    ensures ands { IfOk result (λ c. net.now.core.network.kind ≡ Aig → All (λ e. e.rule ≡ And false) c.equations) }
    ensures few { IfOk result (λ c. length c.inputs + length c.equations ≤ circuit_limit) }
    ensures input_names { IfOk result (λ c. map (λ p. p.name) c.inputs ≡ names.now.inputs) }
    ensures output_names { IfOk result (λ c. map (λ p. p.name) c.outputs ≡ names.now.outputs) }
{
    let _kind = net.kind();
    match export_one(alloc, net, names) {
        Ok(circuit) => Ok(circuit),
        Err(error) => Err(error),
    }
}

/// The circuit of a network, with the names of its inputs and outputs.
pub(crate) fn export(alloc: Global, net: &AnyNet, names: &Names) -> Result<Circuit, AllocError>
    requires inputs { length names.now.inputs ≡ length (network_in net.now).inputs }
    requires outputs { length names.now.outputs ≡ length (network_in net.now).outputs }
    ensures circuit { IfOk result (λ c. c ≡ exported (network_in net.now) names.now) }
    ensures outputs { IfOk result (λ c. (a : ℕ → Bool) → circuit_outputs c a ≡ network_outputs (network_in net.now) a) }
    ensures plain { IfOk result (λ c. IsPlain c.equations) }
    ensures ands { IfOk result (λ c. (network_in net.now).kind ≡ Aig → All (λ e. e.rule ≡ And false) c.equations) }
    ensures few { IfOk result (λ c. length c.inputs + length c.equations ≤ circuit_limit) }
    ensures input_names { IfOk result (λ c. map (λ p. p.name) c.inputs ≡ names.now.inputs) }
    ensures output_names { IfOk result (λ c. map (λ p. p.name) c.outputs ≡ names.now.outputs) }
{
    match net {
        AnyNet::Aig(net) => circuit_of(alloc, net, names),
        AnyNet::Xag(net) => circuit_of(alloc, net, names),
        AnyNet::Mig(net) => circuit_of(alloc, net, names),
        AnyNet::Klut(net) => circuit_of(alloc, net, names),
    }
}
