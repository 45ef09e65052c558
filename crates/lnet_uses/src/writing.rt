//! A network as the bytes of a file.

ghost use Rattle.std.specs.Prelude.{◌≡◌, ◌+◌, ◌≤◌, ℕ, Bool, All, false, length, IfOk};
ghost use Rattle.lnet_gates.specs.declared.gate.Kind.TheVariants.{Aig};
ghost use Rattle.lnet_edge.specs.declared.circuit.Rule.TheVariants.{And};
ghost use Rattle.lnet_edge.specs.Plain.{IsPlain};
ghost use Rattle.lnet_edge.specs.Values.{circuit_outputs};
ghost use Rattle.lnet_edge.specs.Circuits.{circuit_limit};
ghost use Rattle.lnet_model.specs.Values.{network_outputs};
ghost use Rattle.lnet_aiger.specs.Texts.{IsWritable};
ghost use Rattle.lnet_aiger.specs.Grammar as aiger;
ghost use Rattle.lnet_blif.specs.Meanings as blif;
ghost use Rattle.lnet_uses.specs.Files.{MeansNetwork};

use lnet_aiger::write_binary;
use lnet_blifmeans::write;
use lnet_edge::Circuit;
use lnet_export::export;
use lnet_gates::{AigGates, Gates};
use lnet_names::Names;
use lnet_network::Network;
use std::alloc::{AllocError, Global};

/// The network's circuit, its inputs and outputs without names.
fn circuit_of<G: Gates>(alloc: Global, net: &Network<G>) -> Result<Circuit, AllocError>
    ensures outputs { IfOk result (λ c. (a : ℕ → Bool) → circuit_outputs c a ≡ network_outputs net.now.core.network a) }
    ensures plain { IfOk result (λ c. IsPlain c.equations) }
    ensures ands { IfOk result (λ c. G.KIND ≡ Aig → All (λ e. e.rule ≡ And false) c.equations) }
    ensures few { IfOk result (λ c. length c.inputs + length c.equations ≤ circuit_limit) }
{
    let names = Names::unnamed(alloc, net.input_count(), net.output_count())?;
    export(alloc, net, &names)
}

/// The network as BLIF.
pub fn blif_of<G: Gates>(alloc: Global, net: &Network<G>) -> Result<Vec<u8>, AllocError>
    ensures means { IfOk result (λ v. MeansNetwork (blif.Means v.items) net.now.core.network) }
{
    let circuit = circuit_of(alloc, net)?;
    write(alloc, &circuit)
}

/// An and-inverter graph as binary AIGER.
pub fn aiger_of(alloc: Global, net: &Network<AigGates>) -> Result<Vec<u8>, AllocError>
    ensures means { IfOk result (λ v. MeansNetwork (aiger.Means v.items) net.now.core.network) }
{
    let circuit = circuit_of(alloc, net)?;
    write_binary(alloc, &circuit)
}
