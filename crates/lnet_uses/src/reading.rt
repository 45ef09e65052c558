//! What a network computes.

ghost use Rattle.std.specs.Prelude.{◌≡◌, IfOk, IfSome, length, slice_get, option_map};
ghost use Rattle.lnet_model.specs.Values.{network_outputs};
ghost use Rattle.lnet_simulate.specs.Assignments.{assignment};

use lnet_gates::Gates;
use lnet_network::Network;
use lnet_simulate::simulate;
use std::alloc::{AllocError, Global};

/// The outputs where each input is false.
pub fn first_outputs<G: Gates>(alloc: Global, net: &Network<G>) -> Result<Vec<bool>, AllocError> {
    let zeros = vec![in alloc; false; net.input_count() as usize]?;
    simulate(alloc, net, zeros.as_slice())
}

/// The value of output `k`, where there are as many bits as inputs and there is such an output.
pub fn value_of<G: Gates>(
    alloc: Global,
    net: &Network<G>,
    bits: &[bool],
    k: u32,
) -> Result<Option<bool>, AllocError>
    ensures { length bits.now ≡ length net.now.core.network.inputs → IfOk result (λ v. v ≡ slice_get (network_outputs net.now.core.network (assignment bits.now)) k) }
{
    if bits.len() != net.input_count() as usize {
        return Ok(None);
    }
    let values = simulate(alloc, net, bits)?;
    Ok(values.get(k as usize).copied())
}
