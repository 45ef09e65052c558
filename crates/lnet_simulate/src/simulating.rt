//! The outputs of a network under one assignment.

ghost use Rattle.std.specs.Prelude.{◌≡◌, ◌<◌, ℕ, length, map, All, IfOk};
ghost use Rattle.lnet_gates.specs.declared.signal.Signal.{Signal};
ghost use Rattle.lnet_model.specs.Dags.{numbers_of};
ghost use Rattle.lnet_model.specs.Values.{network_outputs};
ghost use Rattle.lnet_simulate.specs.Assignments.{assignment};
ghost use Rattle.lnet_simulate.specs.Cones.{InOrder, IsListed};
ghost use Rattle.lnet_simulate.specs.Lanes.{lane, lane_of};

use crate::cone::cone_of;
use crate::gates::signal_word;
use crate::passing::pass;
use lnet_gates::{Gates, Node};
use lnet_network::Network;
use std::alloc::{AllocError, Global};

/// The nodes of the outputs, in order.
fn output_nodes<G: Gates>(alloc: Global, net: &Network<G>) -> Result<Vec<Node>, AllocError>
    ensures { IfOk result (λ nodes. nodes.items ≡ map (λ (s : Signal). s.node) net.now.core.network.outputs) }
{
    let mut nodes = Vec::new(alloc);
    for k in 0..net.output_count() {
        if let Some(signal) = net.output_at(k) {
            nodes.push(signal.node)?;
        }
    }
    Ok(nodes)
}

/// The words of the inputs whose lane 0 is the assignment.
fn constant_words(alloc: Global, bits: &[bool]) -> Result<Vec<u64>, AllocError>
    ensures length { IfOk result (λ words. length words.items ≡ length bits.now) }
    ensures lanes { IfOk result (λ words. (k : ℕ) → k < length bits.now → lane words.items 0 k ≡ assignment bits.now k) }
{
    let mut words = Vec::new(alloc);
    for bit in bits {
        words.push(u64::from(*bit))?;
    }
    Ok(words)
}

/// The outputs in lane 0 of the words.
fn output_bits<G: Gates>(
    alloc: Global,
    net: &Network<G>,
    words: &[u64],
) -> Result<Vec<bool>, AllocError>
    requires { length words.now ≡ numbers_of net.now.core.network }
    ensures { IfOk result (λ values. values.items ≡ map (lane_of words.now 0) net.now.core.network.outputs) }
{
    let _numbers = net.numbers();
    let mut values = Vec::new(alloc);
    for k in 0..net.output_count() {
        if let Some(signal) = net.output_at(k) {
            values.push(signal_word(words, signal) & 1 == 1)?;
        }
    }
    Ok(values)
}

/// The outputs in lane 0, by the words of the inputs and an order that has the outputs' nodes.
fn simulate_lane<G: Gates>(
    alloc: Global,
    net: &Network<G>,
    order: &[Node],
    inputs: &[u64],
    words: &mut [u64],
) -> Result<Vec<bool>, AllocError>
    requires inputs { length inputs.now ≡ length net.now.core.network.inputs }
    requires words { length words.old ≡ numbers_of net.now.core.network }
    requires order { InOrder net.now.core.network order.now }
    requires outputs { All (λ (s : Signal). IsListed order.now s.node.0) net.now.core.network.outputs }
    ensures { IfOk result (λ values. values.items ≡ network_outputs net.now.core.network (lane inputs.now 0)) }
{
    pass(net, order, inputs, words);
    output_bits(alloc, net, words)
}

/// The outputs under one assignment, in order: input `k` has the value `bits[k]`, and there are as many bits as inputs.
///
/// # Errors
/// `AllocError` where memory runs out.
///
/// Linear in the numbers, and in the nodes that the outputs depend on and their fanins.
pub fn simulate<G: Gates>(
    alloc: Global,
    net: &Network<G>,
    bits: &[bool],
) -> Result<Vec<bool>, AllocError>
    requires { length bits.now ≡ length net.now.core.network.inputs }
    ensures outputs { IfOk result (λ values. values.items ≡ network_outputs net.now.core.network (assignment bits.now)) }
{
    let _live = net.live_count();
    let roots = output_nodes(alloc, net)?;
    let cone = cone_of(alloc, net, &roots)?;
    let inputs = constant_words(alloc, bits)?;
    let mut words = vec![in alloc; 0u64; net.numbers() as usize]?;
    simulate_lane(alloc, net, &cone, &inputs, &mut words)
}
