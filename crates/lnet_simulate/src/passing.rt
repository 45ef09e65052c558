//! A pass over a cone: the word of each node in it.

ghost use Rattle.std.specs.Prelude.{◌≡◌, ℕ, ◌<◌, length};
ghost use Rattle.lnet_model.specs.Dags.{numbers_of};
ghost use Rattle.lnet_simulate.specs.Cones.{IsListed, InOrder};
ghost use Rattle.lnet_simulate.specs.Lanes.{AreSet, IsRight, IsWordOf};

use crate::gates::gate_word;
use lnet_gates::{Gates, Node};
use lnet_network::Network;

/// Sets the words of the inputs.
fn set_inputs<G: Gates>(net: &Network<G>, inputs: &[u64], words: &mut [u64])
    requires inputs { length inputs.now ≡ length net.now.core.network.inputs }
    requires sized { length words.old ≡ numbers_of net.now.core.network }
    ensures inputs { AreSet net.now.core.network inputs.now words.new }
    ensures length { length words.new ≡ length words.old }
{
    let _live = net.live_count();
    let _numbers = net.numbers();
    for k in 0..net.input_count() {
        if let Some(node) = net.input_at(k) {
            words[node.0 as usize] = inputs[k as usize];
        }
    }
}

/// The word of a number by the words of its fanins; that of an input stays, and what is neither has the word of false.
fn node_word<G: Gates>(net: &Network<G>, words: &[u64], n: Node) -> u64
    requires sized { length words.now ≡ numbers_of net.now.core.network }
    requires number { n.0 < numbers_of net.now.core.network }
    ensures { IsWordOf net.now.core.network words.now n.0 result }
{
    let _live = net.live_count();
    match net.gate_of(n) {
        Some(gate) => gate_word(words, gate),
        None => {
            if net.is_input(n) {
                words[n.0 as usize]
            } else {
                0
            }
        }
    }
}

/// Sets the words of the nodes in the order, by the words of the inputs.
pub(crate) fn pass<G: Gates>(net: &Network<G>, order: &[Node], inputs: &[u64], words: &mut [u64])
    requires order { InOrder net.now.core.network order.now }
    requires inputs { length inputs.now ≡ length net.now.core.network.inputs }
    requires sized { length words.old ≡ numbers_of net.now.core.network }
    ensures right { (n : ℕ) → IsListed order.now n → IsRight net.now.core.network inputs.now words.new n }
    ensures length { length words.new ≡ length words.old }
{
    set_inputs(net, inputs, words);
    for n in order {
        words[n.0 as usize] = node_word(net, words, *n);
    }
}
