//! Exhaustive comparison of a node and a signal.

ghost use Rattle.std.specs.Prelude.{◌≡◌, ◌≤◌, ◌<◌, ◌+◌, ◌*◌, ◌^◌, ◌&&◌, ℕ, Bool, length, nat_lt, IfOk, IfNone, IfSome};
ghost use Rattle.lnet_tables.specs.Bits.{is_set};
ghost use Rattle.lnet_model.specs.Networks.{IsLive};
ghost use Rattle.lnet_simulate.specs.Assignments.{AgreeUnder, DifferFirst, numbered};
ghost use Rattle.lnet_simulate.specs.Comparing.{AgreeBelow, HaveSpace, HoldsBoth, differ_under};

use crate::cone::cone_of;
use crate::gates::signal_word;
use crate::inputs::{block_count, set_block, used_lanes};
use crate::passing::pass;
use lnet_gates::{Gates, Node, Signal};
use lnet_network::Network;
use std::alloc::{AllocError, Global};

/// The lanes at which the node and the signal differ, of those of a block that are assignments of the inputs.
fn differing_lanes<G: Gates>(
    net: &Network<G>,
    cone: &[Node],
    inputs: &mut [u64],
    words: &mut [u64],
    n: Node,
    s: Signal,
    block: u32,
) -> u64
    requires space { HaveSpace net.now.core.network inputs.old words.old }
    requires few { length inputs.old ≤ 16 }
    requires cone { HoldsBoth net.now.core.network cone.now n.0 s }
    ensures space { HaveSpace net.now.core.network inputs.new words.new }
    ensures few { length inputs.new ≤ 16 }
    ensures lanes { (j : ℕ) → j < 64 → is_set result j ≡ (differ_under net.now.core.network n.0 s (numbered (64 * block + j)) && nat_lt j (2 ^ length net.now.core.network.inputs)) }
{
    let _live = net.live_count();
    let _numbers = net.numbers();
    set_block(inputs, block);
    pass(net, cone, inputs, words);
    (words[n.0 as usize] ^ signal_word(words, s)) & used_lanes(net.input_count())
}

/// The first assignment under which the node and the signal differ.
fn first_difference<G: Gates>(
    net: &Network<G>,
    cone: &[Node],
    inputs: &mut [u64],
    words: &mut [u64],
    n: Node,
    s: Signal,
) -> Option<u32>
    requires space { HaveSpace net.now.core.network inputs.old words.old }
    requires few { length inputs.old ≤ 16 }
    requires cone { HoldsBoth net.now.core.network cone.now n.0 s }
    ensures equal { IfNone result (AgreeBelow net.now.core.network n.0 s (2 ^ length net.now.core.network.inputs)) }
    ensures differ { IfSome result (DifferFirst net.now.core.network n.0 s) }
{
    for block in 0..block_count(net.input_count()) {
        let lanes = differing_lanes(net, cone, inputs, words, n, s, block);
        if lanes != 0 {
            return Some(64 * block + lanes.trailing_zeros());
        }
    }
    None
}

/// Whether a node and a signal compute one function: `None` exactly where they do under every assignment, else the least number
/// of an assignment under which they differ. Input `i` is bit `i` of the number.
///
/// There are 16 inputs at most, and the node and the signal's node are live.
///
/// # Errors
/// `AllocError` where memory runs out.
///
/// Linear in the numbers, and then one pass over the nodes that the two depend on for each 64 assignments up to that one.
pub fn equal_exhaustive<G: Gates>(
    alloc: Global,
    net: &Network<G>,
    n: Node,
    s: Signal,
) -> Result<Option<u32>, AllocError>
    requires inputs { length net.now.core.network.inputs ≤ 16 }
    requires node { IsLive net.now.core.network n.0 }
    requires signal { IsLive net.now.core.network s.node.0 }
    ensures equal { IfOk result (λ r. IfNone r ((a : ℕ → Bool) → AgreeUnder net.now.core.network n.0 s a)) }
    ensures differ { IfOk result (λ r. IfSome r (DifferFirst net.now.core.network n.0 s)) }
{
    let _live = net.live_count();
    let cone = cone_of(alloc, net, &[n, s.node])?;
    let mut inputs = vec![in alloc; 0u64; net.input_count() as usize]?;
    let mut words = vec![in alloc; 0u64; net.numbers() as usize]?;
    Ok(first_difference(net, &cone, &mut inputs, &mut words, n, s))
}
