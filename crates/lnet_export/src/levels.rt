//! The levels of all numbers of a network: a depth-first search along fanins, with a stack of its own.

ghost use Rattle.std.specs.Prelude.{◌≡◌, ◌<◌, ℕ, [], IfOk, OnOk, IsSome};
ghost use Rattle.lnet_model.specs.Dags.{numbers_of};
ghost use Rattle.lnet_export.specs.Settling.{AreLevels, IsStepAt, KeepsKnown, known_at};

use lnet_gates::{Gates, Node};
use lnet_network::Network;
use std::alloc::{AllocError, Global};

/// What the fanins of a number say of its level.
#[derive(Clone, Copy)]
pub(crate) enum Step {
    /// It is this one.
    Level(u32),
    /// It hangs on the level of this fanin, which isn't known.
    Wait(Node),
}

/// The level of the number by those of its fanins, or the first fanin whose level isn't known.
fn step_at<G: Gates>(net: &Network<G>, levels: &[Option<u32>], n: Node) -> Step
    requires levels { AreLevels net.now.core.network levels.now }
    ensures { IsStepAt net.now.core.network levels.now n.0 result }
{
    let _live = net.live_count();
    let _numbers = net.numbers();
    let Some(gate) = net.gate_of(n) else {
        return Step::Level(0);
    };
    let mut greatest = 0;
    for fanin in gate.fanins.as_slice() {
        match levels[fanin.node.0 as usize] {
            Some(level) => greatest = level.max(greatest),
            None => return Step::Wait(fanin.node),
        }
    }
    Step::Level(greatest + 1)
}

/// Finds the level of the number, and those that it hangs on.
fn settle<G: Gates>(
    net: &Network<G>,
    levels: &mut [Option<u32>],
    path: &mut Vec<Node>,
    n: Node,
) -> Result<(), AllocError>
    requires levels { AreLevels net.now.core.network levels.old }
    requires number { n.0 < numbers_of net.now.core.network }
    requires start { path.old.items ≡ [] }
    ensures levels { OnOk result (AreLevels net.now.core.network levels.new) }
    ensures found { OnOk result (IsSome (known_at levels.new n.0)) }
    ensures kept { OnOk result (KeepsKnown levels.old levels.new) }
    ensures end { OnOk result (path.new.items ≡ []) }
{
    let _live = net.live_count();
    let _numbers = net.numbers();
    if levels[n.0 as usize].is_some() {
        return Ok(());
    }
    path.push(n)?;
    while let Some(top) = path.pop() {
        match step_at(net, levels, top) {
            Step::Level(level) => levels[top.0 as usize] = Some(level),
            Step::Wait(fanin) => {
                path.push(top)?;
                path.push(fanin)?;
            }
        }
    }
    Ok(())
}

/// The level of each number below the network's bound. Linear in the numbers and the fanins.
pub(crate) fn levels_of<G: Gates>(
    alloc: Global,
    net: &Network<G>,
) -> Result<Vec<Option<u32>>, AllocError>
    ensures levels { IfOk result (λ levels. AreLevels net.now.core.network levels.items) }
    ensures all { IfOk result (λ levels. (n : ℕ) → n < numbers_of net.now.core.network → IsSome (known_at levels.items n)) }
{
    let count = net.numbers();
    let mut levels = vec![in alloc; None; count as usize]?;
    let mut path = Vec::new(alloc);
    for n in 0..count {
        settle(net, &mut levels, &mut path, Node(n))?;
    }
    Ok(levels)
}
