//! Cones: the nodes that some roots depend on, each after its fanins. A depth-first search along fanins, with a stack of its own.

ghost use Rattle.std.specs.Prelude.{◌≡◌, ℕ, ◌<◌, [], length, All, IfOk, OnOk, true};
ghost use Rattle.lnet_model.specs.Dags.{numbers_of};
ghost use Rattle.lnet_simulate.specs.Cones.{IsCone, IsListed, IsWaiting, InOrder, KeepsListed};

use lnet_gates::{Gates, Node};
use lnet_network::Network;
use std::alloc::{AllocError, Global};

/// The first fanin of the number that isn't marked.
fn waiting_fanin<G: Gates>(net: &Network<G>, marks: &[bool], n: Node) -> Option<Node>
    requires sized { length marks.now ≡ numbers_of net.now.core.network }
    ensures { IsWaiting net.now.core.network marks.now n.0 result }
{
    let _live = net.live_count();
    let Some(gate) = net.gate_of(n) else {
        return None;
    };
    for fanin in gate.fanins.as_slice() {
        if !marks[fanin.node.0 as usize] {
            return Some(fanin.node);
        }
    }
    None
}

/// Puts the number at the end of the order, and before it those that it depends on, where they aren't there yet.
fn visit<G: Gates>(
    net: &Network<G>,
    marks: &mut [bool],
    order: &mut Vec<Node>,
    path: &mut Vec<Node>,
    n: Node,
) -> Result<(), AllocError>
    requires cone { IsCone net.now.core.network marks.old order.old.items }
    requires number { n.0 < numbers_of net.now.core.network }
    requires start { path.old.items ≡ [] }
    ensures cone { OnOk result (IsCone net.now.core.network marks.new order.new.items) }
    ensures found { OnOk result (IsListed order.new.items n.0) }
    ensures kept { OnOk result (KeepsListed order.old.items order.new.items) }
    ensures end { OnOk result (path.new.items ≡ []) }
{
    let _live = net.live_count();
    let _numbers = net.numbers();
    if marks[n.0 as usize] {
        return Ok(());
    }
    path.push(n)?;
    while let Some(top) = path.pop() {
        match waiting_fanin(net, marks, top) {
            None => {
                marks[top.0 as usize] = true;
                order.push(top)?;
            }
            Some(fanin) => {
                path.push(top)?;
                path.push(fanin)?;
            }
        }
    }
    Ok(())
}

/// Visits each of the roots.
fn visit_all<G: Gates>(
    net: &Network<G>,
    roots: &[Node],
    marks: &mut [bool],
    order: &mut Vec<Node>,
    path: &mut Vec<Node>,
) -> Result<(), AllocError>
    requires cone { IsCone net.now.core.network marks.old order.old.items }
    requires numbers { All (λ n. n.0 < numbers_of net.now.core.network) roots.now }
    requires start { path.old.items ≡ [] }
    ensures order { OnOk result (InOrder net.now.core.network order.new.items) }
    ensures roots { OnOk result (All (λ n. IsListed order.new.items n.0) roots.now) }
{
    for root in roots {
        visit(net, marks, order, path, *root)?;
    }
    Ok(())
}

/// The nodes that the roots depend on, the roots among them, each after its fanins. Linear in the numbers, and in these
/// nodes and their fanins.
pub(crate) fn cone_of<G: Gates>(
    alloc: Global,
    net: &Network<G>,
    roots: &[Node],
) -> Result<Vec<Node>, AllocError>
    requires { All (λ n. n.0 < numbers_of net.now.core.network) roots.now }
    ensures order { IfOk result (λ order. InOrder net.now.core.network order.items) }
    ensures roots { IfOk result (λ order. All (λ n. IsListed order.items n.0) roots.now) }
{
    let mut marks = vec![in alloc; false; net.numbers() as usize]?;
    let mut order = Vec::new(alloc);
    let mut path = Vec::new(alloc);
    visit_all(net, roots, &mut marks, &mut order, &mut path)?;
    Ok(order)
}
