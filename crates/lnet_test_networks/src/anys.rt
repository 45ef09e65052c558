//! A network of any kind, in which gates merge.

ghost use Rattle.lnet_hashed.specs.Watches.{AreFitBy};
ghost use Rattle.lnet_any.specs.AnyNets.{core_in, network_in, watch_in};

use crate::networks::{build, output};
use crate::signals::coded;
use lnet_any::AnyNet;
use lnet_gates::{Kind, MigGates, Node, Op, Signal};
use lnet_network::{Network, ViewId};
use lnet_store::View;
use std::test::Fail;

/// Lets a gate give way to a signal. Whether it could.
fn gives_way(net: &mut AnyNet, gate: Node, signal: Signal) -> bool
    requires in_step { AreFitBy ⟦<dyn View as View>⟧ (network_in net.old) (core_in net.old).room (watch_in net.old) }
{
    if net.depends_on(signal, gate) || !net.is_gate(gate) || !net.is_live(signal.node) {
        return false;
    }
    net.substitute(gate, signal);
    true
}

/// The chains of three gates over node 4 and over the complement of node 3 are the same above it. The lowest gate of the second
/// has two complements: it is made without them, and read complemented.
#[test]
fn gates_merge_complemented(rt: HostRuntime) -> Result<(), Fail> {
    let gates = [
        (Op::Maj, [2, 4, 6], 8),
        (Op::Maj, [8, 3, 4], 10),
        (Op::Maj, [11, 2, 4], 12),
        (Op::Maj, [12, 2, 6], 14),
        (Op::Maj, [7, 3, 4], 17),
        (Op::Maj, [16, 2, 4], 18),
        (Op::Maj, [18, 2, 6], 20),
    ];
    let mut network: Network<MigGates> = Network::new(rt.alloc())?;
    build(&rt, &mut network, 3, &gates)?;
    output(&mut network, 14)?;
    let mut net = AnyNet::Mig(network);
    assert!(rt; gives_way(&mut net, Node(4), coded(7)));
    assert_eq!(rt;
        [
            net.input_count(),
            net.output_count(),
            net.gate_count(),
            net.depth()?
        ],
        [3, 1, 3, 3]
    );
    assert!(rt; net.kind() == Kind::Mig && net.level(ViewId(0), Node(3)).is_none());
    let text =
        "node 0 false\nnode 1 input 0\nnode 2 input 1\nnode 3 input 2\nnode 8 maj 1 !2 3\nnode 9 maj 1 2 8\nnode 10 maj 1 3 9\noutput 0 10\n";
    assert_eq!(rt; net.print(rt.alloc())?.as_str(), text);
    Ok(())
}
