//! Networks without views, made by hand, and their texts. Signals are given by their codes.

ghost use Rattle.std.specs.Prelude.{◌≡◌, ◌↔◌, IsTrue, []};
ghost use Rattle.lnet_hashed.specs.Watches.{AreFitBy};
ghost use Rattle.lnet_model.specs.Changes.{IsGateAt};

use crate::signals::coded;
use lnet_gates::{AigGates, Gates, Kind, KlutGates, MigGates, Node, Op, Signal, XagGates};
use lnet_network::Network;
use lnet_print::{gate_count, print};
use lnet_store::View;
use std::alloc::Global;
use std::process::Abort;
use std::test::Fail;

/// Whether a gate has the number.
fn is_gate<G: Gates>(network: &Network<G>, n: Node) -> bool
    ensures { IsTrue result ↔ IsGateAt network.now.core.network n.0 }
{
    network.gate_of(n).is_some()
}

/// An operation on the first two or all of three signals.
fn gate<G: Gates>(
    network: &mut Network<G>,
    op: Op,
    a: Signal,
    b: Signal,
    c: Signal,
) -> Result<Signal, Fail>
    requires in_step { AreFitBy ⟦<dyn View as View>⟧ network.old.core.network network.old.core.room network.old.watch }
    ensures in_step { AreFitBy ⟦<dyn View as View>⟧ network.new.core.network network.new.core.room network.new.watch }
{
    if !network.is_live(a.node) || !network.is_live(b.node) || !network.is_live(c.node) {
        return Err("no such node".into());
    }
    let made = match op {
        Op::And => network.and(a, b),
        Op::Xor => network.xor(a, b),
        Op::Maj => network.maj(a, b, c),
        Op::Lut(table) => network.lut(table, &[a, b, c]),
    };
    match made {
        Ok(signal) => Ok(signal),
        Err(_) => Err("refused".into()),
    }
}

/// Adds so many inputs, and makes each operation on the signals of three codes; with it stands the code of its own signal.
pub(crate) fn build<G: Gates>(
    rt: &impl Abort,
    network: &mut Network<G>,
    inputs: u32,
    gates: &[(Op, [u32; 3], u64)],
) -> Result<(), Fail>
    requires in_step { AreFitBy ⟦<dyn View as View>⟧ network.old.core.network network.old.core.room network.old.watch }
    ensures in_step { AreFitBy ⟦<dyn View as View>⟧ network.new.core.network network.new.core.room network.new.watch }
{
    for _ in 0..inputs {
        if network.input().is_err() {
            return Err("refused".into());
        }
    }
    for row in gates {
        let [a, b, c] = row.1;
        let signal = gate(network, row.0, coded(a), coded(b), coded(c))?;
        assert_eq!(rt; signal.code(), row.2);
    }
    Ok(())
}

/// Adds an output of an input, and makes it the signal of a code.
pub(crate) fn output<G: Gates>(network: &mut Network<G>, code: u32) -> Result<u32, Fail>
    requires in_step { AreFitBy ⟦<dyn View as View>⟧ network.old.core.network network.old.core.room network.old.watch }
    ensures in_step { AreFitBy ⟦<dyn View as View>⟧ network.new.core.network network.new.core.room network.new.watch }
{
    let (from, to) = (Signal::constant(false), coded(code));
    if !network.is_live(from.node) || network.output_count() > 9 {
        return Err("no such node".into());
    }
    let k = network.output(from)?;
    if !network.is_live(to.node) || k >= network.output_count() {
        return Err("no such output".into());
    }
    network.set_output(k, to);
    Ok(k)
}

/// Lets a gate give way to the signal of a code.
fn give_way<G: Gates>(network: &mut Network<G>, gate: u32, code: u32) -> Result<(), Fail>
    requires in_step { AreFitBy ⟦<dyn View as View>⟧ network.old.core.network network.old.core.room network.old.watch }
    ensures in_step { AreFitBy ⟦<dyn View as View>⟧ network.new.core.network network.new.core.room network.new.watch }
{
    let (gate, signal) = (Node(gate), coded(code));
    if network.depends_on(signal, gate)
        || !is_gate(network, gate)
        || !network.is_live(signal.node)
    {
        return Err("no such gate".into());
    }
    network.substitute(gate, signal);
    Ok(())
}

#[test]
fn a_xag_has_both_operations(rt: HostRuntime) -> Result<(), Fail> {
    let gates = [
        (Op::Xor, [2, 4, 0], 6),
        (Op::Xor, [5, 2, 0], 7),
        (Op::And, [7, 4, 0], 8),
    ];
    let mut network: Network<XagGates> = Network::new(rt.alloc())?;
    build(&rt, &mut network, 2, &gates)?;
    let text = "node 0 false\nnode 1 input 0\nnode 2 input 1\nnode 3 xor 1 2\nnode 4 and 2 !3\n";
    assert_eq!(rt; print(rt.alloc(), &network)?.as_str(), text);
    Ok(())
}

#[test]
fn a_mig_has_majorities_alone(rt: HostRuntime) -> Result<(), Fail> {
    let gates = [
        (Op::And, [2, 4, 0], 8),
        (Op::Xor, [2, 4, 0], 12),
        (Op::Maj, [6, 2, 4], 14),
        (Op::Maj, [3, 5, 7], 15),
    ];
    let mut network: Network<MigGates> = Network::new(rt.alloc())?;
    build(&rt, &mut network, 3, &gates)?;
    let text =
        "node 0 false\nnode 1 input 0\nnode 2 input 1\nnode 3 input 2\nnode 4 maj 0 1 2\nnode 5 maj !0 1 2\nnode 6 maj 0 !4 5\nnode 7 maj 1 2 3\n";
    assert_eq!(rt; print(rt.alloc(), &network)?.as_str(), text);
    Ok(())
}

#[test]
fn an_aig_is_swept(rt: HostRuntime) -> Result<(), Fail> {
    let alloc = rt.alloc();
    let gates = [
        (Op::And, [2, 4, 0], 8),
        (Op::And, [4, 2, 0], 8),
        (Op::And, [2, 3, 0], 0),
        (Op::Maj, [2, 4, 6], 15),
        (Op::Maj, [2, 4, 6], 15),
        (Op::Xor, [2, 4, 0], 21),
    ];
    let mut network: Network<AigGates> = Network::new(alloc)?;
    build(&rt, &mut network, 3, &gates)?;
    output(&mut network, 15)?;
    let text =
        "node 0 false\nnode 1 input 0\nnode 2 input 1\nnode 3 input 2\nnode 4 and 1 2\nnode 5 and !1 !2\nnode 6 and 3 !5\nnode 7 and !4 !6\nnode 8 and 1 !2\nnode 9 and !1 2\nnode 10 and !8 !9\noutput 0 !7\n";
    assert_eq!(rt; print(alloc, &network)?.as_str(), text);
    network.reserve(7)?;
    assert!(rt; network.spare() >= 7);
    // No output reaches the three gates of the exclusive or.
    network.sweep();
    assert_eq!(rt; network.live_count(), 8);
    Ok(())
}

#[test]
fn a_klut_is_read(rt: HostRuntime) -> Result<(), Fail> {
    let gates = [
        (Op::Xor, [2, 4, 0], 8),
        (Op::Lut(0x66), [2, 4, 6], 8),
        (Op::Lut(0x6), [2, 4, 6], 10),
        (Op::And, [3, 5, 0], 13),
    ];
    let mut network: Network<KlutGates> = Network::new(rt.alloc())?;
    build(&rt, &mut network, 3, &gates)?;
    output(&mut network, 11)?;
    let counts = [
        network.input_count(),
        network.output_count(),
        network.live_count(),
        network.numbers(),
        gate_count(&network),
        network.refs(Node(5)),
        network.depth()?,
    ];
    assert_eq!(rt; counts, [3, 1, 7, 7, 3, 1, 1]);
    let outputs = [network.output_at(0), network.output_at(1)];
    assert_eq!(rt; outputs, [Some(coded(11)), None]);
    let inputs = [network.input_at(1), network.input_at(3)];
    assert_eq!(rt; inputs, [Some(Node(2)), None]);
    assert!(rt;
        network.is_input(Node(3)) && !network.is_input(Node(4)) && !network.is_live(Node(7))
    );
    assert!(rt; network.depends_on(coded(8), Node(1)) && !network.depends_on(coded(8), Node(3)));
    assert_eq!(rt; network.kind(), Kind::Klut);
    match network.gate_of(Node(6)) {
        Some(gate) => assert_eq!(rt; gate.op, Op::Lut(0xe)),
        None => return Err("no gate".into()),
    }
    let text =
        "node 0 false\nnode 1 input 0\nnode 2 input 1\nnode 3 input 2\nnode 4 lut 6 1 2\nnode 5 lut 06 1 2 3\nnode 6 lut e 1 2\noutput 0 !5\n";
    assert_eq!(rt; print(rt.alloc(), &network)?.as_str(), text);
    Ok(())
}

/// The chains of three gates over node 4 and over node 3 are the same above it, level by level.
#[test]
fn gates_merge_three_levels_up(rt: HostRuntime) -> Result<(), Fail> {
    let gates = [
        (Op::And, [2, 4, 0], 8),
        (Op::And, [8, 2, 0], 10),
        (Op::And, [11, 5, 0], 12),
        (Op::And, [12, 3, 0], 14),
        (Op::And, [6, 2, 0], 16),
        (Op::And, [17, 5, 0], 18),
        (Op::And, [18, 3, 0], 20),
    ];
    let mut network: Network<AigGates> = Network::new(rt.alloc())?;
    build(&rt, &mut network, 3, &gates)?;
    give_way(&mut network, 4, 6)?;
    let text =
        "node 0 false\nnode 1 input 0\nnode 2 input 1\nnode 3 input 2\nnode 8 and 1 3\nnode 9 and !2 !8\nnode 10 and !1 9\n";
    assert_eq!(rt; print(rt.alloc(), &network)?.as_str(), text);
    // Once its top has given way, nothing names the rest of the chain.
    give_way(&mut network, 10, 0)?;
    assert_eq!(rt; network.live_count(), 4);
    Ok(())
}
