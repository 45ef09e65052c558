//! Simulated networks, with values worked by hand.

use crate::networks::{build, output};
use crate::signals::coded;
use lnet_gates::{AigGates, Gates, KlutGates, Node, Op, XagGates};
use lnet_network::Network;
use lnet_simulate::{equal_exhaustive, simulate};
use std::alloc::Global;
use std::test::Fail;

/// Whether the outputs are these values under the assignment.
fn gives<G: Gates>(
    alloc: Global,
    network: &Network<G>,
    bits: &[bool],
    outputs: &[bool],
) -> Result<bool, Fail> {
    if bits.len() != network.input_count() as usize {
        return Err("another count".into());
    }
    let values = simulate(alloc, network, bits)?;
    Ok(values.as_slice() == outputs)
}

/// The least assignment under which a node and the signal of a code differ.
fn difference<G: Gates>(
    alloc: Global,
    network: &Network<G>,
    n: u32,
    code: u32,
) -> Result<Option<u32>, Fail> {
    let (n, s) = (Node(n), coded(code));
    if !network.is_live(n) || !network.is_live(s.node) || network.input_count() > 16 {
        return Err("no such node".into());
    }
    let least = equal_exhaustive(alloc, network, n, s)?;
    Ok(least)
}

/// An assignment, and the sum and the carry of a full adder and the complement of its last input.
const ADDED: [([bool; 3], [bool; 3]); 4] = [
    ([false, false, false], [false, false, true]),
    ([true, false, false], [true, false, true]),
    ([true, false, true], [false, true, false]),
    ([true, true, true], [true, true, false]),
];

#[test]
fn outputs_follow_the_inputs(rt: HostRuntime) -> Result<(), Fail> {
    // Of the carry's four gates the root is the last.
    let gates = [
        (Op::Xor, [2, 4, 0], 8),
        (Op::Xor, [8, 6, 0], 10),
        (Op::Maj, [2, 4, 6], 19),
    ];
    let mut network: Network<XagGates> = Network::new(rt.alloc())?;
    build(&rt, &mut network, 3, &gates)?;
    assert!(rt; gives(rt.alloc(), &network, &[true, false, true], &[])?);
    output(&mut network, 10)?;
    output(&mut network, 19)?;
    output(&mut network, 7)?;
    for (bits, outputs) in &ADDED {
        assert!(rt; gives(rt.alloc(), &network, bits, outputs)?);
    }
    Ok(())
}

/// An exclusive or in two forms: nodes 5 and 8, the second complemented.
#[test]
fn equal_functions_are_told(rt: HostRuntime) -> Result<(), Fail> {
    let gates = [
        (Op::And, [2, 4, 0], 6),
        (Op::And, [3, 5, 0], 8),
        (Op::And, [7, 9, 0], 10),
        (Op::And, [2, 5, 0], 12),
        (Op::And, [3, 4, 0], 14),
        (Op::And, [13, 15, 0], 16),
    ];
    let mut network: Network<AigGates> = Network::new(rt.alloc())?;
    build(&rt, &mut network, 2, &gates)?;
    // Node 4 differs from the second form where both inputs are true alone.
    assert_eq!(rt; difference(rt.alloc(), &network, 5, 17)?, None);
    assert_eq!(rt; difference(rt.alloc(), &network, 5, 16)?, Some(0));
    assert_eq!(rt; difference(rt.alloc(), &network, 4, 16)?, Some(3));
    Ok(())
}

/// Node 9 is true where inputs 5 and 7 are, counted from 0: first at the assignment 32 + 128.
#[test]
fn the_least_assignment_is_found(rt: HostRuntime) -> Result<(), Fail> {
    let mut network: Network<KlutGates> = Network::new(rt.alloc())?;
    build(&rt, &mut network, 8, &[(Op::Lut(0x88), [12, 16, 0], 18)])?;
    let least = [
        difference(rt.alloc(), &network, 9, 0)?,
        difference(rt.alloc(), &network, 9, 16)?,
        difference(rt.alloc(), &network, 9, 14)?,
        difference(rt.alloc(), &network, 9, 18)?,
    ];
    assert_eq!(rt; least, [Some(160), Some(128), Some(64), None]);
    Ok(())
}
