//! The worked uses of networks, run: numbers of nodes by the plans of each kind, counted by hand, and bytes by the formats.

ghost use Rattle.std.specs.Prelude.{◌≡◌};

use lnet_gates::{AigGates, Node};
use lnet_network::Network;
use lnet_uses::{
    adder_in, adder_nodes, aiger_of, blif_of, first_outputs, level_of_a_sum, replace, turn_output,
    value_of,
};
use std::test::Fail;

/// Beside node 0 and three inputs: two xors of three Ands each and a majority of four; two Xors and four Ands; two xors of three
/// majorities each and a majority; three tables, of which the sum is the second level.
#[test]
fn adders_have_these_nodes(rt: HostRuntime) -> Result<(), Fail> {
    let counts = adder_nodes(rt.alloc()).ok().ok_or("refused")?;
    assert_eq!(rt; counts, [14, 10, 11, 7]);
    assert_eq!(rt; level_of_a_sum(rt.alloc())?, Some(2));
    Ok(())
}

/// Where all inputs are false, sum and carry are; the carry of true, true and false is true. The second output is the carry,
/// complemented.
#[test]
fn an_adder_computes(rt: HostRuntime) -> Result<(), Fail> {
    let mut net: Network<AigGates> = Network::new(rt.alloc())?;
    adder_in(&mut net).ok().ok_or("refused")?;
    assert!(rt; turn_output(&mut net, 1));
    assert_eq!(rt;
        first_outputs(rt.alloc(), &net)?.as_slice(),
        [false, true].as_slice()
    );
    assert_eq!(rt;
        value_of(rt.alloc(), &net, &[true, true, false], 1)?,
        Some(false)
    );
    Ok(())
}

#[test]
fn an_and_is_written(rt: HostRuntime) -> Result<(), Fail> {
    let mut net: Network<AigGates> = Network::new(rt.alloc())?;
    let a = net.input().ok().ok_or("refused")?;
    let b = net.input().ok().ok_or("refused")?;
    let both = net.and(a, b).ok().ok_or("refused")?;
    let _place = net.output(both)?;
    let blif =
        ".model lognet\n.inputs _i0 _i1\n.outputs _o0\n.names _i0 _i1 _n3\n11 1\n.names _n3 _o0\n1 1\n.end\n";
    assert_eq!(rt; blif_of(rt.alloc(), &net)?.as_slice(), blif.as_bytes());
    assert_eq!(rt;
        aiger_of(rt.alloc(), &net)?.as_slice(),
        b"aig 3 2 0 1 1\n6\n\x02\x02".as_slice()
    );
    assert!(rt; replace(&mut net, Node(3), a) && net.live_count() == 3);
    Ok(())
}
