//! Networks of one kind made networks of another, and back.

use lnet_convert::convert;
use lnet_edge::Name;
use lnet_gates::{AigGates, Gates, MigGates};
use lnet_names::Names;
use lnet_network::Network;
use lnet_simulate::simulate;
use lnet_uses::adder_in;
use std::alloc::Global;
use std::process::Abort;
use std::test::Fail;

/// The three bits that are added, and their sum and carry.
const ADDED: [([bool; 3], [bool; 2]); 8] = [
    ([false, false, false], [false, false]),
    ([true, false, false], [true, false]),
    ([false, true, false], [true, false]),
    ([true, true, false], [false, true]),
    ([false, false, true], [true, false]),
    ([true, false, true], [false, true]),
    ([false, true, true], [false, true]),
    ([true, true, true], [true, true]),
];

/// Compares the outputs under each assignment with those of a full adder.
fn assert_adds<R: Abort, G: Gates>(rt: &R, alloc: Global, net: &Network<G>) -> Result<(), Fail> {
    assert_eq!(rt; net.input_count(), 3);
    for (bits, outputs) in &ADDED {
        let values = simulate(alloc, net, bits)?;
        assert_eq!(rt; values.as_slice(), outputs.as_slice());
    }
    Ok(())
}

/// Makes the network one of another kind, and compares what comes.
fn assert_converts<R: Abort, G: Gates, H: Gates>(
    rt: &R,
    alloc: Global,
    net: &Network<G>,
    names: &Names,
) -> Result<(), Fail> {
    assert_eq!(rt; names.input_count(), net.input_count());
    assert_eq!(rt; names.output_count(), net.output_count());
    let (made, kept) = convert::<G, H>(alloc, net, names).ok().ok_or("refused")?;
    assert_eq!(rt; kept.output_name(1), Some("carry"));
    assert_adds(rt, alloc, &made)
}

/// The same, and then of what comes back to the first kind.
fn assert_converts_back<R: Abort, G: Gates, H: Gates>(
    rt: &R,
    alloc: Global,
    net: &Network<G>,
    names: &Names,
) -> Result<(), Fail> {
    assert_converts::<R, G, H>(rt, alloc, net, names)?;
    assert_eq!(rt; names.input_count(), net.input_count());
    assert_eq!(rt; names.output_count(), net.output_count());
    let (made, kept) = convert::<G, H>(alloc, net, names).ok().ok_or("refused")?;
    assert_converts::<R, H, G>(rt, alloc, &made, &kept)
}

#[test]
fn an_adder_of_majorities_and_back(rt: HostRuntime) -> Result<(), Fail> {
    let alloc = rt.alloc();
    let mut net: Network<AigGates> = Network::new(alloc)?;
    adder_in(&mut net).ok().ok_or("refused")?;
    let carry = Name::new(String::from_str(alloc, "carry")?);
    let inputs = vec![in alloc; None, None, None]?;
    let outputs = vec![in alloc; None, Some(carry)]?;
    let names = Names::new(inputs, outputs);
    assert_adds(&rt, alloc, &net)?;
    assert_converts_back::<HostRuntime, AigGates, MigGates>(&rt, alloc, &net, &names)
}
