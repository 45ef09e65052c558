//! Networks that are built of circuits, and exported again.

use crate::rendering::circuit_text;
use lnet_build::build;
use lnet_export::export;
use lnet_gates::AigGates;
use lnet_network::Network;
use lnet_order::order;
use std::test::Fail;

#[test]
fn needed_equations_in_order(rt: HostRuntime) -> Result<(), Fail> {
    let alloc = rt.alloc();
    let content =
        b"INPUT(a)\nINPUT(b)\nOUTPUT(f)\nf = AND(x, y, x)\nx = XOR(a, b)\nz = AND(a, b)\ny = OR(x, b)\n";
    let circuit = lnet_bench::read(alloc, content)?;
    let places = order(alloc, &circuit)?;
    assert_eq!(rt; places.as_slice(), [1, 3, 0].as_slice());
    Ok(())
}

#[test]
fn built_and_exported(rt: HostRuntime) -> Result<(), Fail> {
    let alloc = rt.alloc();
    let content =
        b".model t\n.inputs a b c\n.outputs f g\n.names a b c f\n11- 0\n--1 0\n.names g\n.end\n";
    let circuit = lnet_blif::read(alloc, content)?;
    let mut net = Network::<AigGates>::new(alloc)?;
    let Ok(names) = build(alloc, &mut net, &circuit) else {
        return Err("no network".into());
    };
    let exported = export(alloc, &net, &names)?;
    let expected = " 1:a 2:b 3:c; 5:f 0:g; 4 = and 1 2; 5 = and !3 !4";
    assert_eq!(rt; circuit_text(alloc, &exported)?.as_str(), expected);
    Ok(())
}
