//! Texts in BENCH and BLIF that are written of circuits.

use crate::rendering::circuit_text;
use lnet_gates::Kind;
use std::test::Fail;

#[test]
fn words_of_gates(rt: HostRuntime) -> Result<(), Fail> {
    let alloc = rt.alloc();
    let content =
        b"aag 5 3 0 3 2\n4\n2\n6\n11\n1\n5\n8 5 3\n10 9 1\ni0 a\ni2 _i\no0 a\no1 GND\no2 f\n";
    let circuit = lnet_aiger::read(alloc, content)?;
    assert!(rt; circuit.is_plain());
    let written = lnet_benchwriter::write(alloc, &circuit)?;
    let expected =
        "INPUT(a)\nINPUT(_i1)\nINPUT(_i)\nOUTPUT(_o0)\nOUTPUT(_o1)\nOUTPUT(f)\n_c1 = NOT(_i1)\n_c2 = NOT(a)\n_n4 = AND(_c2, _c1)\n_c4 = NOT(_n4)\n_n5 = AND(_c4, vdd)\n_c5 = NOT(_n5)\n_o0 = BUFF(_c5)\n_o1 = BUFF(vdd)\nf = BUFF(_c2)\n";
    assert_eq!(rt; written.as_slice(), expected.as_bytes());
    Ok(())
}

#[test]
fn tables_of_gates(rt: HostRuntime) -> Result<(), Fail> {
    let alloc = rt.alloc();
    let content =
        b"INPUT(a)\nINPUT(b)\nOUTPUT(f)\nOUTPUT(g)\nOUTPUT(vdd)\nOUTPUT(gnd)\nf = LUT 0x96 (a, vdd, b)\nt = VDD\ng = AND(gnd, vdd)\nh = LUT 0xfedcba9876543210 (a, b, a, b, f, g)\n";
    let circuit = lnet_bench::read(alloc, content)?;
    assert!(rt; circuit.is_plain());
    let written = lnet_benchwriter::write(alloc, &circuit)?;
    let expected =
        "INPUT(a)\nINPUT(b)\nOUTPUT(f)\nOUTPUT(g)\nOUTPUT(_o2)\nOUTPUT(_o3)\n_n3 = LUT 0x9 (a, b)\n_n5 = vdd\n_n4 = gnd\n_n6 = LUT 0xfedcba9876543210 (a, b, a, b, _n3, _n4)\nf = BUFF(_n3)\ng = BUFF(_n4)\n_o2 = BUFF(vdd)\n_o3 = BUFF(gnd)\n";
    assert_eq!(rt; written.as_slice(), expected.as_bytes());
    Ok(())
}

#[test]
fn covers_of_majorities(rt: HostRuntime) -> Result<(), Fail> {
    let alloc = rt.alloc();
    let circuit = lnet_generate::generate(alloc, Kind::Mig, 3, 2, 2, 42)?;
    let expected = " 1 2 3; !3 !3; 4 = maj !2 !2 2; 5 = maj !3 !3 1";
    assert_eq!(rt; circuit_text(alloc, &circuit)?.as_str(), expected);
    let written = lnet_blifwriter::write(alloc, &circuit)?;
    let expected =
        ".model lognet\n.inputs _i0 _i1 _i2\n.outputs _o0 _o1\n.names _i1 _i1 _i1 _n4\n000 1\n001 1\n101 1\n011 1\n.names _i2 _i2 _i0 _n5\n000 1\n001 1\n101 1\n011 1\n.names _i2 _o0\n0 1\n.names _i2 _o1\n0 1\n.end\n";
    assert_eq!(rt; written.as_slice(), expected.as_bytes());
    Ok(())
}

#[test]
fn bench_with_what_it_means(rt: HostRuntime) -> Result<(), Fail> {
    let alloc = rt.alloc();
    let content = b"INPUT(a)\nINPUT(b)\nOUTPUT(f)\nOUTPUT(s)\ns = XNOR(a, b)\nf = NAND(a, s)\n";
    let circuit = lnet_bench::read(alloc, content)?;
    assert!(rt; circuit.is_plain());
    lnet_kept::keep(&circuit);
    let written = lnet_benchvalues::write(alloc, &circuit)?;
    let expected =
        "INPUT(a)\nINPUT(b)\nOUTPUT(f)\nOUTPUT(s)\n_n4 = XNOR(a, b)\n_n3 = NAND(a, _n4)\nf = BUFF(_n3)\ns = BUFF(_n4)\n";
    assert_eq!(rt; written.as_slice(), expected.as_bytes());
    Ok(())
}

#[test]
fn blif_with_what_it_means(rt: HostRuntime) -> Result<(), Fail> {
    let alloc = rt.alloc();
    let content =
        b"INPUT(a)\nINPUT(b)\nOUTPUT(f)\nOUTPUT(vdd)\nOUTPUT(gnd)\nf = LUT 0x96 (a, vdd, b)\nt = VDD\ng = AND(gnd, vdd)\n";
    let circuit = lnet_bench::read(alloc, content)?;
    assert!(rt; circuit.is_plain());
    let written = lnet_blifmeans::write(alloc, &circuit)?;
    let expected =
        ".model lognet\n.inputs a b\n.outputs f _o1 _o2\n.names a b _n3\n00 1\n11 1\n.names _n4\n1\n.names _n5\n.names _n3 f\n1 1\n.names _o1\n1\n.names _o2\n.end\n";
    assert_eq!(rt; written.as_slice(), expected.as_bytes());
    Ok(())
}
