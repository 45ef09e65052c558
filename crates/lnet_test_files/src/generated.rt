//! Generated circuits: by the first words of the generator's published sequence from 42, and with few wires.

use crate::rendering::circuit_text;
use lnet_gates::Kind;
use lnet_generate::generate;
use std::test::Fail;

#[test]
fn drawn_by_the_published_words(rt: HostRuntime) -> Result<(), Fail> {
    let alloc = rt.alloc();
    for (kind, end) in [
        (Kind::Aig, "; 105; 257 = and !165 !252"),
        (Kind::Xag, "; !184; 257 = xor !252 104"),
        (Kind::Mig, "; !184; 257 = maj !165 !252 104"),
        (Kind::Klut, "; !184; 257 = xor !252 104"),
    ] {
        let circuit = generate(alloc, kind, 256, 1, 1, 42)?;
        let text = circuit_text(alloc, &circuit)?;
        assert!(rt; text.as_str().ends_with(end), "{}", text.as_str());
    }
    Ok(())
}

#[test]
fn drawn_from_few_wires(rt: HostRuntime) -> Result<(), Fail> {
    let alloc = rt.alloc();
    let circuit = generate(alloc, Kind::Xag, 2, 4, 1, 18_446_744_073_709_551_615)?;
    let expected = " 1 2; !2; 3 = xor 1 1; 4 = xor 2 1; 5 = and 2 !3; 6 = xor !2 !2";
    assert_eq!(rt; circuit_text(alloc, &circuit)?.as_str(), expected);
    Ok(())
}
