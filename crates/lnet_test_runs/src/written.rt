//! Networks that are written, with the bytes of the files, and read again.

use crate::prefixes::C17;
use crate::runs::{compare, owned, status_of};
use lnet_edge::{MemoryFiles, MemorySink};
use std::alloc::{AllocError, Global};
use std::process::Abort;
use std::test::Fail;

/// The exclusive or of three, and that of two, built of gates of which one gives way to another.
const PARITY: &[u8] =
    b"INPUT(a)\nINPUT(b)\nINPUT(c)\nOUTPUT(f)\nOUTPUT(s)\ns = XOR(a, b)\nna = NOT(a)\nnb = NOT(b)\nt = NAND(a, nb)\nu = NAND(na, b)\no = AND(t, u)\nf = XOR(o, c)\n";

/// A netlist of NANDs, as an and-inverter graph in ASCII AIGER with the names of its ports.
#[test]
fn written_with_names(rt: HostRuntime) -> Result<(), Fail> {
    let alloc = rt.alloc();
    let mut files = MemoryFiles::new(alloc, Vec::new(alloc));
    files.set("c17.bench", C17)?;
    let script =
        "read bench c17.bench aig; stats; view depth; ask 1 level 5; ask 1 level 6; ask 1 level 8; ask 1 level 11; write aag c17.aag";
    let words = owned(alloc, &["lognet", script])?;
    compare(
        &rt,
        alloc,
        &words,
        "network aig inputs 5 outputs 2 gates 6\nstats aig inputs 5 outputs 2 gates 6 depth 3\nview 1 depth\nlevel 5 0\nlevel 6 1\nlevel 8 2\nlevel 11 3\nwrote 118\n",
        0,
        &mut files,
        Vec::new(alloc),
    )?;
    let aag =
        "aag 11 5 0 2 6\n2\n4\n6\n8\n10\n21\n23\n12 6 2\n14 8 6\n16 15 4\n18 15 10\n20 17 13\n22 19 17\ni0 1\ni1 2\ni2 3\ni3 6\ni4 7\no0 22\no1 23\n";
    assert_eq!(rt; files.file("c17.aag").ok_or("no file")?, aag.as_bytes());
    Ok(())
}

/// A gate of phase true, and a gate that stands below one of a lesser number.
#[test]
fn written_after_a_merge(rt: HostRuntime) -> Result<(), Fail> {
    let alloc = rt.alloc();
    let mut files = MemoryFiles::new(alloc, Vec::new(alloc));
    files.set("y.bench", PARITY)?;
    let script =
        "read bench y.bench xag; merge 6 !8; print; write bench p.bench; write blif p.blif; write aig p.aig";
    let words = owned(alloc, &["lognet", script])?;
    compare(
        &rt,
        alloc,
        &words,
        "network xag inputs 3 outputs 2 gates 5\nmerged 6 gates 2\nnode 0 false\nnode 1 input 0\nnode 2 input 1\nnode 3 input 2\nnode 7 !xor 3 8\nnode 8 xor 1 2\noutput 0 7\noutput 1 8\nwrote 110\nwrote 132\nunmet 6 WrongKind\n",
        1,
        &mut files,
        Vec::new(alloc),
    )?;
    let bench =
        "INPUT(a)\nINPUT(b)\nINPUT(c)\nOUTPUT(f)\nOUTPUT(s)\n_n8 = XOR(a, b)\n_n7 = XNOR(c, _n8)\nf = BUFF(_n7)\ns = BUFF(_n8)\n";
    assert_eq!(rt; files.file("p.bench").ok_or("no file")?, bench.as_bytes());
    let blif =
        ".model lognet\n.inputs a b c\n.outputs f s\n.names a b _n8\n10 1\n01 1\n.names c _n8 _n7\n00 1\n11 1\n.names _n7 f\n1 1\n.names _n8 s\n1 1\n.end\n";
    assert_eq!(rt; files.file("p.blif").ok_or("no file")?, blif.as_bytes());
    Ok(())
}

/// Runs the script without a file at first, and gives what it tells once its status was compared.
fn told<R: Abort>(rt: &R, alloc: Global, script: &str) -> Result<Vec<u8>, AllocError> {
    let mut files = MemoryFiles::new(alloc, Vec::new(alloc));
    let words = owned(alloc, &["lognet", script])?;
    let mut out = MemorySink::new(alloc, Vec::new(alloc));
    assert_eq!(rt; status_of(alloc, &words, &mut files, &mut out)?, 0);
    out.written().to_vec(alloc)
}

/// A generated network, with its file's length by the drawing's and the format's rules. The file names the same gates again: the
/// counts of the two networks are equal. A second run tells the same.
#[test]
fn generated_and_read_again(rt: HostRuntime) -> Result<(), Fail> {
    let alloc = rt.alloc();
    for (script, bytes) in [
        (
            "gen aig 64 4000 32 7; view depth; stats; write bench g.bench; read bench g.bench aig; stats",
            100_622,
        ),
        (
            "gen aig 64 4000 32 7; view depth; stats; write blif g.blif; read blif g.blif aig; stats",
            76_426,
        ),
    ] {
        let network = "network aig inputs 64 outputs 32 gates 2382";
        let stats = "stats aig inputs 64 outputs 32 gates 2382 depth 70";
        let lines = format!(in alloc;
            "{network}\nview 1 depth\n{stats}\nwrote {bytes}\n{network}\n{stats}\n"
        )?;
        let first = told(&rt, alloc, script)?;
        assert_eq!(rt; first.as_slice(), lines.as_bytes());
        assert_eq!(rt; told(&rt, alloc, script)?, first);
    }
    Ok(())
}
