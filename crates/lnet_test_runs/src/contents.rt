//! Contents of each format, right and wrong, that are read as the first command of a script, and generated circuits.

use crate::runs::{compare, owned};
use lnet_edge::MemoryFiles;
use std::alloc::{AllocError, Global};
use std::process::Abort;
use std::test::Fail;

/// A file, a script that reads it, and what its run tells.
struct Content {
    name: &'static str,
    bytes: &'static [u8],
    script: &'static str,
    transcript: &'static str,
    status: u8,
}

/// Runs the script over the file, and compares what it tells.
fn check<R: Abort>(rt: &R, alloc: Global, content: &Content) -> Result<(), AllocError> {
    let mut files = MemoryFiles::new(alloc, Vec::new(alloc));
    files.set(content.name, content.bytes)?;
    let words = owned(alloc, &["lognet", content.script])?;
    compare(
        rt,
        alloc,
        &words,
        content.transcript,
        content.status,
        &mut files,
        Vec::new(alloc),
    )
}

const CONTENTS: [Content; 29] = [
    Content {
        name: "forward.aag",
        bytes: b"aag 5 2 0 1 3\n2\n4\n10\n10 8 6\n6 2 4\n8 3 5\n",
        script: "read aiger forward.aag aig; print",
        transcript: "network aig inputs 2 outputs 1 gates 3\nnode 0 false\nnode 1 input 0\nnode 2 input 1\nnode 3 and !1 !2\nnode 4 and 1 2\nnode 5 and 3 4\noutput 0 5\n",
        status: 0,
    },
    Content {
        name: "cycle.aag",
        bytes: b"aag 4 2 0 1 2\n2\n4\n6\n6 8 2\n8 6 4\n",
        script: "read aiger cycle.aag aig",
        transcript: "unmet 1 Malformed 0 Cycle\n",
        status: 1,
    },
    Content {
        name: "empty.aag",
        bytes: b"aag 0 0 0 0 0",
        script: "read aiger empty.aag aig; write aag x",
        transcript: "network aig inputs 0 outputs 0 gates 0\nwrote 14\n",
        status: 0,
    },
    Content {
        name: "t.blif",
        bytes: b".model t\n.inputs a \\\n b\n.inputs c # more\n.outputs f g k\n.names a b c f\n11- 0\n--1 0\n.names g\n.names k\n1\n.end\n",
        script: "read blif t.blif aig; print; simulate 110; simulate 000",
        transcript: "network aig inputs 3 outputs 3 gates 2\nnode 0 false\nnode 1 input 0\nnode 2 input 1\nnode 3 input 2\nnode 4 and 1 2\nnode 5 and !3 !4\noutput 0 5\noutput 1 0\noutput 2 !0\noutputs 001\noutputs 101\n",
        status: 0,
    },
    Content {
        name: "wide.blif",
        bytes: b".inputs a0 a1 a2 a3 a4 a5 a6 a7 a8 a9 a10 a11 a12 a13 a14 a15 a16 a17 a18 a19\n.outputs f\n.names a0 a1 a2 a3 a4 a5 a6 a7 a8 a9 a10 a11 a12 a13 a14 a15 a16 a17 a18 a19 f\n11111111111111111111 1\n",
        script: "read blif wide.blif klut; stats",
        transcript: "network klut inputs 20 outputs 1 gates 19\nstats klut inputs 20 outputs 1 gates 19 depth 19\n",
        status: 0,
    },
    Content {
        name: "latch.blif",
        bytes: b".model t\n.inputs a\n.outputs q\n.latch a q 0\n.end\n",
        script: "read blif latch.blif aig",
        transcript: "unmet 1 Malformed 4 Sequential\n",
        status: 1,
    },
    Content {
        name: "l.bench",
        bytes: b"INPUT(a)\nINPUT(b)\nOUTPUT(f)\nf = LUT 0x2 (a, b)\n",
        script: "read bench l.bench klut; print; simulate 10; simulate 01; simulate 1; convert aig; print",
        transcript: "network klut inputs 2 outputs 1 gates 1\nnode 0 false\nnode 1 input 0\nnode 2 input 1\nnode 3 lut 2 1 2\noutput 0 3\noutputs 1\noutputs 0\nunmet 5 BadBits\nnetwork aig inputs 2 outputs 1 gates 1\nnode 0 false\nnode 1 input 0\nnode 2 input 1\nnode 3 and 1 !2\noutput 0 3\n",
        status: 1,
    },
    Content {
        name: "bad",
        bytes: b"aag 4294967296 0 0 0 0\n",
        script: "read aiger bad aig",
        transcript: "unmet 1 Malformed 1 Header\n",
        status: 1,
    },
    Content {
        name: "bad",
        bytes: b"aag 1 1 0 0 0\n2\n2\n",
        script: "read aiger bad aig",
        transcript: "unmet 1 Malformed 3 Symbol\n",
        status: 1,
    },
    Content {
        name: "bad",
        bytes: b"aig 1 0 0 0 1\n\x82\x80\x80\x80\x80\x00",
        script: "read aiger bad aig",
        transcript: "unmet 1 Malformed 2 Delta\n",
        status: 1,
    },
    Content {
        name: "bad",
        bytes: b"aag 1 1 0 0 0 1\n2\n",
        script: "read aiger bad aig",
        transcript: "unmet 1 Malformed 1 Property\n",
        status: 1,
    },
    Content {
        name: "bad",
        bytes: b".model t\n.outputs f\n.names f\n2\n.end\n",
        script: "read blif bad aig",
        transcript: "unmet 1 Malformed 4 Cover\n",
        status: 1,
    },
    Content {
        name: "bad",
        bytes: b".model t\n.inputs a a\n.end\n",
        script: "read blif bad aig",
        transcript: "unmet 1 Malformed 0 Twice\n",
        status: 1,
    },
    Content {
        name: "bad",
        bytes: b"INPUT(a\n",
        script: "read bench bad aig",
        transcript: "unmet 1 Malformed 1 Syntax\n",
        status: 1,
    },
    Content {
        name: "bad",
        bytes: b"INPUT(a)\nINPUT(b)\nf = LUT 0x10 (a, b)\n",
        script: "read bench bad aig",
        transcript: "unmet 1 Malformed 3 Cover\n",
        status: 1,
    },
    Content {
        name: "bad",
        bytes: b"INPUT(a)\nf = FOO(a)\n",
        script: "read bench bad aig",
        transcript: "unmet 1 Malformed 2 Unsupported\n",
        status: 1,
    },
    Content {
        name: "one.aag",
        bytes: b"aag 0 0 0 1 0\n1\n",
        script: "read aiger one.aag aig; print; simulate -; write aag out.aag",
        transcript: "network aig inputs 0 outputs 1 gates 0\nnode 0 false\noutput 0 !0\noutputs 1\nwrote 16\n",
        status: 0,
    },
    Content {
        name: "m.aag",
        bytes: b"aag 10 4 0 2 6\n2\n4\n6\n8\n18\n21\n10 2 4\n12 2 10\n14 12 6\n16 10 6\n18 14 8\n20 16 8\n",
        script: "read aiger m.aag aig; view depth; ask 1 level 8; merge 6 5; ask 1 level 10; ask 1 level 8; print",
        transcript: "network aig inputs 4 outputs 2 gates 6\nview 1 depth\nlevel 8 4\nmerged 6 gates 3\nlevel 10 3\nunmet 6 NoNode\nnode 0 false\nnode 1 input 0\nnode 2 input 1\nnode 3 input 2\nnode 4 input 3\nnode 5 and 1 2\nnode 9 and 3 5\nnode 10 and 4 9\noutput 0 10\noutput 1 !10\n",
        status: 1,
    },
    Content {
        name: "m.aag",
        bytes: b"aag 10 4 0 2 6\n2\n4\n6\n8\n18\n21\n10 2 4\n12 2 10\n14 12 6\n16 10 6\n18 14 8\n20 16 8\n",
        script: "read aiger m.aag aig; merge 5 6; merge 7 5; merge 1 2; print",
        transcript: "network aig inputs 4 outputs 2 gates 6\nunmet 2 Cycle\nunmet 3 Unequal 1100\nunmet 4 NoNode\nnode 0 false\nnode 1 input 0\nnode 2 input 1\nnode 3 input 2\nnode 4 input 3\nnode 5 and 1 2\nnode 6 and 1 5\nnode 7 and 3 6\nnode 8 and 4 7\nnode 9 and 3 5\nnode 10 and 4 9\noutput 0 8\noutput 1 !10\n",
        status: 1,
    },
    Content {
        name: "x.bench",
        bytes: b"INPUT(a)\nINPUT(b)\nINPUT(c)\nOUTPUT(f)\nOUTPUT(g)\ns = XOR(a, b)\nna = NOT(a)\nnb = NOT(b)\nt = NAND(a, nb)\nu = NAND(na, b)\no = AND(t, u)\nf = XOR(o, c)\ng = XOR(s, c)\n",
        script: "read bench x.bench xag; merge 6 !8; print",
        transcript: "network xag inputs 3 outputs 2 gates 6\nmerged 6 gates 2\nnode 0 false\nnode 1 input 0\nnode 2 input 1\nnode 3 input 2\nnode 8 xor 1 2\nnode 9 xor 3 8\noutput 0 !9\noutput 1 9\n",
        status: 0,
    },
    Content {
        name: "y.bench",
        bytes: b"INPUT(a)\nINPUT(b)\nINPUT(c)\nOUTPUT(f)\nOUTPUT(s)\ns = XOR(a, b)\nna = NOT(a)\nnb = NOT(b)\nt = NAND(a, nb)\nu = NAND(na, b)\no = AND(t, u)\nf = XOR(o, c)\n",
        script: "read bench y.bench xag; merge 6 !8; print",
        transcript: "network xag inputs 3 outputs 2 gates 5\nmerged 6 gates 2\nnode 0 false\nnode 1 input 0\nnode 2 input 1\nnode 3 input 2\nnode 7 !xor 3 8\nnode 8 xor 1 2\noutput 0 7\noutput 1 8\n",
        status: 0,
    },
    Content {
        name: "j.bench",
        bytes: b"INPUT(a)\nINPUT(b)\nINPUT(c)\nOUTPUT(f)\nx = AND(a, b)\nna = NOT(a)\ny = AND(na, c)\nn = AND(x, y)\nf = OR(n, c)\n",
        script: "read bench j.bench mig; merge 6 0; print",
        transcript: "network mig inputs 3 outputs 1 gates 4\nmerged 6 gates 0\nnode 0 false\nnode 1 input 0\nnode 2 input 1\nnode 3 input 2\noutput 0 3\n",
        status: 0,
    },
    Content {
        name: "t.bench",
        bytes: b"INPUT(a)\nINPUT(b)\nINPUT(c)\nOUTPUT(f)\nOUTPUT(g)\nx = AND(a, b)\no = OR(a, x)\np = XOR(o, c)\nq = AND(p, a)\nf = XOR(q, b)\nr = XOR(a, c)\ns = AND(r, a)\ng = XOR(s, b)\n",
        script: "read bench t.bench xag; view depth; ask 1 level 8; merge 5 !1; ask 1 level 11; print",
        transcript: "network xag inputs 3 outputs 2 gates 8\nview 1 depth\nlevel 8 5\nmerged 5 gates 3\nlevel 11 3\nnode 0 false\nnode 1 input 0\nnode 2 input 1\nnode 3 input 2\nnode 9 xor 1 3\nnode 10 and 1 9\nnode 11 xor 2 10\noutput 0 11\noutput 1 11\n",
        status: 0,
    },
    Content {
        name: "t.bench",
        bytes: b"INPUT(a)\nINPUT(b)\nINPUT(c)\nOUTPUT(f)\nOUTPUT(g)\nx = AND(a, b)\no = OR(a, x)\np = XOR(o, c)\nq = AND(p, a)\nf = XOR(q, b)\nr = XOR(a, c)\ns = AND(r, a)\ng = XOR(s, b)\n",
        script: "read bench t.bench klut; view depth; ask 1 level 8; merge 5 1; ask 1 level 11; print",
        transcript: "network klut inputs 3 outputs 2 gates 8\nview 1 depth\nlevel 8 5\nmerged 5 gates 3\nlevel 11 3\nnode 0 false\nnode 1 input 0\nnode 2 input 1\nnode 3 input 2\nnode 9 lut 6 1 3\nnode 10 lut 8 1 9\nnode 11 lut 6 2 10\noutput 0 11\noutput 1 11\n",
        status: 0,
    },
    Content {
        name: "v.bench",
        bytes: b"INPUT(a)\nINPUT(b)\nOUTPUT(f)\nx = AND(a, b)\no = OR(a, x)\nf = AND(o, a)\n",
        script: "read bench v.bench aig; merge 4 !1; print",
        transcript: "network aig inputs 2 outputs 1 gates 3\nmerged 4 gates 0\nnode 0 false\nnode 1 input 0\nnode 2 input 1\noutput 0 1\n",
        status: 0,
    },
    Content {
        name: "wide.aig",
        bytes: b"aig 18 17 0 1 1\n36\n\x20\x02",
        script: "read aiger wide.aig aig; merge 18 1",
        transcript: "network aig inputs 17 outputs 1 gates 1\nunmet 2 TooWide\n",
        status: 1,
    },
    Content {
        name: "none",
        bytes: b"",
        script: "gen aig 64 4000 32 7; stats",
        transcript: "network aig inputs 64 outputs 32 gates 2382\nstats aig inputs 64 outputs 32 gates 2382 depth 70\n",
        status: 0,
    },
    Content {
        name: "none",
        bytes: b"",
        script: "gen aig 0 1 1 1",
        transcript: "error script 1\n",
        status: 2,
    },
    Content {
        name: "none",
        bytes: b"",
        script: "gen aig 3 5 2 1; write aag g.aag; read aiger g.aag xag",
        transcript: "network aig inputs 3 outputs 2 gates 1\nwrote 30\nnetwork xag inputs 3 outputs 2 gates 1\n",
        status: 0,
    },
];

#[test]
fn contents(rt: HostRuntime) -> Result<(), Fail> {
    let alloc = rt.alloc();
    for content in &CONTENTS {
        check(&rt, alloc, content)?;
    }
    Ok(())
}
