//! Every normal form of the four kinds, in a file that is read and in the network that is printed.

use crate::runs::{compare, owned};
use lnet_edge::MemoryFiles;
use std::alloc::{AllocError, Global};
use std::process::Abort;
use std::test::Fail;

/// A file of inputs `a`, `b`, `c` and output `f` by its further lines, and what is told of it as a network of this kind.
struct Form {
    kind: &'static str,
    lines: &'static str,
    gates: u32,
    printed: &'static str,
}

/// Reads the file as a network of the kind, prints it, and compares what is told.
fn check<R: Abort>(rt: &R, alloc: Global, form: &Form) -> Result<(), AllocError> {
    let file = format!(in alloc; "INPUT(a)\nINPUT(b)\nINPUT(c)\nOUTPUT(f)\n{}", form.lines)?;
    let mut files = MemoryFiles::new(alloc, Vec::new(alloc));
    files.set("f.bench", file.as_bytes())?;
    let script = format!(in alloc; "read bench f.bench {}; print", form.kind)?;
    let words = owned(alloc, &["lognet", &script])?;
    let transcript = format!(in alloc;
        "network {} inputs 3 outputs 1 gates {}\nnode 0 false\nnode 1 input 0\nnode 2 input 1\nnode 3 input 2\n{}",
        form.kind, form.gates, form.printed
    )?;
    compare(
        rt,
        alloc,
        &words,
        &transcript,
        0,
        &mut files,
        Vec::new(alloc),
    )
}

const FORMS: [Form; 38] = [
    Form {
        kind: "aig",
        lines: "f = AND(a, a)\n",
        gates: 0,
        printed: "output 0 1\n",
    },
    Form {
        kind: "aig",
        lines: "n = NOT(a)\nf = AND(a, n)\n",
        gates: 0,
        printed: "output 0 0\n",
    },
    Form {
        kind: "aig",
        lines: "f = AND(a, gnd)\n",
        gates: 0,
        printed: "output 0 0\n",
    },
    Form {
        kind: "aig",
        lines: "f = AND(vdd, b)\n",
        gates: 0,
        printed: "output 0 2\n",
    },
    Form {
        kind: "aig",
        lines: "f = AND(b, a)\n",
        gates: 1,
        printed: "node 4 and 1 2\noutput 0 4\n",
    },
    Form {
        kind: "aig",
        lines: "n = NOT(b)\nf = NAND(n, a)\n",
        gates: 1,
        printed: "node 4 and 1 !2\noutput 0 !4\n",
    },
    Form {
        kind: "aig",
        lines: "f = OR(a, b)\n",
        gates: 1,
        printed: "node 4 and !1 !2\noutput 0 !4\n",
    },
    Form {
        kind: "aig",
        lines: "f = AND(a, b, c)\n",
        gates: 2,
        printed: "node 4 and 1 2\nnode 5 and 3 4\noutput 0 5\n",
    },
    Form {
        kind: "aig",
        lines: "f = XOR(a, b)\n",
        gates: 3,
        printed: "node 4 and 1 !2\nnode 5 and !1 2\nnode 6 and !4 !5\noutput 0 !6\n",
    },
    Form {
        kind: "aig",
        lines: "x = AND(a, b)\ny = AND(b, a)\nf = AND(x, y)\n",
        gates: 1,
        printed: "node 4 and 1 2\noutput 0 4\n",
    },
    Form {
        kind: "xag",
        lines: "f = AND(b, a)\n",
        gates: 1,
        printed: "node 4 and 1 2\noutput 0 4\n",
    },
    Form {
        kind: "xag",
        lines: "f = XOR(a, a)\n",
        gates: 0,
        printed: "output 0 0\n",
    },
    Form {
        kind: "xag",
        lines: "n = NOT(a)\nf = XOR(a, n)\n",
        gates: 0,
        printed: "output 0 !0\n",
    },
    Form {
        kind: "xag",
        lines: "f = XOR(gnd, b)\n",
        gates: 0,
        printed: "output 0 2\n",
    },
    Form {
        kind: "xag",
        lines: "f = XOR(vdd, b)\n",
        gates: 0,
        printed: "output 0 !2\n",
    },
    Form {
        kind: "xag",
        lines: "f = XOR(b, a)\n",
        gates: 1,
        printed: "node 4 xor 1 2\noutput 0 4\n",
    },
    Form {
        kind: "xag",
        lines: "n = NOT(a)\nf = XOR(n, b)\n",
        gates: 1,
        printed: "node 4 xor 1 2\noutput 0 !4\n",
    },
    Form {
        kind: "mig",
        lines: "f = AND(a, a)\n",
        gates: 0,
        printed: "output 0 1\n",
    },
    Form {
        kind: "mig",
        lines: "n = NOT(a)\nf = AND(a, n)\n",
        gates: 0,
        printed: "output 0 0\n",
    },
    Form {
        kind: "mig",
        lines: "f = AND(a, vdd)\n",
        gates: 0,
        printed: "output 0 1\n",
    },
    Form {
        kind: "mig",
        lines: "f = AND(b, a)\n",
        gates: 1,
        printed: "node 4 maj 0 1 2\noutput 0 4\n",
    },
    Form {
        kind: "mig",
        lines: "f = OR(a, b)\n",
        gates: 1,
        printed: "node 4 maj !0 1 2\noutput 0 4\n",
    },
    Form {
        kind: "mig",
        lines: "n = NOT(a)\nf = AND(n, b)\n",
        gates: 1,
        printed: "node 4 maj 0 !1 2\noutput 0 4\n",
    },
    Form {
        kind: "mig",
        lines: "f = XOR(a, b)\n",
        gates: 3,
        printed: "node 4 maj 0 1 2\nnode 5 maj !0 1 2\nnode 6 maj 0 !4 5\noutput 0 6\n",
    },
    Form {
        kind: "mig",
        lines: "f = LUT 0xe8 (a, b, c)\n",
        gates: 5,
        printed: "node 4 maj !0 1 2\nnode 5 maj 0 1 2\nnode 6 maj 0 3 4\nnode 7 maj 0 !3 5\nnode 8 maj !0 6 7\noutput 0 8\n",
    },
    Form {
        kind: "klut",
        lines: "f = AND(a, b)\n",
        gates: 1,
        printed: "node 4 lut 8 1 2\noutput 0 4\n",
    },
    Form {
        kind: "klut",
        lines: "f = XOR(b, a)\n",
        gates: 1,
        printed: "node 4 lut 6 1 2\noutput 0 4\n",
    },
    Form {
        kind: "klut",
        lines: "f = NOR(a, b)\n",
        gates: 1,
        printed: "node 4 lut e 1 2\noutput 0 !4\n",
    },
    Form {
        kind: "klut",
        lines: "f = LUT 0xd (a, b)\n",
        gates: 1,
        printed: "node 4 lut 2 1 2\noutput 0 !4\n",
    },
    Form {
        kind: "klut",
        lines: "f = LUT 0x2 (b, a)\n",
        gates: 1,
        printed: "node 4 lut 4 1 2\noutput 0 4\n",
    },
    Form {
        kind: "klut",
        lines: "n = NOT(a)\nf = LUT 0x2 (n, b)\n",
        gates: 1,
        printed: "node 4 lut e 1 2\noutput 0 !4\n",
    },
    Form {
        kind: "klut",
        lines: "f = LUT 0x8 (a, vdd)\n",
        gates: 0,
        printed: "output 0 1\n",
    },
    Form {
        kind: "klut",
        lines: "f = LUT 0x2 (a, vdd)\n",
        gates: 0,
        printed: "output 0 0\n",
    },
    Form {
        kind: "klut",
        lines: "f = LUT 0x9 (a, a)\n",
        gates: 0,
        printed: "output 0 !0\n",
    },
    Form {
        kind: "klut",
        lines: "f = LUT 0xa (a, b)\n",
        gates: 0,
        printed: "output 0 1\n",
    },
    Form {
        kind: "klut",
        lines: "f = LUT 0x5 (a, b)\n",
        gates: 0,
        printed: "output 0 !1\n",
    },
    Form {
        kind: "klut",
        lines: "f = LUT 0xe8 (c, b, a)\n",
        gates: 1,
        printed: "node 4 lut e8 1 2 3\noutput 0 4\n",
    },
    Form {
        kind: "klut",
        lines: "f = LUT 0x1e (a, b, c)\n",
        gates: 1,
        printed: "node 4 lut 1e 1 2 3\noutput 0 4\n",
    },
];

#[test]
fn forms(rt: HostRuntime) -> Result<(), Fail> {
    let alloc = rt.alloc();
    for form in &FORMS {
        check(&rt, alloc, form)?;
    }
    Ok(())
}
