//! Files that are cut off after each of their bytes, and read behind another: what is told, what stands then, and what is written.

use crate::runs::{ONE, compare, owned};
use lnet_edge::MemoryFiles;
use std::alloc::{AllocError, Global};
use std::process::Abort;
use std::test::Fail;

/// A netlist of six gates.
pub(crate) const C17: &[u8] =
    b"INPUT(1)\nINPUT(2)\nINPUT(3)\nINPUT(6)\nINPUT(7)\nOUTPUT(22)\nOUTPUT(23)\n10 = NAND(1, 3)\n11 = NAND(3, 6)\n16 = NAND(2, 11)\n19 = NAND(11, 7)\n22 = NAND(10, 16)\n23 = NAND(16, 19)\n";

/// What comes of a cut file: the line that the read puts, that of the counts, the lines of the network, and its file.
#[derive(Clone, Copy)]
struct Cut {
    read: &'static str,
    stats: &'static str,
    printed: &'static str,
    written: &'static str,
}

/// The network in place before, of one constant output, stays where nothing is read.
const KEPT: Cut = Cut {
    read: "",
    stats: "stats aig inputs 0 outputs 1 gates 0 depth 0\n",
    printed: "node 0 false\noutput 0 !0\n",
    written: "aag 0 0 0 1 0\n1\n",
};

/// What comes of the first lines where each is whole and no output stands among them, by the count of the inputs.
const INPUTS: [Cut; 6] = [
    Cut {
        read: "network aig inputs 0 outputs 0 gates 0\n",
        stats: "stats aig inputs 0 outputs 0 gates 0 depth 0\n",
        printed: "node 0 false\n",
        written: "aag 0 0 0 0 0\n",
    },
    Cut {
        read: "network aig inputs 1 outputs 0 gates 0\n",
        stats: "stats aig inputs 1 outputs 0 gates 0 depth 0\n",
        printed: "node 0 false\nnode 1 input 0\n",
        written: "aag 1 1 0 0 0\n2\ni0 1\n",
    },
    Cut {
        read: "network aig inputs 2 outputs 0 gates 0\n",
        stats: "stats aig inputs 2 outputs 0 gates 0 depth 0\n",
        printed: "node 0 false\nnode 1 input 0\nnode 2 input 1\n",
        written: "aag 2 2 0 0 0\n2\n4\ni0 1\ni1 2\n",
    },
    Cut {
        read: "network aig inputs 3 outputs 0 gates 0\n",
        stats: "stats aig inputs 3 outputs 0 gates 0 depth 0\n",
        printed: "node 0 false\nnode 1 input 0\nnode 2 input 1\nnode 3 input 2\n",
        written: "aag 3 3 0 0 0\n2\n4\n6\ni0 1\ni1 2\ni2 3\n",
    },
    Cut {
        read: "network aig inputs 4 outputs 0 gates 0\n",
        stats: "stats aig inputs 4 outputs 0 gates 0 depth 0\n",
        printed: "node 0 false\nnode 1 input 0\nnode 2 input 1\nnode 3 input 2\nnode 4 input 3\n",
        written: "aag 4 4 0 0 0\n2\n4\n6\n8\ni0 1\ni1 2\ni2 3\ni3 6\n",
    },
    Cut {
        read: "network aig inputs 5 outputs 0 gates 0\n",
        stats: "stats aig inputs 5 outputs 0 gates 0 depth 0\n",
        printed: "node 0 false\nnode 1 input 0\nnode 2 input 1\nnode 3 input 2\nnode 4 input 3\nnode 5 input 4\n",
        written: "aag 5 5 0 0 0\n2\n4\n6\n8\n10\ni0 1\ni1 2\ni2 3\ni3 6\ni4 7\n",
    },
];

/// What comes of the whole netlist, with or without its last newline.
const WHOLE: Cut = Cut {
    read: "network aig inputs 5 outputs 2 gates 6\n",
    stats: "stats aig inputs 5 outputs 2 gates 6 depth 3\n",
    printed: "node 0 false\nnode 1 input 0\nnode 2 input 1\nnode 3 input 2\nnode 4 input 3\nnode 5 input 4\nnode 6 and 1 3\nnode 7 and 3 4\nnode 8 and 2 !7\nnode 9 and !6 !8\nnode 10 and 5 !7\nnode 11 and !8 !10\noutput 0 !9\noutput 1 !11\n",
    written: "aag 11 5 0 2 6\n2\n4\n6\n8\n10\n21\n23\n12 6 2\n14 8 6\n16 15 4\n18 15 10\n20 17 13\n22 19 17\ni0 1\ni1 2\ni2 3\ni3 6\ni4 7\no0 22\no1 23\n",
};

/// What comes of the netlist's first bytes. A line that is cut off has no form, and an output needs its gate.
fn cut_netlist(count: usize) -> Cut {
    match count {
        0 => INPUTS[0],
        8 | 9 => INPUTS[1],
        17 | 18 => INPUTS[2],
        26 | 27 => INPUTS[3],
        35 | 36 => INPUTS[4],
        44 | 45 => INPUTS[5],
        168 | 169 => WHOLE,
        _ => Cut {
            read: refusal(count),
            ..KEPT
        },
    }
}

/// The line of the read where the netlist's first bytes mean no circuit.
fn refusal(count: usize) -> &'static str {
    match count {
        1..=7 => "unmet 2 Malformed 1 Syntax\n",
        10..=16 => "unmet 2 Malformed 2 Syntax\n",
        19..=25 => "unmet 2 Malformed 3 Syntax\n",
        28..=34 => "unmet 2 Malformed 4 Syntax\n",
        37..=43 => "unmet 2 Malformed 5 Syntax\n",
        46..=54 => "unmet 2 Malformed 6 Syntax\n",
        57..=65 => "unmet 2 Malformed 7 Syntax\n",
        68..=81 => "unmet 2 Malformed 8 Syntax\n",
        84..=97 => "unmet 2 Malformed 9 Syntax\n",
        100..=114 => "unmet 2 Malformed 10 Syntax\n",
        117..=131 => "unmet 2 Malformed 11 Syntax\n",
        134..=149 => "unmet 2 Malformed 12 Syntax\n",
        152..=167 => "unmet 2 Malformed 13 Syntax\n",
        _ => "unmet 2 Malformed 0 Undriven\n",
    }
}

/// Reads the netlist's first bytes behind another file, and compares what is told and what is written.
fn check<R: Abort>(rt: &R, alloc: Global, count: usize) -> Result<(), Fail> {
    let mut files = MemoryFiles::new(alloc, Vec::new(alloc));
    files.set("one.aag", ONE)?;
    files.set("cut.bench", C17.get(..count).unwrap_or(C17))?;
    let script =
        "read aiger one.aag aig; read bench cut.bench aig; stats; print; write aag out.aag";
    let words = owned(alloc, &["lognet", script])?;
    let cut = cut_netlist(count);
    let transcript = format!(in alloc;
        "network aig inputs 0 outputs 1 gates 0\n{}{}{}wrote {}\n",
        cut.read,
        cut.stats,
        cut.printed,
        cut.written.len()
    )?;
    let status = if cut.read.starts_with("unmet") { 1 } else { 0 };
    compare(
        rt,
        alloc,
        &words,
        &transcript,
        status,
        &mut files,
        Vec::new(alloc),
    )?;
    assert_eq!(rt;
        files.file("out.aag").ok_or("no file")?,
        cut.written.as_bytes()
    );
    Ok(())
}

/// Where a cut file means a circuit, that circuit stands then, and elsewhere the network from before.
#[test]
fn prefixes(rt: HostRuntime) -> Result<(), Fail> {
    let alloc = rt.alloc();
    for count in 0..=C17.len() {
        check(&rt, alloc, count)?;
    }
    Ok(())
}
