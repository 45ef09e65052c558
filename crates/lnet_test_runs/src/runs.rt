//! Runs with their expected transcripts, statuses and files.

use lnet_edge::{MemoryFiles, MemorySink};
use lnet_run::run;
use lnet_session::Kit;
use lnet_store::View;
use lnet_views::DepthView;
use std::alloc::{AllocError, Global};
use std::process::Abort;
use std::test::Fail;

/// One output, the constant true.
pub(crate) const ONE: &[u8] = b"aag 0 0 0 1 0\n1\n";

/// The words of a command line, and what its run puts and answers.
#[derive(Clone, Copy)]
struct Row {
    words: &'static [&'static str],
    transcript: &'static str,
    status: u8,
}

/// The words as a command line has them.
pub(crate) fn owned(alloc: Global, words: &[&str]) -> Result<Vec<String>, AllocError> {
    let mut owned = Vec::new(alloc);
    for word in words {
        owned.push(String::from_str(alloc, word)?)?;
    }
    Ok(owned)
}

/// Runs the words over the files, the sink and two depth views, and tells the status.
pub(crate) fn status_of(
    alloc: Global,
    words: &[String],
    files: &mut MemoryFiles,
    out: &mut MemorySink,
) -> Result<u8, AllocError> {
    let first: Box<dyn View> = Box::new(alloc, DepthView::new(alloc)?)?;
    let second: Box<dyn View> = Box::new(alloc, DepthView::new(alloc)?)?;
    let mut views = Vec::new(alloc);
    views.push(first)?;
    views.push(second)?;
    Ok(run(alloc, words, files, out, Kit { views }).status)
}

/// Runs the words over the files, with a sink whose puts of these numbers fail, and compares what comes.
pub(crate) fn compare<R: Abort>(
    rt: &R,
    alloc: Global,
    words: &[String],
    transcript: &str,
    status: u8,
    files: &mut MemoryFiles,
    failing_puts: Vec<u32>,
) -> Result<(), AllocError> {
    let mut out = MemorySink::new(alloc, failing_puts);
    let told = status_of(alloc, words, files, &mut out)?;
    assert_eq!(rt; out.written(), transcript.as_bytes());
    assert_eq!(rt; told, status);
    Ok(())
}

/// The same with the words of a row.
fn check<R: Abort>(
    rt: &R,
    alloc: Global,
    row: &Row,
    files: &mut MemoryFiles,
    failing_puts: Vec<u32>,
) -> Result<(), AllocError> {
    let words = owned(alloc, row.words)?;
    compare(
        rt,
        alloc,
        &words,
        row.transcript,
        row.status,
        files,
        failing_puts,
    )
}

/// What is read and written again, with the greater operand first.
#[test]
fn reads_and_writes(rt: HostRuntime) -> Result<(), Fail> {
    let alloc = rt.alloc();
    let mut files = MemoryFiles::new(alloc, Vec::new(alloc));
    files.set("one.aag", ONE)?;
    files.set("and.aag", b"aag 3 2 0 1 1\n2\n4\n7\n6 2 4\n")?;
    let constant = Row {
        words: &["lognet", "read aiger one.aag aig; write aag out.aag"],
        transcript: "network aig inputs 0 outputs 1 gates 0\nwrote 16\n",
        status: 0,
    };
    check(&rt, alloc, &constant, &mut files, Vec::new(alloc))?;
    assert_eq!(rt; files.file("out.aag").ok_or("no file")?, ONE);
    let gate = Row {
        words: &["lognet", "read aiger and.aag aig; write aag out.aag"],
        transcript: "network aig inputs 2 outputs 1 gates 1\nwrote 26\n",
        status: 0,
    };
    check(&rt, alloc, &gate, &mut files, Vec::new(alloc))?;
    assert_eq!(rt;
        files.file("out.aag").ok_or("no file")?,
        b"aag 3 2 0 1 1\n2\n4\n7\n6 4 2\n".as_slice()
    );
    Ok(())
}

/// A network of two gates, of inputs 1 and 2, complemented here and there.
pub(crate) const TWO: &[u8] = b"aag 4 2 0 1 2\n2\n4\n9\n6 4 2\n8 7 3\n";

/// Views that are attached, asked and put back; networks of four kinds; commands that are not met; and words and scripts that are
/// refused.
const ANSWERS: [Row; 14] = [
    Row {
        words: &[
            "lognet",
            "read aiger n.aag aig; view depth; ask 1 level 4; drop 1; ask 1 level 4; view depth; view depth; view depth; stats",
        ],
        transcript: "network aig inputs 2 outputs 1 gates 2\nview 1 depth\nlevel 4 2\ndropped 1\nunmet 5 NoView\nview 2 depth\nview 3 depth\nunmet 8 ShelfEmpty\nstats aig inputs 2 outputs 1 gates 2 depth 2\n",
        status: 1,
    },
    Row {
        words: &["lognet", "read aiger n.aag xag; print; convert mig; print"],
        transcript: "network xag inputs 2 outputs 1 gates 2\nnode 0 false\nnode 1 input 0\nnode 2 input 1\nnode 3 and 1 2\nnode 4 and !1 !3\noutput 0 !4\nnetwork mig inputs 2 outputs 1 gates 2\nnode 0 false\nnode 1 input 0\nnode 2 input 1\nnode 3 maj 0 1 2\nnode 4 maj !0 1 3\noutput 0 4\n",
        status: 0,
    },
    Row {
        words: &[
            "lognet",
            "view depth; drop 1; ask 1 level 0; print; stats; convert mig; write aag x; read aiger n.aag klut; write aag x; view depth; ask 1 level 9; drop 2; read aiger n.aag aig; ask 1 level 4; view depth; ask 2 level 3",
        ],
        transcript: "unmet 1 NoNetwork\nunmet 2 NoNetwork\nunmet 3 NoNetwork\nunmet 4 NoNetwork\nunmet 5 NoNetwork\nunmet 6 NoNetwork\nunmet 7 NoNetwork\nnetwork klut inputs 2 outputs 1 gates 2\nunmet 9 WrongKind\nview 1 depth\nunmet 11 NoNode\nunmet 12 NoView\nnetwork aig inputs 2 outputs 1 gates 2\nunmet 14 NoView\nview 2 depth\nlevel 3 1\n",
        status: 1,
    },
    Row {
        words: &[
            "lognet",
            "read aiger n.aag mig # first\n convert klut;convert aig;\twrite aag x ;\r\n; convert xag",
        ],
        transcript: "network mig inputs 2 outputs 1 gates 2\nnetwork klut inputs 2 outputs 1 gates 2\nnetwork aig inputs 2 outputs 1 gates 2\nwrote 32\nnetwork xag inputs 2 outputs 1 gates 2\n",
        status: 0,
    },
    Row {
        words: &[
            "lognet",
            "read bench y.bench aig; print; write aig x; read bench one.aag mig",
        ],
        transcript: "network aig inputs 2 outputs 1 gates 1\nnode 0 false\nnode 1 input 0\nnode 2 input 1\nnode 3 and 1 2\noutput 0 !3\nwrote 33\nunmet 4 Malformed 1 Syntax\n",
        status: 1,
    },
    Row {
        words: &["lognet", "read aiger no.aag aig; write aag x"],
        transcript: "unmet 1 Malformed 2 Missing\nunmet 2 NoNetwork\n",
        status: 1,
    },
    Row {
        words: &[
            "lognet",
            "read aiger one.aag aig; read aiger no.aag aig; write aag x",
        ],
        transcript: "network aig inputs 0 outputs 1 gates 0\nunmet 2 Malformed 2 Missing\nwrote 16\n",
        status: 1,
    },
    Row {
        words: &["lognet", "read aiger one.aag aig"],
        transcript: "network aig inputs 0 outputs 1 gates 0\n",
        status: 0,
    },
    Row {
        words: &["lognet", " ; ;"],
        transcript: "",
        status: 0,
    },
    Row {
        words: &["lognet", ""],
        transcript: "",
        status: 0,
    },
    Row {
        words: &[
            "lognet",
            "read aiger one.aag aig # first\n\twrite aag out.aag ;",
        ],
        transcript: "network aig inputs 0 outputs 1 gates 0\nwrote 16\n",
        status: 0,
    },
    Row {
        words: &["lognet"],
        transcript: "error words\n",
        status: 2,
    },
    Row {
        words: &["lognet", "write aag x", "y"],
        transcript: "error words\n",
        status: 2,
    },
    Row {
        words: &["lognet", "-f"],
        transcript: "error words\n",
        status: 2,
    },
];

#[test]
fn answers(rt: HostRuntime) -> Result<(), Fail> {
    let alloc = rt.alloc();
    for row in &ANSWERS {
        let mut files = MemoryFiles::new(alloc, Vec::new(alloc));
        files.set("one.aag", ONE)?;
        files.set("no.aag", b"aag 0 0 0 1 0")?;
        files.set("n.aag", TWO)?;
        files.set(
            "y.bench",
            b"INPUT(a)\nINPUT(b)\nOUTPUT(y)\ny = NAND(a, b)\n",
        )?;
        check(&rt, alloc, row, &mut files, Vec::new(alloc))?;
    }
    Ok(())
}

/// A failed store, a failed put, and a file that isn't there.
#[test]
fn faults(rt: HostRuntime) -> Result<(), Fail> {
    let alloc = rt.alloc();
    let store = Row {
        words: &["lognet", "read aiger one.aag aig; write aag x"],
        transcript: "network aig inputs 0 outputs 1 gates 0\n",
        status: 3,
    };
    let mut files = MemoryFiles::new(alloc, [2].to_vec(alloc)?);
    files.set("one.aag", ONE)?;
    check(&rt, alloc, &store, &mut files, Vec::new(alloc))?;
    assert!(rt; files.file("x").is_none());
    let put = Row {
        transcript: "network aig inputs ",
        ..store
    };
    let mut files = MemoryFiles::new(alloc, Vec::new(alloc));
    files.set("one.aag", ONE)?;
    check(&rt, alloc, &put, &mut files, [1].to_vec(alloc)?)?;
    let absent = Row {
        transcript: "",
        ..store
    };
    let mut files = MemoryFiles::new(alloc, Vec::new(alloc));
    check(&rt, alloc, &absent, &mut files, Vec::new(alloc))?;
    Ok(())
}

/// A script of one byte too many, and a content of one byte too many.
#[test]
fn limits(rt: HostRuntime) -> Result<(), Fail> {
    let alloc = rt.alloc();
    let mut files = MemoryFiles::new(alloc, Vec::new(alloc));
    let mut words = owned(alloc, &["lognet"])?;
    words.push("x".repeat(alloc, 1_048_577)?)?;
    compare(
        &rt,
        alloc,
        &words,
        "error script 0\n",
        2,
        &mut files,
        Vec::new(alloc),
    )?;
    let long = vec![in alloc; b'1'; 67_108_865]?;
    files.set("long.aag", &long)?;
    let too_long = Row {
        words: &["lognet", "read aiger long.aag aig"],
        transcript: "unmet 1 TooLong\n",
        status: 1,
    };
    check(&rt, alloc, &too_long, &mut files, Vec::new(alloc))?;
    Ok(())
}

/// Inputs for which there are too few numbers.
#[test]
fn too_many_inputs(rt: HostRuntime) -> Result<(), Fail> {
    let alloc = rt.alloc();
    let mut files = MemoryFiles::new(alloc, Vec::new(alloc));
    files.set("full.aig", b"aig 1048576 1048576 0 0 0\n")?;
    let full = Row {
        words: &["lognet", "read aiger full.aig klut; stats"],
        transcript: "unmet 1 Full\nunmet 2 NoNetwork\n",
        status: 1,
    };
    check(&rt, alloc, &full, &mut files, Vec::new(alloc))?;
    Ok(())
}
