//! Binary files: cut off, with differences out of their range, and written as they were read.

use crate::runs::{ONE, compare, owned};
use lnet_edge::MemoryFiles;
use std::alloc::{AllocError, Global};
use std::process::Abort;
use std::test::Fail;

/// A file that ends within its first gate's first difference stands for no circuit, and the network in place before stays.
#[test]
fn cut_in_a_difference(rt: HostRuntime) -> Result<(), Fail> {
    let alloc = rt.alloc();
    let mut files = MemoryFiles::new(alloc, Vec::new(alloc));
    files.set("one.aag", ONE)?;
    files.set("cut.aig", b"aig 3 2 0 1 1\n6\n\x82")?;
    let script = "read aiger one.aag aig; read aiger cut.aig xag; stats";
    let words = owned(alloc, &["lognet", script])?;
    compare(
        &rt,
        alloc,
        &words,
        "network aig inputs 0 outputs 1 gates 0\nunmet 2 Malformed 3 Missing\nstats aig inputs 0 outputs 1 gates 0 depth 0\n",
        1,
        &mut files,
        Vec::new(alloc),
    )?;
    Ok(())
}

/// A first difference of zero would let the gate read itself.
#[test]
fn no_difference(rt: HostRuntime) -> Result<(), Fail> {
    let alloc = rt.alloc();
    let mut files = MemoryFiles::new(alloc, Vec::new(alloc));
    files.set("zero.aig", b"aig 3 2 0 1 1\n6\n\x00\x00")?;
    let words = owned(alloc, &["lognet", "read aiger zero.aig aig"])?;
    compare(
        &rt,
        alloc,
        &words,
        "unmet 1 Malformed 3 Delta\n",
        1,
        &mut files,
        Vec::new(alloc),
    )?;
    Ok(())
}

/// A binary file of one gate.
const BINARY: &[u8] = b"aig 3 2 0 1 1\n6\n\x02\x02";

/// The file that is written has the bytes of the one that was read.
#[test]
fn written_as_it_was_read(rt: HostRuntime) -> Result<(), Fail> {
    let alloc = rt.alloc();
    let mut files = MemoryFiles::new(alloc, Vec::new(alloc));
    files.set("and.aig", BINARY)?;
    let words = owned(
        alloc,
        &["lognet", "read aiger and.aig aig; write aig b.aig"],
    )?;
    compare(
        &rt,
        alloc,
        &words,
        "network aig inputs 2 outputs 1 gates 1\nwrote 18\n",
        0,
        &mut files,
        Vec::new(alloc),
    )?;
    assert_eq!(rt; files.file("b.aig").ok_or("no file")?, BINARY);
    Ok(())
}

/// What is told of the file's first bytes.
fn told(count: usize) -> &'static str {
    match count {
        0 => "unmet 2 Malformed 1 Missing\n",
        1..=12 => "unmet 2 Malformed 1 Header\n",
        13 | 14 => "unmet 2 Malformed 2 Missing\n",
        15..=17 => "unmet 2 Malformed 3 Missing\n",
        _ => "network aig inputs 2 outputs 1 gates 1\n",
    }
}

/// Reads the first bytes of the binary file behind another, and compares what is told.
fn check_cut<R: Abort>(rt: &R, alloc: Global, count: usize) -> Result<(), AllocError> {
    let mut files = MemoryFiles::new(alloc, Vec::new(alloc));
    files.set("one.aag", ONE)?;
    files.set("cut.aig", BINARY.get(..count).unwrap_or(BINARY))?;
    let words = owned(
        alloc,
        &["lognet", "read aiger one.aag aig; read aiger cut.aig aig"],
    )?;
    let line = told(count);
    let transcript = format!(in alloc; "network aig inputs 0 outputs 1 gates 0\n{line}")?;
    let status = if count < BINARY.len() { 1 } else { 0 };
    compare(
        rt,
        alloc,
        &words,
        &transcript,
        status,
        &mut files,
        Vec::new(alloc),
    )
}

#[test]
fn truncated(rt: HostRuntime) -> Result<(), Fail> {
    let alloc = rt.alloc();
    for count in 0..=BINARY.len() {
        check_cut(&rt, alloc, count)?;
    }
    Ok(())
}
