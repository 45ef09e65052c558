//! Two chains of fifty thousand gates that one merge makes one.

ghost use Rattle.std.specs.Prelude.{◌≤◌};

use crate::runs::{compare, owned};
use lnet_edge::MemoryFiles;
use std::alloc::{AllocError, Global};
use std::test::Fail;

/// Adds the gates of a chain in ascending order: the one at variable `first`, of the literals `begin` and 2, and 50,000 above it,
/// each of the complement of the one before it and of input 3 or 4, in turns.
fn push_chain(alloc: Global, text: &mut String, first: u32, begin: u32) -> Result<(), AllocError>
    requires { first ≤ 50006 }
{
    let line = format!(in alloc; "{} {begin} 2\n", 2 * first)?;
    text.push_str(&line)?;
    'gates: for i in 1..=50_000u32 {
        let gate = 2 * (first + i);
        let input = if i % 2 == 1 { 6 } else { 8 };
        let line = format!(in alloc; "{gate} {} {input}\n", gate - 1)?;
        text.push_str(&line)?;
    }
    Ok(())
}

/// The two chains, whose first gates differ, each with an output at its end.
fn chains(alloc: Global) -> Result<String, AllocError> {
    let mut text = String::from_str(
        alloc,
        "aag 100006 4 0 2 100002\n2\n4\n6\n8\n100010\n200012\n",
    )?;
    push_chain(alloc, &mut text, 5, 4)?;
    push_chain(alloc, &mut text, 50_006, 10)?;
    Ok(text)
}

/// What each run begins with.
const READ: &str = "network aig inputs 4 outputs 2 gates 100002\n";

/// The first gates compute one function, so each gate of one chain becomes one with a gate of the other.
#[test]
fn merged(rt: HostRuntime) -> Result<(), Fail> {
    let alloc = rt.alloc();
    let mut files = MemoryFiles::new(alloc, Vec::new(alloc));
    files.set("chain.aag", chains(alloc)?.as_bytes())?;
    let script = "read aiger chain.aag aig; merge 50006 5; simulate 1111; stats";
    let words = owned(alloc, &["lognet", script])?;
    let told =
        "merged 50006 gates 50001\noutputs 11\nstats aig inputs 4 outputs 2 gates 50001 depth 50001\n";
    compare(
        &rt,
        alloc,
        &words,
        &format!(in alloc; "{READ}{told}")?,
        0,
        &mut files,
        Vec::new(alloc),
    )?;
    Ok(())
}

/// A depth view follows each change on the way.
#[test]
fn merged_with_a_view(rt: HostRuntime) -> Result<(), Fail> {
    let alloc = rt.alloc();
    let mut files = MemoryFiles::new(alloc, Vec::new(alloc));
    files.set("chain.aag", chains(alloc)?.as_bytes())?;
    let script =
        "read aiger chain.aag aig; view depth; merge 50006 5; ask 1 level 50005; ask 1 level 100006";
    let words = owned(alloc, &["lognet", script])?;
    let told = "view 1 depth\nmerged 50006 gates 50001\nlevel 50005 50001\nunmet 5 NoNode\n";
    compare(
        &rt,
        alloc,
        &words,
        &format!(in alloc; "{READ}{told}")?,
        1,
        &mut files,
        Vec::new(alloc),
    )?;
    Ok(())
}
