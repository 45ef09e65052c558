//! Scripts that are refused as a whole.

use crate::runs::{ONE, compare, owned};
use lnet_edge::{FetchError, Files, MemoryFiles};
use std::test::Fail;

/// A script with a word that is no command is refused before any file is fetched or stored: the call that is to fail, the first, is
/// still to come.
#[test]
fn refused_before_any_fetch(rt: HostRuntime) -> Result<(), Fail> {
    let alloc = rt.alloc();
    for (script, line) in [
        ("frob", "error script 1\n"),
        ("read aiger one.aag aig; frob", "error script 1\n"),
        (
            "read aiger one.aag aig # first\n\twrite aag out.aag ;\nfrob",
            "error script 3\n",
        ),
    ] {
        let mut files = MemoryFiles::new(alloc, [1].to_vec(alloc)?);
        files.set("one.aag", ONE)?;
        let words = owned(alloc, &["lognet", script])?;
        compare(&rt, alloc, &words, line, 2, &mut files, Vec::new(alloc))?;
        assert_eq!(rt;
            files.fetch(alloc, "one.aag").err(),
            Some(FetchError::Failed)
        );
        assert!(rt; files.fetch(alloc, "one.aag").is_ok());
    }
    Ok(())
}
