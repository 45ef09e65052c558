//! Files and sinks, in memory and real.

use lnet_edge::{DiskFiles, FetchError, Files, MemoryFiles, MemorySink, PutError, Sink, StdSink};
use std::fs;
use std::test::Fail;

#[test]
fn files_in_memory(rt: HostRuntime) -> Result<(), Fail> {
    let alloc = rt.alloc();
    let mut files = MemoryFiles::new(alloc, Vec::new(alloc));
    files.set("a", b"one")?;
    assert_eq!(rt; files.fetch(alloc, "a")?.as_slice(), b"one".as_slice());
    Ok(())
}

#[test]
fn failing_files(rt: HostRuntime) -> Result<(), Fail> {
    let alloc = rt.alloc();
    let mut files = MemoryFiles::new(alloc, vec![in alloc; 2]?);
    assert_eq!(rt; files.store("b", b"two"), Ok(()));
    assert_eq!(rt; files.store("b", b"three"), Err(PutError::Failed));
    assert_eq!(rt; files.file("b"), Some(b"two".as_slice()));
    Ok(())
}

#[test]
fn sink_in_memory(rt: HostRuntime) -> Result<(), Fail> {
    let alloc = rt.alloc();
    let mut sink = MemorySink::new(alloc, vec![in alloc; 1]?);
    assert_eq!(rt; sink.put(b"abc"), Err(PutError::Failed));
    assert_eq!(rt; sink.put(b"de"), Ok(()));
    assert_eq!(rt; sink.written(), b"ade".as_slice());
    Ok(())
}

#[test]
fn files_on_disk(rt: HostRuntime) -> Result<(), Fail> {
    let path = "lnet_test_files_on_disk";
    let mut files = DiskFiles::new(rt);
    assert_eq!(rt; files.store(path, b"first and longer"), Ok(()));
    assert_eq!(rt; files.store(path, b"second"), Ok(()));
    assert_eq!(rt;
        files.fetch(rt.alloc(), path)?.as_slice(),
        b"second".as_slice()
    );
    fs::remove_file(&rt, path)?;
    assert_eq!(rt;
        files.fetch(rt.alloc(), path).err(),
        Some(FetchError::Failed)
    );
    Ok(())
}

#[test]
fn standard_output(rt: HostRuntime) {
    let mut sink = StdSink::new(rt);
    assert_eq!(rt; sink.put(b"a line\n"), Ok(()));
}
