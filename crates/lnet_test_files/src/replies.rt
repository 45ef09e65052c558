//! Lines of the transcript, as a reader sees them.

use lnet_edge::Fault;
use lnet_gates::Kind;
use lnet_replies::{Counts, Reply, Unmet, is_met, text_of_reply};
use std::test::Fail;

#[test]
fn lines_of_the_transcript(rt: HostRuntime) -> Result<(), Fail> {
    let alloc = rt.alloc();
    let (kind, inputs, outputs, gates) = (Kind::Xag, 2, 1, 3);
    let read = Reply::Network(Counts {
        kind,
        inputs,
        outputs,
        gates,
    });
    assert!(rt; is_met(&read));
    let line = "network xag inputs 2 outputs 1 gates 3\n";
    assert_eq!(rt; text_of_reply(alloc, 1, read)?.as_str(), line);
    let refused = Reply::Unmet(Unmet::Malformed(3, Fault::Missing));
    assert!(rt; !is_met(&refused));
    let line = "unmet 3 Malformed 3 Missing\n";
    assert_eq!(rt; text_of_reply(alloc, 3, refused)?.as_str(), line);
    Ok(())
}
