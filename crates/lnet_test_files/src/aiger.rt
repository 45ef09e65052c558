//! The AIGER format: what is read and written again, and what is refused.

use lnet_aiger::{read, write_ascii, write_binary};
use lnet_edge::{Fault, Malformed, ReadError};
use std::test::Fail;

#[test]
fn written_again(rt: HostRuntime) -> Result<(), Fail> {
    let contents: [(&[u8], &[u8], &[u8]); 3] = [
        (
            b"aag 0 0 0 1 0\n1\n",
            b"aag 0 0 0 1 0\n1\n",
            b"aig 0 0 0 1 0\n1\n",
        ),
        (
            b"aig 3 2 0 1 1\n6\n\x02\x02",
            b"aag 3 2 0 1 1\n2\n4\n6\n6 4 2\n",
            b"aig 3 2 0 1 1\n6\n\x02\x02",
        ),
        (
            b"aag 9 2 0 1 1\r\n6\n008\n15\n14 7 8\ni1 b c\no0 f\ncomment\n",
            b"aag 3 2 0 1 1\n2\n4\n7\n6 4 3\ni1 b c\no0 f\n",
            b"aig 3 2 0 1 1\n7\n\x02\x01i1 b c\no0 f\n",
        ),
    ];
    for (content, ascii, binary) in contents {
        assert!(rt; content.len() <= 64);
        let circuit = read(rt.alloc(), content)?;
        assert!(rt; circuit.is_plain());
        let written = write_ascii(rt.alloc(), &circuit)?;
        assert_eq!(rt; written.as_slice(), ascii);
        let written = write_binary(rt.alloc(), &circuit)?;
        assert_eq!(rt; written.as_slice(), binary);
    }
    Ok(())
}

/// A content that is refused, and the rule that it breaks.
struct Refused {
    content: &'static [u8],
    line: u32,
    kind: Fault,
}

const REFUSED: [Refused; 10] = [
    Refused {
        content: b"aig 1 0 0 0 1\n\x82\x80\x80\x80\x80",
        line: 2,
        kind: Fault::Missing,
    },
    Refused {
        content: b"aag 1 1 0 0 0\n2\ni0 a\ni0 b\n",
        line: 4,
        kind: Fault::Symbol,
    },
    Refused {
        content: b"aag 1 1 0 0 0\n3\n",
        line: 2,
        kind: Fault::Literal,
    },
    Refused {
        content: b"aag 0 0 0 1 0\n2147483648\n",
        line: 2,
        kind: Fault::Syntax,
    },
    Refused {
        content: b"aag 1 0 1 0 0\n2 3\n",
        line: 1,
        kind: Fault::Sequential,
    },
    Refused {
        content: b"aag 1048577 1048577 0 0 0\n",
        line: 1,
        kind: Fault::TooMany,
    },
    Refused {
        content: b"aag 1 0 0 1 0\n2\n",
        line: 0,
        kind: Fault::Undriven,
    },
    Refused {
        content: b"aag 1 1 0 0 1\n2\n2 0 0\n",
        line: 1,
        kind: Fault::Header,
    },
    Refused {
        content: b"aag 2 1 0 0 1\n2\n2 0 0\n",
        line: 0,
        kind: Fault::Twice,
    },
    Refused {
        content: b"aag 2 0 0 0 2\n2 4 1\n4 2 1\n",
        line: 0,
        kind: Fault::Cycle,
    },
];

#[test]
fn refused_with_a_fault(rt: HostRuntime) {
    for case in &REFUSED {
        assert!(rt; case.content.len() <= 64);
        let fault = Malformed {
            line: case.line,
            kind: case.kind,
        };
        let error = read(rt.alloc(), case.content).err();
        assert_eq!(rt; error, Some(ReadError::Malformed(fault)));
    }
}
