//! The BLIF format: its lines, what is read, what is refused, and what is written.

use crate::rendering::circuit_text;
use lnet_blif::read;
use lnet_bliflines::next_line;
use lnet_edge::{Fault, Malformed, ReadError};
use lnet_lines::Lines;
use std::test::Fail;

#[test]
fn lines_are_joined(rt: HostRuntime) -> Result<(), Fail> {
    let mut lines = Lines::new(b".inputs a \\\n\tb# c\\\n\nd", 1);
    let line = next_line(rt.alloc(), &mut lines)?.ok_or("no line")?;
    assert_eq!(rt; line.number, 1);
    assert_eq!(rt; line.words.len(), 3);
    assert_eq!(rt; lines.number(), 3);
    Ok(())
}

#[test]
fn read_as_circuits(rt: HostRuntime) -> Result<(), Fail> {
    for (content, expected) in [
        (
            ".model t\n.inputs a \\\n b\n.inputs c # more\n.outputs f g k\n.names a b c f\n11- 0\n--1 0\n.names g\n.names k\n1\n.end\n",
            " 1:a 2:b 3:c; 4:f 5:g 6:k; 4 = cover 11-:0 --1:0 1 2 3; 5 = cover; 6 = cover :1",
        ),
        (
            "\n# c\n.inputs .x\r\n.names y z\n\t0   1#\n.names .x y\n.outputs z z\n.end\n\n# d\n",
            " 1:.x; 3:z 3:z; 3 = cover 0:1 2; 2 = cover 1",
        ),
    ] {
        assert!(rt; content.len() <= 1000);
        let circuit = read(rt.alloc(), content.as_bytes())?;
        assert_eq!(rt; circuit_text(rt.alloc(), &circuit)?.as_str(), expected);
    }
    Ok(())
}

/// A content that is refused, and the rule that it breaks.
struct Refused {
    content: &'static str,
    line: u32,
    kind: Fault,
}

const REFUSED: [Refused; 20] = [
    Refused {
        content: "a \\\nb\\",
        line: 3,
        kind: Fault::Missing,
    },
    Refused {
        content: "a \\\nb\x01\\",
        line: 1,
        kind: Fault::Syntax,
    },
    Refused {
        content: "a\rb",
        line: 1,
        kind: Fault::Syntax,
    },
    Refused {
        content: ".inputs a a\n.outputs f",
        line: 0,
        kind: Fault::Undriven,
    },
    Refused {
        content: ".names f f\n1 1",
        line: 0,
        kind: Fault::Cycle,
    },
    Refused {
        content: ".names f\n1\n0",
        line: 3,
        kind: Fault::Cover,
    },
    Refused {
        content: ".names a f\n1",
        line: 2,
        kind: Fault::Cover,
    },
    Refused {
        content: ".names a f\n11 1",
        line: 2,
        kind: Fault::Cover,
    },
    Refused {
        content: ".names a \\\nf\n- 1\n- 2",
        line: 4,
        kind: Fault::Cover,
    },
    Refused {
        content: ".inputs a\n1 1",
        line: 2,
        kind: Fault::Syntax,
    },
    Refused {
        content: ".names",
        line: 1,
        kind: Fault::Syntax,
    },
    Refused {
        content: ".model a b",
        line: 1,
        kind: Fault::Syntax,
    },
    Refused {
        content: "\n.inputs\n.model t",
        line: 3,
        kind: Fault::Unsupported,
    },
    Refused {
        content: ".latch a b",
        line: 1,
        kind: Fault::Sequential,
    },
    Refused {
        content: ".subckt a",
        line: 1,
        kind: Fault::Unsupported,
    },
    Refused {
        content: ".end x",
        line: 1,
        kind: Fault::Syntax,
    },
    Refused {
        content: ".end\n\n.end",
        line: 3,
        kind: Fault::Unsupported,
    },
    Refused {
        content: ".end\n1 \x01",
        line: 2,
        kind: Fault::Syntax,
    },
    Refused {
        content: ".frob \\",
        line: 2,
        kind: Fault::Missing,
    },
    Refused {
        content: ".frob\n\x7f\\",
        line: 1,
        kind: Fault::Unsupported,
    },
];

#[test]
fn refused_with_a_fault(rt: HostRuntime) {
    for case in &REFUSED {
        assert!(rt; case.content.len() <= 100);
        let fault = Malformed {
            line: case.line,
            kind: case.kind,
        };
        let error = read(rt.alloc(), case.content.as_bytes()).err();
        assert_eq!(rt;
            error,
            Some(ReadError::Malformed(fault)),
            "{}",
            case.content
        );
    }
}
