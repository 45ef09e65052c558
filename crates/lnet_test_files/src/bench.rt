//! The BENCH format: what is read, what is refused, and what is written.

use crate::rendering::circuit_text;
use lnet_bench::read;
use lnet_edge::{Fault, Malformed, ReadError};
use std::test::Fail;

#[test]
fn read_as_equations(rt: HostRuntime) -> Result<(), Fail> {
    for (content, expected) in [
        (
            "INPUT(a)\nINPUT(b)\nOUTPUT(f)\nf = LUT 0x2 (a, b)\n",
            " 1:a 2:b; 3:f; 3 = lut 2 1 2",
        ),
        (
            "input ( a )\r\nOutput(f) # shown\n\n\tf=nand( b,a , a )\nb = Not(a)",
            " 1:a; 2:f; 2 = nand 3 1 1; 3 = nand 1",
        ),
        (
            "OUTPUT(vdd)\nf = XNOR(gnd, vdd)\ng = BUFF(f)",
            "; !0:vdd; 1 = xnor 0 !0; 2 = and 1",
        ),
        (
            "f = AND(gnd, f2)\ngnd = VDD\nf2 = GND",
            ";; 1 = and 2 3; 2 = lut 1; 3 = lut 0",
        ),
    ] {
        assert!(rt; content.len() <= 100);
        let circuit = read(rt.alloc(), content.as_bytes())?;
        assert_eq!(rt; circuit_text(rt.alloc(), &circuit)?.as_str(), expected);
    }
    Ok(())
}

/// A content that is refused, and the rule that it breaks.
struct Refused {
    content: &'static str,
    line: u32,
    kind: Fault,
}

const REFUSED: [Refused; 16] = [
    Refused {
        content: "INPUT(a)\nOUTPUT(b)",
        line: 0,
        kind: Fault::Undriven,
    },
    Refused {
        content: "INPUT(a)\nINPUT(a)\na = AND(c)",
        line: 0,
        kind: Fault::Undriven,
    },
    Refused {
        content: "INPUT(a)\na = gnd",
        line: 0,
        kind: Fault::Twice,
    },
    Refused {
        content: "INPUT(a)\nb = AND(b, a)",
        line: 0,
        kind: Fault::Cycle,
    },
    Refused {
        content: "# c\n\nINPUT(a)\nb = FOO(a)",
        line: 4,
        kind: Fault::Unsupported,
    },
    Refused {
        content: "b = dff(a)",
        line: 1,
        kind: Fault::Sequential,
    },
    Refused {
        content: "b = LUT 0xg (a, c, d, e, f, g, h)",
        line: 1,
        kind: Fault::Cover,
    },
    Refused {
        content: "b = LUT 0x1 (a, c, d, e, f, g, h)",
        line: 1,
        kind: Fault::Syntax,
    },
    Refused {
        content: "b = LUT 0X2 (a)",
        line: 1,
        kind: Fault::Syntax,
    },
    Refused {
        content: "b = LUT (a)",
        line: 1,
        kind: Fault::Syntax,
    },
    Refused {
        content: "b = NOT(a, c)",
        line: 1,
        kind: Fault::Syntax,
    },
    Refused {
        content: "b = FOO 0x1 (a)",
        line: 1,
        kind: Fault::Syntax,
    },
    Refused {
        content: "b = AND()",
        line: 1,
        kind: Fault::Syntax,
    },
    Refused {
        content: "b = AND(a c)",
        line: 1,
        kind: Fault::Syntax,
    },
    Refused {
        content: "INPUT(a) x",
        line: 1,
        kind: Fault::Syntax,
    },
    Refused {
        content: "b = and",
        line: 1,
        kind: Fault::Syntax,
    },
];

#[test]
fn refused_with_a_fault(rt: HostRuntime) {
    for case in &REFUSED {
        assert!(rt; case.content.len() <= 100);
        let fault = Malformed {
            line: case.line,
            kind: case.kind,
        };
        let error = read(rt.alloc(), case.content.as_bytes()).err();
        assert_eq!(rt;
            error,
            Some(ReadError::Malformed(fault)),
            "{}",
            case.content
        );
    }
}
