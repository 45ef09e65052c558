//! Circuits that are made of lists, and the values of their gates.

use crate::rendering::circuit_text;
use lnet_edge::{
    Circuit, CircuitError, CoverRows, Equation, Fault, InputPort, Rule, Wire, WireRef,
};
use lnet_nodes::{gate_value, variables};
use smallvec::SmallVec;
use std::test::Fail;

const OPERANDS: [WireRef; 3] = [
    WireRef {
        wire: Wire(3),
        complement: true,
    },
    WireRef {
        wire: Wire(0),
        complement: true,
    },
    WireRef {
        wire: Wire(5),
        complement: false,
    },
];

#[test]
fn rows_of_a_cover(rt: HostRuntime) {
    let mut rows = CoverRows::new(rt.alloc(), true);
    assert_eq!(rt; rows.push(b"1-"), Ok(()));
    assert!(rt; rows.value());
    assert_eq!(rt; rows.len(), 1);
    assert_eq!(rt; rows.row(0), b"1-".as_slice());
}

#[test]
fn values_of_a_gate(rt: HostRuntime) -> Result<(), Fail> {
    assert_eq!(rt; variables(&OPERANDS).len(), 2);
    let equation = Equation {
        target: Wire(6),
        rule: Rule::Lut(0b1000_0000),
        operands: SmallVec::from_slice(rt.alloc(), &OPERANDS)?,
    };
    for (row, value) in [(0, false), (1, false), (2, true), (3, false)] {
        assert_eq!(rt; gate_value(&equation, row), value);
    }
    Ok(())
}

#[test]
fn circuit_of_an_equation(rt: HostRuntime) -> Result<(), Fail> {
    let alloc = rt.alloc();
    let equation = Equation {
        target: Wire(2),
        rule: Rule::Lut(1),
        operands: SmallVec::new(alloc),
    };
    let equations = vec![in alloc; equation]?;
    match Circuit::new(alloc, Vec::new(alloc), Vec::new(alloc), equations) {
        Ok(circuit) => {
            assert!(rt; circuit.is_plain());
            assert_eq!(rt; circuit_text(alloc, &circuit)?.as_str(), ";; 2 = lut 1");
        }
        Err(_) => assert!(rt; false),
    }
    Ok(())
}

#[test]
fn the_constant_is_driven(rt: HostRuntime) -> Result<(), Fail> {
    let alloc = rt.alloc();
    let input = InputPort {
        wire: Wire(0),
        name: None,
    };
    let inputs = vec![in alloc; input]?;
    let circuit = Circuit::new(alloc, inputs, Vec::new(alloc), Vec::new(alloc));
    assert_eq!(rt; circuit.err(), Some(CircuitError::Fault(Fault::Twice)));
    Ok(())
}
