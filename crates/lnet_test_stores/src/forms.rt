//! Signals and the normal forms of gates, with signals given by their codes.

use arrayvec::ArrayVec;
use lnet_gates::Kind::{Aig, Klut, Mig, Xag};
use lnet_gates::Op::{And, Lut, Maj, Xor};
use lnet_gates::{
    Gate, Kind, Node, Normal, Op, Signal, normal_and, normal_lut, normal_maj, normal_xor,
};
use std::test::Fail;

/// The signal of a code: twice its node, and one more where it is complemented.
fn coded(code: u32) -> Signal {
    Signal {
        node: Node(code / 2),
        complement: code % 2 == 1,
    }
}

use Form::{Is, Key};

/// A normal form: the signal of a code, or a key on the signals of codes, with a phase.
enum Form {
    Is(u32),
    Key(Op, &'static [u32], bool),
}

/// A gate of a kind and of phase false on the signals of codes, and its normal form.
struct Row(Kind, Op, &'static [u32], Form);

static FORMS: [Row; 78] = [
    Row(Aig, And, &[2, 2], Is(2)),
    Row(Aig, And, &[3, 3], Is(3)),
    Row(Aig, And, &[2, 3], Is(0)),
    Row(Aig, And, &[3, 2], Is(0)),
    Row(Aig, And, &[0, 4], Is(0)),
    Row(Aig, And, &[4, 0], Is(0)),
    Row(Aig, And, &[1, 4], Is(4)),
    Row(Aig, And, &[5, 1], Is(5)),
    Row(Aig, And, &[0, 1], Is(0)),
    Row(Aig, And, &[1, 1], Is(1)),
    Row(Aig, And, &[2, 4], Key(And, &[2, 4], false)),
    Row(Aig, And, &[5, 2], Key(And, &[2, 5], false)),
    Row(Aig, And, &[4, 3], Key(And, &[3, 4], false)),
    Row(Aig, And, &[7, 5], Key(And, &[5, 7], false)),
    Row(Xag, Xor, &[2, 2], Is(0)),
    Row(Xag, Xor, &[2, 3], Is(1)),
    Row(Xag, Xor, &[0, 5], Is(5)),
    Row(Xag, Xor, &[4, 0], Is(4)),
    Row(Xag, Xor, &[1, 4], Is(5)),
    Row(Xag, Xor, &[5, 1], Is(4)),
    Row(Xag, Xor, &[1, 0], Is(1)),
    Row(Xag, Xor, &[1, 1], Is(0)),
    Row(Xag, Xor, &[2, 4], Key(Xor, &[2, 4], false)),
    Row(Xag, Xor, &[5, 3], Key(Xor, &[2, 4], false)),
    Row(Xag, Xor, &[4, 3], Key(Xor, &[2, 4], true)),
    Row(Xag, Xor, &[5, 2], Key(Xor, &[2, 4], true)),
    Row(Mig, Maj, &[2, 2, 4], Is(2)),
    Row(Mig, Maj, &[5, 2, 5], Is(5)),
    Row(Mig, Maj, &[6, 4, 4], Is(4)),
    Row(Mig, Maj, &[2, 3, 4], Is(4)),
    Row(Mig, Maj, &[5, 6, 4], Is(6)),
    Row(Mig, Maj, &[2, 7, 6], Is(2)),
    Row(Mig, Maj, &[0, 1, 3], Is(3)),
    Row(Mig, Maj, &[1, 1, 8], Is(1)),
    Row(Mig, Maj, &[6, 2, 4], Key(Maj, &[2, 4, 6], false)),
    Row(Mig, Maj, &[4, 7, 2], Key(Maj, &[2, 4, 7], false)),
    Row(Mig, Maj, &[4, 1, 2], Key(Maj, &[1, 2, 4], false)),
    Row(Mig, Maj, &[6, 5, 3], Key(Maj, &[2, 4, 7], true)),
    Row(Mig, Maj, &[7, 3, 5], Key(Maj, &[2, 4, 6], true)),
    Row(Mig, Maj, &[1, 5, 2], Key(Maj, &[0, 3, 4], true)),
    Row(Klut, Lut(0x1), &[], Is(1)),
    Row(Klut, Lut(0x2), &[], Is(0)),
    Row(Klut, Lut(0x1), &[2], Is(3)),
    Row(Klut, Lut(0x2), &[3], Is(3)),
    Row(Klut, Lut(0x3), &[2], Is(1)),
    Row(Klut, Lut(0x4), &[2], Is(0)),
    Row(Klut, Lut(0x2), &[1], Is(1)),
    Row(Klut, Lut(0x8), &[2, 2], Is(2)),
    Row(Klut, Lut(0x8), &[2, 3], Is(0)),
    Row(Klut, Lut(0xe), &[2, 3], Is(1)),
    Row(Klut, Lut(0x8), &[2, 1], Is(2)),
    Row(Klut, Lut(0x8), &[0, 2], Is(0)),
    Row(Klut, Lut(0xa), &[4, 2], Is(4)),
    Row(Klut, Lut(0x3), &[4, 2], Is(3)),
    Row(Klut, Lut(0xe8), &[2, 3, 4], Is(4)),
    Row(Klut, Lut(0x96), &[6, 6, 3], Is(3)),
    Row(Klut, Lut(0xfe8), &[4, 2, 6, 1], Is(7)),
    Row(Klut, Lut(0x6996966996696996), &[2, 4, 2, 4, 6, 7], Is(1)),
    Row(Klut, Lut(0xffffffff00000000), &[2, 4, 6, 8, 10, 12], Is(12)),
    Row(Klut, Lut(0x8), &[4, 2], Key(Lut(0x8), &[2, 4], false)),
    Row(Klut, Lut(0x8), &[3, 4], Key(Lut(0x4), &[2, 4], false)),
    Row(Klut, Lut(0x8), &[3, 5], Key(Lut(0xe), &[2, 4], true)),
    Row(Klut, Lut(0x2), &[4, 2], Key(Lut(0x4), &[2, 4], false)),
    Row(Klut, Lut(0xf8), &[2, 4], Key(Lut(0x8), &[2, 4], false)),
    Row(
        Klut,
        Lut(0xca),
        &[6, 4, 2],
        Key(Lut(0xd8), &[2, 4, 6], false),
    ),
    Row(Klut, Lut(0xca), &[1, 5, 2], Key(Lut(0x8), &[2, 4], true)),
    Row(Klut, Lut(0x88), &[6, 2, 4], Key(Lut(0x8), &[2, 6], false)),
    Row(
        Klut,
        Lut(0x6666),
        &[9, 2, 5, 7],
        Key(Lut(0x6), &[2, 8], true),
    ),
    Row(
        Klut,
        Lut(0x80000000),
        &[10, 8, 7, 4, 2],
        Key(Lut(0x8000000), &[2, 4, 6, 8, 10], false),
    ),
    Row(
        Klut,
        Lut(0xcafe),
        &[10, 2, 10, 4, 6],
        Key(Lut(0xb02), &[2, 4, 6, 10], false),
    ),
    Row(
        Klut,
        Lut(0x123456789abcdef0),
        &[12, 10, 8, 6, 4, 2],
        Key(Lut(0x55560ff0333cff00), &[2, 4, 6, 8, 10, 12], false),
    ),
    Row(
        Klut,
        Lut(0xfedcba9876543210),
        &[3, 12, 1, 5, 12, 9],
        Key(Lut(0x5044), &[2, 4, 8, 12], true),
    ),
    Row(
        Klut,
        Lut(0x0123456789abcdef),
        &[4, 2, 4, 7, 6, 0],
        Key(Lut(0x24), &[2, 4, 6], true),
    ),
    Row(
        Klut,
        Lut(0xaaaaaaaacccccccc),
        &[6, 4, 2, 8, 10, 12],
        Key(Lut(0xca), &[4, 6, 12], false),
    ),
    Row(Klut, And, &[4, 2], Key(Lut(0x8), &[2, 4], false)),
    Row(Klut, Xor, &[5, 2], Key(Lut(0x6), &[2, 4], true)),
    Row(Klut, Maj, &[6, 5, 3], Key(Lut(0x8e), &[2, 4, 6], true)),
    Row(Klut, Maj, &[4, 4, 9], Is(4)),
];

/// The signals of the codes, six at most.
fn signals(codes: &[u32]) -> ArrayVec<Signal, 6> {
    let mut signals = ArrayVec::new();
    for code in codes {
        if !signals.is_full() {
            signals.push(coded(*code));
        }
    }
    signals
}

/// The normal form of the gate, which is one of the kind.
fn formed(kind: Kind, gate: &Gate) -> Option<Normal> {
    match (kind, &gate.op, gate.fanins.len()) {
        (Klut, And | Xor, 2) => Some(normal_lut(gate)),
        (Klut, Maj, 3) => Some(normal_lut(gate)),
        (Klut, Lut(table), 0..=6) => {
            let _word = *table;
            Some(normal_lut(gate))
        }
        (_, And, 2) => Some(normal_and(gate)),
        (_, Xor, 2) => Some(normal_xor(gate)),
        (_, Maj, 3) => Some(normal_maj(gate)),
        _ => None,
    }
}

/// Whether it is the form.
fn is(form: &Normal, want: &Form) -> bool {
    match (form, want) {
        (Normal::Is(signal), Is(code)) => *signal == coded(*code),
        (Normal::Gate(key, phase), Key(op, codes, turned)) => {
            key.op == *op && phase == turned && key.fanins.as_slice() == signals(codes).as_slice()
        }
        _ => false,
    }
}

#[test]
fn gates_have_normal_forms(rt: HostRuntime) -> Result<(), Fail> {
    for row in FORMS.as_slice() {
        let codes = row.2;
        for phase in [false, true] {
            let gate = Gate {
                op: row.1,
                phase,
                fanins: signals(codes),
            };
            let form = formed(row.0, &gate).ok_or("no such gate")?;
            assert!(rt; is(&form.carried(phase), &row.3), "{codes:?}");
        }
    }
    Ok(())
}

#[test]
fn signals_have_codes(rt: HostRuntime) {
    let seven = coded(7);
    let codes = [
        Signal::constant(true).code(),
        seven.code(),
        seven.flipped(true).code(),
        seven.plain().code(),
    ];
    assert_eq!(rt; codes, [1, 7, 6, 6]);
    assert!(rt; seven.is_same(coded(7)) && seven.is_at_most(coded(8)));
}
