//! Kinds of networks, operations, and gates.

use crate::signal::Signal;
use arrayvec::ArrayVec;
use std::marker::Model;

/// Which operations the gates of a network have: the textbook's names of the networks.
#[derive(Clone, Copy, Debug, PartialEq, Eq)]
pub enum Kind {
    /// An and-inverter graph: `And`.
    Aig,
    /// A xor-and graph: `And` and `Xor`.
    Xag,
    /// A majority-inverter graph: `Maj`.
    Mig,
    /// A network of look-up tables: `Lut`.
    Klut,
}

/// What a gate computes of the values of its fanins. A count of fanins that an operation does not have gives false.
#[derive(Clone, Copy, Debug, PartialEq, Eq)]
pub enum Op {
    /// Both of two.
    And,
    /// Exactly one of two.
    Xor,
    /// At least two of three.
    Maj,
    /// The bit of the table at the row whose bit `i` is the value of fanin `i`: of six fanins at most, since a table has
    /// 64 bits.
    Lut(u64),
}

/// A gate. Its value is the operation on its fanins' values, complemented where the phase is true.
#[derive(Drop)]
pub struct Gate {
    /// The operation on the fanins' values.
    pub op: Op,
    /// Whether the operation's value is complemented.
    pub phase: bool,
    /// The signals that the gate reads, in the order of the operation's arguments, six at most.
    pub fanins: ArrayVec<Signal, 6>,
}

impl Model for Gate {
    ghost use Rattle.lnet_gates.specs.Gates.{GateValue};

    ghost Value = { GateValue };

    ghost view = { λ g. record { op = g.op; phase = g.phase; fanins = g.fanins.items } };
}
