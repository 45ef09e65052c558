//! Normal forms of gates: an existing signal, or a key with a phase.

ghost use Rattle.std.specs.Prelude.{◌≡◌};
ghost use Rattle.lnet_gates.specs.NormalForms as forms;

use crate::gate::Op;
use crate::signal::Signal;
use arrayvec::ArrayVec;
use std::marker::Model;

/// What gates of one function up to a complement share: an operation on fanins.
#[derive(Drop)]
pub struct Key {
    /// The operation on the fanins' values.
    pub op: Op,
    /// The signals that the operation reads, in the order of its arguments, six at most.
    pub fanins: ArrayVec<Signal, 6>,
}

impl Model for Key {
    ghost use Rattle.lnet_gates.specs.Gates.{KeyValue};

    ghost Value = { KeyValue };

    ghost view = { λ k. record { op = k.op; fanins = k.fanins.items } };
}

/// The normal form of a gate: what is left once its operands are compared and sorted.
#[derive(Drop)]
pub enum Normal {
    /// The gate has the value of this signal.
    Is(Signal),
    /// The gate has the value of the key, complemented where the phase is true.
    Gate(Key, bool),
}

impl Normal {
    /// The normal form, complemented where `change` is true: a signal is complemented, a key's phase is changed. Constant
    /// time.
    pub fn carried(self, change: bool) -> Normal
        ensures { result ≡ forms.carried change self }
    {
        match self {
            Normal::Is(signal) => Normal::Is(signal.flipped(change)),
            Normal::Gate(key, phase) => Normal::Gate(key, change != phase),
        }
    }
}
