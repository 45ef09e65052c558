//! The kinds of networks as types: which gates they have, the gates' normal forms, and the plans of other operations.

ghost use Rattle.std.specs.Prelude.{◌≡◌, ◌≤◌, ◌↔◌, IsTrue, length};
ghost use Rattle.lnet_tables.specs.Recipes.{sim};
ghost use Rattle.lnet_gates.specs.declared.gate.Kind.{Kind};
ghost use Rattle.lnet_gates.specs.declared.gate.Kind.TheVariants.{Aig, Xag, Mig, Klut};
ghost use Rattle.lnet_gates.specs.Natives.{IsNativeGate};
ghost use Rattle.lnet_gates.specs.Forms.{form_of};
ghost use Rattle.lnet_gates.specs.Plans.{Takes, plan_of, is_native, IsPlanNative, IfSteps, AllNative, op_rows};

use crate::forming::{normal_and, normal_maj, normal_xor};
use crate::gate::{Gate, Kind, Op};
use crate::normal::Normal;
use crate::planning::Plan;
use crate::tabling::normal_lut;

/// The gates of one kind of network.
pub trait Gates {
    /// The kind.
    ghost KIND: { Kind };

    /// The kind.
    const KIND: Kind;

    /// The normal form of a gate of the kind: its operation is one that the kind has, and it has as many fanins as the
    /// operation takes. Constant time.
    fn normal(gate: &Gate) -> Normal
        requires { IsNativeGate KIND gate.now }
        ensures { result ≡ form_of KIND gate.now };

    /// How a network of the kind lays the operation on `arity` operands, as `Kind::plan` says: `And` and `Xor` take 2, `Maj`
    /// takes 3, and `Lut` 0 to 6.
    final fn plan(op: &Op, arity: u8) -> Plan
        requires { Takes op.now arity }
        ensures plan { result ≡ plan_of KIND op.now arity }
        ensures native { IsPlanNative result ↔ IsTrue (is_native KIND op.now) }
        ensures steps { IfSteps result (λ r. AllNative KIND r.steps) }
        ensures few { IfSteps result (λ r. length r.steps ≤ 93) }
        ensures leaves { IfSteps result (λ r. r.leaves ≡ arity) }
        ensures function { IfSteps result (λ r. sim r ≡ op_rows op.now arity) }
    {
        Self::KIND.plan(op, arity)
    }
}

/// The gates of an and-inverter graph.
pub struct AigGates;

impl Gates for AigGates {
    ghost KIND = { Aig };

    const KIND: Kind = Kind::Aig;

    fn normal(gate: &Gate) -> Normal {
        normal_and(gate)
    }
}

/// The gates of a xor-and graph.
pub struct XagGates;

impl Gates for XagGates {
    ghost KIND = { Xag };

    const KIND: Kind = Kind::Xag;

    fn normal(gate: &Gate) -> Normal {
        match gate.op {
            Op::Xor => normal_xor(gate),
            _ => normal_and(gate),
        }
    }
}

/// The gates of a majority-inverter graph.
pub struct MigGates;

impl Gates for MigGates {
    ghost KIND = { Mig };

    const KIND: Kind = Kind::Mig;

    fn normal(gate: &Gate) -> Normal {
        normal_maj(gate)
    }
}

/// The gates of a network of look-up tables. Every operation is native; the normal form of a gate is a signal or the key of
/// a `Lut`.
pub struct KlutGates;

impl Gates for KlutGates {
    ghost KIND = { Klut };

    const KIND: Kind = Kind::Klut;

    fn normal(gate: &Gate) -> Normal {
        normal_lut(gate)
    }
}
