//! Signals and gates as text.

ghost use Rattle.std.specs.Prelude.{◌≡◌, ◌≤◌, ◌++◌, OnOk, string_bytes};
ghost use Rattle.lnet_gates.specs.declared.gate.Op.TheVariants.{Lut};
ghost use Rattle.lnet_print.specs.Printed.{mark, signal_text, operands_text, op_text, gate_text};

use lnet_gates::{Gate, Op, Signal};
use lnet_tables::put_digits;
use std::alloc::AllocError;

/// `!` where the flag is set.
fn put_mark(out: &mut String, complement: bool) -> Result<(), AllocError>
    ensures { OnOk result (string_bytes out.new ≡ string_bytes out.old ++ mark complement) }
{
    if complement {
        out.push_str("!")
    } else {
        Ok(())
    }
}

/// A signal: its node's number, after `!` where it is complemented.
pub(crate) fn put_signal(out: &mut String, signal: Signal) -> Result<(), AllocError>
    ensures { OnOk result (string_bytes out.new ≡ string_bytes out.old ++ signal_text signal) }
{
    put_mark(out, signal.complement)?;
    write!(out, "{}", signal.node.0)
}

/// The signals, each after a space.
fn put_operands(out: &mut String, signals: &[Signal]) -> Result<(), AllocError>
    ensures { OnOk result (string_bytes out.new ≡ string_bytes out.old ++ operands_text signals.now) }
{
    for signal in signals {
        out.push_str(" ")?;
        put_signal(out, *signal)?;
    }
    Ok(())
}

/// The word of an operation on so many fanins; after that of a look-up table its table.
fn put_op(out: &mut String, op: Op, arity: usize) -> Result<(), AllocError>
    requires { arity ≤ 6 }
    ensures { OnOk result (string_bytes out.new ≡ string_bytes out.old ++ op_text op arity) }
{
    match op {
        Op::And => out.push_str("and"),
        Op::Xor => out.push_str("xor"),
        Op::Maj => out.push_str("maj"),
        Op::Lut(table) => {
            out.push_str("lut ")?;
            put_digits(out, table, arity)
        }
    }
}

/// A gate: its operation, after `!` where its phase is 1, and its fanins.
pub(crate) fn put_gate(out: &mut String, gate: &Gate) -> Result<(), AllocError>
    ensures { OnOk result (string_bytes out.new ≡ string_bytes out.old ++ gate_text gate.now) }
{
    put_mark(out, gate.phase)?;
    put_op(out, gate.op, gate.fanins.len())?;
    put_operands(out, gate.fanins.as_slice())
}
