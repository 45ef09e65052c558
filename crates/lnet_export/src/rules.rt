//! The rules of gates.

ghost use Rattle.std.specs.Prelude.{◌≡◌, ◌≤◌, length};
ghost use Rattle.lnet_gates.specs.Plans.{Takes};
ghost use Rattle.lnet_export.specs.Exported.{phased, rule_of as rule_in};

use lnet_edge::Rule;
use lnet_gates::{Gate, Op};
use lnet_tables::first_rows;

/// The table of so many variables, complemented where the phase is true.
fn table_of(phase: bool, count: usize, table: u64) -> u64
    requires { count ≤ 6 }
    ensures { result ≡ phased phase count table }
{
    if phase {
        !table & first_rows(count)
    } else {
        table
    }
}

/// The rule of a gate that has as many fanins as its operation takes.
pub(crate) fn rule_of(gate: &Gate) -> Rule
    requires { Takes gate.now.op (length gate.now.fanins) }
    ensures { result ≡ rule_in gate.now }
{
    match gate.op {
        Op::And => Rule::And(gate.phase),
        Op::Xor => Rule::Xor(gate.phase),
        Op::Maj => Rule::Maj(gate.phase),
        Op::Lut(table) => Rule::Lut(table_of(gate.phase, gate.fanins.len(), table)),
    }
}
