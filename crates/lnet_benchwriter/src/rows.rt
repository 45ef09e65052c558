//! The tables of gates, row by row.

ghost use Rattle.std.specs.Prelude.{◌≡◌, ◌≤◌, length, IsTrue};
ghost use Rattle.lnet_edge.specs.CircuitLists.{equation_view};
ghost use Rattle.lnet_edge.specs.Plain.{is_gate_equation};
ghost use Rattle.lnet_nodes.specs.Rows.{variables};
ghost use Rattle.lnet_benchwriter.specs.Tables.{gate_table};

use lnet_edge::Equation;
use lnet_nodes::gate_value;

/// The table of a gate over so many operands that are no constants: bit `r` is its value at row `r`.
pub(crate) fn gate_table(equation: &Equation, operands: usize) -> u64
    requires gate { IsTrue (is_gate_equation (equation_view equation.now)) }
    requires few { length equation.now.operands.items ≤ 6 }
    requires variables { operands ≡ length (variables equation.now.operands.items) }
    ensures { result ≡ gate_table (equation_view equation.now) }
{
    let mut table = 0;
    for row in (0..2u64.pow(operands as u32)).rev() {
        table = 2 * table + u64::from(gate_value(equation, row));
    }
    table
}
