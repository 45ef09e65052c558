//! The covers of gates and outputs.

ghost use Rattle.std.specs.Prelude.{◌≡◌, ◌≤◌, ◌<◌, ◌^◌, ◌++◌, ◌∷◌, [], OnOk, codes, length, IsTrue, string_bytes, if◌then◌else◌};
ghost use Rattle.std.specs.List.{flat_map, list_all, range_with_len};
ghost use Rattle.lnet_edge.specs.CircuitLists.{equation_view, equation_views};
ghost use Rattle.lnet_edge.specs.Plain.{is_gate_equation};
ghost use Rattle.lnet_edge.specs.Wires.{HasArities};
ghost use Rattle.lnet_naming.specs.Settling.{made_name};
ghost use Rattle.lnet_nodes.specs.Nodes.{node_name};
ghost use Rattle.lnet_nodes.specs.Kept.{label_in};
ghost use Rattle.lnet_nodes.specs.Rows.{variables, gate_value};
ghost use Rattle.lnet_blifwriter.specs.Texts.{spaced, operand_names, names_line, row_cells, row_line, rows_text, gate_text, output_text};

use lnet_edge::{Equation, WireRef};
use lnet_nodes::{Labels, gate_value, put_node, variables};
use std::alloc::AllocError;

/// The nodes of operands, each behind a space.
fn put_operands(out: &mut String, labels: &Labels, operands: &[WireRef]) -> Result<(), AllocError>
    ensures { OnOk result (string_bytes out.new ≡ string_bytes out.old ++ flat_map spaced (operand_names (label_in labels.now) operands.now)) }
{
    for operand in operands {
        out.push_str(" ")?;
        put_node(out, labels, operand.wire.0)?;
    }
    Ok(())
}

/// `.names`, these operands and the gate of this number.
fn put_names(
    out: &mut String,
    labels: &Labels,
    operands: &[WireRef],
    gate: u32,
) -> Result<(), AllocError>
    ensures { OnOk result (string_bytes out.new ≡ string_bytes out.old ++ names_line (label_in labels.now) operands.now (made_name 110 gate)) }
{
    out.push_str(".names")?;
    put_operands(out, labels, operands)?;
    writeln!(out, " _n{gate}")
}

/// The byte of the row's least significant bit.
fn put_cell(out: &mut String, row: u64) -> Result<(), AllocError>
    ensures { OnOk result (string_bytes out.new ≡ string_bytes out.old ++ row_cells 1 row) }
{
    out.push_str(if row % 2 == 1 { "1" } else { "0" })
}

/// A byte for each of so many operands, the row's least significant bit first.
fn put_cells(out: &mut String, operands: usize, row: u64) -> Result<(), AllocError>
    ensures { OnOk result (string_bytes out.new ≡ string_bytes out.old ++ row_cells operands row) }
{
    let mut rest = row;
    for place in 0..operands {
        put_cell(out, rest)?;
        rest /= 2;
    }
    Ok(())
}

/// The line of a true row.
fn put_row(out: &mut String, operands: usize, row: u64) -> Result<(), AllocError>
    ensures { OnOk result (string_bytes out.new ≡ string_bytes out.old ++ row_line operands row) }
{
    if operands == 0 {
        return out.push_str("1\n");
    }
    put_cells(out, operands, row)?;
    out.push_str(" 1\n")
}

/// The line of a row of a gate, if it is true.
fn put_true_row(
    out: &mut String,
    equation: &Equation,
    operands: usize,
    row: u64,
) -> Result<(), AllocError>
    requires gate { IsTrue (is_gate_equation (equation_view equation.now)) }
    requires few { length equation.now.operands.items ≤ 6 }
    ensures { OnOk result (string_bytes out.new ≡ string_bytes out.old ++ (if gate_value (equation_view equation.now) row then row_line operands row else [])) }
{
    if gate_value(equation, row) {
        put_row(out, operands, row)?;
    }
    Ok(())
}

/// The lines of the true rows of a gate over so many operands that are no constants.
fn put_rows(out: &mut String, equation: &Equation, operands: usize) -> Result<(), AllocError>
    requires gate { IsTrue (is_gate_equation (equation_view equation.now)) }
    requires few { length equation.now.operands.items ≤ 6 }
    requires variables { operands ≤ 6 }
    ensures { OnOk result (string_bytes out.new ≡ string_bytes out.old ++ rows_text (gate_value (equation_view equation.now)) operands (range_with_len 0 (2 ^ operands))) }
{
    for row in 0..2u64.pow(operands as u32) {
        put_true_row(out, equation, operands, row)?;
    }
    Ok(())
}

/// The cover of a gate over its operands that are no constants.
fn put_gate(out: &mut String, labels: &Labels, equation: &Equation) -> Result<(), AllocError>
    requires gate { IsTrue (is_gate_equation (equation_view equation.now)) }
    requires few { length equation.now.operands.items ≤ 6 }
    ensures { OnOk result (string_bytes out.new ≡ string_bytes out.old ++ gate_text (label_in labels.now) (equation_view equation.now)) }
{
    let operands = variables(equation.operands.as_slice());
    put_names(out, labels, operands.as_slice(), equation.target.0)?;
    put_rows(out, equation, operands.len())
}

/// The covers of the gates.
pub(crate) fn put_gates(
    out: &mut String,
    labels: &Labels,
    equations: &[Equation],
) -> Result<(), AllocError>
    requires gates { IsTrue (list_all is_gate_equation (equation_views equations.now)) }
    requires arities { HasArities (equation_views equations.now) }
    ensures { OnOk result (string_bytes out.new ≡ string_bytes out.old ++ flat_map (gate_text (label_in labels.now)) (equation_views equations.now)) }
{
    for equation in equations {
        put_gate(out, labels, equation)?;
    }
    Ok(())
}

/// The cover of an output that shows a constant.
fn put_constant(out: &mut String, name: &str, value: bool) -> Result<(), AllocError>
    ensures { OnOk result (string_bytes out.new ≡ string_bytes out.old ++ (codes ".names " ++ (name.now ++ (if value then codes "\n1\n" else codes "\n")))) }
{
    out.push_str(".names ")?;
    out.push_str(name)?;
    out.push_str(if value { "\n1\n" } else { "\n" })
}

/// The cover of an output: a constant, a node or the complement of one.
pub(crate) fn put_output(
    out: &mut String,
    labels: &Labels,
    name: &str,
    source: WireRef,
) -> Result<(), AllocError>
    ensures { OnOk result (string_bytes out.new ≡ string_bytes out.old ++ output_text (label_in labels.now) name.now source) }
{
    if source.wire.0 == 0 {
        return put_constant(out, name, source.complement);
    }
    out.push_str(".names ")?;
    put_node(out, labels, source.wire.0)?;
    out.push_str(" ")?;
    out.push_str(name)?;
    out.push_str(if source.complement {
        "\n0 1\n"
    } else {
        "\n1 1\n"
    })
}
