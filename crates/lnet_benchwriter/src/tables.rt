//! The form in which gates have tables.

ghost use Rattle.std.specs.Prelude.{◌≡◌, ◌≤◌, ◌++◌, OnOk, codes, length, map, IsTrue, string_bytes};
ghost use Rattle.std.specs.List.{flat_map, list_all};
ghost use Rattle.lnet_edge.specs.Wires.{HasArities};
ghost use Rattle.lnet_edge.specs.CircuitLists.{equation_view, equation_views};
ghost use Rattle.lnet_edge.specs.Plain.{is_gate_equation};
ghost use Rattle.lnet_edge.specs.declared.circuit.WireRef.{WireRef};
ghost use Rattle.lnet_naming.specs.Settling.{made_name};
ghost use Rattle.lnet_nodes.specs.Nodes.{node_name};
ghost use Rattle.lnet_nodes.specs.Kept.{label_in};
ghost use Rattle.lnet_nodes.specs.Rows.{variables};
ghost use Rattle.lnet_benchwriter.specs.Tables.{gate_table};
ghost use Rattle.lnet_benchwriter.specs.Texts.{constant_line, gate_line, separated, table_line, output_word, shown_name, table_output, table_word};

use crate::names::constant_name;
use crate::rows::gate_table;
use lnet_edge::{Equation, WireRef};
use lnet_nodes::{Labels, put_node, variables};
use lnet_tables::put_digits;
use std::alloc::AllocError;

fn put_next(out: &mut String, labels: &Labels, node: u32) -> Result<(), AllocError>
    ensures { OnOk result (string_bytes out.new ≡ string_bytes out.old ++ (codes ", " ++ node_name (label_in labels.now) node)) }
{
    out.push_str(", ")?;
    put_node(out, labels, node)
}

/// The nodes of operands behind the first, each after a comma and a space.
fn put_others(out: &mut String, labels: &Labels, operands: &[WireRef]) -> Result<(), AllocError>
    ensures { OnOk result (string_bytes out.new ≡ string_bytes out.old ++ flat_map (λ y. codes ", " ++ y) (map (λ (v : WireRef). node_name (label_in labels.now) v.wire.0) operands.now)) }
{
    for operand in operands {
        put_next(out, labels, operand.wire.0)?;
    }
    Ok(())
}

/// The nodes of operands, with a comma and a space between them.
fn put_nodes(out: &mut String, labels: &Labels, operands: &[WireRef]) -> Result<(), AllocError>
    ensures { OnOk result (string_bytes out.new ≡ string_bytes out.old ++ separated (map (λ (v : WireRef). node_name (label_in labels.now) v.wire.0) operands.now)) }
{
    match operands {
        [] => Ok(()),
        [first, others @ ..] => {
            put_node(out, labels, first.wire.0)?;
            put_others(out, labels, others)
        }
    }
}

/// `NAME = gnd` or `NAME = vdd`.
fn put_constant(out: &mut String, node: u32, value: bool) -> Result<(), AllocError>
    ensures { OnOk result (string_bytes out.new ≡ string_bytes out.old ++ constant_line (made_name 110 node) value) }
{
    let value = constant_name(value);
    writeln!(out, "_n{node} = {value}")
}

/// `_n<n> = LUT 0xDIGITS (`.
fn put_head(out: &mut String, equation: &Equation, operands: usize) -> Result<(), AllocError>
    requires gate { IsTrue (is_gate_equation (equation_view equation.now)) }
    requires few { length equation.now.operands.items ≤ 6 }
    requires variables { operands ≡ length (variables equation.now.operands.items) }
    ensures { OnOk result (string_bytes out.new ≡ string_bytes out.old ++ (made_name 110 equation.now.target.0 ++ (codes " = " ++ (table_word (equation_view equation.now) ++ codes "(")))) }
{
    let node = equation.target.0;
    write!(out, "_n{node} = LUT 0x")?;
    put_digits(out, gate_table(equation, operands), operands)?;
    out.push_str(" (")
}

/// The line of a gate over these operands, which are those that are no constants.
fn put_table(
    out: &mut String,
    labels: &Labels,
    equation: &Equation,
    operands: &[WireRef],
) -> Result<(), AllocError>
    requires gate { IsTrue (is_gate_equation (equation_view equation.now)) }
    requires few { length equation.now.operands.items ≤ 6 }
    requires variables { operands.now ≡ variables equation.now.operands.items }
    ensures { OnOk result (string_bytes out.new ≡ string_bytes out.old ++ gate_line (made_name 110 equation.now.target.0) (table_word (equation_view equation.now)) (map (λ (v : WireRef). node_name (label_in labels.now) v.wire.0) operands.now)) }
{
    put_head(out, equation, operands.len())?;
    put_nodes(out, labels, operands)?;
    out.push_str(")\n")
}

/// The line of a gate over its operands that are no constants.
pub(crate) fn put_line(
    out: &mut String,
    labels: &Labels,
    equation: &Equation,
) -> Result<(), AllocError>
    requires gate { IsTrue (is_gate_equation (equation_view equation.now)) }
    requires few { length equation.now.operands.items ≤ 6 }
    ensures { OnOk result (string_bytes out.new ≡ string_bytes out.old ++ table_line (label_in labels.now) (equation_view equation.now)) }
{
    let operands = variables(equation.operands.as_slice());
    if operands.is_empty() {
        put_constant(out, equation.target.0, gate_table(equation, 0) == 1)
    } else {
        put_table(out, labels, equation, operands.as_slice())
    }
}

/// The lines of the gates.
pub(crate) fn put_gates(
    out: &mut String,
    labels: &Labels,
    equations: &[Equation],
) -> Result<(), AllocError>
    requires gates { IsTrue (list_all is_gate_equation (equation_views equations.now)) }
    requires arities { HasArities (equation_views equations.now) }
    ensures { OnOk result (string_bytes out.new ≡ string_bytes out.old ++ flat_map (table_line (label_in labels.now)) (equation_views equations.now)) }
{
    for equation in equations {
        put_line(out, labels, equation)?;
    }
    Ok(())
}

/// The word of an output.
fn output_word(source: WireRef) -> &'static str
    ensures { result.now ≡ output_word source }
{
    if source.wire.0 != 0 && source.complement {
        "NOT"
    } else {
        "BUFF"
    }
}

/// What an output names: a node or a constant.
fn put_shown(out: &mut String, labels: &Labels, source: WireRef) -> Result<(), AllocError>
    ensures { OnOk result (string_bytes out.new ≡ string_bytes out.old ++ shown_name (label_in labels.now) source) }
{
    if source.wire.0 == 0 {
        out.push_str(constant_name(source.complement))
    } else {
        put_node(out, labels, source.wire.0)
    }
}

/// The line of an output: a node, the complement of one, or a constant.
pub(crate) fn put_output(
    out: &mut String,
    labels: &Labels,
    name: &str,
    source: WireRef,
) -> Result<(), AllocError>
    ensures { OnOk result (string_bytes out.new ≡ string_bytes out.old ++ table_output (label_in labels.now) name.now source) }
{
    let word = output_word(source);
    write!(out, "{name} = {word}(")?;
    put_shown(out, labels, source)?;
    out.push_str(")\n")
}
