//! The form in which gates have words.

ghost use Rattle.std.specs.Prelude.{◌≡◌, ◌++◌, ◌∷◌, [], IfOk, OnOk, codes, map, string_bytes};
ghost use Rattle.std.specs.List.{flat_map, filter};
ghost use Rattle.lnet_edge.specs.Wires.{input_wires};
ghost use Rattle.lnet_edge.specs.CircuitLists.{equation_view, equation_views};
ghost use Rattle.lnet_naming.specs.Settling.{made_name};
ghost use Rattle.lnet_benchwriter.specs.Nodes.{use_name};
ghost use Rattle.lnet_nodes.specs.Kept.{label_in};
ghost use Rattle.lnet_benchwriter.specs.Kept.{turned_in};
ghost use Rattle.lnet_benchwriter.specs.Texts.{separated, gate_line, gate_word, complement_line, ascending, input_complements, word_lines, word_output};

use crate::complements::Turned;
use crate::names::put_use;
use lnet_edge::{Equation, InputPort, Rule, WireRef};
use lnet_nodes::{Labels, put_node};
use std::alloc::{AllocError, Global};
use std::collections::BTreeSet;

/// The word of a gate.
fn gate_word(rule: &Rule) -> &'static str
    ensures { result.now ≡ gate_word rule.now }
{
    match rule {
        Rule::And(false) => "AND",
        Rule::And(true) => "NAND",
        Rule::Xor(false) => "XOR",
        Rule::Xor(true) => "XNOR",
        _ => "",
    }
}

fn put_next(out: &mut String, labels: &Labels, reference: WireRef) -> Result<(), AllocError>
    ensures { OnOk result (string_bytes out.new ≡ string_bytes out.old ++ (codes ", " ++ use_name (label_in labels.now) reference)) }
{
    out.push_str(", ")?;
    put_use(out, labels, reference)
}

/// The operands behind the first, each after a comma and a space.
fn put_others(out: &mut String, labels: &Labels, operands: &[WireRef]) -> Result<(), AllocError>
    ensures { OnOk result (string_bytes out.new ≡ string_bytes out.old ++ flat_map (λ y. codes ", " ++ y) (map (use_name (label_in labels.now)) operands.now)) }
{
    for operand in operands {
        put_next(out, labels, *operand)?;
    }
    Ok(())
}

/// The operands, with a comma and a space between them.
fn put_operands(out: &mut String, labels: &Labels, operands: &[WireRef]) -> Result<(), AllocError>
    ensures { OnOk result (string_bytes out.new ≡ string_bytes out.old ++ separated (map (use_name (label_in labels.now)) operands.now)) }
{
    match operands {
        [] => Ok(()),
        [first, others @ ..] => {
            put_use(out, labels, *first)?;
            put_others(out, labels, others)
        }
    }
}

/// The line of the complement of a node.
fn put_complement(out: &mut String, labels: &Labels, node: u32) -> Result<(), AllocError>
    ensures { OnOk result (string_bytes out.new ≡ string_bytes out.old ++ complement_line (label_in labels.now) node) }
{
    write!(out, "_c{node} = NOT(")?;
    put_node(out, labels, node)?;
    out.push_str(")\n")
}

/// The wires of the inputs that are used with complement, ascending.
fn turned_inputs(
    alloc: Global,
    turned: &Turned,
    inputs: &[InputPort],
) -> Result<BTreeSet<u32>, AllocError>
    ensures { IfOk result (λ s. s.keys ≡ ascending (filter (turned_in turned.now) (input_wires inputs.now))) }
{
    let mut wires = BTreeSet::new(alloc);
    for input in inputs {
        if turned.contains(&input.wire.0) {
            wires.insert(input.wire.0)?;
        }
    }
    Ok(wires)
}

/// The lines of the complements of inputs.
pub(crate) fn put_input_complements(
    alloc: Global,
    out: &mut String,
    labels: &Labels,
    turned: &Turned,
    inputs: &[InputPort],
) -> Result<(), AllocError>
    ensures { OnOk result (string_bytes out.new ≡ string_bytes out.old ++ input_complements (label_in labels.now) (turned_in turned.now) inputs.now) }
{
    let wires = turned_inputs(alloc, turned, inputs)?;
    for wire in &wires {
        put_complement(out, labels, *wire)?;
    }
    Ok(())
}

/// The line of a gate.
fn put_gate(out: &mut String, labels: &Labels, equation: &Equation) -> Result<(), AllocError>
    ensures { OnOk result (string_bytes out.new ≡ string_bytes out.old ++ gate_line (made_name 110 equation.now.target.0) (gate_word equation.now.rule) (map (use_name (label_in labels.now)) equation.now.operands.items)) }
{
    let node = equation.target.0;
    let word = gate_word(&equation.rule);
    write!(out, "_n{node} = {word}(")?;
    put_operands(out, labels, equation.operands.as_slice())?;
    out.push_str(")\n")
}

/// The line of a gate, and that of its complement where that is used.
fn put_lines(
    out: &mut String,
    labels: &Labels,
    turned: &Turned,
    equation: &Equation,
) -> Result<(), AllocError>
    ensures { OnOk result (string_bytes out.new ≡ string_bytes out.old ++ word_lines (label_in labels.now) (turned_in turned.now) (equation_view equation.now)) }
{
    put_gate(out, labels, equation)?;
    if turned.contains(&equation.target.0) {
        put_complement(out, labels, equation.target.0)?;
    }
    Ok(())
}

/// The lines of the gates.
pub(crate) fn put_gates(
    out: &mut String,
    labels: &Labels,
    turned: &Turned,
    equations: &[Equation],
) -> Result<(), AllocError>
    ensures { OnOk result (string_bytes out.new ≡ string_bytes out.old ++ flat_map (word_lines (label_in labels.now) (turned_in turned.now)) (equation_views equations.now)) }
{
    for equation in equations {
        put_lines(out, labels, turned, equation)?;
    }
    Ok(())
}

/// The line of an output: a node, a complement or a constant.
pub(crate) fn put_output(
    out: &mut String,
    labels: &Labels,
    name: &str,
    source: WireRef,
) -> Result<(), AllocError>
    ensures { OnOk result (string_bytes out.new ≡ string_bytes out.old ++ word_output (label_in labels.now) name.now source) }
{
    write!(out, "{name} = BUFF(")?;
    put_use(out, labels, source)?;
    out.push_str(")\n")
}
