//! Writing a circuit.

ghost use Rattle.std.specs.Prelude.{◌≡◌, ◌++◌, OnOk, IfOk, codes, string_bytes, IsTrue};
ghost use Rattle.std.specs.List.{flat_map, list_all};
ghost use Rattle.lnet_edge.specs.CircuitLists.{equation_views};
ghost use Rattle.lnet_edge.specs.Plain.{is_gate_equation, IsPlain};
ghost use Rattle.lnet_edge.specs.Wires.{HasArities};
ghost use Rattle.lnet_naming.specs.Settling.{output_labels};
ghost use Rattle.lnet_benchwriter.specs.Nodes.{is_turned, uses_of};
ghost use Rattle.lnet_nodes.specs.Kept.{label_in};
ghost use Rattle.lnet_benchwriter.specs.Kept.{turned_in};
ghost use Rattle.lnet_benchwriter.specs.Texts.{output_line, output_lines, is_table_rule, has_tables, port_line, word_form, table_form, form_text, bench_text};

use crate::complements::turned_in;
use crate::lines::put_ports;
use crate::{tables, words};
use lnet_edge::{Circuit, Equation, Name, OutputPort, Rule, WireRef};
use lnet_naming::{Names, settled_names};
use lnet_nodes::{Labels, labels_of};
use std::alloc::{AllocError, Global};

/// How gates are written.
#[derive(Clone, Copy)]
enum Form {
    /// By words, where no gate is a Maj or a Lut.
    Words,
    /// By tables.
    Tables,
}

/// Whether the rule has no word.
fn is_table_rule(rule: &Rule) -> bool
    ensures { result ≡ is_table_rule rule.now }
{
    matches!(rule, Rule::Maj(_) | Rule::Lut(_))
}

/// Whether some gate has no word.
fn has_tables(equations: &[Equation]) -> bool
    ensures { result ≡ has_tables (equation_views equations.now) }
{
    for equation in equations {
        if is_table_rule(&equation.rule) {
            return true;
        }
    }
    false
}

/// The line of an output.
fn put_output(
    out: &mut String,
    labels: &Labels,
    form: Form,
    name: &Name,
    source: WireRef,
) -> Result<(), AllocError>
    ensures { OnOk result (string_bytes out.new ≡ string_bytes out.old ++ output_line form (label_in labels.now) name.now source) }
{
    match form {
        Form::Words => words::put_output(out, labels, name.as_str(), source),
        Form::Tables => tables::put_output(out, labels, name.as_str(), source),
    }
}

/// The lines of the outputs, which have these names.
fn put_outputs(
    out: &mut String,
    labels: &Labels,
    form: Form,
    names: &[Name],
    ports: &[OutputPort],
) -> Result<(), AllocError>
    ensures { OnOk result (string_bytes out.new ≡ string_bytes out.old ++ output_lines (output_line form (label_in labels.now)) names.now ports.now) }
{
    for (name, port) in names.iter().zip(ports) {
        put_output(out, labels, form, name, port.source)?;
    }
    Ok(())
}

/// The lines behind those of the ports, where gates have words.
fn put_words(
    alloc: Global,
    out: &mut String,
    labels: &Labels,
    outputs: &[Name],
    circuit: &Circuit,
) -> Result<(), AllocError>
    requires outputs { outputs.now ≡ output_labels circuit.now.inputs circuit.now.outputs }
    ensures { OnOk result (string_bytes out.new ≡ string_bytes out.old ++ word_form (label_in labels.now) (is_turned (uses_of circuit.now)) circuit.now) }
{
    let turned = turned_in(alloc, circuit)?;
    words::put_input_complements(alloc, out, labels, &turned, circuit.inputs())?;
    words::put_gates(out, labels, &turned, circuit.equations())?;
    put_outputs(out, labels, Form::Words, outputs, circuit.outputs())?;
    Ok(())
}

/// The same where gates have tables.
fn put_tables(
    out: &mut String,
    labels: &Labels,
    outputs: &[Name],
    circuit: &Circuit,
) -> Result<(), AllocError>
    requires plain { IsPlain circuit.now.equations }
    requires outputs { outputs.now ≡ output_labels circuit.now.inputs circuit.now.outputs }
    ensures { OnOk result (string_bytes out.new ≡ string_bytes out.old ++ table_form (label_in labels.now) circuit.now) }
{
    tables::put_gates(out, labels, circuit.equations())?;
    put_outputs(out, labels, Form::Tables, outputs, circuit.outputs())?;
    Ok(())
}

/// The lines behind those of the ports.
fn put_rest(
    alloc: Global,
    out: &mut String,
    labels: &Labels,
    outputs: &[Name],
    circuit: &Circuit,
) -> Result<(), AllocError>
    requires plain { IsPlain circuit.now.equations }
    requires outputs { outputs.now ≡ output_labels circuit.now.inputs circuit.now.outputs }
    ensures { OnOk result (string_bytes out.new ≡ string_bytes out.old ++ form_text (label_in labels.now) circuit.now) }
{
    if has_tables(circuit.equations()) {
        put_tables(out, labels, outputs, circuit)
    } else {
        put_words(alloc, out, labels, outputs, circuit)
    }
}

/// Writes a circuit in the BENCH format.
///
/// `alloc` is where the bytes are kept. First stands a line for each input and one for each output, then the equations in
/// the circuit's order, and last a line for each output. The names of ports are those of `settled_names`; gate `n` is
/// called `_n<n>`, and its complement `_c<n>`, where `n` is the wire that its equation drives. Where no equation is a Maj
/// or a Lut, gates have the words `AND`, `NAND`, `XOR` and `XNOR`, and the complements that are used have a line each.
/// Otherwise each gate is a look-up table of its operands other than constants. Expected time and memory are linear in the
/// size of the circuit, but for sorting the inputs that are used with complement.
///
/// # Errors
/// `AllocError` where memory runs out.
pub fn write(alloc: Global, circuit: &Circuit) -> Result<Vec<u8>, AllocError>
    // Each equation is an And or an Xor of two operands, a Maj or a Lut, and stands after those it uses.
    requires { IsPlain circuit.now.equations }
    // The bytes are the circuit's text.
    ensures text { IfOk result (λ v. v.items ≡ bench_text circuit.now) }
{
    let Names { inputs, outputs } = settled_names(alloc, circuit)?;
    let mut out = String::new(alloc);
    put_ports(&mut out, "INPUT", &inputs)?;
    put_ports(&mut out, "OUTPUT", &outputs)?;
    let labels = labels_of(alloc, circuit.inputs(), inputs)?;
    put_rest(alloc, &mut out, &labels, &outputs, circuit)?;
    Ok(out.into_bytes())
}
