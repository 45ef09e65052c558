//! Writing a circuit.

ghost use Rattle.std.specs.Prelude.{◌≡◌, ◌++◌, OnOk, IfOk, codes, map, string_bytes};
ghost use Rattle.lnet_edge.specs.Plain.{IsPlain};
ghost use Rattle.lnet_naming.specs.Settling.{output_labels};
ghost use Rattle.lnet_nodes.specs.Kept.{label_in};
ghost use Rattle.lnet_blifwriter.specs.Texts.{outputs_text, covers_text, blif_text};

use crate::covers::{put_gates, put_output};
use crate::words::put_words;
use lnet_edge::{Circuit, Name, OutputPort};
use lnet_naming::{Names, settled_names};
use lnet_nodes::{Labels, labels_of};
use std::alloc::{AllocError, Global};

/// The covers of the outputs.
fn put_outputs(
    out: &mut String,
    labels: &Labels,
    names: &[Name],
    ports: &[OutputPort],
) -> Result<(), AllocError>
    ensures { OnOk result (string_bytes out.new ≡ string_bytes out.old ++ outputs_text (label_in labels.now) names.now ports.now) }
{
    for (name, port) in names.iter().zip(ports) {
        put_output(out, labels, name.as_str(), port.source)?;
    }
    Ok(())
}

/// The covers, and the end.
fn put_covers(
    out: &mut String,
    labels: &Labels,
    outputs: &[Name],
    circuit: &Circuit,
) -> Result<(), AllocError>
    requires plain { IsPlain circuit.now.equations }
    requires outputs { outputs.now ≡ output_labels circuit.now.inputs circuit.now.outputs }
    ensures { OnOk result (string_bytes out.new ≡ string_bytes out.old ++ covers_text (label_in labels.now) circuit.now) }
{
    put_gates(out, labels, circuit.equations())?;
    put_outputs(out, labels, outputs, circuit.outputs())?;
    out.push_str(".end\n")
}

/// Writes a circuit in the Berkeley Logic Interchange Format.
///
/// `alloc` is where the bytes are kept. First stands `.model lognet`, then the inputs and the outputs, then a cover for each
/// equation in the circuit's order, and a cover for each output, and last `.end`. The names of ports are those of
/// `settled_names`; gate `n` is called `_n<n>`, where `n` is the wire that its equation drives. A cover is over the gate's
/// operands other than constants, and has a line for each true row, in ascending order; the first operand is the least
/// significant bit of a row. Expected time and memory are linear in the size of the circuit.
///
/// # Errors
/// `AllocError` where memory runs out.
pub fn write(alloc: Global, circuit: &Circuit) -> Result<Vec<u8>, AllocError>
    // Each equation is an And or an Xor of two operands, a Maj or a Lut, and stands after those it uses.
    requires { IsPlain circuit.now.equations }
    // The bytes are the circuit's text.
    ensures text { IfOk result (λ v. v.items ≡ blif_text circuit.now) }
{
    let Names { inputs, outputs } = settled_names(alloc, circuit)?;
    let mut out = String::new(alloc);
    out.push_str(".model lognet\n")?;
    put_words(&mut out, ".inputs", &inputs)?;
    put_words(&mut out, ".outputs", &outputs)?;
    let labels = labels_of(alloc, circuit.inputs(), inputs)?;
    put_covers(&mut out, &labels, &outputs, circuit)?;
    Ok(out.into_bytes())
}
