//! Names, port by port.

ghost use Rattle.std.specs.Prelude.{◌≡◌, ◌<◌, ◌≤◌, Option, map, length, string_bytes, IfOk};
ghost use Rattle.std.specs.Option.{option_copied};
ghost use Rattle.lnet_naming.specs.Settling.{letter_of, made_name, keeps, settle, settle_all, input_labels, output_labels};
ghost use Rattle.lnet_edge.specs.Shown.{input_names, output_names};

use crate::kept::Kept;
use crate::plain::is_plain;
use lnet_edge::{Circuit, InputPort, Name, OutputPort};
use std::alloc::{AllocError, Global};

/// The names of a circuit's ports in a text.
#[derive(Drop)]
pub struct Names {
    /// The inputs' names, in their order.
    pub inputs: Vec<Name>,
    /// The outputs' names, in their order.
    pub outputs: Vec<Name>,
}

/// What a port is.
#[derive(Clone, Copy)]
enum Side {
    Input,
    Output,
}

/// `_i` or `_o`, and the place of a port.
fn made_text(alloc: Global, side: Side, place: usize) -> Result<String, AllocError>
    ensures { IfOk result (λ text. string_bytes text ≡ made_name (letter_of side) place) }
{
    match side {
        Side::Input => format!(in alloc; "_i{place}"),
        Side::Output => format!(in alloc; "_o{place}"),
    }
}

fn made(alloc: Global, side: Side, place: usize) -> Result<Name, AllocError>
    ensures { IfOk result (λ n. n ≡ made_name (letter_of side) place) }
{
    Ok(Name::new(made_text(alloc, side, place)?))
}

/// The same name again.
fn copy(alloc: Global, name: &Name) -> Result<Name, AllocError>
    ensures { IfOk result (λ n. n ≡ name.now) }
{
    Ok(Name::new(String::from_str(alloc, name.as_str())?))
}

/// Whether the name is kept; it is kept from now on.
fn keeps<'a>(kept: &mut Kept<'a>, name: &'a Name) -> Result<bool, AllocError>
    ensures { IfOk result (λ b. (b, kept.new) ≡ keeps kept.old name.now) }
{
    let bytes = name.as_str().as_bytes();
    if is_plain(bytes) {
        kept.keep(bytes)
    } else {
        Ok(false)
    }
}

/// The name of a port in a text.
fn settled<'a>(
    alloc: Global,
    kept: &mut Kept<'a>,
    side: Side,
    place: usize,
    name: &'a Option<Name>,
) -> Result<Name, AllocError>
    ensures { IfOk result (λ n. (n, kept.new) ≡ settle (letter_of side) place kept.old name.now) }
{
    match name {
        Some(name) if keeps(kept, name)? => copy(alloc, name),
        _ => made(alloc, side, place),
    }
}

/// The names of the inputs.
fn settle_inputs<'a>(
    alloc: Global,
    kept: &mut Kept<'a>,
    inputs: &'a [InputPort],
) -> Result<Vec<Name>, AllocError>
    ensures { IfOk result (λ v. (v.items, kept.new) ≡ settle_all 105 0 kept.old (input_names inputs.now)) }
{
    let mut names = Vec::new(alloc);
    for (place, port) in inputs.iter().enumerate() {
        names.push(settled(alloc, kept, Side::Input, place, &port.name)?)?;
    }
    Ok(names)
}

/// The names of the outputs.
fn settle_outputs<'a>(
    alloc: Global,
    kept: &mut Kept<'a>,
    outputs: &'a [OutputPort],
) -> Result<Vec<Name>, AllocError>
    ensures { IfOk result (λ v. (v.items, kept.new) ≡ settle_all 111 0 kept.old (output_names outputs.now)) }
{
    let mut names = Vec::new(alloc);
    for (place, port) in outputs.iter().enumerate() {
        names.push(settled(alloc, kept, Side::Output, place, &port.name)?)?;
    }
    Ok(names)
}

/// The names of the circuit's ports in a text, inputs first and then outputs.
///
/// A name is kept where its bytes are from 33 to 126 other than `(`, `)`, `,`, `=`, `#`, `\`, `;` and `"`, where it doesn't
/// begin with `.`, isn't `gnd` or `vdd` in any letter case, nor `_i`, `_o`, `_n` or `_c` and digits alone, and where no
/// port before it keeps it. Else input `k` is `_i<k>` and output `k` is `_o<k>`, counted from 0. `alloc` is where the names
/// are kept. Expected time and memory are linear in the names.
///
/// # Errors
/// `AllocError` where memory runs out.
pub fn settled_names(alloc: Global, circuit: &Circuit) -> Result<Names, AllocError>
    ensures inputs { IfOk result (λ n. n.inputs.items ≡ input_labels circuit.now.inputs) }
    ensures outputs { IfOk result (λ n. n.outputs.items ≡ output_labels circuit.now.inputs circuit.now.outputs) }
{
    let mut kept = Kept::new(alloc);
    let inputs = settle_inputs(alloc, &mut kept, circuit.inputs())?;
    let outputs = settle_outputs(alloc, &mut kept, circuit.outputs())?;
    Ok(Names { inputs, outputs })
}
