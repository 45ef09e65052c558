//! The ports and equations of statements, by the wires of their names.

ghost use Rattle.std.specs.Prelude.{◌≡◌, ◌+◌, ◌<◌, ◌≤◌, length, IfOk, OnOk};
ghost use Rattle.std.specs.Str.{bytes_eq};
ghost use Rattle.lnet_edge.specs.Circuits.{wire_limit};
ghost use Rattle.lnet_wires.specs.Naming.{with_name};
ghost use Rattle.lnet_bench.specs.Statements.{names_in};
ghost use Rattle.lnet_bench.specs.Wiring.{constant_by, refer, refer_all};

use crate::statements::name;
use lnet_edge::{Wire, WireRef};
use lnet_wires::Wires;
use lnet_words::cut;
use smallvec::SmallVec;
use std::alloc::{AllocError, Global};

/// Which of the names of the constants some line drives.
#[derive(Clone, Copy)]
pub(crate) struct Driven {
    /// Whether `gnd` is driven.
    pub gnd: bool,
    /// Whether `vdd` is driven.
    pub vdd: bool,
}

/// The constant that a name is as an operand or an output.
fn constant_by(driven: Driven, name: &[u8]) -> Option<bool>
    ensures { result ≡ constant_by driven name.now }
{
    match name {
        b"gnd" if !driven.gnd => Some(false),
        b"vdd" if !driven.vdd => Some(true),
        _ => None,
    }
}

/// The use of a name's wire, or of the constant.
pub(crate) fn refer<'a>(
    wires: &mut Wires<'a>,
    driven: Driven,
    name: &'a [u8],
) -> Result<WireRef, AllocError>
    requires { length wires.old < wire_limit }
    ensures value { IfOk result (λ r. (r, wires.new) ≡ refer driven wires.old name.now) }
    ensures few { OnOk result (length wires.new ≤ length wires.old + 1) }
{
    if let Some(complement) = constant_by(driven, name) {
        return Ok(WireRef {
            wire: Wire(0),
            complement,
        });
    }
    Ok(WireRef {
        wire: Wire(wires.wire(name)?),
        complement: false,
    })
}

/// The uses of the wires of the names between commas.
pub(crate) fn refer_all<'a>(
    alloc: Global,
    wires: &mut Wires<'a>,
    driven: Driven,
    args: &'a [u8],
) -> Result<SmallVec<WireRef, 4>, AllocError>
    requires { length wires.old + length args.now + 1 < wire_limit }
    ensures value { IfOk result (λ rs. (rs.items, wires.new) ≡ refer_all driven wires.old (names_in args.now)) }
    ensures few { OnOk result (length wires.new ≤ length wires.old + length args.now + 1) }
{
    let mut refs = SmallVec::new(alloc);
    let mut rest = Some(args);
    while let Some(text) = rest {
        let (part, behind) = cut(text, b',');
        if let Some(name) = name(part) {
            refs.push(refer(wires, driven, name)?)?;
        }
        rest = behind;
    }
    Ok(refs)
}
