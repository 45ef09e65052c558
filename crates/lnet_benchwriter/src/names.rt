//! The names of uses of nodes.

ghost use Rattle.std.specs.Prelude.{◌≡◌, ◌++◌, OnOk, string_bytes};
ghost use Rattle.lnet_nodes.specs.Kept.{label_in};
ghost use Rattle.lnet_benchwriter.specs.Nodes.{constant_name, use_name};

use lnet_edge::WireRef;
use lnet_nodes::{Labels, put_node};
use std::alloc::AllocError;

/// The name of a constant.
pub(crate) fn constant_name(value: bool) -> &'static str
    ensures { result.now ≡ constant_name value }
{
    if value { "vdd" } else { "gnd" }
}

/// The name of a use of a node: that of the node, of its complement, or of a constant.
pub(crate) fn put_use(
    out: &mut String,
    labels: &Labels,
    reference: WireRef,
) -> Result<(), AllocError>
    ensures { OnOk result (string_bytes out.new ≡ string_bytes out.old ++ use_name (label_in labels.now) reference) }
{
    let node = reference.wire.0;
    if node == 0 {
        out.push_str(constant_name(reference.complement))
    } else if reference.complement {
        write!(out, "_c{node}")
    } else {
        put_node(out, labels, node)
    }
}
