//! Printing a network.

ghost use Rattle.std.specs.Prelude.{◌≡◌, ◌++◌, IfOk, OnOk, string_bytes};
ghost use Rattle.lnet_print.specs.Printed.{output_line, output_lines, print_text};

use crate::nodes::put_nodes;
use crate::signals::put_signal;
use lnet_gates::{Gates, Signal};
use lnet_network::Network;
use std::alloc::{AllocError, Global};

/// The line of output `k`.
fn put_output(out: &mut String, k: u32, signal: Signal) -> Result<(), AllocError>
    ensures { OnOk result (string_bytes out.new ≡ string_bytes out.old ++ output_line k signal) }
{
    write!(out, "output {k} ")?;
    put_signal(out, signal)?;
    out.push_str("\n")
}

/// The lines of the outputs, in order.
fn put_outputs<G: Gates>(out: &mut String, net: &Network<G>) -> Result<(), AllocError>
    ensures { OnOk result (string_bytes out.new ≡ string_bytes out.old ++ output_lines 0 net.now.core.network.outputs) }
{
    for k in 0..net.output_count() {
        if let Some(signal) = net.output_at(k) {
            put_output(out, k, signal)?;
        }
    }
    Ok(())
}

/// The text of a network: a line for each live node, ascending (`node N false`, `node N input K`, or `node N OP S..` with `!`
/// before the operation where the gate's phase is 1), and then a line `output K S` for each output. A complemented signal has
/// `!` before its node's number; a look-up table is `lut HEX`, with a digit for four rows, the last digit the rows 0 to 3.
///
/// `AllocError` exactly where memory runs out. Linear in the network's numbers, fanins and outputs.
pub fn print<G: Gates>(alloc: Global, net: &Network<G>) -> Result<String, AllocError>
    ensures { IfOk result (λ text. string_bytes text ≡ print_text net.now.core.network) }
{
    let mut out = String::new(alloc);
    put_nodes(alloc, &mut out, net)?;
    put_outputs(&mut out, net)?;
    Ok(out)
}
