//! The equations of gates.

ghost use Rattle.std.specs.Prelude.{◌≡◌, ◌≤◌, ℕ, ◌++◌, map, flat_map, filter_map, length, IfOk, OnOk};
ghost use Rattle.lnet_gates.specs.Plans.{Takes};
ghost use Rattle.lnet_edge.specs.CircuitLists.{equation_view, equation_views};
ghost use Rattle.lnet_export.specs.Exported.{equation_at, equation_in, ref_in, wire_at as wire_in};

use crate::rows::Row;
use crate::rules::rule_of;
use lnet_edge::{Equation, Wire, WireRef};
use lnet_gates::{Gate, Gates, Node, Signal};
use lnet_network::Network;
use smallvec::SmallVec;
use std::alloc::{AllocError, Global};

/// The wire of a number.
fn wire_at<G: Gates>(net: &Network<G>, n: Node) -> Wire
    ensures { result.0 ≡ wire_in net.now.core.network n.0 }
{
    if net.is_input(n) || net.gate_of(n).is_some() {
        Wire(n.0)
    } else {
        Wire(0)
    }
}

/// A signal as the use of a wire.
pub(crate) fn ref_of<G: Gates>(net: &Network<G>, s: Signal) -> WireRef
    ensures { result ≡ ref_in net.now.core.network s }
{
    WireRef {
        wire: wire_at(net, s.node),
        complement: s.complement,
    }
}

/// The operands of a gate's equation, in order.
fn operands_of<G: Gates>(
    alloc: Global,
    net: &Network<G>,
    fanins: &[Signal],
) -> Result<SmallVec<WireRef, 4>, AllocError>
    ensures { IfOk result (λ operands. operands.items ≡ map (ref_in net.now.core.network) fanins.now) }
{
    let mut operands = SmallVec::new(alloc);
    for fanin in fanins {
        operands.push(ref_of(net, *fanin))?;
    }
    Ok(operands)
}

/// The equation of a gate that has as many fanins as its operation takes.
fn equation_of<G: Gates>(
    alloc: Global,
    net: &Network<G>,
    n: u32,
    gate: &Gate,
) -> Result<Equation, AllocError>
    requires { Takes gate.now.op (length gate.now.fanins) }
    ensures { IfOk result (λ e. equation_view e ≡ equation_in net.now.core.network n gate.now) }
{
    let operands = operands_of(alloc, net, gate.fanins.as_slice())?;
    Ok(Equation {
        target: Wire(n),
        rule: rule_of(gate),
        operands,
    })
}

/// Puts the equations of a row's gates behind the others.
fn add_row<G: Gates>(
    alloc: Global,
    net: &Network<G>,
    equations: &mut Vec<Equation>,
    gates: &[u32],
) -> Result<(), AllocError>
    ensures { OnOk result (equation_views equations.new.items ≡ equation_views equations.old.items ++ filter_map (equation_at net.now.core.network) gates.now) }
{
    let _live = net.live_count();
    for n in gates {
        if let Some(gate) = net.gate_of(Node(*n)) {
            equations.push(equation_of(alloc, net, *n, gate)?)?;
        }
    }
    Ok(())
}

/// The equations of the gates of all rows, row by row.
pub(crate) fn equations_of<G: Gates>(
    alloc: Global,
    net: &Network<G>,
    rows: &[Row],
) -> Result<Vec<Equation>, AllocError>
    ensures { IfOk result (λ equations. equation_views equations.items ≡ filter_map (equation_at net.now.core.network) (flat_map (λ r. r) rows.now)) }
{
    let mut equations = Vec::new(alloc);
    for row in rows {
        add_row(alloc, net, &mut equations, row.gates())?;
    }
    Ok(equations)
}
