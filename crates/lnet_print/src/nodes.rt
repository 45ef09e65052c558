//! The lines of nodes.

ghost use Rattle.std.specs.Prelude.{◌≡◌, ◌<◌, ◌≤◌, ◌++◌, ℕ, None, Some, IfOk, OnOk, length, slice_index_or, string_bytes};
ghost use Rattle.lnet_model.specs.Networks.{entry_at};
ghost use Rattle.lnet_print.specs.Printed.{node_line, node_lines, line_at};
ghost use Rattle.lnet_print.specs.Places.{place_of};

use crate::signals::put_gate;
use lnet_gates::{Gates, Node};
use lnet_network::Network;
use std::alloc::{AllocError, Global};

/// So many places, and none of an input.
fn no_places(alloc: Global, count: usize) -> Result<Vec<Option<u32>>, AllocError>
    ensures len { IfOk result (λ places. length places.items ≡ count) }
    ensures none { IfOk result (λ places. (n : ℕ) → slice_index_or places.items n None ≡ None) }
{
    let places = vec![in alloc; None; count]?;
    Ok(places)
}

/// For each number the place in the list of inputs that its node has, if it is one. Linear in the numbers.
fn input_places<G: Gates>(alloc: Global, net: &Network<G>) -> Result<Vec<Option<u32>>, AllocError>
    ensures { IfOk result (λ places. (n : ℕ) → slice_index_or places.items n None ≡ place_of (entry_at net.now.core.network n)) }
{
    let _live = net.live_count();
    let numbers = net.numbers();
    let mut places = no_places(alloc, numbers as usize)?;
    for k in 0..net.input_count() {
        if let Some(node) = net.input_at(k) {
            places[node.0 as usize] = Some(k);
        }
    }
    Ok(places)
}

/// The line of the node at the number, where it is live.
fn put_node<G: Gates>(
    out: &mut String,
    net: &Network<G>,
    places: &[Option<u32>],
    n: u32,
) -> Result<(), AllocError>
    requires { slice_index_or places.now n None ≡ place_of (entry_at net.now.core.network n) }
    ensures { OnOk result (string_bytes out.new ≡ string_bytes out.old ++ line_at n (entry_at net.now.core.network n)) }
{
    if let Some(gate) = net.gate_of(Node(n)) {
        write!(out, "node {n} ")?;
        put_gate(out, gate)?;
        return out.push_str("\n");
    }
    if let Some(Some(k)) = places.get(n as usize) {
        return write!(out, "node {n} input {k}\n");
    }
    if net.is_live(Node(n)) {
        return write!(out, "node {n} false\n");
    }
    Ok(())
}

/// The lines of the live nodes, ascending.
pub(crate) fn put_nodes<G: Gates>(
    alloc: Global,
    out: &mut String,
    net: &Network<G>,
) -> Result<(), AllocError>
    ensures { OnOk result (string_bytes out.new ≡ string_bytes out.old ++ node_lines net.now.core.network) }
{
    let places = input_places(alloc, net)?;
    for n in 0..net.numbers() {
        put_node(out, net, &places, n)?;
    }
    Ok(())
}
