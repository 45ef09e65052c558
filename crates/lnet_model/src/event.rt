//! Events: what is told of each single change of a network's nodes.

use lnet_gates::{Gate, Node};

/// A change of one node, told after it was made. A change of an output is no event.
#[derive(Drop)]
pub enum Event {
    /// An input or a gate was added at the node.
    Added(Node),
    /// The gate at the node was set to another one; the old gate stands beside it.
    Modified(Node, Gate),
    /// The gate at the node was removed; it stands beside it.
    Deleted(Node, Gate),
}
