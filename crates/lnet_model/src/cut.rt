//! Cuts of a node.

use arrayvec::ArrayVec;
use lnet_gates::Node;
use lnet_tables::Table;
use std::marker::Model;

/// A cut of a node: nodes that the node's value is a function of, and that function.
///
/// A contract sees the list of the leaves' numbers and the table.
#[derive(Drop)]
pub struct Cut {
    /// The leaves, ascending.
    pub leaves: ArrayVec<Node, 8>,
    /// The node's function of its leaves: variable `i` is leaf `i`.
    pub table: Table,
}

impl Model for Cut {
    ghost use Rattle.std.specs.Prelude.{map};
    ghost use Rattle.lnet_model.specs.Cuts.{CutValue};

    ghost Value = { CutValue };

    ghost view = { λ c. record { leaves = map (λ n. n.0) c.leaves.items; table = c.table } };
}
