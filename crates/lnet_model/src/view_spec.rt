//! What views are asked for.

/// Which cuts a cut view keeps.
#[derive(Clone, Copy, Debug, PartialEq, Eq)]
pub struct CutRule {
    /// How many leaves a cut has at most: 3 to 8.
    pub size: u8,
    /// How many cuts a node has at most, beside the trivial one: 1 to 16.
    pub limit: u8,
}

/// Which answers a view keeps.
#[derive(Clone, Copy, Debug, PartialEq, Eq)]
pub enum ViewKind {
    /// The level of each node.
    Depth,
    /// The fanout of each node.
    Fanout,
    /// The cuts of each node.
    Cuts,
}

/// What a view is attached for: its kind, and for a cut view its rule.
#[derive(Clone, Copy, Debug, PartialEq, Eq)]
pub enum ViewSpec {
    /// The level of each node.
    Depth,
    /// The fanout of each node.
    Fanout,
    /// The cuts of each node, by the rule.
    Cuts(CutRule),
}
