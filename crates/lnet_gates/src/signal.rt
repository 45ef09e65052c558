//! Nodes, and signals that read them.

ghost use Rattle.std.specs.Prelude.{◌≡◌, Bool, false, eqb, leb};
ghost use Rattle.lnet_gates.specs.Operands as operands;

/// A node of a network, by its number, from 0 up to the greatest `u32`. Node 0 is the constant false.
#[derive(Clone, Copy, Debug, Default, PartialEq, Eq, PartialOrd, Ord)]
pub struct Node(pub u32);

/// A node as it is read: plain, or complemented. Signals are ordered by their code in the AIGER
/// format, `2 * node + complement`.
#[derive(Clone, Copy, Debug, Default, PartialEq, Eq, PartialOrd, Ord)]
pub struct Signal {
    /// The node that is read.
    pub node: Node,
    /// Whether the node's value is complemented.
    pub complement: bool,
}

impl Signal {
    /// The signal that is always `value`: node 0, complemented for true. Constant time.
    pub fn constant(value: bool) -> Signal
        ensures { result ≡ operands.constant value }
    {
        Signal {
            node: Node(0),
            complement: value,
        }
    }

    /// The signal's place in the order of signals, `2 * node + complement`: its literal in the AIGER format. Constant time.
    pub fn code(self) -> u64
        ensures { result ≡ operands.code self }
    {
        2 * (self.node.0 as u64) + u64::from(self.complement)
    }

    /// The signal, complemented where `change` is true. Constant time.
    pub fn flipped(self, change: bool) -> Signal
        ensures { result ≡ operands.flipped change self }
    {
        Signal {
            node: self.node,
            complement: change != self.complement,
        }
    }

    /// The signal without its complement. Constant time.
    pub fn plain(self) -> Signal
        ensures { result ≡ operands.plain self }
    {
        Signal {
            node: self.node,
            complement: false,
        }
    }

    /// Whether `self` and `other` are one signal. Constant time.
    pub fn is_same(self, other: Signal) -> bool
        ensures { result ≡ operands.is_same self other }
    {
        self.code() == other.code()
    }

    /// Whether `self` is `other` or comes before it. Constant time.
    pub fn is_at_most(self, other: Signal) -> bool
        ensures { result ≡ leb (operands.code self) (operands.code other) }
    {
        self.code() <= other.code()
    }
}
