//! Signals by their codes.

use lnet_gates::{Node, Signal};

/// The signal of a code: twice its node, and one more where it is complemented.
pub(crate) fn coded(code: u32) -> Signal {
    Signal {
        node: Node(code / 2),
        complement: code % 2 == 1,
    }
}
