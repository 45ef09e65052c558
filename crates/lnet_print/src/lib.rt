//! Networks as text, node by node.
#![tactic(auto)]

mod counting;
mod laws;
mod nodes;
mod printing;
mod signals;

pub use counting::gate_count;
pub use laws::worked_texts;
pub use printing::print;
