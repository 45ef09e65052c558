//! The names of nodes in written texts, and the values of gates at rows of their operands.
#![tactic(auto)]

mod labels;
mod rows;

pub use labels::{Labels, labels_of, put_node};
pub use rows::{gate_value, variables};
