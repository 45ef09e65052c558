//! Names of the inputs and outputs of a network.
#![tactic(auto)]

mod names;

pub use names::Names;
