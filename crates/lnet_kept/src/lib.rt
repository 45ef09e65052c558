//! What the types of a circuit and its parts keep, as facts on the circuit.
#![tactic(auto)]

mod keeping;

pub use keeping::keep;
