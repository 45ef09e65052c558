//! Simulation of networks: their outputs under one assignment, and exhaustive comparison of two nodes, 64 assignments at a time.
#![tactic(auto)]

mod comparing;
mod cone;
mod gates;
mod inputs;
mod passing;
mod simulating;

pub use comparing::equal_exhaustive;
pub use simulating::simulate;
