//! Circuits of networks.
#![tactic(auto)]

mod equations;
mod exporting;
mod levels;
mod ports;
mod rows;
mod rules;

pub use exporting::export;
