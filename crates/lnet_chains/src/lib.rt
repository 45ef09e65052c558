//! For each node a list of places, linked both ways, so that a place comes and goes in constant time.
#![tactic(auto)]

mod chains;

pub use chains::Chains;
