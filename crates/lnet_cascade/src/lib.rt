//! Substitution of gates, with the merges that follow, and views that are told each single change.
#![tactic(auto)]

mod cascading;
mod losing;
mod noting;
mod redirecting;
mod substituting;

pub use substituting::substitute;
