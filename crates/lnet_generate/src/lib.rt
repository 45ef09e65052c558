//! Circuits generated from a number.
#![tactic(auto)]

mod drawing;
mod generating;

pub use generating::generate;
