//! Circuits written in the Berkeley Logic Interchange Format.
#![tactic(auto)]

mod covers;
mod words;
mod writing;

pub use writing::write;
