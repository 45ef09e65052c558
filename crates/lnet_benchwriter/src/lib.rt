//! Circuits written in the BENCH format.
#![tactic(auto)]

mod complements;
mod lines;
mod names;
mod rows;
mod tables;
mod words;
mod writing;

pub use writing::write;
