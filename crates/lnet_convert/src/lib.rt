//! Networks of one kind made networks of another.
#![tactic(auto)]

mod converting;

pub use converting::convert;
