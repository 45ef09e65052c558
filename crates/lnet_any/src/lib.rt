//! Networks of any of the four kinds.
#![tactic(auto)]

mod any;
mod substituting;

pub use any::AnyNet;
