//! The rules of equations, built over signals of a network.
#![tactic(auto)]

mod covering;
mod joining;
mod laws;
mod rows;
mod ruling;

pub use joining::{Join, fold};
pub use laws::built_rules;
pub use ruling::build_rule;
