//! Lines and numbers of texts, for the readers of all formats.
#![tactic(auto)]

mod lines;
mod numbers;

pub use lines::Lines;
pub use numbers::number;
