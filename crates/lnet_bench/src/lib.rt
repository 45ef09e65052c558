//! Circuits read from the BENCH format.
#![tactic(auto)]

mod gates;
mod laws;
mod listing;
mod reading;
mod statements;
mod texts;
mod wiring;

pub use laws::{lines_of_each_form, lines_of_no_form};
pub use reading::read;
