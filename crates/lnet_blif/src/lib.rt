//! Circuits read from the Berkeley Logic Interchange Format.
#![tactic(auto)]

mod laws;
mod listing;
mod reading;
mod statements;
mod tables;

pub use laws::{lines_of_each_form, lines_of_no_form};
pub use reading::read;
