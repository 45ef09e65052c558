//! The order in which the equations of a circuit are built.
#![tactic(auto)]

mod laws;
mod ordering;
mod places;

pub use laws::{operands_come_first, worked_row};
pub use ordering::order;
