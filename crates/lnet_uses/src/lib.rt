//! How a program of one's own uses networks: each function is proved from the contracts of the calls that it makes.
#![tactic(auto)]

mod building;
mod changing;
mod reading;
mod watching;
mod writing;

pub use building::{adder_in, adder_nodes};
pub use changing::{replace, turn_output};
pub use reading::{first_outputs, value_of};
pub use watching::{level_of_a_sum, stop_watching, watch};
pub use writing::{aiger_of, blif_of};
