//! Covers of functions by cubes, and their factored forms.
#![tactic(auto)]

mod cover;
mod covering;
mod factoring;
mod laws;

pub use cover::{Cover, Cube};
pub use covering::isop;
pub use factoring::{FactorError, factor};
pub use laws::{divisors_stand_in_most_cubes, plain_forms, unused_variables_are_passed_over};
