//! For each node an ascending list of places, linked both ways.
#![tactic(auto)]

mod links;
mod pool;

pub use pool::Pool;
