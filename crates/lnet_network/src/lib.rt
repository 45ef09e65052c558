//! Networks of four kinds, with boxed views that follow each change.
#![tactic(auto)]

mod network;
mod operations;
mod outputs;
mod reading;
mod substituting;
mod viewing;

pub use network::{Core, Network};
pub use viewing::ViewId;
