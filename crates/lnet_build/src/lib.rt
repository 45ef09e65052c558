//! Networks built of circuits.
#![tactic(auto)]

mod building;
mod equations;
mod naming;
mod ports;
mod signals;

pub use building::build;
