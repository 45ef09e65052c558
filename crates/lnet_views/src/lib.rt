//! Views that follow a network event by event.
#![tactic(auto)]

mod building;
mod depth;
mod following;
mod kept;
mod queue;
mod repairing;
mod rule;

pub use depth::DepthView;
pub use following::Follow;
pub use rule::Rule;
