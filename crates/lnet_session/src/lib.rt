//! A session of commands: what stands in place, its views, and one command on it.
#![tactic(auto)]

mod asking;
mod circuits;
mod merging;
mod placing;
mod session;
mod stepping;

pub use session::{Kit, Session};
pub use stepping::StepEnd;
