//! The run of a script: the words of the command line, the commands one after another, and the status.
#![tactic(auto)]

mod laws;
mod running;
mod top;

pub use laws::{runs_follow_their_origin, writes_mean_their_origin};
pub use running::RunEnd;
pub use top::{Outcome, run};
