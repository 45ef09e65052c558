//! What the commands of a script answer, and the lines of the transcript.
#![tactic(auto)]

mod reply;

pub use reply::{Counts, Reply, Unmet, is_met, text_of_reply};
