//! The views of a session: which are live, under which numbers, and which stand on the shelf.
#![tactic(auto)]

mod kinds;
mod roll;

pub use kinds::kind_of_spec;
pub use roll::{AskError, AttachError, DropError, Subscriptions};
