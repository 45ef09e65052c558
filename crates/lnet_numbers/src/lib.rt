//! A set of numbers below a room, whose least member is found in constant time.
#![tactic(auto)]

mod level;
mod levels;
mod number_set;

pub use number_set::{NumberSet, ROOM_LIMIT};
