//! What written BENCH texts spell.
#![tactic(auto)]

mod laws;

pub use laws::{constants_are_not_driven, written_text_is_read};
