//! What written BLIF texts spell.
#![tactic(auto)]

mod laws;

pub use laws::{written_text_is_cut, written_text_is_read};
