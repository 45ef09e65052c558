//! Bytes cut into parts and words, for the readers of formats of lines.
#![tactic(auto)]

mod words;

pub use words::{cut, next_word, only_word};
