//! The lines of the Berkeley Logic Interchange Format, joined and cut into words.
#![tactic(auto)]

mod joining;

pub use joining::{TextLine, next_line};
