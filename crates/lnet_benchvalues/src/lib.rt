//! The values that written BENCH texts give, and writing with what the text means.
#![tactic(auto)]

mod laws;
mod writing;

pub use laws::{
    statements_give_values, written_text_keeps_outputs, written_text_keeps_ports,
    written_text_means,
};
pub use writing::write;
