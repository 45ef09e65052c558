//! The circuits of written BLIF texts, and writing with what the text means.
#![tactic(auto)]

mod laws;
mod writing;

pub use laws::{
    names_are_driven_once, true_rows_are_the_function, written_text_keeps_outputs,
    written_text_keeps_ports, written_text_means,
};
pub use writing::write;
