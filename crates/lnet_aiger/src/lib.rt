//! Circuits read from and written to the AIGER format, in its ASCII and its binary form.
#![tactic(auto)]

mod body;
mod delta;
mod fault;
mod header;
mod laws;
mod naming;
mod numbering;
mod parts;
mod reading;
mod symbol;
mod writing;

pub use laws::{one_meaning, texts_keep_outputs};
pub use reading::read;
pub use writing::{write_ascii, write_binary};
