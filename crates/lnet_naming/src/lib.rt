//! The names of ports and gates in written BLIF and BENCH texts.
#![tactic(auto)]

mod kept;
mod plain;
mod settling;

pub use settling::{Names, settled_names};
