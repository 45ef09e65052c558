//! A hash table from the keys of gates to their nodes, which takes no memory once it has room.
#![tactic(auto)]

mod chains;
mod hashing;
mod table;

pub use table::Strash;
