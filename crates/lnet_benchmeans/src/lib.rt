//! What written BENCH texts mean.
#![tactic(auto)]

mod laws;

pub use laws::{
    names_are_driven_once, ordered_statements_keep_the_rules, wires_are_driven_once,
    written_tables_are_ordered, written_words_are_ordered,
};
