//! Truth tables of up to ten variables, and recipes that compute them step by step.
#![tactic(auto)]

mod cofactors;
mod digits;
mod expansion;
mod logic;
mod masks;
mod recipe;
mod reorder;
mod rows;
mod step;
mod swaps;
mod table;
mod words;

pub use digits::put_digits;
pub use expansion::shannon;
pub use masks::{first_rows, high_rows, low_rows};
pub use recipe::{Recipe, RecipeFull};
pub use step::{Lit, Step, StepOp};
pub use swaps::swap_word;
pub use table::Table;
pub use words::cofactor_word;
