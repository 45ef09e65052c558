//! The cuts of each node of a logic network, as the values of a rule.
#![tactic(auto)]

mod choosing;
mod combining;
mod laws;
mod leaves;
mod list;
mod rule;
mod tabling;
mod view;

pub use laws::cuts_have_their_values;
pub use list::{CutList, StoredCut};
pub use rule::CutsByRule;
pub use view::CutView;
