//! The store of a network's nodes, readers of it that count, and the trait of the views that are told its changes.
#![tactic(auto)]

mod adding;
mod changing;
mod counting;
mod linking;
mod look;
mod reaching;
mod slots;
mod store;
mod view;

pub use lnet_model::{Cut, CutRule, Event, ViewKind, ViewSpec};
pub use look::{Look, Parents, Visits};
pub use slots::NUMBER_LIMIT;
pub use store::{AddError, Store};
pub use view::View;
