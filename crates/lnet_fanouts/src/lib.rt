//! The fanout view: for each node of a network the slots that name it, in order, kept event by event.
#![tactic(auto)]

mod linking;
mod live;
mod pairs;
mod view;

pub use view::FanoutView;
