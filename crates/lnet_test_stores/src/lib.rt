//! The tests of the crates of gates, stores and views: each public call once, and worked examples.
#![tactic(auto)]

#[cfg(test)]
mod cuts;
#[cfg(test)]
mod fanouts;
#[cfg(test)]
mod follows;
#[cfg(test)]
mod forms;
#[cfg(test)]
mod keys;
#[cfg(test)]
mod plans;
#[cfg(test)]
mod stores;
