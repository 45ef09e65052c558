//! The tests of the crates of truth tables, classes, covers and resynthesis: each public call once, and worked examples.
#![tactic(auto)]

#[cfg(test)]
mod classes;
#[cfg(test)]
mod closures;
#[cfg(test)]
mod covers;
#[cfg(test)]
mod forms;
#[cfg(test)]
mod laid;
#[cfg(test)]
mod numbers;
#[cfg(test)]
mod proposals;
#[cfg(test)]
mod recipes;
#[cfg(test)]
mod tables;
