//! The tests of the crates of circuits, texts and formats: each public call once, and worked examples.
#![tactic(auto)]

#[cfg(test)]
mod aiger;
#[cfg(test)]
mod bench;
#[cfg(test)]
mod blif;
#[cfg(test)]
mod circuits;
#[cfg(test)]
mod converting;
#[cfg(test)]
mod generated;
#[cfg(test)]
mod names;
#[cfg(test)]
mod networks;
#[cfg(test)]
mod outside;
#[cfg(test)]
mod pieces;
#[cfg(test)]
mod rendering;
#[cfg(test)]
mod replies;
#[cfg(test)]
mod uses;
#[cfg(test)]
mod writing;
