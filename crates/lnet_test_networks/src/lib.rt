//! The tests of the crates of networks: each public call once, and worked examples.
#![tactic(auto)]

#[cfg(test)]
mod anys;
#[cfg(test)]
mod networks;
#[cfg(test)]
mod signals;
#[cfg(test)]
mod simulated;
#[cfg(test)]
mod viewed;
