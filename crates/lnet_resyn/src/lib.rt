//! Resynthesis procedures, and stored closures that keep to them.
#![tactic(auto)]

mod classes;
mod majority;
mod plain;
mod proposal;
pub mod resyn;

pub use classes::{NpnCache, npn_proposal};
pub use majority::majority_proposal;
pub use plain::{factor_proposal, shannon_proposal};
pub use proposal::{Law, Proposal};
