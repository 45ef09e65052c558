//! The parts that a content gives, before they are a circuit.

use crate::naming::PortLists;
use lnet_edge::Equation;

/// Ports and equations.
#[derive(Drop)]
pub struct Parts {
    /// The ports, without names or with them.
    pub ports: PortLists,
    /// The equations in the order of the gates.
    pub equations: Vec<Equation>,
}
