//! Which equation drives a wire.

ghost use Rattle.std.specs.Prelude.{◌≡◌, ℕ, nat_eq, IfOk};
ghost use Rattle.std.specs.HashMap.{get};
ghost use Rattle.lnet_edge.specs.CircuitLists.{equation_views};
ghost use Rattle.lnet_order.specs.Orders.{place_from};

use lnet_edge::Equation;
use std::alloc::{AllocError, Global};
use std::collections::HashMap;

/// From each wire that an equation drives: the equation's place.
pub(crate) type Places = HashMap<u32, usize>;

/// The places of the equations, by the wires that they drive. Expected time is linear.
pub(crate) fn places_of(alloc: Global, equations: &[Equation]) -> Result<Places, AllocError>
    ensures { IfOk result (λ m. (w : ℕ) → get nat_eq m w ≡ place_from 0 (equation_views equations.now) w) }
{
    let mut places = HashMap::new(alloc);
    for (place, equation) in equations.iter().enumerate() {
        places.insert(equation.target.0, place)?;
    }
    Ok(places)
}
