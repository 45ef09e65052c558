//! Which equations are plain: gates alone, each after those it uses.

ghost use Rattle.std.specs.Prelude.{◌≡◌, ◌&&◌, ◌↔◌, false, length, IsTrue};
ghost use Rattle.std.specs.List.{list_all};
ghost use Rattle.lnet_edge.specs.CircuitLists.{equation_view, equation_views};
ghost use Rattle.lnet_edge.specs.Drivers.{driver_at, place_in, KnowsEquations};
ghost use Rattle.lnet_edge.specs.Plain.{is_gate, is_before, is_plain_at, IsPlain};

use crate::circuit::{Equation, Rule};
use crate::drivers::{Drivers, place_of};

/// Whether each equation is a gate and stands after those whose wires it uses. Expected time is linear.
pub fn are_plain(drivers: &Drivers, equations: &[Equation]) -> bool
    requires { KnowsEquations drivers.now false (equation_views equations.now) (length equations.now) }
    ensures { IsTrue result ↔ IsPlain (equation_views equations.now) }
{
    for place in 0..equations.len() {
        if !stands_plain(drivers, &equations[place], place) {
            return false;
        }
    }
    true
}

/// Whether the equation at this place is a gate and stands after those whose wires it uses.
fn stands_plain(drivers: &Drivers, equation: &Equation, place: usize) -> bool
    ensures { result ≡ is_plain_at drivers.now (equation_view equation.now) place }
{
    is_gate_rule(&equation.rule, equation.operands.len()) && uses_before(drivers, equation, place)
}

fn uses_before(drivers: &Drivers, equation: &Equation, place: usize) -> bool
    ensures { result ≡ list_all (λ r. is_before (place_in (driver_at drivers.now r.wire.0)) place) equation.now.operands.items }
{
    let operands = equation.operands.as_slice();
    operands
        .iter()
        .all(|operand| stands_before(drivers, operand.wire.0, place))
}

/// Whether no equation at this place or behind it drives the wire.
fn stands_before(drivers: &Drivers, wire: u32, place: usize) -> bool
    ensures { result ≡ is_before (place_in (driver_at drivers.now wire)) place }
{
    match place_of(drivers, wire) {
        Some(driver) => driver < place,
        None => true,
    }
}

/// Whether the rule on so many operands is a gate.
fn is_gate_rule(rule: &Rule, operands: usize) -> bool
    ensures { result ≡ is_gate rule.now operands }
{
    match rule {
        Rule::And(_) | Rule::Xor(_) => operands == 2,
        Rule::Maj(_) | Rule::Lut(_) => true,
        Rule::Or(_) | Rule::Cover(_) => false,
    }
}
