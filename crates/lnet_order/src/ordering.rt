//! The order of building: a depth-first search along operands, with a stack of its own.

ghost use Rattle.std.specs.Prelude.{◌≡◌, ◌<◌, ◌-◌, ◌^◌, ◌++◌, [], ◌∷◌, ℕ, nat_eq, length, All, IfOk, OnOk, OnSome, slice_get, Some};
ghost use Rattle.std.specs.HashMap.{get};
ghost use Rattle.lnet_edge.specs.CircuitLists.{equation_view, equation_views};
ghost use Rattle.lnet_edge.specs.Wires.{operand_wires};
ghost use Rattle.lnet_order.specs.Orders.{place_from, order_of};
ghost use Rattle.lnet_order.specs.Paths.{AreWalksShort, taking, opened, IsMarked, AreWithin, Advances};

use crate::places::{Places, places_of};
use lnet_edge::{Circuit, Equation};
use std::alloc::{AllocError, Global};

/// An equation whose operands are being taken.
#[derive(Clone, Copy)]
pub(crate) struct Frame {
    /// The equation's place.
    pub(crate) place: usize,
    /// How many of its operands, the first ones, are taken.
    pub(crate) next: usize,
}

/// The places, in the circuit's list, of the equations that its outputs need, each once and after those of its operands: the
/// outputs in order, and for each equation its operands from the first to the last, then the equation itself.
///
/// `Err` exactly where memory ran out. Expected time is linear in the circuit. A depth-first search (R. Tarjan, "Depth-First
/// Search and Linear Graph Algorithms", 1972) with a stack of its own.
pub fn order(alloc: Global, circuit: &Circuit) -> Result<Vec<usize>, AllocError>
    ensures order { IfOk result (λ places. places.items ≡ order_of circuit.now) }
    ensures within { IfOk result (λ places. All (λ k. k < length circuit.now.equations) places.items) }
{
    let equations = circuit.equations();
    let places = places_of(alloc, equations)?;
    let mut marks = vec![in alloc; false; equations.len()]?;
    let mut path = Vec::new(alloc);
    let mut order = Vec::new(alloc);
    let outputs = circuit.outputs();
    for output in outputs {
        let wire = output.source.wire.0;
        take(&places, equations, &mut marks, &mut order, &mut path, wire)?;
    }
    Ok(order)
}

/// Takes the equations that a wire needs and that are not there yet.
fn take(
    places: &Places,
    equations: &[Equation],
    marks: &mut [bool],
    order: &mut Vec<usize>,
    path: &mut Vec<Frame>,
    wire: u32,
) -> Result<(), AllocError>
    requires places { (w : ℕ) → get nat_eq places.now w ≡ place_from 0 (equation_views equations.now) w }
    requires short { AreWalksShort (equation_views equations.now) }
    requires marked { IsMarked marks.old order.old.items (length equations.now) }
    requires start { path.old.items ≡ [] }
    ensures order { OnOk result (order.new.items ≡ taking (equation_views equations.now) order.old.items wire) }
    ensures marked { OnOk result (IsMarked marks.new order.new.items (length equations.now)) }
    ensures end { OnOk result (path.new.items ≡ []) }
{
    enter(places, marks, path, wire)?;
    while let Some(frame) = path.pop() {
        advance(places, equations, marks, order, path, frame)?;
    }
    Ok(())
}

/// Opens the equation that drives the wire, where there is one and it is not done.
fn enter(
    places: &Places,
    marks: &[bool],
    path: &mut Vec<Frame>,
    wire: u32,
) -> Result<(), AllocError>
    requires { (k : ℕ) → get nat_eq places.now wire ≡ Some k → k < length marks.now }
    ensures { OnOk result (path.new.items ≡ path.old.items ++ opened marks.now (get nat_eq places.now wire)) }
{
    match places.get(&wire) {
        Some(place) => open(marks, path, *place),
        None => Ok(()),
    }
}

/// Opens the equation at this place, where it is not done.
fn open(marks: &[bool], path: &mut Vec<Frame>, place: usize) -> Result<(), AllocError>
    requires { place < length marks.now }
    ensures { OnOk result (path.new.items ≡ path.old.items ++ opened marks.now (Some place)) }
{
    if marks[place] {
        return Ok(());
    }
    path.push(Frame { place, next: 0 })?;
    Ok(())
}

/// Takes the next operand of the frame's equation, or, where none is left, the equation itself.
fn advance(
    places: &Places,
    equations: &[Equation],
    marks: &mut [bool],
    order: &mut Vec<usize>,
    path: &mut Vec<Frame>,
    frame: Frame,
) -> Result<(), AllocError>
    requires places { (w : ℕ) → get nat_eq places.now w ≡ place_from 0 (equation_views equations.now) w }
    requires short { AreWalksShort (equation_views equations.now) }
    requires marked { IsMarked marks.old order.old.items (length equations.now) }
    requires within { AreWithin (length equations.now) path.old.items }
    requires place { frame.place < length equations.now }
    ensures advances { OnOk result (Advances (equation_views equations.now) order.old.items (path.old.items ++ frame ∷ []) order.new.items path.new.items) }
    ensures marked { OnOk result (IsMarked marks.new order.new.items (length equations.now)) }
    ensures within { OnOk result (AreWithin (length equations.now) path.new.items) }
{
    match operand_at(&equations[frame.place], frame.next) {
        Some(wire) => {
            path.push(Frame {
                place: frame.place,
                next: frame.next + 1,
            })?;
            enter(places, marks, path, wire)
        }
        None => {
            marks[frame.place] = true;
            order.push(frame.place)?;
            Ok(())
        }
    }
}

/// The wire of operand `i`, counted from 0; `None` exactly past the last.
fn operand_at(equation: &Equation, i: usize) -> Option<u32>
    ensures value { result ≡ slice_get (operand_wires (equation_view equation.now)) i }
    ensures more { OnSome result (i < 2 ^ 64 - 1) }
{
    let operands = equation.operands.as_slice();
    if i < operands.len() {
        Some(operands[i].wire.0)
    } else {
        None
    }
}
