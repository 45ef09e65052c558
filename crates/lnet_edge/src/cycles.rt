//! Whether wires depend on themselves: a depth-first search along operands, with a stack of its own.

ghost use Rattle.std.specs.Prelude.{◌≡◌, ◌≢◌, ◌+◌, ◌<◌, ◌≤◌, [], ℕ, true, false, length, slice_index, vec_len, IfOk};
ghost use Rattle.lnet_edge.specs.CircuitLists.{equation_view, equation_views};
ghost use Rattle.lnet_edge.specs.Wires.{operand_wires, ComesBack};
ghost use Rattle.lnet_edge.specs.Drivers.{KnowsEquations};
ghost use Rattle.lnet_edge.specs.Searches.{progress_at, operands_at, step_at, IsStep, IsSearch, Advances, KeepsDone, KeepsMet};

use crate::circuit::Equation;
use crate::drivers::{Drivers, place_of};
use std::alloc::{AllocError, Global};

/// How far the search is with an equation.
#[derive(Clone, Copy)]
pub enum Progress {
    /// It was not met.
    New,
    /// It is on the path; so many of its operands, the first ones, are still to be followed.
    Open(usize),
    /// All that it depends on was followed.
    Done,
}

/// What the search does next with the last equation of its path.
#[derive(Clone, Copy)]
pub enum Step {
    /// Leaves the equation, which has no operand left to follow.
    Leave,
    /// Passes an operand whose driver is no equation, or one that is done; so many are left.
    Pass(usize),
    /// Enters the equation at this place, which drives the next operand and was not met.
    Enter(usize),
    /// Meets an equation of the path: its wire depends on itself.
    Cycle,
}

/// Whether some wire depends on itself.
pub fn is_cyclic(
    alloc: Global,
    drivers: &Drivers,
    equations: &[Equation],
) -> Result<bool, AllocError>
    requires { KnowsEquations drivers.now false (equation_views equations.now) (length equations.now) }
    ensures cyclic { IfOk result (λ r. r ≡ true → (w : ℕ) × ComesBack (equation_views equations.now) w) }
    ensures acyclic { IfOk result (λ r. r ≡ false → (w : ℕ) → ComesBack (equation_views equations.now) w → ⊥) }
{
    let mut progress = vec![in alloc; Progress::New; equations.len()]?;
    let mut path = Vec::new(alloc);
    for root in 0..equations.len() {
        if follow_from(drivers, equations, &mut progress, &mut path, root)? {
            return Ok(true);
        }
    }
    Ok(false)
}

/// Follows all that the equation at `root` depends on; whether that meets a cycle.
fn follow_from(
    drivers: &Drivers,
    equations: &[Equation],
    progress: &mut [Progress],
    path: &mut Vec<usize>,
    root: usize,
) -> Result<bool, AllocError>
    requires drivers { KnowsEquations drivers.now false (equation_views equations.now) (length equations.now) }
    requires search { IsSearch (equation_views equations.now) progress.old path.old.items }
    requires start { path.old.items ≡ [] }
    requires root { root < length equations.now }
    ensures cyclic { IfOk result (λ r. r ≡ true → (w : ℕ) × ComesBack (equation_views equations.now) w) }
    ensures search { IfOk result (λ r. r ≡ false → IsSearch (equation_views equations.now) progress.new path.new.items) }
    ensures end { IfOk result (λ r. r ≡ false → path.new.items ≡ []) }
    ensures done { IfOk result (λ r. r ≡ false → KeepsDone progress.old progress.new) }
    ensures root_done { IfOk result (λ r. r ≡ false → progress_at progress.new root ≡ Progress.Done) }
{
    match progress[root] {
        Progress::New => {
            path.push(root)?;
            progress[root] = Progress::Open(equations[root].operands.len());
            follow(drivers, equations, progress, path)
        }
        _ => Ok(false),
    }
}

/// Takes steps until the path is empty; whether they meet a cycle.
fn follow(
    drivers: &Drivers,
    equations: &[Equation],
    progress: &mut [Progress],
    path: &mut Vec<usize>,
) -> Result<bool, AllocError>
    requires drivers { KnowsEquations drivers.now false (equation_views equations.now) (length equations.now) }
    requires search { IsSearch (equation_views equations.now) progress.old path.old.items }
    ensures cyclic { IfOk result (λ r. r ≡ true → (w : ℕ) × ComesBack (equation_views equations.now) w) }
    ensures search { IfOk result (λ r. r ≡ false → IsSearch (equation_views equations.now) progress.new path.new.items) }
    ensures end { IfOk result (λ r. r ≡ false → path.new.items ≡ []) }
    ensures done { IfOk result (λ r. r ≡ false → KeepsDone progress.old progress.new) }
    ensures met { IfOk result (λ r. r ≡ false → KeepsMet progress.old progress.new) }
{
    while !path.is_empty() {
        if advance(drivers, equations, progress, path)? {
            return Ok(true);
        }
    }
    Ok(false)
}

/// Takes one step; whether it meets a cycle.
fn advance(
    drivers: &Drivers,
    equations: &[Equation],
    progress: &mut [Progress],
    path: &mut Vec<usize>,
) -> Result<bool, AllocError>
    requires drivers { KnowsEquations drivers.now false (equation_views equations.now) (length equations.now) }
    requires search { IsSearch (equation_views equations.now) progress.old path.old.items }
    requires some { 0 < length path.old.items }
    ensures cyclic { IfOk result (λ r. r ≡ true → (w : ℕ) × ComesBack (equation_views equations.now) w) }
    ensures advances { IfOk result (λ r. r ≡ false → Advances (equation_views equations.now) progress.old progress.new path.new.items) }
{
    let top = path[path.len() - 1];
    match next_step(drivers, equations, progress, top) {
        Step::Leave => {
            progress[top] = Progress::Done;
            path.pop();
            Ok(false)
        }
        Step::Pass(left) => {
            progress[top] = Progress::Open(left);
            Ok(false)
        }
        Step::Enter(next) => {
            path.push(next)?;
            progress[next] = Progress::Open(equations[next].operands.len());
            Ok(false)
        }
        Step::Cycle => Ok(true),
    }
}

/// What comes next with the open equation at `top`.
fn next_step(drivers: &Drivers, equations: &[Equation], progress: &[Progress], top: usize) -> Step
    requires drivers { KnowsEquations drivers.now false (equation_views equations.now) (length equations.now) }
    requires sized { length progress.now ≡ length equations.now }
    requires top { top < length equations.now }
    requires open { (left : ℕ) × (progress_at progress.now top ≡ Progress.Open left) × (left ≤ length (operands_at (equation_views equations.now) top)) }
    ensures { IsStep (equation_views equations.now) progress.now top result }
{
    let left = left_of(progress[top]);
    if left == 0 {
        return Step::Leave;
    }
    match place_of(drivers, operand_wire(&equations[top], left - 1)) {
        Some(next) => step_to(progress[next], next, left - 1),
        None => Step::Pass(left - 1),
    }
}

/// How many operands of an open equation are left.
fn left_of(progress: Progress) -> usize
    ensures { (left : ℕ) → progress ≡ Progress.Open left → result ≡ left }
{
    match progress {
        Progress::Open(left) => left,
        _ => 0,
    }
}

/// The wire of operand `i`, counted from 0.
fn operand_wire(equation: &Equation, i: usize) -> u32
    requires { i < length equation.now.operands.items }
    ensures { result ≡ slice_index (operand_wires (equation_view equation.now)) i }
{
    let operands = equation.operands.as_slice();
    operands[i].wire.0
}

/// What comes next where the next operand is driven by the equation at `next`, which is so far; `left` operands are left
/// behind it.
fn step_to(progress: Progress, next: usize, left: usize) -> Step
    ensures { result ≡ step_at progress next left }
{
    match progress {
        Progress::New => Step::Enter(next),
        Progress::Open(_) => Step::Cycle,
        Progress::Done => Step::Pass(left),
    }
}
