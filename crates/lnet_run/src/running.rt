//! The commands of a script one after the other.

ghost use Rattle.std.specs.Prelude.{◌≤◌, ◌<◌, ◌+◌, ◌-◌, ◌^◌, All, Option, length};
ghost use Rattle.lnet_edge.specs.Circuits.{CircuitValue};
ghost use Rattle.lnet_session.specs.Sessions.{IsGoodBy, state_by};
ghost use Rattle.lnet_session.specs.Steps.{IsCommand, World, world_of};
ghost use Rattle.lnet_run.specs.Runs.{RunsTo};
ghost use Rattle.lnet_script.specs.Scripts.{script_limit};

use lnet_edge::{Files, Sink};
use lnet_script::Command;
use lnet_session::{Session, StepEnd};
use lnet_store::View;
use std::alloc::Global;

/// How a run of commands ended.
#[derive(Clone, Copy, Debug, PartialEq, Eq)]
pub enum RunEnd {
    /// Every command was met.
    AllMet,
    /// Every command was run, and at least one was not met.
    SomeUnmet,
    /// A fetch, a store or a put failed; the run ended there.
    Fault,
    /// Memory ran out; the run ended there.
    NoMemory,
}

/// Runs the commands in order, up to a fault or want of memory.
pub fn run_commands<F: Files, S: Sink>(
    alloc: Global,
    session: &mut Session,
    commands: &[Command],
    files: &mut F,
    out: &mut S,
) -> RunEnd
    requires few { length commands.now ≤ script_limit }
    requires commands { All IsCommand commands.now }
    requires next { (state_by ⟦<dyn View as View>⟧ session.old).roll.next + length commands.now < 2 ^ 32 - 1 }
    requires good { IsGoodBy ⟦<dyn View as View>⟧ session.old }
    ensures good { IsGoodBy ⟦<dyn View as View>⟧ session.new }
    ensures runs { (start : Option CircuitValue) → (origin : Option CircuitValue) × RunsTo commands.now result start
        (world_of F.Files S.Sink (state_by ⟦<dyn View as View>⟧ session.old) files.old out.old)
        (world_of F.Files S.Sink (state_by ⟦<dyn View as View>⟧ session.new) files.new out.new) origin }
{
    let mut unmet = false;
    for (index, command) in commands.iter().enumerate() {
        match session.step(alloc, command, index as u32 + 1, files, out) {
            StepEnd::Met => {}
            StepEnd::Unmet(_) => unmet = true,
            StepEnd::Fault => return RunEnd::Fault,
            StepEnd::NoMemory => return RunEnd::NoMemory,
        }
    }
    if unmet {
        RunEnd::SomeUnmet
    } else {
        RunEnd::AllMet
    }
}
