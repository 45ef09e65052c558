//! One command of a script.

ghost use Rattle.std.specs.Prelude.{◌≡◌, ◌<◌, ◌≤◌, ◌+◌, ◌-◌, ◌^◌, Option, IfOk, OnErr, IsErrOf};
ghost use Rattle.lnet_edge.specs.Circuits.{CircuitValue};
ghost use Rattle.lnet_edge.specs.Outside.{one_more};
ghost use Rattle.lnet_session.specs.Calls.{MakesCall, at_fault, own_call};
ghost use Rattle.lnet_session.specs.Effects.{Effect};
ghost use Rattle.lnet_session.specs.Sessions.{IsGoodBy, state_by};
ghost use Rattle.lnet_session.specs.Steps.{IsCommand, KeepsOutputs, Steps, World, end_of, world_of};

use crate::session::{Session, Stop};
use lnet_edge::{Files, PutError, Sink};
use lnet_gates::Node;
use lnet_replies::{Reply, Unmet, text_of_reply};
use lnet_script::Command;
use lnet_store::View;
use std::alloc::Global;

/// How a command ended.
#[derive(Clone, Copy, Debug, PartialEq, Eq)]
pub enum StepEnd {
    /// It was met, and its text was put.
    Met,
    /// A cause stood in its way, and the line that names it was put.
    Unmet(Unmet),
    /// A fetch, a store or a put failed.
    Fault,
    /// Memory ran out.
    NoMemory,
}

impl Session {
    /// What the command does before its text is put, and what it answers.
    #[tactic(auto, using(crate::proofs::Unfailed::no_fault))]
    fn effect<F: Files>(
        &mut self,
        alloc: Global,
        command: &Command,
        files: &mut F,
    ) -> Result<Reply, Stop>
        requires command { IsCommand command.now }
        requires next { (state_by ⟦<dyn View as View>⟧ self.old).roll.next < 2 ^ 32 - 1 }
        requires good { IsGoodBy ⟦<dyn View as View>⟧ self.old }
        ensures effect { IfOk result (λ answer. (source : Option CircuitValue) × Effect (state_by ⟦<dyn View as View>⟧ self.old) (F.contents files.old) command.now answer source (state_by ⟦<dyn View as View>⟧ self.new) (F.contents files.new)) }
        ensures state { OnErr result (state_by ⟦<dyn View as View>⟧ self.new ≡ state_by ⟦<dyn View as View>⟧ self.old) }
        ensures contents { OnErr result (F.contents files.new ≡ F.contents files.old) }
        ensures allowed { IsErrOf result Stop.Fault → MakesCall command.now (state_by ⟦<dyn View as View>⟧ self.old) }
        ensures faults { F.faults files.new ≡ at_fault result (one_more (F.faults files.old)) (F.faults files.old) }
        ensures last { F.last files.new ≡ at_fault result (own_call command.now) (F.last files.old) }
        ensures good { IsGoodBy ⟦<dyn View as View>⟧ self.new }
    {
        match command {
            Command::Read(format, name, kind) => {
                self.read_file(alloc, *format, name, *kind, files)
            }
            Command::Write(format, name) => self.write_file(alloc, *format, name, files),
            Command::Gen(kind, sizes) => self.generate(alloc, *kind, *sizes),
            Command::View(spec) => self.view(*spec),
            Command::Drop(number) => self.put_back(*number),
            Command::Ask(number, _, node) => Ok(self.ask_level(*number, Node(*node))),
            Command::Print => self.print(alloc),
            Command::Stats => self.stats(),
            Command::Simulate(bits) => self.simulate(alloc, bits),
            Command::Merge(n, s) => self.merge(alloc, Node(*n), *s),
            Command::Convert(kind) => self.convert(alloc, *kind),
        }
    }

    /// Runs one command and puts its text in one piece, after the command's effect.
    ///
    /// The index counts the commands of the script from 1 and stands in the line of an unmet command.
    /// After `Unmet` the session and the files' contents are as before. After `Fault` of a fetch or a store they are
    /// as before too; after `Fault` of the put the command's effect stands. After `NoMemory` they are as before, or
    /// the command's whole effect stands; nothing was put. At `Fault` one more fault is counted, of the files or of the
    /// sink; at any other end no call failed.
    #[tactic(auto, using(crate::proofs::Keeping::effect_keeps, crate::proofs::Keeping::same_keeps, crate::proofs::Numbers::effect_next))]
    pub fn step<F: Files, S: Sink>(
        &mut self,
        alloc: Global,
        command: &Command,
        index: u32,
        files: &mut F,
        out: &mut S,
    ) -> StepEnd
        requires command { IsCommand command.now }
        requires next { (state_by ⟦<dyn View as View>⟧ self.old).roll.next < 2 ^ 32 - 1 }
        requires good { IsGoodBy ⟦<dyn View as View>⟧ self.old }
        ensures step { Steps command.now index result
            (world_of F.Files S.Sink (state_by ⟦<dyn View as View>⟧ self.old) files.old out.old)
            (world_of F.Files S.Sink (state_by ⟦<dyn View as View>⟧ self.new) files.new out.new) }
        ensures kept { KeepsOutputs command.now (state_by ⟦<dyn View as View>⟧ self.old) (state_by ⟦<dyn View as View>⟧ self.new) }
        ensures numbers { (state_by ⟦<dyn View as View>⟧ self.new).roll.next ≤ (state_by ⟦<dyn View as View>⟧ self.old).roll.next + 1 }
        ensures good { IsGoodBy ⟦<dyn View as View>⟧ self.new }
    {
        let answer = match self.effect(alloc, command, files) {
            Ok(answer) => answer,
            Err(Stop::Fault) => return StepEnd::Fault,
            Err(Stop::NoMemory) => return StepEnd::NoMemory,
        };
        let end = end_of(&answer);
        let Ok(text) = text_of_reply(alloc, index, answer) else {
            return StepEnd::NoMemory;
        };
        match out.put(text.as_bytes()) {
            Ok(()) => end,
            Err(PutError::Failed) => StepEnd::Fault,
            Err(PutError::NoMemory) => StepEnd::NoMemory,
        }
    }
}

/// How a command ends whose text was put.
fn end_of(answer: &Reply) -> StepEnd
    ensures { result ≡ end_of answer.now }
{
    match answer {
        Reply::Unmet(cause) => StepEnd::Unmet(*cause),
        _ => StepEnd::Met,
    }
}
