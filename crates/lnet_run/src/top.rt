//! The top call: the words of the command line, the script, and its run.

ghost use Rattle.std.specs.Prelude.{◌≡◌, ◌≤◌, ◌⊎◌, List, ℕ, Option, Some, None, map, string_bytes, IfOk, MatchOption};
ghost use Rattle.lnet_edge.specs.Circuits.{CircuitValue};
ghost use Rattle.lnet_session.specs.Sessions.{AreDetachedBy, IsGoodBy, first_state_by, state_by};
ghost use Rattle.lnet_session.specs.Steps.{Grows, GrowsByPart, World, world_of};
ghost use Rattle.lnet_run.specs.Ends.{EndsAs, IsOutcome, IsRefusedSomehow, IsFaulty, IsUnhindered, IsOrMemory, script_of, refusal_text, status_number, RefusesAs};

use crate::running::{RunEnd, run_commands};
use lnet_edge::{Files, PutError, Sink};
use lnet_script::{ScriptError, parse_script};
use lnet_session::{Kit, Session};
use lnet_store::View;
use std::alloc::{AllocError, Global};

/// Why nothing was run.
#[derive(Clone, Copy, Debug, PartialEq, Eq)]
pub enum Refusal {
    /// There isn't exactly one word behind the program's name, or it begins with `-`.
    Words,
    /// The script is not in the grammar; its bad line, or 0 where it is too long.
    Script(u32),
}

/// How the whole run ended.
#[derive(Clone, Copy, Debug, PartialEq, Eq)]
pub enum Ending {
    /// The script was accepted, and its commands ran to this end.
    Ran(RunEnd),
    /// The words or the script were refused, and the line that says so was put.
    Refused(Refusal),
    /// The line of the refusal could not be put.
    NotPut(Refusal),
    /// Memory ran out before the first command.
    NoMemory,
}

/// What a run leaves.
#[derive(Drop)]
pub struct Outcome {
    /// 0 all met, 1 some unmet, 2 refused, 3 a fetch, store or put failed, 4 want of memory.
    pub status: u8,
    /// The session as the run left it.
    pub session: Session,
}

/// The script of the command line: its one word, unless that begins with a dash.
fn script_word(words: &[String]) -> Option<&str>
    ensures { MatchOption result (script_of (map string_bytes words.now) ≡ None) (λ s. script_of (map string_bytes words.now) ≡ Some s.now) }
{
    match words {
        [_, script] => {
            let script = script.as_str();
            match script.as_bytes() {
                [b'-', ..] => None,
                _ => Some(script),
            }
        }
        _ => None,
    }
}

/// The line of a refusal.
fn text_of_refusal(alloc: Global, refusal: Refusal) -> Result<String, AllocError>
    ensures { IfOk result (λ text. string_bytes text ≡ refusal_text refusal) }
{
    match refusal {
        Refusal::Words => format!(in alloc; "error words\n"),
        Refusal::Script(line) => format!(in alloc; "error script {line}\n"),
    }
}

/// Puts the line of a refusal.
fn refuse<S: Sink>(alloc: Global, refusal: Refusal, out: &mut S) -> Ending
    ensures { RefusesAs refusal result (S.written out.old) (S.written out.new) (S.faults out.old) (S.faults out.new) }
{
    let Ok(text) = text_of_refusal(alloc, refusal) else {
        return Ending::NoMemory;
    };
    match out.put(text.as_bytes()) {
        Ok(()) => Ending::Refused(refusal),
        Err(PutError::Failed) => Ending::NotPut(refusal),
        Err(PutError::NoMemory) => Ending::NoMemory,
    }
}

/// Runs the script of the words, or refuses them.
fn run_words<F: Files, S: Sink>(
    alloc: Global,
    words: &[String],
    session: &mut Session,
    files: &mut F,
    out: &mut S,
) -> Ending
    requires next { (state_by ⟦<dyn View as View>⟧ session.old).roll.next ≤ 1 }
    requires good { IsGoodBy ⟦<dyn View as View>⟧ session.old }
    ensures good { IsGoodBy ⟦<dyn View as View>⟧ session.new }
    ensures ends { (origin : Option CircuitValue) × EndsAs (map string_bytes words.now) result
        (world_of F.Files S.Sink (state_by ⟦<dyn View as View>⟧ session.old) files.old out.old)
        (world_of F.Files S.Sink (state_by ⟦<dyn View as View>⟧ session.new) files.new out.new) origin }
{
    let Some(script) = script_word(words) else {
        return refuse(alloc, Refusal::Words, out);
    };
    match parse_script(alloc, script.as_bytes()) {
        Ok(commands) => Ending::Ran(run_commands(alloc, session, &commands, files, out)),
        Err(ScriptError::BadLine(line)) => refuse(alloc, Refusal::Script(line), out),
        Err(ScriptError::NoMemory) => Ending::NoMemory,
    }
}

/// The status of an ending.
fn status_of(ending: Ending) -> u8
    ensures { result ≡ status_number ending }
{
    match ending {
        Ending::Ran(RunEnd::AllMet) => 0,
        Ending::Ran(RunEnd::SomeUnmet) => 1,
        Ending::Refused(_) => 2,
        Ending::Ran(RunEnd::Fault) | Ending::NotPut(_) => 3,
        Ending::Ran(RunEnd::NoMemory) | Ending::NoMemory => 4,
    }
}

/// Runs the script that the words give, over these files and this sink, from a session with this kit.
///
/// `words[0]` is the program's name; there must be one word more, the script, which may not begin with `-`. The order
/// is: words, grammar, then the commands in order. A refusal puts the one line `error words` or `error script LINE`,
/// and no command runs. A failed fetch, store or put ends the run, with status 3, as does want of memory, with status 4.
/// Where the status is another than 3 no call failed. Time is linear in the script and in the files that it names.
pub fn run<F: Files, S: Sink>(
    alloc: Global,
    words: &[String],
    files: &mut F,
    out: &mut S,
    kit: Kit,
) -> Outcome
    requires detached { AreDetachedBy ⟦<dyn View as View>⟧ kit }
    // How the run went, what it put, and that each output of the network that it leaves computes the same function as
    // in the circuit last read or generated.
    ensures outcome { IsOutcome (map string_bytes words.now) result.status
        (world_of F.Files S.Sink (first_state_by ⟦<dyn View as View>⟧ kit) files.old out.old)
        (world_of F.Files S.Sink (state_by ⟦<dyn View as View>⟧ result.session) files.new out.new) }

    // The network that it leaves has no cycle, and each live view answers as computed from it.
    ensures good { IsGoodBy ⟦<dyn View as View>⟧ result.session }

    // When a refusal, a fault and success come. A run that ends otherwise than by a fault met with none.
    ensures refused { result.status ≡ 2 → IsRefusedSomehow (map string_bytes words.now) }
    ensures refuses { IsRefusedSomehow (map string_bytes words.now) → (result.status ≡ 2) ⊎ IsOrMemory 3 result.status }
    ensures fault { result.status ≡ 3 → IsFaulty (map string_bytes words.now)
        (world_of F.Files S.Sink (first_state_by ⟦<dyn View as View>⟧ kit) files.old out.old)
        (world_of F.Files S.Sink (state_by ⟦<dyn View as View>⟧ result.session) files.new out.new) }
    ensures quiet { (result.status ≡ 3 → ⊥) → (F.faults files.new ≡ F.faults files.old) × (F.last files.new ≡ F.last files.old) × (S.faults out.new ≡ S.faults out.old) }
    ensures complete { IsUnhindered (map string_bytes words.now)
        (world_of F.Files S.Sink (first_state_by ⟦<dyn View as View>⟧ kit) files.old out.old)
        (world_of F.Files S.Sink (state_by ⟦<dyn View as View>⟧ result.session) files.new out.new) → IsOrMemory 0 result.status }
{
    let mut session = Session::new(alloc, kit);
    let ending = run_words(alloc, words, &mut session, files, out);
    Outcome {
        status: status_of(ending),
        session,
    }
}
