//! The words of a piece, read as a command.

ghost use Rattle.std.specs.Prelude.{◌≡◌, ◌∷◌};
ghost use Rattle.lnet_script.specs.Given.{Gives};
ghost use Rattle.lnet_script.specs.Pieces.{words_of};
ghost use Rattle.lnet_script.specs.Reading.{next_of, no_word, one_word, two_words, three_words, five_words, read_of, write_of, generate_of, attach_of, drop_of, ask_of, simulate_of, merge_of, convert_of, alone_of, command_of};

use crate::command::{Command, Generation};
use crate::keywords::{
    Verb, kind_named, query_named, read_format_named, verb_named, view_named, write_format_named,
};
use crate::refusal::Refusal;
use crate::words::{count, long_number, name, next_word, number, signal};
use std::alloc::Global;

/// The next word, and what stands behind it.
fn due(bytes: &[u8]) -> Result<(&[u8], &[u8]), Refusal>
    ensures { Gives (λ x. (x.0.now, words_of x.1.now)) result (next_of (words_of bytes.now)) }
{
    match next_word(bytes) {
        Some(next) => Ok(next),
        None => Err(Refusal::NoCommand),
    }
}

/// That there are no words.
fn none_due(bytes: &[u8]) -> Result<(), Refusal>
    ensures { Gives (λ x. x) result (no_word (words_of bytes.now)) }
{
    match next_word(bytes) {
        Some(_) => Err(Refusal::NoCommand),
        None => Ok(()),
    }
}

/// The one word that there is.
fn one_due(bytes: &[u8]) -> Result<&[u8], Refusal>
    ensures { Gives (λ x. x.now) result (one_word (words_of bytes.now)) }
{
    let (only, rest) = due(bytes)?;
    none_due(rest)?;
    Ok(only)
}

/// The two words that there are.
fn two_due(bytes: &[u8]) -> Result<(&[u8], &[u8]), Refusal>
    ensures { Gives (λ x. (x.0.now, x.1.now)) result (two_words (words_of bytes.now)) }
{
    let (first, rest) = due(bytes)?;
    let second = one_due(rest)?;
    Ok((first, second))
}

/// The three words that there are.
fn three_due(bytes: &[u8]) -> Result<(&[u8], &[u8], &[u8]), Refusal>
    ensures { Gives (λ x. (x.0.now, x.1.now, x.2.now)) result (three_words (words_of bytes.now)) }
{
    let (first, rest) = due(bytes)?;
    let (second, third) = two_due(rest)?;
    Ok((first, second, third))
}

/// The five words that there are.
fn five_due(bytes: &[u8]) -> Result<(&[u8], &[u8], &[u8], &[u8], &[u8]), Refusal>
    ensures { Gives (λ x. (x.0.now, x.1.now, x.2.now, x.3.now, x.4.now)) result (five_words (words_of bytes.now)) }
{
    let (first, rest) = due(bytes)?;
    let (second, rest) = due(rest)?;
    let (third, fourth, fifth) = three_due(rest)?;
    Ok((first, second, third, fourth, fifth))
}

/// The words behind `read`: a format, a name and a kind.
#[tactic(auto, unfolding(crate::specs::Reading::read_of))]
fn read(alloc: Global, bytes: &[u8]) -> Result<Command, Refusal>
    ensures { Gives (λ c. c) result (read_of (words_of bytes.now)) }
{
    let (format, file, kind) = three_due(bytes)?;
    let format = read_format_named(format)?;
    let kind = kind_named(kind)?;
    Ok(Command::Read(format, name(alloc, file)?, kind))
}

/// The words behind `write`: a format and a name.
#[tactic(auto, unfolding(crate::specs::Reading::write_of))]
fn write(alloc: Global, bytes: &[u8]) -> Result<Command, Refusal>
    ensures { Gives (λ c. c) result (write_of (words_of bytes.now)) }
{
    let (format, file) = two_due(bytes)?;
    let format = write_format_named(format)?;
    Ok(Command::Write(format, name(alloc, file)?))
}

/// The words behind `gen`: a kind, the counts of inputs, gates and outputs, and a start.
#[tactic(auto, unfolding(crate::specs::Reading::generate_of))]
fn generate(bytes: &[u8]) -> Result<Command, Refusal>
    ensures { Gives (λ c. c) result (generate_of (words_of bytes.now)) }
{
    let (kind, inputs, gates, outputs, start) = five_due(bytes)?;
    let kind = kind_named(kind)?;
    let inputs = count(inputs, 1, 4096)?;
    let gates = count(gates, 0, 262_144)?;
    let outputs = count(outputs, 1, 4096)?;
    let start = long_number(start)?;
    Ok(Command::Gen(
        kind,
        Generation {
            inputs,
            gates,
            outputs,
            start,
        },
    ))
}

/// The word behind `view`: which view.
#[tactic(auto, unfolding(crate::specs::Reading::attach_of))]
fn attach(bytes: &[u8]) -> Result<Command, Refusal>
    ensures { Gives (λ c. c) result (attach_of (words_of bytes.now)) }
{
    Ok(Command::View(view_named(one_due(bytes)?)?))
}

/// The word behind `drop`: a view's number.
#[tactic(auto, unfolding(crate::specs::Reading::drop_of))]
fn detach(bytes: &[u8]) -> Result<Command, Refusal>
    ensures { Gives (λ c. c) result (drop_of (words_of bytes.now)) }
{
    Ok(Command::Drop(number(one_due(bytes)?)?))
}

/// The words behind `ask`: a view's number, a question and a node.
#[tactic(auto, unfolding(crate::specs::Reading::ask_of))]
fn ask(bytes: &[u8]) -> Result<Command, Refusal>
    ensures { Gives (λ c. c) result (ask_of (words_of bytes.now)) }
{
    let (view, query, node) = three_due(bytes)?;
    let view = number(view)?;
    let query = query_named(query)?;
    Ok(Command::Ask(view, query, number(node)?))
}

/// The word behind `simulate`: the values of inputs.
#[tactic(auto, unfolding(crate::specs::Reading::simulate_of))]
fn simulate(alloc: Global, bytes: &[u8]) -> Result<Command, Refusal>
    ensures { Gives (λ c. c) result (simulate_of (words_of bytes.now)) }
{
    Ok(Command::Simulate(name(alloc, one_due(bytes)?)?))
}

/// The words behind `merge`: a node and a signal.
#[tactic(auto, unfolding(crate::specs::Reading::merge_of))]
fn merge(bytes: &[u8]) -> Result<Command, Refusal>
    ensures { Gives (λ c. c) result (merge_of (words_of bytes.now)) }
{
    let (node, by) = two_due(bytes)?;
    let node = number(node)?;
    Ok(Command::Merge(node, signal(by)?))
}

/// The word behind `convert`: a kind.
#[tactic(auto, unfolding(crate::specs::Reading::convert_of))]
fn convert(bytes: &[u8]) -> Result<Command, Refusal>
    ensures { Gives (λ c. c) result (convert_of (words_of bytes.now)) }
{
    Ok(Command::Convert(kind_named(one_due(bytes)?)?))
}

/// A command without further words.
fn alone(command: Command, bytes: &[u8]) -> Result<Command, Refusal>
    ensures { Gives (λ c. c) result (alone_of command (words_of bytes.now)) }
{
    none_due(bytes)?;
    Ok(command)
}

/// The command that the first word and those behind it spell.
#[tactic(auto, unfolding(crate::specs::Reading::command_of))]
pub(crate) fn command(alloc: Global, first: &[u8], rest: &[u8]) -> Result<Command, Refusal>
    ensures { Gives (λ c. c) result (command_of (first.now ∷ words_of rest.now)) }
{
    match verb_named(first)? {
        Verb::Read => read(alloc, rest),
        Verb::Write => write(alloc, rest),
        Verb::Gen => generate(rest),
        Verb::View => attach(rest),
        Verb::Drop => detach(rest),
        Verb::Ask => ask(rest),
        Verb::Print => alone(Command::Print, rest),
        Verb::Stats => alone(Command::Stats, rest),
        Verb::Simulate => simulate(alloc, rest),
        Verb::Merge => merge(rest),
        Verb::Convert => convert(rest),
    }
}
