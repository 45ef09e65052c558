//! The words that a script knows.

ghost use Rattle.lnet_script.specs.Given.{Gives};
ghost use Rattle.lnet_script.specs.Keywords.{verb_of, kind_of, read_format_of, write_format_of, view_of, query_of};

use crate::command::{Query, ReadFormat, WriteFormat};
use crate::refusal::Refusal;
use lnet_gates::Kind;
use lnet_model::ViewSpec;

/// The first word of a command.
#[derive(Clone, Copy)]
pub(crate) enum Verb {
    Read,
    Write,
    Gen,
    View,
    Drop,
    Ask,
    Print,
    Stats,
    Simulate,
    Merge,
    Convert,
}

/// The command that the word begins.
pub(crate) fn verb_named(word: &[u8]) -> Result<Verb, Refusal>
    ensures { Gives (λ v. v) result (verb_of word.now) }
{
    match word {
        b"read" => Ok(Verb::Read),
        b"write" => Ok(Verb::Write),
        b"gen" => Ok(Verb::Gen),
        b"view" => Ok(Verb::View),
        b"drop" => Ok(Verb::Drop),
        b"ask" => Ok(Verb::Ask),
        b"print" => Ok(Verb::Print),
        b"stats" => Ok(Verb::Stats),
        b"simulate" => Ok(Verb::Simulate),
        b"merge" => Ok(Verb::Merge),
        b"convert" => Ok(Verb::Convert),
        _ => Err(Refusal::NoCommand),
    }
}

/// The kind of networks that the word names.
pub(crate) fn kind_named(word: &[u8]) -> Result<Kind, Refusal>
    ensures { Gives (λ k. k) result (kind_of word.now) }
{
    match word {
        b"aig" => Ok(Kind::Aig),
        b"xag" => Ok(Kind::Xag),
        b"mig" => Ok(Kind::Mig),
        b"klut" => Ok(Kind::Klut),
        _ => Err(Refusal::NoCommand),
    }
}

/// The format behind `read`.
pub(crate) fn read_format_named(word: &[u8]) -> Result<ReadFormat, Refusal>
    ensures { Gives (λ f. f) result (read_format_of word.now) }
{
    match word {
        b"aiger" => Ok(ReadFormat::Aiger),
        b"blif" => Ok(ReadFormat::Blif),
        b"bench" => Ok(ReadFormat::Bench),
        _ => Err(Refusal::NoCommand),
    }
}

/// The format behind `write`.
pub(crate) fn write_format_named(word: &[u8]) -> Result<WriteFormat, Refusal>
    ensures { Gives (λ f. f) result (write_format_of word.now) }
{
    match word {
        b"aag" => Ok(WriteFormat::Aag),
        b"aig" => Ok(WriteFormat::Aig),
        b"blif" => Ok(WriteFormat::Blif),
        b"bench" => Ok(WriteFormat::Bench),
        _ => Err(Refusal::NoCommand),
    }
}

/// The view of one word that is attached.
pub(crate) fn view_named(word: &[u8]) -> Result<ViewSpec, Refusal>
    ensures { Gives (λ v. v) result (view_of word.now) }
{
    match word {
        b"depth" => Ok(ViewSpec::Depth),
        _ => Err(Refusal::NoCommand),
    }
}

/// What a view is asked for.
pub(crate) fn query_named(word: &[u8]) -> Result<Query, Refusal>
    ensures { Gives (λ k. k) result (query_of word.now) }
{
    match word {
        b"level" => Ok(Query::Level),
        _ => Err(Refusal::NoCommand),
    }
}
