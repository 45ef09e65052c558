//! What a command answers, and its text in the transcript.

ghost use Rattle.std.specs.Prelude.{◌≡◌, ◌++◌, ◌∷◌, [], codes, not, IfOk, string_bytes};
ghost use Rattle.std.specs.Fmt.{decimal};
ghost use Rattle.lnet_gates.specs.KindWords.{kind_word};
ghost use Rattle.lnet_replies.specs.Texts.{bit_text, bits_of, bits_word, cause_text, counts_text, fault_name, is_unmet, reply_text, view_word};

use lnet_edge::Fault;
use lnet_gates::Kind;
use lnet_model::ViewSpec;
use std::alloc::{AllocError, Global};

/// Why a command was not met. The session and the files are then as before.
#[derive(Clone, Copy, Debug, PartialEq, Eq)]
pub enum Unmet {
    /// No network is in place.
    NoNetwork,
    /// A read of a content that means no circuit: the line, counted from 1 with 0 for the whole content, and the rule
    /// that is broken there.
    Malformed(u32, Fault),
    /// A read of a content of more than 67,108,864 bytes.
    TooLong,
    /// A network that needs more than 1,048,576 numbers.
    Full,
    /// No live view of the needed kind has the number.
    NoView,
    /// No view of the kind is on the shelf.
    ShelfEmpty,
    /// The node isn't live.
    NoNode,
    /// The network is of another kind than the command takes.
    WrongKind,
    /// The signal depends on the gate.
    Cycle,
    /// The two differ; of the assignments of so many inputs under which they do, this is the least. Input `i` is bit `i`.
    Unequal { inputs: u32, assignment: u32 },
    /// The network has more than 16 inputs.
    TooWide,
    /// The word isn't one `0` or `1` for each input.
    BadBits,
}

/// A network's kind, and how many inputs, outputs and gates it has.
#[derive(Clone, Copy, Debug, PartialEq, Eq)]
pub struct Counts {
    /// Its kind.
    pub kind: Kind,
    /// How many inputs it has.
    pub inputs: u32,
    /// How many outputs it has.
    pub outputs: u32,
    /// How many gates it has.
    pub gates: u32,
}

/// What a command answers. It determines the text in the transcript and whether the command was met.
#[derive(Debug, Drop)]
pub enum Reply {
    /// A network with these counts was put in place.
    Network(Counts),
    /// The network was written, in so many bytes.
    Wrote(usize),
    /// A view was attached under this number, for this spec.
    Viewed { number: u32, spec: ViewSpec },
    /// The view with this number was put back.
    Dropped(u32),
    /// The node has this level.
    Level { node: u32, level: u32 },
    /// The lines of the network.
    Printed(String),
    /// The outputs have these values.
    Simulated(Vec<bool>),
    /// The gate gave way, and so many gates are left.
    Merged { node: u32, gates: u32 },
    /// The network's kind, counts and depth.
    Stats { counts: Counts, depth: u32 },
    /// The command was not met.
    Unmet(Unmet),
}

/// Whether the command was met.
pub fn is_met(reply: &Reply) -> bool
    ensures { result ≡ not (is_unmet reply.now) }
{
    match reply {
        Reply::Unmet(_) => false,
        _ => true,
    }
}

/// The word of a kind of networks.
fn kind_word(kind: Kind) -> &'static str
    ensures { result.now ≡ kind_word kind }
{
    match kind {
        Kind::Aig => "aig",
        Kind::Xag => "xag",
        Kind::Mig => "mig",
        Kind::Klut => "klut",
    }
}

/// The words of a view's spec.
fn view_words(alloc: Global, spec: ViewSpec) -> Result<String, AllocError>
    ensures { IfOk result (λ text. string_bytes text ≡ view_word spec) }
{
    match spec {
        ViewSpec::Depth => format!(in alloc; "depth"),
        ViewSpec::Fanout => format!(in alloc; "fanout"),
        ViewSpec::Cuts(rule) => {
            let size = rule.size;
            let limit = rule.limit;
            format!(in alloc; "cuts {size} {limit}")
        }
    }
}

/// The name of a fault.
fn fault_name(fault: Fault) -> &'static str
    ensures { result.now ≡ fault_name fault }
{
    match fault {
        Fault::Header => "Header",
        Fault::TooMany => "TooMany",
        Fault::Property => "Property",
        Fault::Sequential => "Sequential",
        Fault::Missing => "Missing",
        Fault::Syntax => "Syntax",
        Fault::Literal => "Literal",
        Fault::Delta => "Delta",
        Fault::Symbol => "Symbol",
        Fault::Cover => "Cover",
        Fault::Unsupported => "Unsupported",
        Fault::Undriven => "Undriven",
        Fault::Twice => "Twice",
        Fault::Cycle => "Cycle",
    }
}

/// The character of a value.
fn bit_text(bit: bool) -> &'static str
    ensures { result.now ≡ bit_text bit }
{
    if bit { "1" } else { "0" }
}

/// A character for each value, `-` for none.
fn bits_word(alloc: Global, bits: &[bool]) -> Result<String, AllocError>
    ensures { IfOk result (λ text. string_bytes text ≡ bits_word bits.now) }
{
    if bits.is_empty() {
        return format!(in alloc; "-");
    }
    let mut text = String::new(alloc);
    for bit in bits {
        text.push_str(bit_text(*bit))?;
    }
    Ok(text)
}

/// The values of so many inputs under an assignment: input `i` is bit `i`.
fn bits_of(alloc: Global, inputs: u32, assignment: u32) -> Result<Vec<bool>, AllocError>
    ensures { IfOk result (λ bits. bits.items ≡ bits_of inputs assignment) }
{
    let mut bits = Vec::new(alloc);
    let mut rest = assignment;
    for _place in 0..inputs {
        bits.push(rest % 2 == 1)?;
        rest /= 2;
    }
    Ok(bits)
}

/// The words of a cause.
fn cause_words(alloc: Global, cause: Unmet) -> Result<String, AllocError>
    ensures { IfOk result (λ text. string_bytes text ≡ cause_text cause) }
{
    match cause {
        Unmet::NoNetwork => format!(in alloc; "NoNetwork"),
        Unmet::Malformed(line, fault) => {
            let name = fault_name(fault);
            format!(in alloc; "Malformed {line} {name}")
        }
        Unmet::TooLong => format!(in alloc; "TooLong"),
        Unmet::Full => format!(in alloc; "Full"),
        Unmet::NoView => format!(in alloc; "NoView"),
        Unmet::ShelfEmpty => format!(in alloc; "ShelfEmpty"),
        Unmet::NoNode => format!(in alloc; "NoNode"),
        Unmet::WrongKind => format!(in alloc; "WrongKind"),
        Unmet::Cycle => format!(in alloc; "Cycle"),
        Unmet::Unequal { inputs, assignment } => {
            let bits = bits_of(alloc, inputs, assignment)?;
            let word = bits_word(alloc, &bits)?;
            format!(in alloc; "Unequal {word}")
        }
        Unmet::TooWide => format!(in alloc; "TooWide"),
        Unmet::BadBits => format!(in alloc; "BadBits"),
    }
}

/// The words of a network's kind and counts.
fn counts_words(alloc: Global, counts: Counts) -> Result<String, AllocError>
    ensures { IfOk result (λ text. string_bytes text ≡ counts_text counts) }
{
    let Counts {
        kind,
        inputs,
        outputs,
        gates,
    } = counts;
    let word = kind_word(kind);
    format!(in alloc; "{word} inputs {inputs} outputs {outputs} gates {gates}")
}

/// The line of a network's kind, counts and depth.
fn stats_line(alloc: Global, counts: &str, depth: u32) -> Result<String, AllocError>
    ensures { IfOk result (λ text. string_bytes text ≡ codes "stats " ++ (counts.now ++ (codes " depth " ++ (decimal depth ++ 10 ∷ [])))) }
{
    format!(in alloc; "stats {counts} depth {depth}\n")
}

/// The text of the transcript for the command of this index, counted from 1. `Err` exactly where memory ran out.
pub fn text_of_reply(alloc: Global, index: u32, reply: Reply) -> Result<String, AllocError>
    ensures { IfOk result (λ text. string_bytes text ≡ reply_text index reply) }
{
    match reply {
        Reply::Network(counts) => {
            let counts = counts_words(alloc, counts)?;
            format!(in alloc; "network {counts}\n")
        }
        Reply::Wrote(bytes) => format!(in alloc; "wrote {bytes}\n"),
        Reply::Viewed { number, spec } => {
            let words = view_words(alloc, spec)?;
            format!(in alloc; "view {number} {words}\n")
        }
        Reply::Dropped(number) => format!(in alloc; "dropped {number}\n"),
        Reply::Level { node, level } => format!(in alloc; "level {node} {level}\n"),
        Reply::Printed(text) => Ok(text),
        Reply::Simulated(bits) => {
            let word = bits_word(alloc, &bits)?;
            format!(in alloc; "outputs {word}\n")
        }
        Reply::Merged { node, gates } => format!(in alloc; "merged {node} gates {gates}\n"),
        Reply::Stats { counts, depth } => {
            let counts = counts_words(alloc, counts)?;
            stats_line(alloc, &counts, depth)
        }
        Reply::Unmet(cause) => {
            let words = cause_words(alloc, cause)?;
            format!(in alloc; "unmet {index} {words}\n")
        }
    }
}
