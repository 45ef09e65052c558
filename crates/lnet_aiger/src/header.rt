//! The first line.

ghost use Rattle.std.specs.Prelude.{◌≡◌, ◌+◌, ◌<◌, ◌≤◌, Some, None, length, slice_index, MatchOption, IfOk};
ghost use Rattle.std.specs.List.{position_or_len, before_first, after_first};
ghost use Rattle.lnet_edge.specs.Circuits.{circuit_limit, output_limit};
ghost use Rattle.lnet_aiger.specs.Header.{is_space, numbers_of, at_most_nine, counts_of, header_of, header_line, top_fits, are_too_many, are_plain};

use arrayvec::ArrayVec;
use lnet_edge::{CIRCUIT_LIMIT, Fault, OUTPUT_LIMIT};
use lnet_lines::number;

/// The two forms of the format.
#[derive(Clone, Copy, PartialEq, Eq)]
pub enum Form {
    /// Every line is text.
    Ascii,
    /// The gates are differences in groups of seven bits.
    Binary,
}

/// The counts of a header that is read: no latches and no properties.
#[derive(Clone, Copy)]
pub struct Header {
    /// The form that the header announces.
    pub form: Form,
    /// The greatest variable.
    pub top: u32,
    /// How many inputs there are.
    pub inputs: u32,
    /// How many outputs there are.
    pub outputs: u32,
    /// How many gates there are.
    pub gates: u32,
}

/// The nine counts, as they stand.
#[derive(Clone, Copy)]
pub struct Counts {
    pub top: u32,
    pub inputs: u32,
    pub latches: u32,
    pub outputs: u32,
    pub gates: u32,
    pub bad: u32,
    pub constraints: u32,
    pub justice: u32,
    pub fairness: u32,
}

/// The numbers of a line, one space apart; None where there are more than nine, or where a word is no number.
pub fn numbers(line: &[u8]) -> Option<ArrayVec<u32, 9>>
    ensures { MatchOption result (at_most_nine (numbers_of line.now) ≡ None) (λ v. at_most_nine (numbers_of line.now) ≡ Some v.items) }
{
    let mut numbers = ArrayVec::new();
    let mut rest = line;
    loop {
        let (word, after) = cut_word(rest);
        let Some(next) = number(word) else {
            return None;
        };
        if numbers.is_full() {
            return None;
        }
        numbers.push(next);
        match after {
            Some(after) => rest = after,
            None => return Some(numbers),
        }
    }
}

/// The bytes before the first space, and those behind it; None where there is no space.
pub fn cut_word(bytes: &[u8]) -> (&[u8], Option<&[u8]>)
    ensures word { result.0.now ≡ before_first is_space bytes.now }
    ensures rest { MatchOption result.1 (position_or_len is_space bytes.now ≡ length bytes.now) (λ rest. (position_or_len is_space bytes.now < length bytes.now) × (rest.now ≡ after_first is_space bytes.now)) }
{
    let end = word_len(bytes);
    if end < bytes.len() {
        (&bytes[..end], Some(&bytes[end + 1..]))
    } else {
        (bytes, None)
    }
}

/// How many bytes stand before the first space, or in all.
fn word_len(bytes: &[u8]) -> usize
    ensures place { result ≡ position_or_len is_space bytes.now }
    ensures within { result ≤ length bytes.now }
{
    for (i, byte) in bytes.iter().enumerate() {
        if *byte == b' ' {
            return i;
        }
    }
    bytes.len()
}

/// The rule of the first line.
#[tactic(auto, unfolding(crate::specs::Header::header_line))]
pub fn header_in(line: &[u8]) -> Result<Header, Fault>
    ensures header { result ≡ header_line line.now }
    ensures few { IfOk result (λ h. h.inputs + h.gates ≤ circuit_limit) }
    ensures few_outputs { IfOk result (λ h. h.outputs ≤ output_limit) }
{
    if let Some(text) = line.strip_prefix(b"aag ") {
        let counts = counts_in(text)?;
        let header = checked(Form::Ascii, &counts)?;
        return Ok(header);
    }
    if let Some(text) = line.strip_prefix(b"aig ") {
        let counts = counts_in(text)?;
        let header = checked(Form::Binary, &counts)?;
        return Ok(header);
    }
    Err(Fault::Header)
}

/// The counts of the line behind its word.
#[tactic(auto, unfolding(crate::specs::Header::counts_of))]
fn counts_in(text: &[u8]) -> Result<Counts, Fault>
    ensures { result ≡ counts_of text.now }
{
    let Some(numbers) = numbers(text) else {
        return Err(Fault::Header);
    };
    if numbers.len() < 5 {
        return Err(Fault::Header);
    }
    let all = numbers.as_slice();
    Ok(Counts {
        top: all[0],
        inputs: all[1],
        latches: all[2],
        outputs: all[3],
        gates: all[4],
        bad: or_zero(all, 5),
        constraints: or_zero(all, 6),
        justice: or_zero(all, 7),
        fairness: or_zero(all, 8),
    })
}

/// The number at this place, 0 where there is none.
fn or_zero(numbers: &[u32], place: usize) -> u32
    ensures { result ≡ slice_index numbers.now place }
{
    if place < numbers.len() {
        numbers[place]
    } else {
        0
    }
}

/// The tests of the counts, in their order.
#[tactic(auto, unfolding(crate::specs::Header::header_of))]
fn checked(form: Form, counts: &Counts) -> Result<Header, Fault>
    ensures header { result ≡ header_of form counts.now }
    ensures few { IfOk result (λ h. h.inputs + h.gates ≤ circuit_limit) }
    ensures few_outputs { IfOk result (λ h. h.outputs ≤ output_limit) }
{
    if !top_fits(form, counts) {
        return Err(Fault::Header);
    }
    if are_too_many(counts) {
        return Err(Fault::TooMany);
    }
    if !are_plain(counts) {
        return Err(Fault::Property);
    }
    if counts.latches != 0 {
        return Err(Fault::Sequential);
    }
    Ok(Header {
        form,
        top: counts.top,
        inputs: counts.inputs,
        outputs: counts.outputs,
        gates: counts.gates,
    })
}

fn variables(counts: &Counts) -> u64
    ensures { result ≡ counts.now.inputs + counts.now.latches + counts.now.gates }
{
    u64::from(counts.inputs) + u64::from(counts.latches) + u64::from(counts.gates)
}

/// Whether the greatest variable suits the counts: in ASCII some variables may be unused.
fn top_fits(form: Form, counts: &Counts) -> bool
    ensures { result ≡ top_fits form counts.now }
{
    let top = u64::from(counts.top);
    match form {
        Form::Ascii => variables(counts) <= top,
        Form::Binary => top == variables(counts),
    }
}

fn are_too_many(counts: &Counts) -> bool
    ensures { result ≡ are_too_many counts.now }
{
    variables(counts) > CIRCUIT_LIMIT
        || u64::from(counts.latches) + u64::from(counts.outputs) > OUTPUT_LIMIT
}

/// Whether no property is counted.
fn are_plain(counts: &Counts) -> bool
    ensures { result ≡ are_plain counts.now }
{
    counts.bad == 0 && counts.constraints == 0 && counts.justice == 0 && counts.fairness == 0
}
