//! The commands of a script.

use lnet_edge::Name;
use lnet_gates::{Kind, Signal};
use lnet_model::ViewSpec;

/// The formats that are read.
#[derive(Clone, Copy, Debug, PartialEq, Eq)]
pub enum ReadFormat {
    /// `aiger`: AIGER, ASCII or binary.
    Aiger,
    /// `blif`: BLIF.
    Blif,
    /// `bench`: BENCH.
    Bench,
}

/// The formats that are written.
#[derive(Clone, Copy, Debug, PartialEq, Eq)]
pub enum WriteFormat {
    /// `aag`: ASCII AIGER.
    Aag,
    /// `aig`: binary AIGER.
    Aig,
    /// `blif`: the Berkeley Logic Interchange Format.
    Blif,
    /// `bench`: BENCH.
    Bench,
}

/// What a view is asked for a node.
#[derive(Clone, Copy, Debug, PartialEq, Eq)]
pub enum Query {
    /// `level`: how many gates the longest path from the node towards the inputs has, of a depth view.
    Level,
}

/// The numbers of a generated circuit.
#[derive(Clone, Copy, Debug, PartialEq, Eq)]
pub struct Generation {
    /// How many inputs it has, from 1 to 4,096.
    pub inputs: u32,
    /// How many gates it has, at most 262,144.
    pub gates: u32,
    /// How many outputs it has, from 1 to 4,096.
    pub outputs: u32,
    /// The first state of the generator of random numbers.
    pub start: u64,
}

/// A command. Its fields are the words of its syntax in their order.
#[derive(Drop)]
pub enum Command {
    /// `read FORMAT NAME KIND`: puts the network of the file's circuit in place, in that kind.
    Read(ReadFormat, Name, Kind),
    /// `write FORMAT NAME`: writes the network under the name.
    Write(WriteFormat, Name),
    /// `gen KIND INPUTS GATES OUTPUTS START`: puts the network of the circuit in place, in that kind, that is generated from
    /// START.
    Gen(Kind, Generation),
    /// `view depth`: attaches a view from the shelf.
    View(ViewSpec),
    /// `drop V`: puts the view back on the shelf.
    Drop(u32),
    /// `ask V level NODE`: asks the live view for the node's level.
    Ask(u32, Query, u32),
    /// `print`: prints the network.
    Print,
    /// `stats`: prints the counts of the network.
    Stats,
    /// `simulate BITS`: evaluates the outputs where the inputs have these values, a character `0` or `1` for each in order, and `-` for
    /// none.
    Simulate(Name),
    /// `merge NODE SIGNAL`: lets the signal take the gate's place where both compute one function.
    Merge(u32, Signal),
    /// `convert KIND`: puts the network in place that computes the same in that kind.
    Convert(Kind),
}
