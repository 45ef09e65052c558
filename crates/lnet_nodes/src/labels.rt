//! The names of nodes.

ghost use Rattle.std.specs.Prelude.{◌≡◌, ◌++◌, ◌∷◌, [], ℕ, List, IfOk, OnOk, length, map, string_bytes};
ghost use Rattle.std.specs.Option.{option_copied};
ghost use Rattle.lnet_edge.specs.declared.circuit.InputPort.{InputPort};
ghost use Rattle.lnet_nodes.specs.Nodes.{name_at, node_name};
ghost use Rattle.lnet_edge.specs.Values.{input_place};
ghost use Rattle.lnet_nodes.specs.Kept.{KnowsPlaces, label_in};

use lnet_edge::{InputPort, Name};
use std::alloc::{AllocError, Global};
use std::collections::HashMap;

/// From each wire that an input drives: the place of the input.
type Places = HashMap<u32, usize>;

/// The names of the inputs by the wires that they drive. A contract sees the name for each wire, if there is one.
#[derive(Drop)]
pub struct Labels {
    places: Places,
    names: Vec<Name>,
}

/// Gives the wire of an input a place, unless it has one.
fn place_input(places: &mut Places, input: &InputPort, place: usize) -> Result<(), AllocError>
    ensures { OnOk result ((ports : List InputPort) → KnowsPlaces places.old ports → place ≡ length ports → KnowsPlaces places.new (ports ++ input.now ∷ [])) }
{
    if !places.contains_key(&input.wire.0) {
        places.insert(input.wire.0, place)?;
    }
    Ok(())
}

/// The places of the inputs by their wires.
fn places_of(alloc: Global, inputs: &[InputPort]) -> Result<Places, AllocError>
    ensures { IfOk result (λ m. KnowsPlaces m inputs.now) }
{
    let mut places = HashMap::new(alloc);
    for (place, input) in inputs.iter().enumerate() {
        place_input(&mut places, input, place)?;
    }
    Ok(places)
}

/// The names of these inputs, which have one each: that of the first input that drives a wire.
///
/// `alloc` is where the places of the inputs are kept. Expected time and memory are linear in the inputs.
///
/// # Errors
/// `AllocError` where memory runs out.
pub fn labels_of(
    alloc: Global,
    inputs: &[InputPort],
    names: Vec<Name>,
) -> Result<Labels, AllocError>
    ensures { IfOk result (λ l. (w : ℕ) → label_in l w ≡ name_at names.items (input_place 0 w inputs.now)) }
{
    let places = places_of(alloc, inputs)?;
    Ok(Labels { places, names })
}

/// The name of the input that drives the wire, if one does.
fn label(labels: &Labels, wire: u32) -> Option<&Name>
    ensures { option_copied result ≡ label_in labels.now wire }
{
    match labels.places.get(&wire) {
        Some(place) => labels.names.get(*place),
        None => None,
    }
}

/// Writes the name of a node: that of its input, or `_n` and its number. Expected constant time beside the copy of the name.
///
/// # Errors
/// `AllocError` where memory runs out; what stands in the text then is not told.
pub fn put_node(out: &mut String, labels: &Labels, node: u32) -> Result<(), AllocError>
    ensures { OnOk result (string_bytes out.new ≡ string_bytes out.old ++ node_name (label_in labels.now) node) }
{
    match label(labels, node) {
        Some(name) => out.push_str(name.as_str()),
        None => write!(out, "_n{node}"),
    }
}
