//! Names by place.

ghost use Rattle.std.specs.Prelude.{◌≡◌, ◌<◌, ◌^◌, length, option_map, replicate, IfOk, IfSome, None};
ghost use Rattle.lnet_edge.specs.Names.{IsName};
ghost use Rattle.lnet_names.specs.NameLists.{name_at};

use lnet_edge::Name;
use std::alloc::{AllocError, Global};
use std::marker::Model;

/// An optional name for each input and each output of a network.
///
/// A contract sees the two lists in order, each name as its bytes.
pub struct Names {
    inputs: Vec<Option<Name>>,
    outputs: Vec<Option<Name>>,
}

impl Drop for Names {
    /// Lets its lists go. Where a value ends this is called; a derived one would be written out there.
    fn drop(self) {
        let Self {
            inputs: _,
            outputs: _,
        } = self;
    }
}

impl Model for Names {
    ghost use Rattle.lnet_names.specs.NameLists.{NamesValue, AreFew};

    ghost Value = { NamesValue };

    ghost view = { λ n. record { inputs = n.inputs.items; outputs = n.outputs.items } };

    ghost invariant = { λ n. AreFew (record { inputs = n.inputs.items; outputs = n.outputs.items }) };
}

impl Names {
    /// The names of these lists, an entry for each input and each output. It takes no memory.
    pub fn new(inputs: Vec<Option<Name>>, outputs: Vec<Option<Name>>) -> Names
        requires few_inputs { length inputs.items < 2 ^ 32 }
        requires few_outputs { length outputs.items < 2 ^ 32 }
        ensures { result ≡ record { inputs = inputs.items; outputs = outputs.items } }
    {
        Names { inputs, outputs }
    }

    /// So many inputs and outputs, without a name. `Err` exactly where memory ran out. Linear time.
    pub fn unnamed(alloc: Global, inputs: u32, outputs: u32) -> Result<Names, AllocError>
        ensures { IfOk result (λ n. n ≡ record { inputs = replicate inputs None; outputs = replicate outputs None }) }
    {
        let inputs = nameless(alloc, inputs)?;
        let outputs = nameless(alloc, outputs)?;
        Ok(Names { inputs, outputs })
    }

    /// How many inputs there are. Constant time.
    pub fn input_count(&self) -> u32
        ensures { result ≡ length self.now.inputs }
    {
        self.inputs.len() as u32
    }

    /// How many outputs there are. Constant time.
    pub fn output_count(&self) -> u32
        ensures { result ≡ length self.now.outputs }
    {
        self.outputs.len() as u32
    }

    /// The name of input `k`, counted from 0; `None` exactly where `k` is past the end or has no name. Constant time.
    pub fn input_name(&self, k: u32) -> Option<&str>
        ensures value { option_map (λ s. s.now) result ≡ name_at self.now.inputs k }
        ensures name { IfSome result (λ s. IsName s.now) }
    {
        text_at(&self.inputs, k)
    }

    /// The name of output `k`, counted from 0; `None` exactly where `k` is past the end or has no name. Constant time.
    pub fn output_name(&self, k: u32) -> Option<&str>
        ensures value { option_map (λ s. s.now) result ≡ name_at self.now.outputs k }
        ensures name { IfSome result (λ s. IsName s.now) }
    {
        text_at(&self.outputs, k)
    }
}

/// So many places without a name.
fn nameless(alloc: Global, count: u32) -> Result<Vec<Option<Name>>, AllocError>
    ensures { IfOk result (λ names. names.items ≡ replicate count None) }
{
    let mut names = Vec::new(alloc);
    for _place in 0..count {
        names.push(None)?;
    }
    Ok(names)
}

/// The name at place `k`, counted from 0; `None` exactly where `k` is past the end or has no name.
fn text_at(names: &[Option<Name>], k: u32) -> Option<&str>
    ensures value { option_map (λ s. s.now) result ≡ name_at names.now k }
    ensures name { IfSome result (λ s. IsName s.now) }
{
    match names.get(k as usize) {
        Some(name) => match name {
            Some(name) => Some(name.as_str()),
            None => None,
        },
        None => None,
    }
}
