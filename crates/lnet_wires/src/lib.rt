//! The wires that names stand for, for the readers of formats with names.
#![tactic(auto)]

ghost use Rattle.std.specs.Prelude.{◌≡◌, ◌+◌, ◌<◌, ◌≤◌, [], length, IfOk, OnOk, OnErr};
ghost use Rattle.lnet_edge.specs.Circuits.{wire_limit};
ghost use Rattle.lnet_wires.specs.Naming.{with_name, wire_of};

mod laws;

use indexmap::IndexSet;
pub use laws::wires_tell_names_apart;
use std::alloc::{AllocError, Global};
use std::marker::Model;

/// Names in the order in which they were first seen. A name's place, counted from 1, is its wire.
#[derive(Drop)]
pub struct Wires<'a> {
    names: IndexSet<&'a [u8]>,
}

impl<'a> Model for Wires<'a> {
    ghost use Rattle.std.specs.Prelude.{List, ℕ, map};

    ghost Value = { List (List ℕ) };

    ghost view = { λ w. map (λ name. name.now) w.names.keys };
}

impl<'a> Wires<'a> {
    /// No names. It takes no memory; `alloc` is where names are kept later.
    pub fn new(alloc: Global) -> Wires<'a>
        ensures { result ≡ [] }
    {
        Wires {
            names: IndexSet::new(alloc),
        }
    }

    /// The wire of a name, which is seen from now on. Expected constant time beside a look at each byte of the name.
    ///
    /// # Errors
    /// `AllocError` where memory runs out; nothing changes then.
    pub fn wire(&mut self, name: &'a [u8]) -> Result<u32, AllocError>
        requires { length self.old < wire_limit }
        ensures number { IfOk result (λ w. w ≡ wire_of self.old name.now) }
        ensures seen { OnOk result (self.new ≡ with_name self.old name.now) }
        ensures few { OnOk result (length self.new ≤ length self.old + 1) }
        ensures err { OnErr result (self.new ≡ self.old) }
    {
        let (place, _) = self.names.insert_full(name)?;
        Ok(place as u32 + 1)
    }
}
