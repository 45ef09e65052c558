//! The names that were kept.

ghost use Rattle.std.specs.Prelude.{◌≡◌, not, [], IfOk, OnOk};
ghost use Rattle.lnet_wires.specs.Naming.{is_seen, with_name};

use indexmap::IndexSet;
use std::alloc::{AllocError, Global};
use std::marker::Model;

/// The names that were kept, in order.
#[derive(Drop)]
pub(crate) struct Kept<'a> {
    names: IndexSet<&'a [u8]>,
}

impl<'a> Model for Kept<'a> {
    ghost use Rattle.std.specs.Prelude.{List, ℕ, map};

    ghost Value = { List (List ℕ) };

    ghost view = { λ k. map (λ name. name.now) k.names.keys };
}

impl<'a> Kept<'a> {
    pub(crate) fn new(alloc: Global) -> Kept<'a>
        ensures { result ≡ [] }
    {
        Kept {
            names: IndexSet::new(alloc),
        }
    }

    /// Keeps the name, and says whether it wasn't kept before.
    pub(crate) fn keep(&mut self, name: &'a [u8]) -> Result<bool, AllocError>
        ensures fresh { IfOk result (λ b. b ≡ not (is_seen self.old name.now)) }
        ensures kept { OnOk result (self.new ≡ with_name self.old name.now) }
    {
        let (_, fresh) = self.names.insert_full(name)?;
        Ok(fresh)
    }
}
