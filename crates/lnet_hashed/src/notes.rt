//! Notes of the numbers that gain their first reference, and of those that lose their last one, while a substitution runs.

ghost use Rattle.std.specs.Prelude.{◌≤◌, ℕ, OnOk};
ghost use Rattle.lnet_model.specs.Dags.{NUMBERS};
ghost use Rattle.lnet_hashed.specs.Noted.{AreBlank, CanNote};

use crate::keys::widen;
use lnet_numbers::NumberSet;
use std::alloc::{AllocError, Global};

/// Which numbers had no reference when a substitution began and which had one, as far as it matters.
///
/// Between two substitutions both sets are empty.
pub struct Notes {
    /// Numbers that had no reference then, and were about to gain one.
    pub fresh: NumberSet,
    /// Numbers that had a reference then, and were seen without one.
    pub lost: NumberSet,
}

impl Drop for Notes {
    /// Lets its fields go. Where a value ends this is called; a derived one would be written out there.
    fn drop(self) {
        let Self { fresh: _, lost: _ } = self;
    }
}

impl Notes {
    /// No notes, and no room for any. Takes no memory.
    pub(crate) fn new(alloc: Global) -> Notes
        ensures { AreBlank result }
    {
        Notes {
            fresh: NumberSet::new(alloc),
            lost: NumberSet::new(alloc),
        }
    }

    /// Gets memory for notes of so many numbers. Whatever it answers, there is no less room than before.
    pub(crate) fn reserve(&mut self, numbers: u32) -> Result<(), AllocError>
        requires { numbers ≤ NUMBERS }
        ensures blank { AreBlank self.old → AreBlank self.new }
        ensures kept { (room : ℕ) → CanNote self.old room → CanNote self.new room }
        ensures long { OnOk result (CanNote self.new numbers) }
    {
        widen(&mut self.fresh, numbers)?;
        widen(&mut self.lost, numbers)?;
        Ok(())
    }
}
