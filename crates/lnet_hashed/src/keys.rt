//! The keys of gates: the table of the clean gates, and marks of the dirty ones.

ghost use Rattle.std.specs.Prelude.{◌≡◌, ◌≢◌, ◌≤◌, ◌<◌, ◌↔◌, ℕ, Bool, IfOk, OnOk, None, Some, false, length, slice_index_or, slice_set, true};
ghost use Rattle.lnet_gates.specs.declared.signal.Signal.{Signal as SignalValue};
ghost use Rattle.lnet_gates.specs.NormalLaws.{keyed_gate};
ghost use Rattle.lnet_model.specs.Networks.{NetworkValue, gate_at};
ghost use Rattle.lnet_model.specs.Changes.{GateAt};
ghost use Rattle.lnet_model.specs.Dags.{NUMBERS};
ghost use Rattle.lnet_strash.specs.Standing.{at, room as places};
ghost use Rattle.lnet_hashed.specs.Indexed.{AllClean, HasGatesBeside, IsIndexed};

use lnet_gates::{Key, Node, Signal};
use lnet_numbers::NumberSet;
use lnet_strash::Strash;
use std::alloc::{AllocError, Global};

/// Which gate has a key, by a hash table, and which gates are dirty.
///
/// A gate is dirty where it may not be its own normal form, or may have the key of another: while a substitution runs. The
/// table holds just the clean gates, each under its key and with its phase, which is `IsIndexed`.
pub struct Keys {
    /// The clean gates by their keys.
    pub(crate) table: Strash,
    /// The numbers of the dirty gates.
    pub dirty: NumberSet,
}

impl Drop for Keys {
    /// Lets its fields go. Where a value ends this is called; a derived one would be written out there.
    fn drop(self) {
        let Self { table: _, dirty: _ } = self;
    }
}

/// Gets room for at least so many numbers, and adds no member. Linear in the numbers to come.
pub(crate) fn widen(set: &mut NumberSet, numbers: u32) -> Result<(), AllocError>
    requires { numbers ≤ NUMBERS }
    ensures same { (n : ℕ) → slice_index_or set.new n false ≡ slice_index_or set.old n false }
    ensures grows { length set.old ≤ length set.new }
    ensures long { OnOk result (numbers ≤ length set.new) }
{
    if set.room() >= numbers {
        return Ok(());
    }
    set.grow(numbers, false)
}

impl Keys {
    /// The keys of no gates.
    pub(crate) fn new(alloc: Global) -> Result<Keys, AllocError>
        ensures indexed { IfOk result (λ k. (N : NetworkValue) → ((n : ℕ) → gate_at N n ≡ None) → IsIndexed N k 0) }
        ensures clean { IfOk result AllClean }
    {
        let table = Strash::new(alloc)?;
        Ok(Keys {
            table,
            dirty: NumberSet::new(alloc),
        })
    }

    /// Gets memory for the keys and marks of so many numbers. Whatever it answers, the keys and marks are as before.
    pub(crate) fn reserve(&mut self, numbers: u32) -> Result<(), AllocError>
        requires { numbers ≤ NUMBERS }
        ensures dirty { (n : ℕ) → slice_index_or self.new.dirty n false ≡ slice_index_or self.old.dirty n false }
        ensures kept { (N : NetworkValue) (room : ℕ) → IsIndexed N self.old room → IsIndexed N self.new room }
        ensures long { OnOk result ((N : NetworkValue) (room : ℕ) → IsIndexed N self.old room → IsIndexed N self.new numbers) }
    {
        widen(&mut self.dirty, numbers)?;
        self.table.reserve(numbers)?;
        Ok(())
    }

    /// The signal of the clean gate with the key; none exactly where no clean gate has it. Constant time on average.
    pub fn find(&self, key: &Key) -> Option<Signal>
        ensures stands { (s : SignalValue) → (result ≡ Some s) ↔ (at self.now.table s.node.0 ≡ Some (key.now, s.complement)) }
    {
        match self.table.find(key) {
            Some((node, complement)) => Some(Signal { node, complement }),
            None => None,
        }
    }

    /// Lets the gate at a number be dirty: it stands under no key. Constant time on average.
    pub fn soil(&mut self, n: Node)
        requires { n.0 < length self.old.dirty }
        ensures dirty { self.new.dirty ≡ slice_set self.old.dirty n.0 true }
        ensures indexed { (N M : NetworkValue) (room : ℕ) → IsIndexed N self.old room → HasGatesBeside N M n.0 → IsIndexed M self.new room }
    {
        self.table.release(n);
        self.dirty.insert(n.0);
    }

    /// Forgets the gate at a number, which goes. Constant time on average.
    pub fn forget(&mut self, n: Node)
        requires { n.0 < length self.old.dirty }
        ensures dirty { self.new.dirty ≡ slice_set self.old.dirty n.0 false }
        ensures indexed { (N M : NetworkValue) (room : ℕ) → IsIndexed N self.old room → HasGatesBeside N M n.0 → gate_at M n.0 ≡ None → IsIndexed M self.new room }
    {
        self.table.release(n);
        self.dirty.remove(n.0);
    }

    /// Lets a gate stand under its key, which no gate has: it is clean. Constant time.
    pub fn enter(&mut self, key: Key, n: Node, phase: bool)
        requires marked { n.0 < length self.old.dirty }
        requires placed { n.0 < places self.old.table }
        requires free { at self.old.table n.0 ≡ None }
        requires absent { (m : ℕ) (p : Bool) → at self.old.table m ≢ Some (key, p) }
        ensures dirty { self.new.dirty ≡ slice_set self.old.dirty n.0 false }
        ensures indexed { (N M : NetworkValue) (room : ℕ) → IsIndexed N self.old room → HasGatesBeside N M n.0 → GateAt M n.0 (keyed_gate key phase) → IsIndexed M self.new room }
    {
        self.table.insert(key, n, phase);
        self.dirty.remove(n.0);
    }
}
