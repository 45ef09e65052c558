//! The finite map from keys to nodes.

ghost use Rattle.std.specs.Prelude.{◌≡◌, ◌≢◌, ◌<◌, ◌≤◌, ◌↔◌, ℕ, Bool, [], Some, None, IsSome, IfOk, IsOk, OnOk, slice_set};
ghost use Rattle.lnet_gates.specs.Gates.{KeyValue};
ghost use Rattle.lnet_gates.specs.declared.signal.Node.{Node};
ghost use Rattle.lnet_strash.specs.Standing.{KeysDiffer, at, entry, room};

use crate::chains::Chains;
use lnet_gates::{Key, Node};
use std::alloc::{AllocError, Global};
use std::marker::Model;

/// A finite map from keys to a node and its phase, in which each node stands under one key at most.
///
/// It has room for the nodes below a number. Each of them has its own place, so that keys come and go without memory.
pub struct Strash {
    chains: Chains,
}

impl Drop for Strash {
    /// Lets its fields go. Where a value ends this is called; a derived one would be written out there.
    fn drop(self) {
        let Self { chains: _ } = self;
    }
}

impl Model for Strash {
    ghost use Rattle.lnet_strash.specs.Standing.{Standing};
    ghost use Rattle.lnet_strash.specs.Chains.{IsTable};

    ghost Value = { Standing };

    ghost view = { λ s. s.chains.standing.items };

    ghost invariant = { λ s. IsTable s.chains.heads.items s.chains.next.items s.chains.standing.items };
}

impl Strash {
    /// The empty map, with room for no node. It fails for want of memory alone. Constant time.
    pub fn new(alloc: Global) -> Result<Strash, AllocError>
        ensures empty { IfOk result (λ s. s ≡ []) }
        ensures entries { IfOk result (λ s. (k : KeyValue) → entry s k ≡ None) }
        ensures unique { IfOk result (λ s. KeysDiffer s) }
    {
        let chains = Chains::new(alloc)?;
        Ok(Strash { chains })
    }

    /// Gets room for the nodes below `numbers`. It fails for want of memory alone, and never where the room is there. Whatever
    /// it answers, the entries are as before, and the room doesn't shrink. Where there is less room it gets twice what there
    /// was at least, so that a map that grows by one takes linear time in all. Linear in the room where it grows, else
    /// constant time.
    pub fn reserve(&mut self, numbers: u32) -> Result<(), AllocError>
        ensures ok { OnOk result (numbers ≤ room self.new) }
        ensures succeeds { numbers ≤ room self.old → IsOk result }
        ensures grows { room self.old ≤ room self.new }
        ensures entries { (k : KeyValue) → entry self.new k ≡ entry self.old k }
        ensures standing { (n : ℕ) → at self.new n ≡ at self.old n }
        ensures unique { KeysDiffer self.new }
    {
        self.chains.reserve(numbers)
    }

    /// The node that stands under the key, and its phase: none exactly where no node does. Constant time on average, and no
    /// memory.
    pub fn find(&self, key: &Key) -> Option<(Node, bool)>
        ensures entry { result ≡ entry self.now key.now }
        ensures stands { (n : Node) (p : Bool) → (result ≡ Some (n, p)) ↔ (at self.now n.0 ≡ Some (key.now, p)) }
    {
        let found = self.chains.search(key)?;
        match &self.chains.standing[found.number as usize] {
            Some((_, phase)) => Some((Node(found.number), *phase)),
            None => None,
        }
    }

    /// Lets node `n` stand under the key, with its phase. The node is below the room and stands under no key, and no node
    /// stands under this one. Constant time, and no memory.
    pub fn insert(&mut self, key: Key, n: Node, phase: bool)
        requires room { n.0 < room self.old }
        requires free { (k : KeyValue) (p : Bool) → entry self.old k ≢ Some (n, p) }
        requires absent { entry self.old key ≡ None }
        ensures inserted { entry self.new key ≡ Some (n, phase) }
        ensures others { (k : KeyValue) → k ≢ key → entry self.new k ≡ entry self.old k }
        ensures standing { self.new ≡ slice_set self.old n.0 (Some (key, phase)) }
        ensures room { room self.new ≡ room self.old }
        ensures unique { KeysDiffer self.new }
    {
        self.chains.insert(key, n.0, phase);
    }

    /// Lets the node that stands under the key stand under none. A node stands under it. Constant time on average, and no
    /// memory.
    pub fn remove(&mut self, key: &Key)
        requires present { IsSome (entry self.old key.now) }
        ensures removed { entry self.new key.now ≡ None }
        ensures others { (k : KeyValue) → k ≢ key.now → entry self.new k ≡ entry self.old k }
        ensures standing { (n : Node) (p : Bool) → entry self.old key.now ≡ Some (n, p) → self.new ≡ slice_set self.old n.0 None }
        ensures room { room self.new ≡ room self.old }
        ensures unique { KeysDiffer self.new }
    {
        self.chains.remove(key);
    }

    /// Lets node `n` stand under no key. Constant time on average, and no memory.
    pub fn release(&mut self, n: Node)
        ensures released { at self.new n.0 ≡ None }
        ensures others { (m : ℕ) → m ≢ n.0 → at self.new m ≡ at self.old m }
        ensures room { room self.new ≡ room self.old }
        ensures unique { KeysDiffer self.new }
    {
        self.chains.release(n.0);
    }
}
