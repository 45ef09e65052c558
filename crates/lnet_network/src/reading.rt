//! Reading a network.

ghost use Rattle.std.specs.Prelude.{◌≡◌, ◌≤◌, ◌↔◌, ℕ, IfOk, IfSome, IsTrue, length, option_map, slice_get, Some};
ghost use Rattle.lnet_model.specs.Networks.{IsLive, Input, entry_at, gate_at, live_count};
ghost use Rattle.lnet_model.specs.Along.{Depends};
ghost use Rattle.lnet_model.specs.Dags.{NUMBERS, AreBelow, IsStored, numbers_of};
ghost use Rattle.lnet_model.specs.Fanouts.{references};
ghost use Rattle.lnet_model.specs.Levels.{depth as depth_of};
ghost use Rattle.lnet_hashed.specs.Strashed.{IsStrashed};

use crate::network::Network;
use lnet_gates::{Gate, Gates, Kind, Node, Signal};
use lnet_hashed::depth;
use std::alloc::AllocError;

impl<G: Gates> Network<G> {
    /// How many numbers are live: the constant, the inputs and the gates. Constant time.
    pub fn live_count(&self) -> u32
        ensures value { result ≡ live_count self.now.core.network }
        ensures limit { live_count self.now.core.network ≤ NUMBERS }
        // What the type keeps: no cycle, live fanins and outputs, and as many fanins as each operation takes.
        ensures stored { IsStored self.now.core.network }
        // Each gate is one of the kind and in normal form, and no two have one key.
        ensures strashed { IsStrashed G.KIND self.now.core.network }
    {
        self.core.hashed.store.live_count()
    }

    /// The kind. Constant time.
    pub fn kind(&self) -> Kind
        ensures value { result ≡ self.now.core.network.kind }
        ensures kind { self.now.core.network.kind ≡ G.KIND }
    {
        // Read, so that the proof sees how the core is seen.
        let _room = self.core.hashed.room;
        G::KIND
    }

    /// Whether the number is live. Constant time.
    pub fn is_live(&self, n: Node) -> bool
        ensures { IsTrue result ↔ IsLive self.now.core.network n.0 }
    {
        self.core.hashed.store.is_live(n)
    }

    /// Whether an input has the number. Constant time.
    pub fn is_input(&self, n: Node) -> bool
        ensures { IsTrue result ↔ ((k : ℕ) × (entry_at self.now.core.network n.0 ≡ Some (Input k))) }
    {
        self.core.hashed.store.is_input(n)
    }

    /// The gate at the number: `None` exactly where no live gate has it. Constant time.
    pub fn gate_of(&self, n: Node) -> Option<&Gate>
        ensures { option_map (λ g. g.now) result ≡ gate_at self.now.core.network n.0 }
    {
        self.core.hashed.store.gate_of(n)
    }

    /// How many fanins of gates and outputs name the node: 0 where it isn't live. Constant time.
    pub fn refs(&self, n: Node) -> u32
        ensures { result ≡ references self.now.core.network n.0 }
    {
        self.core.hashed.store.refs(n)
    }

    /// One past the greatest live number. Constant time.
    pub fn numbers(&self) -> u32
        ensures value { result ≡ numbers_of self.now.core.network }
        ensures limit { numbers_of self.now.core.network ≤ NUMBERS }
        ensures within { AreBelow self.now.core.network (numbers_of self.now.core.network) }
    {
        self.core.hashed.store.numbers()
    }

    /// How many inputs there are. Constant time.
    pub fn input_count(&self) -> u32
        ensures { result ≡ length self.now.core.network.inputs }
    {
        self.core.hashed.store.input_count()
    }

    /// How many outputs there are. Constant time.
    pub fn output_count(&self) -> u32
        ensures { result ≡ length self.now.core.network.outputs }
    {
        self.core.hashed.store.output_count()
    }

    /// The node of input `k`, counted from 0: `None` exactly past the end. Constant time.
    pub fn input_at(&self, k: u32) -> Option<Node>
        ensures { option_map (λ n. n.0) result ≡ slice_get self.now.core.network.inputs k }
    {
        self.core.hashed.store.input(k)
    }

    /// The signal of output `k`, counted from 0: `None` exactly past the end. Constant time.
    pub fn output_at(&self, k: u32) -> Option<Signal>
        ensures value { result ≡ slice_get self.now.core.network.outputs k }
        ensures live { IfSome result (λ s. IsLive self.now.core.network s.node.0) }
    {
        self.core.hashed.store.output(k)
    }

    /// Whether a walk along fanins from the signal's node comes to the node, which may be the signal's own: `false` where
    /// the signal's node isn't live. Linear in the nodes that the signal depends on and their fanins; it takes no memory.
    pub fn depends_on(&mut self, s: Signal, n: Node) -> bool
        ensures answer { IsTrue result ↔ Depends self.old.core.network s n.0 }
        ensures same { self.new ≡ self.old }
    {
        self.core.hashed.store.depends_on(s, n)
    }

    /// The network's depth: the greatest level of an output's node, 0 without outputs. It takes memory for the levels, and is
    /// refused only where there is none. Linear in the network.
    pub fn depth(&self) -> Result<u32, AllocError>
        ensures { IfOk result (λ d. d ≡ depth_of self.now.core.network) }
    {
        depth(&self.core.hashed.store, *self.watch.visits.allocator())
    }
}
