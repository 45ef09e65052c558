//! The store: a network's nodes by number, its inputs and its outputs.

ghost use Rattle.std.specs.Prelude.{◌≡◌, ◌≤◌, ◌<◌, ◌+◌, ◌-◌, ℕ, IfOk, IfSome, IsTrue, ◌↔◌, option_map, slice_get, length, Some};
ghost use Rattle.lnet_model.specs.Networks.{IsLive, gate_at, live_count, Input, entry_at};
ghost use Rattle.lnet_model.specs.Fanouts.{references};
ghost use Rattle.lnet_model.specs.Dags.{IsStored, AreBelow, numbers_of, NUMBERS};
ghost use Rattle.lnet_store.specs.StoreValues.{first_network};

use crate::counting::count_of;
use crate::linking::grow_chains;
use crate::look::{Look, Visits};
use crate::slots::NodeSlots;
use lnet_chains::Chains;
use lnet_gates::{Gate, Node, Signal};
use std::alloc::{AllocError, Global};
use std::marker::Model;

/// Why a node was not added. The store is then as it was, but that it may have more room.
#[derive(Clone, Copy, Debug, PartialEq, Eq)]
pub enum AddError {
    /// Every node number is in use.
    Full,
    /// Memory ran out.
    NoMemory,
}

/// A network's nodes by number, its inputs and its outputs.
///
/// A contract sees the network, for how many new nodes there is memory (`spare`), and the stamp: a `u64` that rises by one at
/// each change of the network, its inputs or its outputs, and stays at its last value. Every store keeps of its network that
/// it has no cycle, that what is named is live, and that each gate has as many fanins as its operation takes.
pub struct Store {
    pub(crate) nodes: NodeSlots,
    pub(crate) inputs: Vec<Node>,
    pub(crate) outputs: Vec<Signal>,
    pub(crate) stamp: u64,
    pub(crate) counts: Vec<u32>,
    pub(crate) marks: Vec<bool>,
    pub(crate) queue: Vec<u32>,
    pub(crate) chains: Chains,
}

impl Drop for Store {
    /// Lets its fields go. Where a value ends this is called; a derived one would be written out there.
    fn drop(self) {
        let Self {
            nodes: _,
            inputs: _,
            outputs: _,
            stamp: _,
            counts: _,
            marks: _,
            queue: _,
            chains: _,
        } = self;
    }
}

impl Model for Store {
    ghost use Rattle.std.specs.Prelude.{◌-◌, length};
    ghost use Rattle.std.specs.FinMap.{len};
    ghost use Rattle.std.specs.Vec.{vec_capacity};
    ghost use Rattle.lnet_model.specs.Dags.{IsStored};
    ghost use Rattle.lnet_store.specs.StoreValues.{StoreValue, store_code};
    ghost use Rattle.lnet_store.specs.Fields.{network_of, HasRoom, AreReferences};
    ghost use Rattle.lnet_store.specs.Linked.{AreLinked};

    ghost Value = { StoreValue };

    ghost coded = { store_code };

    ghost view = { λ s. record { network = network_of s.nodes.nodes s.inputs.items s.outputs.items; spare = s.nodes.room - len s.nodes.nodes; stamp = s.stamp } };

    ghost invariant = { λ s. IsStored (network_of s.nodes.nodes s.inputs.items s.outputs.items) × HasRoom s.nodes (vec_capacity s.inputs) s.inputs.items s.counts.items s.marks.items (vec_capacity s.queue) × AreReferences s.counts.items (network_of s.nodes.nodes s.inputs.items s.outputs.items) × AreLinked s.chains s.nodes.room (network_of s.nodes.nodes s.inputs.items s.outputs.items) };
}

impl Store {
    /// The store of node 0 alone.
    pub fn new(alloc: Global) -> Result<Store, AllocError>
        ensures network { IfOk result (λ s. s.network ≡ first_network) }
        ensures stamp { IfOk result (λ s. s.stamp ≡ 0) }
    {
        let nodes = NodeSlots::new(alloc)?;
        let inputs = Vec::with_capacity(alloc, 1)?;
        let mut counts = Vec::new(alloc);
        counts.push(0)?;
        let mut marks = Vec::new(alloc);
        marks.push(false)?;
        let queue = Vec::with_capacity(alloc, 1)?;
        let mut chains = Chains::new(alloc);
        grow_chains(&mut chains, 1)?;
        Ok(Store {
            nodes,
            inputs,
            outputs: Vec::new(alloc),
            stamp: 0,
            counts,
            marks,
            queue,
            chains,
        })
    }

    /// For how many new nodes there is memory. Constant time.
    pub fn spare(&self) -> u32
        ensures { result ≡ self.now.spare }
    {
        self.nodes.room() - self.nodes.live()
    }

    /// The gate at the node; `None` exactly where no gate stands there. Constant time.
    pub fn gate_of(&self, n: Node) -> Option<&Gate>
        ensures { option_map (λ g. g.now) result ≡ gate_at self.now.network n.0 }
    {
        self.nodes.gate_of(n)
    }

    /// How many fanin slots and outputs name the node: its references, 0 where it isn't live. Constant time.
    pub fn refs(&self, n: Node) -> u32
        ensures { result ≡ references self.now.network n.0 }
    {
        count_of(&self.counts, n)
    }

    /// Whether the number is live. Constant time.
    pub fn is_live(&self, n: Node) -> bool
        ensures { IsTrue result ↔ IsLive self.now.network n.0 }
    {
        self.nodes.is_live(n)
    }

    /// Whether an input stands at the number. Constant time.
    pub fn is_input(&self, n: Node) -> bool
        ensures { IsTrue result ↔ ((k : ℕ) × (entry_at self.now.network n.0 ≡ Some (Input k))) }
    {
        self.nodes.is_input(n)
    }

    /// How many numbers are live: the constant, the inputs and the gates. Constant time.
    ///
    /// The clauses but `value` are what every store keeps.
    pub fn live_count(&self) -> u32
        ensures value { result ≡ live_count self.now.network }
        ensures limit { live_count self.now.network ≤ NUMBERS }
        ensures stored { IsStored self.now.network }
    {
        self.nodes.live()
    }

    /// One past the greatest live number. Constant time.
    ///
    /// The clauses but `value` are what every store keeps.
    pub fn numbers(&self) -> u32
        ensures value { result ≡ numbers_of self.now.network }
        ensures limit { numbers_of self.now.network ≤ NUMBERS }
        ensures within { AreBelow self.now.network (numbers_of self.now.network) }
        ensures stored { IsStored self.now.network }
    {
        self.nodes.numbers()
    }

    /// The node of input `k`; `None` exactly where `k` is past the last. Constant time.
    pub fn input(&self, k: u32) -> Option<Node>
        ensures { option_map (λ n. n.0) result ≡ slice_get self.now.network.inputs k }
    {
        self.inputs.get(k as usize).copied()
    }

    /// Output `k`; `None` exactly where `k` is past the last. Constant time.
    pub fn output(&self, k: u32) -> Option<Signal>
        ensures value { result ≡ slice_get self.now.network.outputs k }
        ensures live { IfSome result (λ s. IsLive self.now.network s.node.0) }
    {
        self.outputs.get(k as usize).copied()
    }

    /// How many inputs there are. Constant time.
    pub fn input_count(&self) -> u32
        ensures { result ≡ length self.now.network.inputs }
    {
        self.inputs.len() as u32
    }

    /// How many outputs there are. Constant time.
    pub fn output_count(&self) -> u32
        ensures { result ≡ length self.now.network.outputs }
    {
        self.outputs.len() as u32
    }

    /// A reader of the store as it stands, and its counter at 0. Both carry the store's stamp, and no other call makes a
    /// counter. Constant time.
    pub fn look(&self) -> (Look<'_>, Visits)
        ensures look { result.0 ≡ self.now }
        ensures count { result.1.count ≡ 0 }
        ensures stamp { result.1.stamp ≡ self.now.stamp }
    {
        (Look::of(self), Visits::of(self.stamp))
    }
}
