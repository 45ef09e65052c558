//! Adding inputs, gates and outputs to a store, and getting memory for them.

ghost use Rattle.std.specs.Prelude.{◌≡◌, ◌≤◌, ◌<◌, ◌+◌, ◌-◌, ◌↔◌, ℕ, IfOk, OnOk, OnErr, length, min, slice_index, slice_index_or, false};
ghost use Rattle.std.specs.Vec.{vec_capacity};
ghost use Rattle.lnet_model.specs.Networks.{IsLive, IsGate, live_count};
ghost use Rattle.lnet_model.specs.Along.{nodes_read};
ghost use Rattle.lnet_model.specs.Changes.{with_entry, without, AreLive, IsLeastFree};
ghost use Rattle.lnet_model.specs.Dags.{NUMBERS, OUTPUTS};
ghost use Rattle.lnet_gates.specs.Plans.{Takes};
ghost use Rattle.lnet_store.specs.StoreValues.{raised, with_input, with_new_output};
ghost use Rattle.lnet_store.specs.Linked.{HasPlaces, KeepChains};

use crate::counting::count_all;
use crate::linking::{grow_chains, link_all};
use crate::slots::{NUMBER_LIMIT, Slot};
use crate::store::{AddError, Store};
use lnet_chains::Chains;
use lnet_gates::{Gate, Node, Signal};
use std::alloc::AllocError;

/// At least so many elements: where there are fewer, the value after them.
fn lengthen<T: Copy>(items: &mut Vec<T>, len: usize, value: T) -> Result<(), AllocError>
    ensures same { (k : ℕ) → slice_index_or items.new.items k value ≡ slice_index_or items.old.items k value }
    ensures grows { length items.old.items ≤ length items.new.items }
    ensures ok { OnOk result (len ≤ length items.new.items) }
{
    if items.len() < len {
        items.resize(len, value)?;
    }
    Ok(())
}

/// Places for so many inputs, counts and marks, of the queue, and chains. What they hold stays, whatever it answers.
fn get_places(
    inputs: &mut Vec<Node>,
    counts: &mut Vec<u32>,
    marks: &mut Vec<bool>,
    queue: &mut Vec<u32>,
    chains: &mut Chains,
    room: u32,
) -> Result<(), AllocError>
    requires room { HasPlaces chains.old × (room ≤ NUMBERS) }
    ensures inputs { inputs.new.items ≡ inputs.old.items }
    ensures capacity { vec_capacity inputs.old ≤ vec_capacity inputs.new }
    ensures counts { (k : ℕ) → slice_index counts.new.items k ≡ slice_index counts.old.items k }
    ensures counts_grow { length counts.old.items ≤ length counts.new.items }
    ensures marks { (k : ℕ) → slice_index_or marks.new.items k false ≡ slice_index_or marks.old.items k false }
    ensures marks_grow { length marks.old.items ≤ length marks.new.items }
    ensures queue_grows { vec_capacity queue.old ≤ vec_capacity queue.new }
    ensures chains { KeepChains chains.old chains.new }
    ensures ok { OnOk result ((room ≤ vec_capacity inputs.new) × (room ≤ length counts.new.items) × (room ≤ length marks.new.items) × (room ≤ vec_capacity queue.new) × (room ≤ length chains.new.lists)) }
{
    inputs.reserve(room as usize)?;
    lengthen(counts, room as usize, 0)?;
    lengthen(marks, room as usize, false)?;
    queue.reserve(room as usize)?;
    grow_chains(chains, room)?;
    Ok(())
}

impl Store {
    /// Gets memory for so many numbers. Linear in them.
    fn grow(&mut self, room: u32) -> Result<(), AllocError>
        requires within { room ≤ NUMBERS }
        requires more { live_count self.old.network + self.old.spare ≤ room }
        ensures network { self.new.network ≡ self.old.network }
        ensures stamp { self.new.stamp ≡ self.old.stamp }
        ensures grows { self.old.spare ≤ self.new.spare }
        ensures spare { OnOk result (live_count self.old.network + self.new.spare ≡ room) }
    {
        match get_places(
            &mut self.inputs,
            &mut self.counts,
            &mut self.marks,
            &mut self.queue,
            &mut self.chains,
            room,
        ) {
            Ok(()) => self.nodes.grow(room),
            Err(error) => Err(error),
        }
    }

    /// Gets memory for so many new nodes, or for as many as there are free numbers. Refused for want of it, the network is as
    /// it was, and no memory is lost. Where there is too little, the room is doubled at least, so that building is linear.
    /// Linear in the numbers, and constant time where there is enough.
    pub fn reserve(&mut self, numbers: u32) -> Result<(), AllocError>
        ensures network { self.new.network ≡ self.old.network }
        ensures stamp { self.new.stamp ≡ self.old.stamp }
        ensures grows { self.old.spare ≤ self.new.spare }
        ensures spare { OnOk result (min numbers (NUMBERS - live_count self.old.network) ≤ self.new.spare) }
    {
        let live = self.nodes.live();
        let room = self.nodes.room();
        let wanted = numbers.min(NUMBER_LIMIT - live);
        if wanted <= room - live {
            return Ok(());
        }
        self.grow((live + wanted).max(2 * room).min(NUMBER_LIMIT))
    }

    /// Memory for one new node at least. Refused for want of it, there is memory for none.
    fn make_space(&mut self) -> Result<(), AllocError>
        requires { live_count self.old.network < NUMBERS }
        ensures network { self.new.network ≡ self.old.network }
        ensures stamp { self.new.stamp ≡ self.old.stamp }
        ensures grows { self.old.spare ≤ self.new.spare }
        ensures spare { OnOk result (0 < self.new.spare) }
        ensures refused { OnErr result (self.old.spare ≡ 0) }
    {
        if self.spare() > 0 {
            return Ok(());
        }
        self.reserve(1)
    }

    /// The least number that isn't live, where there is memory for a node. Constant time.
    fn least_free(&self) -> Node
        requires { 0 < self.now.spare }
        ensures { IsLeastFree self.now.network result.0 }
    {
        self.nodes.next_free()
    }

    /// The least number that isn't live, and memory for a node there.
    fn free_number(&mut self) -> Result<Node, AddError>
        ensures network { self.new.network ≡ self.old.network }
        ensures stamp { self.new.stamp ≡ self.old.stamp }
        ensures grows { self.old.spare ≤ self.new.spare }
        ensures number { IfOk result (λ n. IsLeastFree self.old.network n.0) }
        ensures spare { OnOk result (0 < self.new.spare) }
        ensures full { (result ≡ Err AddError.Full) ↔ (live_count self.old.network ≡ NUMBERS) }
        ensures memory { result ≡ Err AddError.NoMemory → self.old.spare ≡ 0 }
    {
        if self.nodes.live() == NUMBER_LIMIT {
            return Err(AddError::Full);
        }
        match self.make_space() {
            Ok(()) => Ok(self.least_free()),
            Err(_) => Err(AddError::NoMemory),
        }
    }

    /// Sets a gate at the least number that isn't live.
    fn place(&mut self, n: Node, gate: Gate)
        requires number { IsLeastFree self.old.network n.0 }
        requires spare { 0 < self.old.spare }
        requires live { AreLive self.old.network (nodes_read gate.fanins) }
        requires arity { Takes gate.op (length gate.fanins) }
        ensures network { self.new.network ≡ with_entry self.old.network n.0 (IsGate gate) }
        ensures stamp { self.new.stamp ≡ raised self.old.stamp }
        ensures spare { self.old.spare ≡ self.new.spare + 1 }
    {
        count_all(&mut self.counts, &gate.fanins);
        link_all(&mut self.chains, n, &gate.fanins);
        self.nodes.fill(n, Slot::Gate(gate));
        self.stamp = self.stamp.saturating_add(1);
    }

    /// Sets a new input at the least number that isn't live.
    fn place_input(&mut self, n: Node)
        requires number { IsLeastFree self.old.network n.0 }
        requires spare { 0 < self.old.spare }
        ensures network { self.new.network ≡ with_input self.old.network n.0 }
        ensures stamp { self.new.stamp ≡ raised self.old.stamp }
        ensures spare { self.old.spare ≡ self.new.spare + 1 }
    {
        let k = self.inputs.len() as u32;
        self.nodes.fill(n, Slot::Input(k));
        self.inputs.push_reserved(n);
        self.stamp = self.stamp.saturating_add(1);
    }

    /// Adds an input, under the least number that isn't live. `Full` exactly where every number is live; else `NoMemory`
    /// where memory ran out, and never where `spare` is above 0. Refused, it leaves the network as it was. Constant time,
    /// amortized.
    pub fn add_input(&mut self) -> Result<Node, AddError>
        ensures number { IfOk result (λ n. IsLeastFree self.old.network n.0) }
        ensures network { IfOk result (λ n. self.new.network ≡ with_input self.old.network n.0) }
        ensures was { IfOk result (λ n. without self.new.network n.0 ≡ record self.old.network { inputs = self.new.network.inputs }) }
        ensures stamp { OnOk result (self.new.stamp ≡ raised self.old.stamp) }
        ensures spare { OnOk result (self.old.spare ≤ self.new.spare + 1) }
        ensures refused { OnErr result ((self.new.network ≡ self.old.network) × (self.new.stamp ≡ self.old.stamp) × (self.old.spare ≤ self.new.spare)) }
        ensures full { (result ≡ Err AddError.Full) ↔ (live_count self.old.network ≡ NUMBERS) }
        ensures memory { result ≡ Err AddError.NoMemory → self.old.spare ≡ 0 }
    {
        match self.free_number() {
            Ok(n) => {
                self.place_input(n);
                Ok(n)
            }
            Err(error) => Err(error),
        }
    }

    /// Adds the gate, under the least number that isn't live. Its fanins are live, as many as its operation takes. `Full`
    /// exactly where every number is live; else `NoMemory` where memory ran out, and never where `spare` is above 0. Refused,
    /// it leaves the network as it was. Constant time, amortized.
    pub fn add(&mut self, gate: Gate) -> Result<Node, AddError>
        requires live { AreLive self.old.network (nodes_read gate.fanins) }
        requires arity { Takes gate.op (length gate.fanins) }
        ensures number { IfOk result (λ n. IsLeastFree self.old.network n.0) }
        ensures network { IfOk result (λ n. self.new.network ≡ with_entry self.old.network n.0 (IsGate gate)) }
        ensures was { IfOk result (λ n. without self.new.network n.0 ≡ self.old.network) }
        ensures stamp { OnOk result (self.new.stamp ≡ raised self.old.stamp) }
        ensures spare { OnOk result (self.old.spare ≤ self.new.spare + 1) }
        ensures refused { OnErr result ((self.new.network ≡ self.old.network) × (self.new.stamp ≡ self.old.stamp) × (self.old.spare ≤ self.new.spare)) }
        ensures full { (result ≡ Err AddError.Full) ↔ (live_count self.old.network ≡ NUMBERS) }
        ensures memory { result ≡ Err AddError.NoMemory → self.old.spare ≡ 0 }
    {
        match self.free_number() {
            Ok(n) => {
                self.place(n, gate);
                Ok(n)
            }
            Err(error) => Err(error),
        }
    }

    /// Adds an output, and tells its place. The signal's node is live, and there are fewer outputs than the limit of
    /// 100,000,000. Refused for want of memory, it leaves the network as it was. Constant time, amortized.
    pub fn add_output(&mut self, s: Signal) -> Result<u32, AllocError>
        requires live { IsLive self.old.network s.node.0 }
        requires few { length self.old.network.outputs < OUTPUTS }
        ensures place { IfOk result (λ k. k ≡ length self.old.network.outputs) }
        ensures network { OnOk result (self.new.network ≡ with_new_output self.old.network s) }
        ensures stamp { OnOk result (self.new.stamp ≡ raised self.old.stamp) }
        ensures refused { OnErr result ((self.new.network ≡ self.old.network) × (self.new.stamp ≡ self.old.stamp)) }
        ensures spare { self.old.spare ≤ self.new.spare }
    {
        let k = self.outputs.len() as u32;
        match self.outputs.push(s) {
            Ok(()) => {
                count_all(&mut self.counts, &[s]);
                self.stamp = self.stamp.saturating_add(1);
                Ok(k)
            }
            Err(_) => Err(AllocError),
        }
    }
}
