//! What stands at each number.

ghost use Rattle.std.specs.Prelude.{◌≡◌, ◌≤◌, ◌<◌, ◌+◌, ◌↔◌, ℕ, IsTrue, IsSome, None, Some, IfOk, OnOk, OnErr, option_map, slice_index_or, ◌++◌, ◌-◌, length, replicate, slice_set};
ghost use Rattle.std.specs.FinMap.{get, len, insert, remove, empty};
ghost use Rattle.std.specs.Vec.{vec_len, vec_capacity};
ghost use Rattle.lnet_model.specs.Networks.{Constant, Input, IsGate, gate_in};
ghost use Rattle.lnet_model.specs.Dags.{NUMBERS};
ghost use Rattle.lnet_store.specs.Held.{entry_of, entry_in, IsFitting};

use lnet_gates::{Gate, Node};
use lnet_numbers::NumberSet;
use std::alloc::{AllocError, Global};
use std::marker::Model;
use std::mem;

/// How many numbers a network can have: the constant, inputs and gates together.
pub const NUMBER_LIMIT: u32 = 1_048_576;

/// What stands at a live number.
#[derive(Drop)]
pub(crate) enum Slot {
    /// The constant false.
    Constant,
    /// The input at this place of the list of inputs.
    Input(u32),
    /// A gate.
    Gate(Gate),
}

/// What stands at the number.
fn slot_at(slots: &[Option<Slot>], n: Node) -> Option<&Slot>
    ensures { option_map (λ s. s.now) result ≡ slice_index_or slots.now n.0 None }
{
    match slots.get(n.0 as usize) {
        Some(Some(slot)) => Some(slot),
        _ => None,
    }
}

/// A slot for each number that there is room for, empty where the number isn't live, and which are.
#[derive(Drop)]
pub(crate) struct NodeSlots {
    slots: Vec<Option<Slot>>,
    live: u32,
    numbers: u32,
    free: NumberSet,
}

impl Model for NodeSlots {
    ghost use Rattle.std.specs.Prelude.{length};
    ghost use Rattle.lnet_store.specs.Held.{Numbered, numbered_code, held, IsCounted};

    ghost Value = { Numbered };

    ghost coded = { numbered_code };

    ghost view = { λ s. record { nodes = held s.slots.items; room = length s.slots.items } };

    ghost invariant = { λ s. IsCounted s.slots.items s.live s.numbers s.free };
}

/// So many empty slots more, for which there is room. Linear in them.
fn extend(slots: &mut Vec<Option<Slot>>, more: u32)
    requires { vec_len slots.old + more ≤ vec_capacity slots.old }
    ensures { slots.new.items ≡ slots.old.items ++ replicate more None }
{
    'slots: for _ in 0..more {
        slots.push_reserved(None);
    }
}

/// Puts something else into the slot of the number, and gives back what was in it.
fn exchange(slots: &mut Vec<Option<Slot>>, n: Node, slot: Option<Slot>) -> Option<Slot>
    requires { n.0 < length slots.old.items }
    ensures old { result ≡ slice_index_or slots.old.items n.0 None }
    ensures new { slots.new.items ≡ slice_set slots.old.items n.0 slot }
{
    mem::replace(&mut slots[n.0 as usize], slot)
}

/// The gate of a slot that has one.
fn gate_from(slot: Option<Slot>) -> Gate
    requires { IsSome (gate_in (entry_in slot)) }
    ensures { gate_in (entry_in slot) ≡ Some result }
{
    match slot {
        Some(Slot::Gate(gate)) => gate,
        _ => unreachable!(),
    }
}

/// One past the greatest number below `numbers` that isn't free, 0 without one.
fn top_of(slots: &[Option<Slot>], numbers: u32) -> u32
    requires { numbers ≤ length slots.now }
    ensures most { result ≤ numbers }
    ensures past { (n : ℕ) → result ≤ n → n < numbers → slice_index_or slots.now n None ≡ None }
    ensures top { (n : ℕ) → n + 1 ≡ result → IsSome (slice_index_or slots.now n None) }
{
    let mut top = numbers;
    'search: while top > 0 && slots[top as usize - 1].is_none() {
        top -= 1;
    }
    top
}

impl NodeSlots {
    /// Node 0 alone, the constant.
    pub(crate) fn new(alloc: Global) -> Result<NodeSlots, AllocError>
        ensures nodes { IfOk result (λ s. s.nodes ≡ insert empty 0 Constant) }
        ensures room { IfOk result (λ s. s.room ≡ 1) }
        ensures fitting { IfOk result (λ s. IsFitting s) }
    {
        let mut slots = Vec::new(alloc);
        slots.push(Some(Slot::Constant))?;
        let mut free = NumberSet::new(alloc);
        free.grow(1, true)?;
        free.remove(0);
        Ok(NodeSlots {
            slots,
            live: 1,
            numbers: 1,
            free,
        })
    }

    /// How many numbers are live. Constant time.
    pub(crate) fn live(&self) -> u32
        ensures value { result ≡ len self.now.nodes }
        ensures fits { len self.now.nodes ≤ self.now.room }
        ensures limit { len self.now.nodes ≤ NUMBERS }
    {
        self.live
    }

    /// How many slots there are. Constant time.
    pub(crate) fn room(&self) -> u32
        ensures value { result ≡ self.now.room }
        ensures limit { self.now.room ≤ NUMBERS }
        ensures fits { len self.now.nodes ≤ self.now.room }
        ensures within { (n : ℕ) → IsSome (get self.now.nodes n) → n < self.now.room }
    {
        self.slots.len() as u32
    }

    /// One past the greatest live number, 0 without one. Constant time.
    pub(crate) fn numbers(&self) -> u32
        ensures below { (n : ℕ) → IsSome (get self.now.nodes n) → n < result }
        ensures top { (n : ℕ) → n + 1 ≡ result → IsSome (get self.now.nodes n) }
        ensures room { result ≤ self.now.room }
    {
        self.numbers
    }

    /// What stands at the number; `None` exactly where it isn't live. Constant time.
    pub(crate) fn at(&self, n: Node) -> Option<&Slot>
        ensures { option_map (λ s. entry_of s.now) result ≡ get self.now.nodes n.0 }
    {
        slot_at(&self.slots, n)
    }

    /// Whether the number is live. Constant time.
    pub(crate) fn is_live(&self, n: Node) -> bool
        ensures { IsTrue result ↔ IsSome (get self.now.nodes n.0) }
    {
        self.at(n).is_some()
    }

    /// Whether an input stands at the number. Constant time.
    pub(crate) fn is_input(&self, n: Node) -> bool
        ensures { IsTrue result ↔ ((k : ℕ) × (get self.now.nodes n.0 ≡ Some (Input k))) }
    {
        matches!(self.at(n), Some(Slot::Input(_)))
    }

    /// The gate at the number; `None` exactly where none stands there. Constant time.
    pub(crate) fn gate_of(&self, n: Node) -> Option<&Gate>
        ensures { option_map (λ g. g.now) result ≡ gate_in (get self.now.nodes n.0) }
    {
        match self.at(n) {
            Some(Slot::Gate(gate)) => Some(gate),
            _ => None,
        }
    }

    /// Gets memory for so many numbers. Linear in them.
    pub(crate) fn grow(&mut self, room: u32) -> Result<(), AllocError>
        requires within { room ≤ NUMBERS }
        requires more { self.old.room ≤ room }
        ensures nodes { self.new.nodes ≡ self.old.nodes }
        ensures ok { OnOk result (self.new.room ≡ room) }
        ensures err { OnErr result (self.new.room ≡ self.old.room) }
        ensures grows { self.old.room ≤ self.new.room }
        ensures most { self.new.room ≤ room }
        ensures fitting { IsFitting self.new }
    {
        let more = room - self.slots.len() as u32;
        self.slots.reserve(more as usize)?;
        self.free.grow(room, true)?;
        extend(&mut self.slots, more);
        Ok(())
    }

    /// The least number that isn't live. Constant time.
    pub(crate) fn next_free(&self) -> Node
        requires { len self.now.nodes < self.now.room }
        ensures free { get self.now.nodes result.0 ≡ None }
        ensures least { (m : ℕ) → m < result.0 → IsSome (get self.now.nodes m) }
        ensures within { result.0 < self.now.room }
    {
        match self.free.least() {
            Some(n) => Node(n),
            None => unreachable!(),
        }
    }

    /// Fills the slot of the least number that isn't live. Constant time.
    pub(crate) fn fill(&mut self, n: Node, slot: Slot)
        requires space { len self.old.nodes < self.old.room }
        requires free { get self.old.nodes n.0 ≡ None }
        requires least { (m : ℕ) → m < n.0 → IsSome (get self.old.nodes m) }
        ensures nodes { self.new.nodes ≡ insert self.old.nodes n.0 (entry_of slot) }
        ensures room { self.new.room ≡ self.old.room }
        ensures fitting { IsFitting self.new }
        ensures within { n.0 < NUMBERS }
    {
        self.slots[n.0 as usize] = Some(slot);
        self.live += 1;
        self.numbers = self.numbers.max(n.0 + 1);
        self.free.remove(n.0);
    }

    /// Sets another gate at a gate's number, and gives the old one back. Constant time.
    pub(crate) fn set_gate(&mut self, n: Node, gate: Gate) -> Gate
        requires { IsSome (gate_in (get self.old.nodes n.0)) }
        ensures nodes { self.new.nodes ≡ insert self.old.nodes n.0 (IsGate gate) }
        ensures room { self.new.room ≡ self.old.room }
        ensures old { gate_in (get self.old.nodes n.0) ≡ Some result }
        ensures fitting { IsFitting self.new }
    {
        gate_from(exchange(&mut self.slots, n, Some(Slot::Gate(gate))))
    }

    /// Takes the gate out of its slot. Constant time, amortized.
    pub(crate) fn take_gate(&mut self, n: Node) -> Gate
        requires { IsSome (gate_in (get self.old.nodes n.0)) }
        ensures nodes { self.new.nodes ≡ remove self.old.nodes n.0 }
        ensures room { self.new.room ≡ self.old.room }
        ensures old { gate_in (get self.old.nodes n.0) ≡ Some result }
        ensures fitting { IsFitting self.new }
    {
        let old = exchange(&mut self.slots, n, None);
        self.live -= 1;
        self.numbers = top_of(&self.slots, self.numbers);
        self.free.insert(n.0);
        gate_from(old)
    }
}
