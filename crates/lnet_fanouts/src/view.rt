//! The fanout view: the fanout of each node.

ghost use Rattle.std.specs.Prelude.{◌≡◌, ◌≤◌, ◌+◌, ℕ, IfOk, OnErr, OnOk, None, [], false, length, slice_index_or};
ghost use Rattle.lnet_model.specs.Answers.{InStep};
ghost use Rattle.lnet_model.specs.Dags.{NUMBERS};
ghost use Rattle.lnet_chains.specs.Lists.{list_of};
ghost use Rattle.lnet_fanouts.specs.FanoutViews.{HasSlots};

use crate::linking::{SLOTS, fill, link, take_all};
use crate::live::{clear, extend, is_live};
use crate::pairs::{next_place, pair_of};
use lnet_gates::{Gate, Node};
use lnet_model::{Cut, Event, ViewKind, ViewSpec};
use lnet_pools::Pool;
use lnet_store::{Look, NUMBER_LIMIT, Store, View, Visits};
use std::alloc::{AllocError, Global};

/// For how many numbers there are lists where there is memory for so many: a store has no more than its limit.
fn lists_for(numbers: u32) -> u32
    ensures fewer { result ≤ numbers }
    ensures few { result ≤ NUMBERS }
    ensures enough { (k : ℕ) → k ≤ numbers → k ≤ NUMBERS → k ≤ result }
{
    if numbers > NUMBER_LIMIT {
        NUMBER_LIMIT
    } else {
        numbers
    }
}

/// A view that keeps the fanout of each live node: the pairs of a parent and a slot whose fanin is the node, ascending by parent,
/// then by slot.
///
/// A pair is a place, `6 * parent + slot`: the order of places is that of the pairs. Memory: 117 bytes a number that a store can
/// have, and a byte for each beyond.
///
/// Its invariants, by the names of the ghost fields:
/// - `slots`: a list for each number that a store can have, and six places for each list;
/// - `silent`: while it is detached, no number is said to be live;
/// - `empty`: the list of a number that isn't live has nothing in it.
pub struct FanoutView {
    /// By node the places of the slots that name it.
    pool: Pool,
    /// By number whether it is live.
    live: Vec<bool>,
    attached: bool,
    ghost slots: { HasSlots pool live.items },
    ghost silent: { attached ≡ false → (n : ℕ) → slice_index_or live.items n false ≡ false },
    ghost empty: { (n : ℕ) → slice_index_or live.items n false ≡ false → list_of pool n ≡ [] },
}

impl Drop for FanoutView {
    /// Lets its fields go. Where a value ends this is called; a derived one would be written out there.
    fn drop(self) {
        let Self {
            pool: _,
            live: _,
            attached: _,
        } = self;
    }
}

impl FanoutView {
    ghost use Rattle.lnet_model.specs.declared.event.Event.TheVariants.{Added, Modified, Deleted};
    ghost use Rattle.lnet_fanouts.specs.FanoutViews.{IsTold, fanout_spec, fanouts_in};

    /// A detached view, with memory for no number. It takes no memory yet.
    pub fn new(alloc: Global) -> Result<FanoutView, AllocError>
        ensures ok { OnErr result ⊥ }
        ensures detached { IfOk result (λ v. ⟦<FanoutView as View>⟧.spec_of v ≡ None) }
    {
        Ok(FanoutView {
            pool: Pool::new(alloc),
            live: Vec::new(alloc),
            attached: false,
        })
    }

    /// Gets memory for at least so many numbers, and keeps all else. Linear in what is new, amortized.
    fn grow(&mut self, numbers: u32) -> Result<(), AllocError>
        ensures attached { self.new.attached ≡ self.old.attached }
        ensures lists { (n : ℕ) → list_of self.new.pool n ≡ list_of self.old.pool n }
        ensures live { (n : ℕ) → slice_index_or self.new.live.items n false ≡ slice_index_or self.old.live.items n false }
        ensures grows { length self.old.live.items ≤ length self.new.live.items }
        ensures room { OnOk result (numbers ≤ length self.new.live.items) }
    {
        if numbers as usize <= self.live.len() {
            return Ok(());
        }
        let more = numbers as usize - self.live.len();
        let lists = lists_for(numbers);
        self.live.reserve(more)?;
        self.pool.grow(lists, SLOTS * lists)?;
        extend(&mut self.live, more);
        Ok(())
    }

    /// Keeps the number that was added. One read.
    fn add(&mut self, n: Node, look: &Look, visits: &mut Visits)
        requires told { IsTold self.old.pool self.old.live.items self.old.attached look.now.network (Added n) }
        requires stamp { visits.old.stamp ≡ look.now.stamp }
        ensures attached { self.new.attached ≡ self.old.attached }
        ensures room { length self.new.live.items ≡ length self.old.live.items }
        ensures in_step { InStep (fanout_spec self.new.attached) (fanouts_in self.new.pool self.new.live.items) look.now.network }
        ensures stamp { visits.new.stamp ≡ visits.old.stamp }
        ensures count { visits.new.count ≤ visits.old.count + 1 }
    {
        link(&mut self.pool, n, look, visits);
        self.live[n.0 as usize] = true;
    }

    /// Keeps the gate at the number that was set in place of the old one. One read.
    fn modify(&mut self, n: Node, old: &Gate, look: &Look, visits: &mut Visits)
        requires told { IsTold self.old.pool self.old.live.items self.old.attached look.now.network (Modified n old.now) }
        requires stamp { visits.old.stamp ≡ look.now.stamp }
        ensures attached { self.new.attached ≡ self.old.attached }
        ensures room { length self.new.live.items ≡ length self.old.live.items }
        ensures in_step { InStep (fanout_spec self.new.attached) (fanouts_in self.new.pool self.new.live.items) look.now.network }
        ensures stamp { visits.new.stamp ≡ visits.old.stamp }
        ensures count { visits.new.count ≤ visits.old.count + 1 }
    {
        take_all(&mut self.pool, n, &old.fanins);
        link(&mut self.pool, n, look, visits);
    }

    /// Keeps nothing of the number any more, at which the old gate stood. No read.
    fn delete(&mut self, n: Node, old: &Gate, look: &Look)
        requires told { IsTold self.old.pool self.old.live.items self.old.attached look.now.network (Deleted n old.now) }
        ensures attached { self.new.attached ≡ self.old.attached }
        ensures room { length self.new.live.items ≡ length self.old.live.items }
        ensures in_step { InStep (fanout_spec self.new.attached) (fanouts_in self.new.pool self.new.live.items) look.now.network }
    {
        take_all(&mut self.pool, n, &old.fanins);
        self.live[n.0 as usize] = false;
    }
}

impl View for FanoutView {
    ghost use Rattle.lnet_model.specs.declared.view_spec.ViewKind.TheVariants.{Fanout};
    ghost use Rattle.lnet_fanouts.specs.FanoutViews.{fanout_spec, fanouts_in};

    ghost kind_of = { λ v. Fanout };

    ghost spec_of = { λ v. fanout_spec v.attached };

    ghost kept = { λ v. fanouts_in v.pool v.live.items };

    ghost room = { λ v. length v.live.items };

    fn kind(&self) -> ViewKind {
        ViewKind::Fanout
    }

    fn spec(&self) -> Option<ViewSpec> {
        if self.attached {
            Some(ViewSpec::Fanout)
        } else {
            None
        }
    }

    fn attach(&mut self, store: &Store, spec: ViewSpec) -> Result<(), AllocError> {
        self.grow(store.numbers())?;
        fill(&mut self.pool, &mut self.live, store);
        self.attached = true;
        Ok(())
    }

    fn detach(&mut self) {
        self.pool.clear();
        clear(&mut self.live);
        self.attached = false;
    }

    fn reserve(&mut self, numbers: u32) -> Result<(), AllocError> {
        self.grow(numbers)
    }

    fn after(&mut self, look: Look, event: &Event, visits: &mut Visits) {
        let _stored = look.live_count();
        match event {
            Event::Added(n) => self.add(*n, &look, visits),
            Event::Modified(n, old) => self.modify(*n, old, &look, visits),
            Event::Deleted(n, old) => self.delete(*n, old, &look),
        }
    }

    fn level(&self, n: Node) -> Option<u32> {
        None
    }

    fn fanout_len(&self, n: Node) -> Option<u32> {
        if is_live(&self.live, n) {
            Some(self.pool.len(n.0))
        } else {
            None
        }
    }

    fn fanout_at(&self, n: Node, i: u32) -> Option<(Node, u8)> {
        if !is_live(&self.live, n) {
            return None;
        }
        match self.pool.get(n.0, i) {
            Some(place) => Some(pair_of(place)),
            None => None,
        }
    }

    fn fanout_next(&self, n: Node, last: Option<(Node, u8)>) -> Option<(Node, u8)> {
        if !is_live(&self.live, n) {
            return None;
        }
        match next_place(&self.pool, n, last) {
            Some(place) => Some(pair_of(place)),
            None => None,
        }
    }

    fn cut_len(&self, n: Node) -> Option<u8> {
        None
    }

    fn cut_at(&self, n: Node, i: u8) -> Option<Cut> {
        None
    }
}
