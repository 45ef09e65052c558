//! Answers by a rule that follow a network event by event.

ghost use Rattle.std.specs.Prelude.{◌≡◌, ℕ, ◌+◌, ◌<◌, ◌≤◌, length, slice_index_or, is_some, true, false, None, Some, OnOk, OnErr, IfOk, option_map};
ghost use Rattle.lnet_model.specs.Changes.{was, IsEvent};
ghost use Rattle.lnet_model.specs.Dags.{IsDag, AreBelow, NUMBERS, numbers_of};
ghost use Rattle.lnet_views.specs.Keeping.{height};
ghost use Rattle.lnet_views.specs.Chains.{IsIdle};

use crate::building::{build, grow};
use crate::kept::{Kept, clear, level_of, make_room, value_of};
use crate::queue::Queue;
use crate::repairing::follow;
use crate::rule::Rule;
use lnet_gates::Node;
use lnet_model::Event;
use lnet_store::{Look, Store, Visits};
use std::alloc::{AllocError, Global};

/// For each live node of a network its value by a rule and its level, kept in step event by event.
///
/// A follower is detached, or attached by a rule. Its invariants, by the names of the ghost fields:
/// - `few`: it has room for at most `u32::MAX` numbers;
/// - `full`, `heads`: while it is attached, it has a value for each number with room, and a chain for each level;
/// - `waits_len`, `idle`: each number with room can wait, and none does between calls;
/// - `small`, `low`: a level is at most 1,048,576, and at most the room;
/// - `empty`: it keeps no answer while it is detached.
#[derive(Drop)]
pub struct Follow<R: Rule> {
    rule: Option<R>,
    kept: Kept<R::Value>,
    ghost few: { length kept.levels.items ≤ 4294967295 },
    ghost waits_len: { length kept.levels.items ≤ length kept.queue.levels.items },
    ghost idle: { IsIdle kept.queue },
    ghost small: { (n : ℕ) → height kept.levels.items n ≤ NUMBERS },
    ghost low: { (n : ℕ) → height kept.levels.items n ≤ length kept.levels.items },
    ghost full: { is_some rule ≡ true → length kept.values.items ≡ length kept.levels.items },
    ghost heads: { is_some rule ≡ true → length kept.levels.items < length kept.queue.heads.items },
    ghost empty: { is_some rule ≡ false → (n : ℕ) → slice_index_or kept.levels.items n None ≡ None },
}

impl<R: Rule> Follow<R> {
    ghost use Rattle.lnet_views.specs.Follows.{answers_in, room_in, IsFollowing, follow_bound};

    /// A detached follower, with memory for no number. It takes no memory yet.
    pub fn new(alloc: Global) -> Result<Follow<R>, AllocError>
        ensures ok { OnErr result ⊥ }
        ensures rule { IfOk result (λ f. f.rule ≡ None) }
    {
        Ok(Follow {
            rule: None,
            kept: Kept {
                values: Vec::new(alloc),
                levels: Vec::new(alloc),
                queue: Queue::new(alloc),
            },
        })
    }

    /// Whether it is attached; while it isn't, it keeps no answer. Constant time.
    pub fn is_attached(&self) -> bool
        ensures value { result ≡ is_some self.now.rule }
        ensures empty { result ≡ false → (n : ℕ) → answers_in self.now.kept n ≡ None }
    {
        self.rule.is_some()
    }

    /// Attaches the detached follower to the store's network, by the rule. Refused for want of memory, it stays detached.
    /// Each live node is computed once: linear in the store's numbers and fanins.
    pub fn attach(&mut self, store: &Store, rule: R) -> Result<(), AllocError>
        requires detached { self.old.rule ≡ None }
        ensures rule { OnOk result (self.new.rule ≡ Some rule) }
        ensures in_step { OnOk result (IsFollowing R.Value.eq R.first_of R.gives self.new.rule (answers_in self.new.kept) store.now.network) }
        ensures grows { room_in self.old.kept ≤ room_in self.new.kept }
        ensures room { OnOk result (numbers_of store.now.network ≤ room_in self.new.kept) }
        ensures refused { OnErr result (self.new.rule ≡ None) }
        ensures empty { OnErr result ((n : ℕ) → answers_in self.new.kept n ≡ None) }
    {
        match build(&mut self.kept, &rule, store) {
            Ok(()) => {
                self.rule = Some(rule);
                Ok(())
            }
            Err(refused) => {
                clear(&mut self.kept);
                Err(refused)
            }
        }
    }

    /// Detaches the follower, and drops its answers. It takes no memory. Linear in the numbers that it has memory for.
    pub fn detach(&mut self)
        ensures rule { self.new.rule ≡ None }
        ensures empty { (n : ℕ) → answers_in self.new.kept n ≡ None }
        ensures room { room_in self.new.kept ≡ room_in self.old.kept }
    {
        clear(&mut self.kept);
        self.rule = None;
    }

    /// Gets memory for at least so many numbers. Whatever it answers, the follower keeps its rule and its answers. While it is
    /// detached, the memory for the values comes with the attach alone. Linear in the numbers.
    pub fn reserve(&mut self, numbers: u32) -> Result<(), AllocError>
        ensures rule { self.new.rule ≡ self.old.rule }
        ensures kept { (n : ℕ) → answers_in self.new.kept n ≡ answers_in self.old.kept n }
        ensures grows { room_in self.old.kept ≤ room_in self.new.kept }
        ensures room { OnOk result (numbers ≤ room_in self.new.kept) }
    {
        match &self.rule {
            Some(rule) => grow(&mut self.kept, rule, numbers),
            None => make_room(&mut self.kept.levels, &mut self.kept.queue, numbers),
        }
    }

    /// Brings the answers in step with the network after the event. The follower is in step with the network before the
    /// event, and has memory for each number that is live before or after it. It takes no memory.
    ///
    /// The reads that it counts are at most one, and two for each place in the fanout of a node that was live before and
    /// whose level or value the event changes. The time is that of computing each gate that it reads, and of passing over the
    /// levels from the event's node up to the last node that is computed.
    pub fn after(&mut self, look: Look, event: &Event, visits: &mut Visits)
        requires before { IsDag (was event.now look.network) }
        requires in_step { IsFollowing R.Value.eq R.first_of R.gives self.old.rule (answers_in self.old.kept) (was event.now look.network) }
        requires event { IsEvent event.now look.network }
        requires room { AreBelow look.network (room_in self.old.kept) }
        requires room_before { AreBelow (was event.now look.network) (room_in self.old.kept) }
        requires stamp { visits.old.stamp ≡ look.stamp }
        ensures rule { self.new.rule ≡ self.old.rule }
        ensures in_step { IsFollowing R.Value.eq R.first_of R.gives self.new.rule (answers_in self.new.kept) look.entry.network }
        ensures room { room_in self.old.kept ≤ room_in self.new.kept }
        ensures stamp { visits.new.stamp ≡ visits.old.stamp }
        ensures visits { visits.new.count ≤ visits.old.count + follow_bound R.Value.eq R.first_of R.gives event.now look.entry.network self.old.rule }
    {
        if let Some(rule) = &self.rule {
            let _live_count = look.live_count();
            follow(&mut self.kept, rule, &look, event, visits);
        }
    }

    /// The value of the node; `None` exactly where the follower is detached or the node isn't live. Constant time.
    pub fn value(&self, n: Node) -> Option<&R::Value>
        ensures value { option_map (λ v. v.now) result ≡ option_map (λ a. a.0) (answers_in self.now.kept n.0) }
        ensures detached { self.now.rule ≡ None → result ≡ None }
    {
        match level_of(&self.kept.levels, n) {
            Some(_) => value_of(&self.kept.values, n),
            None => None,
        }
    }

    /// The level of the node; `None` exactly where the follower is detached or the node isn't live. Constant time.
    pub fn level(&self, n: Node) -> Option<u32>
        ensures level { result ≡ option_map (λ a. a.1) (answers_in self.now.kept n.0) }
        ensures detached { self.now.rule ≡ None → result ≡ None }
    {
        level_of(&self.kept.levels, n)
    }
}
