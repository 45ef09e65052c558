//! Numbers that wait, linked by level: the lowest level comes first.

ghost use Rattle.std.specs.Prelude.{◌≡◌, ℕ, ◌<◌, ◌≤◌, [], length, max, slice_index_or, slice_set, MatchOption, None, Some, OnOk, OnErr};

use std::alloc::{AllocError, Global};

/// Numbers that wait, in a chain for each level.
#[derive(Drop)]
pub struct Queue {
    /// By level the first of its chain.
    pub heads: Vec<Option<u32>>,
    /// By number the next in its chain.
    pub next: Vec<Option<u32>>,
    /// By number the level at which it waits.
    pub levels: Vec<Option<u32>>,
    /// No number waits at a lower level.
    pub floor: usize,
    /// How many wait.
    pub count: usize,
}

/// Lengthens the list by `None` to at least so many items.
pub fn lengthen(items: &mut Vec<Option<u32>>, len: usize) -> Result<(), AllocError>
    ensures same { (n : ℕ) → slice_index_or items.new.items n None ≡ slice_index_or items.old.items n None }
    ensures grows { length items.old.items ≤ length items.new.items }
    ensures most { length items.new.items ≤ max (length items.old.items) len }
    ensures room { OnOk result (len ≤ length items.new.items) }
    ensures refused { OnErr result (length items.new.items ≡ length items.old.items) }
{
    if items.len() >= len {
        return Ok(());
    }
    items.resize(len, None)
}

impl Queue {
    ghost use Rattle.lnet_views.specs.Chains.{at, IsQueue, IsLowest, IsIdle};

    /// A queue in which nothing waits, with memory for no number.
    pub fn new(alloc: Global) -> Queue
        ensures idle { IsIdle result }
        ensures levels { result.levels.items ≡ [] }
    {
        Queue {
            heads: Vec::new(alloc),
            next: Vec::new(alloc),
            levels: Vec::new(alloc),
            floor: 0,
            count: 0,
        }
    }

    /// Gets memory for the numbers and the levels up to `room`, where nothing waits.
    pub fn reserve(&mut self, room: usize) -> Result<(), AllocError>
        requires few { room ≤ 4294967295 }
        requires idle { IsIdle self.old }
        ensures idle { IsIdle self.new }
        ensures grows { length self.old.levels.items ≤ length self.new.levels.items }
        ensures heads { length self.old.heads.items ≤ length self.new.heads.items }
        ensures room { OnOk result (room ≤ length self.new.levels.items) }
        ensures heads_room { OnOk result (room < length self.new.heads.items) }
        ensures floor { self.new.floor ≡ self.old.floor }
    {
        lengthen(&mut self.heads, room + 1)?;
        lengthen(&mut self.next, room)?;
        lengthen(&mut self.levels, room)?;
        Ok(())
    }

    /// Lets a number wait at a level that is not below the floor.
    pub fn put(&mut self, n: u32, level: u32)
        requires queue { IsQueue self.old }
        requires number { n < length self.old.levels.items }
        requires level { level < length self.old.heads.items }
        requires floor { self.old.floor ≤ level }
        requires idle { at self.old.levels.items n ≡ None }
        ensures queue { IsQueue self.new }
        ensures levels { self.new.levels.items ≡ slice_set self.old.levels.items n (Some level) }
        ensures heads { length self.new.heads.items ≡ length self.old.heads.items }
        ensures floor { self.new.floor ≡ self.old.floor }
    {
        self.next[n as usize] = self.heads[level as usize];
        self.heads[level as usize] = Some(n);
        self.levels[n as usize] = Some(level);
        self.count += 1;
    }

    /// Lets a number wait where none does.
    pub fn begin(&mut self, n: u32, level: u32)
        requires number { n < length self.old.levels.items }
        requires level { level < length self.old.heads.items }
        requires idle { IsIdle self.old }
        ensures queue { IsQueue self.new }
        ensures levels { self.new.levels.items ≡ slice_set self.old.levels.items n (Some level) }
        ensures heads { length self.new.heads.items ≡ length self.old.heads.items }
        ensures floor { self.new.floor ≡ level }
    {
        self.floor = level as usize;
        self.put(n, level);
    }

    /// Takes the head of a level's chain off.
    fn unlink(&mut self, n: u32, level: usize)
        requires queue { IsQueue self.old }
        requires level { level < length self.old.heads.items }
        requires head { at self.old.heads.items level ≡ Some n }
        ensures queue { IsQueue self.new }
        ensures levels { self.new.levels.items ≡ slice_set self.old.levels.items n None }
        ensures heads { length self.new.heads.items ≡ length self.old.heads.items }
        ensures floor { self.new.floor ≡ self.old.floor }
    {
        self.heads[level] = self.next[n as usize];
        self.levels[n as usize] = None;
        self.count -= 1;
    }

    /// Takes a number that waits at the lowest level; `None` exactly where none waits. The floor is then that level.
    pub fn take(&mut self) -> Option<u32>
        requires queue { IsQueue self.old }
        ensures queue { IsQueue self.new }
        ensures taken { MatchOption result ((m : ℕ) → at self.old.levels.items m ≡ None) (λ n. IsLowest self.old.levels.items n) }
        ensures levels { MatchOption result (self.new.levels.items ≡ self.old.levels.items) (λ n. self.new.levels.items ≡ slice_set self.old.levels.items n None) }
        ensures floor { MatchOption result (self.old.floor ≤ self.new.floor) (λ n. at self.old.levels.items n ≡ Some self.new.floor) }
        ensures heads { length self.new.heads.items ≡ length self.old.heads.items }
    {
        if self.count == 0 {
            return None;
        }
        'levels: loop {
            if self.floor >= self.heads.len() {
                return None;
            }
            let level = self.floor;
            match self.heads[level] {
                Some(n) => {
                    self.unlink(n, level);
                    return Some(n);
                }
                None => {
                    self.floor += 1;
                }
            }
        }
    }
}
