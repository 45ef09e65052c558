//! A set of numbers below a room.

ghost use Rattle.std.specs.Prelude.{◌≡◌, ◌<◌, ◌≤◌, ◌-◌, ℕ, MatchOption, OnOk, OnErr, false, true, [], ◌++◌, ◌⊎◌, length, replicate, slice_index_or, slice_set};
ghost use Rattle.lnet_numbers.specs.Least.{IsLeast};

use crate::levels::{BIT_LIMIT, Levels};
use std::alloc::{AllocError, Global};
use std::marker::Model;

/// How many numbers there can be room for: what four levels of 64-bit words reach over.
pub const ROOM_LIMIT: u32 = BIT_LIMIT;

/// A set of numbers below a room.
///
/// A contract sees a list that says of each number whether it is a member; its length is the room. It takes a bit and a 63rd for
/// each number that it has memory for.
#[derive(Drop)]
pub struct NumberSet {
    /// A bit for each number, set where it is a member.
    levels: Levels,
    room: u32,
}

impl Model for NumberSet {
    ghost use Rattle.std.specs.Prelude.{Bool, List, take};
    ghost use Rattle.lnet_numbers.specs.Room.{IsWithin};

    ghost Value = { List Bool };

    ghost view = { λ a. take a.room a.levels };

    ghost invariant = { λ a. IsWithin a.levels a.room };
}

/// Lets the bits from `from` on and below `to`, none of which is set, be `full`. Linear in them where `full`, and else constant
/// time.
fn fill(levels: &mut Levels, from: u32, to: u32, full: bool)
    requires order { from ≤ to }
    requires within { to ≤ length levels.old }
    requires clear { (n : ℕ) → from ≤ n → slice_index_or levels.old n false ≡ false }
    ensures filled { (n : ℕ) → from ≤ n → n < to → slice_index_or levels.new n false ≡ full }
    ensures others { (n : ℕ) → (n < from) ⊎ (to ≤ n) → slice_index_or levels.new n false ≡ slice_index_or levels.old n false }
    ensures len { length levels.new ≡ length levels.old }
{
    if !full {
        return;
    }
    'numbers: for n in from..to {
        levels.set(n);
    }
}

impl NumberSet {
    /// Room for no number. Takes no memory.
    pub fn new(alloc: Global) -> NumberSet
        ensures { result ≡ [] }
    {
        NumberSet {
            levels: Levels::new(alloc),
            room: 0,
        }
    }

    /// How many numbers there is room for: those below it. Constant time.
    pub fn room(&self) -> u32
        ensures { result ≡ length self.now }
    {
        self.room
    }

    /// Whether number `n` is a member; no number from the room on is. Constant time.
    pub fn has(&self, n: u32) -> bool
        ensures { result ≡ slice_index_or self.now n false }
    {
        self.levels.has(n)
    }

    /// The least member, none exactly where there is no member. Constant time.
    pub fn least(&self) -> Option<u32>
        ensures { MatchOption result ((n : ℕ) → slice_index_or self.now n false ≡ false) (λ n. IsLeast self.now n) }
    {
        self.levels.least()
    }

    /// Lets number `n`, which is below the room, be a member. Constant time.
    pub fn insert(&mut self, n: u32)
        requires { n < length self.old }
        ensures { self.new ≡ slice_set self.old n true }
    {
        self.levels.set(n);
    }

    /// Lets number `n`, which is below the room, be no member. Constant time.
    pub fn remove(&mut self, n: u32)
        requires { n < length self.old }
        ensures { self.new ≡ slice_set self.old n false }
    {
        self.levels.clear(n);
    }

    /// Gets room for the numbers below `room`, which is no less than the room there is; the new ones are members exactly where
    /// `full`. It fails for want of memory alone, and then nothing changes. Linear in the new numbers.
    pub fn grow(&mut self, room: u32, full: bool) -> Result<(), AllocError>
        requires more { length self.old ≤ room }
        requires most { room ≤ ROOM_LIMIT }
        ensures ok { OnOk result (self.new ≡ self.old ++ replicate (room - length self.old) full) }
        ensures err { OnErr result (self.new ≡ self.old) }
    {
        self.levels.extend(room)?;
        fill(&mut self.levels, self.room, room, full);
        self.room = room;
        Ok(())
    }
}
