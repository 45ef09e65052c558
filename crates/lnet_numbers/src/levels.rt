//! Four levels of bits, each of which tells which words of the one below it hold a set bit.

ghost use Rattle.std.specs.Prelude.{◌≡◌, ◌<◌, ◌≤◌, ℕ, MatchOption, OnOk, false, true, [], length, slice_index_or, slice_set};
ghost use Rattle.lnet_numbers.specs.Least.{IsLeast};
ghost use Rattle.lnet_numbers.specs.Words.{GainsClearBits};

use crate::level::Level;
use std::alloc::{AllocError, Global};
use std::marker::Model;

/// How many bits there can be: 64 for each bit of the third level, which has 64 for each bit of the second, and so on.
pub(crate) const BIT_LIMIT: u32 = 16_777_216;

/// A list of bits, and three levels over it by which its lowest set bit is found.
#[derive(Drop)]
pub(crate) struct Levels {
    /// The list.
    numbers: Level,
    /// Which words of `numbers` hold a set bit.
    words: Level,
    /// Which words of `words` hold a set bit.
    blocks: Level,
    /// Which words of `blocks` hold a set bit: one word.
    regions: Level,
}

impl Model for Levels {
    ghost use Rattle.std.specs.Prelude.{Bool, List};
    ghost use Rattle.lnet_numbers.specs.Tower.{IsTower};

    ghost Value = { List Bool };

    ghost view = { λ a. a.numbers };

    ghost invariant = { λ a. IsTower a.numbers a.words a.blocks a.regions };
}

impl Levels {
    /// No bits. Takes no memory.
    pub(crate) fn new(alloc: Global) -> Levels
        ensures { result ≡ [] }
    {
        Levels {
            numbers: Level::new(alloc),
            words: Level::new(alloc),
            blocks: Level::new(alloc),
            regions: Level::new(alloc),
        }
    }

    /// Bit `n`, false past the end. Constant time.
    pub(crate) fn has(&self, n: u32) -> bool
        ensures { result ≡ slice_index_or self.now n false }
    {
        self.numbers.has(n)
    }

    /// The number of the first set bit, none where no bit is set. Constant time.
    pub(crate) fn least(&self) -> Option<u32>
        ensures { MatchOption result ((n : ℕ) → slice_index_or self.now n false ≡ false) (λ n. IsLeast self.now n) }
    {
        let region = self.regions.lowest(0)?;
        let block = self.blocks.lowest(region)?;
        let word = self.words.lowest(block)?;
        self.numbers.lowest(word)
    }

    /// Sets bit `n`. Constant time.
    pub(crate) fn set(&mut self, n: u32)
        requires { n < length self.old }
        ensures { self.new ≡ slice_set self.old n true }
    {
        let word = n / 64;
        let block = word / 64;
        let region = block / 64;
        self.numbers.set(n);
        self.words.set(word);
        self.blocks.set(block);
        self.regions.set(region);
    }

    /// Clears bit `n`. Constant time.
    pub(crate) fn clear(&mut self, n: u32)
        requires { n < length self.old }
        ensures { self.new ≡ slice_set self.old n false }
    {
        let word = n / 64;
        let block = word / 64;
        let region = block / 64;
        if self.numbers.clear(n) {
            if self.words.clear(word) {
                if self.blocks.clear(block) {
                    self.regions.clear(region);
                }
            }
        }
    }

    /// At least so many bits, the further ones not set. Linear in the new bits.
    pub(crate) fn extend(&mut self, room: u32) -> Result<(), AllocError>
        requires { room ≤ BIT_LIMIT }
        ensures bits { GainsClearBits self.old self.new }
        ensures ok { OnOk result (room ≤ length self.new) }
    {
        let words = (room + 63) / 64;
        let blocks = (words + 63) / 64;
        let regions = (blocks + 63) / 64;
        self.regions.extend(1)?;
        self.blocks.extend(regions)?;
        self.words.extend(blocks)?;
        self.numbers.extend(words)?;
        Ok(())
    }
}
