//! One level of the bit map: a list of bits, held in words of 64.

ghost use Rattle.std.specs.Prelude.{◌≡◌, ◌<◌, ◌≤◌, ◌+◌, ◌-◌, ◌*◌, ◌/◌, MatchOption, OnOk, false, true, [], ◌++◌, length, max, replicate, slice_index, slice_index_or, slice_set};
ghost use Rattle.lnet_numbers.specs.Words.{IsZeroWord, HasBitIn, IsLowestIn, GainsClearBits};

use std::alloc::{AllocError, Global};
use std::marker::Model;

/// How many words a level can have.
pub(crate) const WORD_LIMIT: u32 = 262_144;

/// A list of bits, as many as 64 for each of its words.
#[derive(Drop)]
pub(crate) struct Level {
    /// The words, the first bits in the first one, and in each the first one lowest.
    packed: Vec<u64>,
}

impl Model for Level {
    ghost use Rattle.std.specs.Prelude.{Bool, List, length, ◌≤◌};
    ghost use Rattle.lnet_numbers.specs.Bits.{bits_of};
    ghost use Rattle.lnet_numbers.specs.declared.level.TheConstants.{WORD_LIMIT};

    ghost Value = { List Bool };

    ghost view = { λ a. bits_of a.packed.items };

    ghost invariant = { λ a. length a.packed.items ≤ WORD_LIMIT };
}

/// The word of this number, 0 past the end.
fn word_at(packed: &[u64], word: u32) -> u64
    ensures { result ≡ slice_index packed.now word }
{
    packed.get(word as usize).copied().unwrap_or(0)
}

/// So many words of 0 more. Linear in them.
fn lengthen(packed: &mut Vec<u64>, more: usize) -> Result<(), AllocError>
    ensures items { packed.new.items ≡ packed.old.items ++ replicate (length packed.new.items - length packed.old.items) 0 }
    ensures ok { OnOk result (length packed.new.items ≡ length packed.old.items + more) }
    ensures most { length packed.new.items ≤ length packed.old.items + more }
{
    packed.reserve(more)?;
    'words: for _ in 0..more {
        packed.push_reserved(0);
    }
    Ok(())
}

impl Level {
    /// No bits. Takes no memory.
    pub(crate) fn new(alloc: Global) -> Level
        ensures { result ≡ [] }
    {
        Level {
            packed: Vec::new(alloc),
        }
    }

    /// Bit `n`, false past the end. Constant time.
    pub(crate) fn has(&self, n: u32) -> bool
        ensures { result ≡ slice_index_or self.now n false }
    {
        (word_at(&self.packed, n / 64) >> (n % 64)) & 1 == 1
    }

    /// The number of the lowest set bit of this word, none where the word has no set bit. Constant time.
    pub(crate) fn lowest(&self, word: u32) -> Option<u32>
        ensures { MatchOption result (IsZeroWord self.now word) (λ n. IsLowestIn self.now word n) }
    {
        let bits = word_at(&self.packed, word);
        if bits == 0 {
            return None;
        }
        Some(word * 64 + bits.trailing_zeros())
    }

    /// Sets bit `n`. Constant time.
    pub(crate) fn set(&mut self, n: u32)
        requires { n < length self.old }
        ensures { self.new ≡ slice_set self.old n true }
    {
        self.packed[(n / 64) as usize] |= 1 << (n % 64);
    }

    /// Clears bit `n`, and tells whether no bit of its word is set then. Constant time.
    pub(crate) fn clear(&mut self, n: u32) -> bool
        requires { n < length self.old }
        ensures bits { self.new ≡ slice_set self.old n false }
        ensures zero { result ≡ true → IsZeroWord self.new (n / 64) }
        ensures left { result ≡ false → HasBitIn self.new (n / 64) }
    {
        let bits = self.packed[(n / 64) as usize] & !(1 << (n % 64));
        self.packed[(n / 64) as usize] = bits;
        bits == 0
    }

    /// At least so many words, the further ones without a set bit. Linear in the new words.
    pub(crate) fn extend(&mut self, words: u32) -> Result<(), AllocError>
        requires { words ≤ WORD_LIMIT }
        ensures bits { GainsClearBits self.old self.new }
        ensures most { length self.new ≤ max (length self.old) (64 * words) }
        ensures ok { OnOk result (64 * words ≤ length self.new) }
    {
        let more = (words as usize).saturating_sub(self.packed.len());
        lengthen(&mut self.packed, more)?;
        Ok(())
    }
}
