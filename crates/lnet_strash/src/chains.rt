//! A chained hash table over the numbers of nodes: each number has its own place, so that entries come and go without memory.

ghost use Rattle.std.specs.Prelude.{◌≡◌, ◌≢◌, ◌<◌, ◌≤◌, ℕ, Bool, Some, None, length, slice_set, MatchOption, OnOk, OnErr, IsTrue, slice_index_or, max, ◌+◌, ◌^◌, [], IfOk, IsOk};
ghost use Rattle.lnet_gates.specs.Gates.{KeyValue};
ghost use Rattle.lnet_strash.specs.Keys as keys;
ghost use Rattle.lnet_strash.specs.Standing.{at, KeysDiffer};
ghost use Rattle.lnet_strash.specs.Chains.{link, home_of, home_below, AreChains, IsTable, IsAbsent, StandsUnder, IsLinkAfter};

use crate::hashing::{chain_of, is_same};
use lnet_gates::Key;
use std::alloc::{AllocError, Global};

/// The chains, and what stands at each number.
///
/// A key's hash gives its chain, and a chain has the numbers whose nodes stand under its keys. What this keeps is `IsTable`.
#[derive(Drop)]
pub(crate) struct Chains {
    /// By chain its first number.
    pub(crate) heads: Vec<Option<u32>>,
    /// By number the next one of its chain.
    pub(crate) next: Vec<Option<u32>>,
    /// By number the key and the phase under which its node stands.
    pub(crate) standing: Vec<Option<(Key, bool)>>,
}

/// Where a key was found.
#[derive(Clone, Copy)]
pub(crate) struct Found {
    /// The number before it in its chain, none where it is the first.
    pub(crate) before: Option<u32>,
    /// The number.
    pub(crate) number: u32,
}

impl Chains {
    ghost use Rattle.lnet_strash.specs.Found.{IsFound};

    /// Whether the node of the number stands under the key. Constant time.
    fn stands_under(&self, number: u32, key: &Key) -> bool
        requires { number < length self.now.standing.items }
        ensures yes { IsTrue result → StandsUnder self.now.standing.items number key.now }
        ensures no { StandsUnder self.now.standing.items number key.now → IsTrue result }
    {
        match &self.standing[number as usize] {
            Some((other, _)) => is_same(other, key),
            None => false,
        }
    }

    /// Where the node stands that stands under the key; none exactly where none does. As long as the key's chain, so constant
    /// time on average.
    pub(crate) fn search(&self, key: &Key) -> Option<Found>
        requires table { IsTable self.now.heads.items self.now.next.items self.now.standing.items }
        ensures found { MatchOption result (IsAbsent self.now.standing.items key.now) (λ f. IsFound self.now key.now f) }
    {
        let mut before = None;
        let mut to = self.heads[chain_of(self.heads.len(), key)];
        'walk: while let Some(number) = to {
            if self.stands_under(number, key) {
                return Some(Found { before, number });
            }
            before = to;
            to = self.next[number as usize];
        }
        None
    }

    /// Puts the number at the head of the chain. Constant time.
    fn prepend(&mut self, number: u32, chain: usize)
        requires chain { chain < length self.old.heads.items }
        requires number { number < length self.old.next.items }
        ensures heads { self.new.heads.items ≡ slice_set self.old.heads.items chain (Some number) }
        ensures next { self.new.next.items ≡ slice_set self.old.next.items number (link self.old.heads.items chain) }
        ensures standing { self.new.standing.items ≡ self.old.standing.items }
    {
        self.next[number as usize] = self.heads[chain];
        self.heads[chain] = Some(number);
    }
}

impl Chains {
    /// Lets the node of the number stand under the key. Constant time, and no memory.
    pub(crate) fn insert(&mut self, key: Key, number: u32, phase: bool)
        requires table { IsTable self.old.heads.items self.old.next.items self.old.standing.items }
        requires number { number < length self.old.standing.items }
        requires free { at self.old.standing.items number ≡ None }
        requires absent { IsAbsent self.old.standing.items key }
        ensures table { IsTable self.new.heads.items self.new.next.items self.new.standing.items }
        ensures standing { self.new.standing.items ≡ slice_set self.old.standing.items number (Some (key, phase)) }
    {
        let chain = chain_of(self.heads.len(), &key);
        self.prepend(number, chain);
        self.standing[number as usize] = Some((key, phase));
    }

    /// Takes the number out of its chain, and lets its node stand under no key. Constant time.
    fn take_out(&mut self, found: Found, chain: usize)
        requires table { IsTable self.old.heads.items self.old.next.items self.old.standing.items }
        requires chain { chain < length self.old.heads.items }
        requires home { home_of (length self.old.heads.items) self.old.standing.items found.number ≡ Some chain }
        requires after { IsLinkAfter self.old.heads.items self.old.next.items (home_of (length self.old.heads.items) self.old.standing.items) chain found.before (Some found.number) }
        ensures table { IsTable self.new.heads.items self.new.next.items self.new.standing.items }
        ensures standing { self.new.standing.items ≡ slice_set self.old.standing.items found.number None }
    {
        let after = self.next[found.number as usize];
        match found.before {
            Some(before) => self.next[before as usize] = after,
            None => self.heads[chain] = after,
        }
        self.standing[found.number as usize] = None;
    }

    /// Lets the node that stands under the key stand under none. As long as the key's chain, so constant time on average, and
    /// no memory.
    pub(crate) fn remove(&mut self, key: &Key)
        requires table { IsTable self.old.heads.items self.old.next.items self.old.standing.items }
        ensures table { IsTable self.new.heads.items self.new.next.items self.new.standing.items }
        ensures standing { (n : ℕ) → StandsUnder self.old.standing.items n key.now → self.new.standing.items ≡ slice_set self.old.standing.items n None }
    {
        let chain = chain_of(self.heads.len(), key);
        if let Some(found) = self.search(key) {
            self.take_out(found, chain);
        }
    }
}

impl Chains {
    ghost use Rattle.lnet_strash.specs.Found.{IsPlaceOf};

    /// Where the number is in its chain, and the chain; none exactly where its node stands under no key. As long as the chain.
    fn place_of(&self, number: u32) -> Option<(Found, usize)>
        requires table { IsTable self.now.heads.items self.now.next.items self.now.standing.items }
        ensures place { MatchOption result (at self.now.standing.items number ≡ None) (λ p. IsPlaceOf self.now number p.0 p.1) }
    {
        match self.standing.get(number as usize) {
            Some(place) => match place {
                Some((key, _)) => {
                    let chain = chain_of(self.heads.len(), key);
                    match self.search(key) {
                        Some(found) => Some((found, chain)),
                        None => None,
                    }
                }
                None => None,
            },
            None => None,
        }
    }

    /// Lets the node of the number stand under no key. As long as the key's chain, so constant time on average, and no memory.
    pub(crate) fn release(&mut self, number: u32)
        requires table { IsTable self.old.heads.items self.old.next.items self.old.standing.items }
        ensures table { IsTable self.new.heads.items self.new.next.items self.new.standing.items }
        ensures released { at self.new.standing.items number ≡ None }
        ensures others { (m : ℕ) → m ≢ number → at self.new.standing.items m ≡ at self.old.standing.items m }
        ensures len { length self.new.standing.items ≡ length self.old.standing.items }
    {
        if let Some((found, chain)) = self.place_of(number) {
            self.take_out(found, chain);
        }
    }
}

/// At least so many places, the further ones empty. Linear in the places to come.
#[tactic(auto, using(crate::proofs::Lengthening::none_more))]
fn lengthen<T: Drop>(items: &mut Vec<Option<T>>, len: usize) -> Result<(), AllocError>
    ensures same { (n : ℕ) → slice_index_or items.new.items n None ≡ slice_index_or items.old.items n None }
    ensures grows { length items.old.items ≤ length items.new.items }
    ensures most { length items.new.items ≤ max (length items.old.items) len }
    ensures ok { OnOk result (len ≤ length items.new.items) }
    ensures refused { OnErr result (items.new.items ≡ items.old.items) }
{
    let more = len.saturating_sub(items.len());
    items.reserve(more)?;
    'places: for _ in 0..more {
        items.push_reserved(None);
    }
    Ok(())
}

/// Empties each place. Linear in them.
fn clear(items: &mut [Option<u32>])
    ensures empty { (n : ℕ) → link items.new n ≡ None }
{
    'places: for place in items.iter_mut() {
        *place = None;
    }
}

impl Chains {
    /// Chains that hold nothing, with room for no number.
    pub(crate) fn new(alloc: Global) -> Result<Chains, AllocError>
        ensures table { IfOk result (λ c. IsTable c.heads.items c.next.items c.standing.items) }
        ensures standing { IfOk result (λ c. c.standing.items ≡ []) }
    {
        let mut heads = Vec::new(alloc);
        heads.push(None)?;
        Ok(Chains {
            heads,
            next: Vec::new(alloc),
            standing: Vec::new(alloc),
        })
    }

    /// Puts the number into its chain, if its node stands under a key. Constant time.
    fn enter(&mut self, number: u32)
        requires some { 0 < length self.old.heads.items }
        requires links { length self.old.standing.items ≤ length self.old.next.items }
        requires number { number < length self.old.standing.items }
        requires chains { AreChains self.old.heads.items self.old.next.items (home_below number (length self.old.heads.items) self.old.standing.items) }
        ensures standing { self.new.standing.items ≡ self.old.standing.items }
        ensures heads { length self.new.heads.items ≡ length self.old.heads.items }
        ensures next { length self.new.next.items ≡ length self.old.next.items }
        ensures chains { AreChains self.new.heads.items self.new.next.items (home_below (number + 1) (length self.old.heads.items) self.old.standing.items) }
    {
        if let Some((key, _)) = &self.standing[number as usize] {
            let chain = chain_of(self.heads.len(), key);
            self.prepend(number, chain);
        }
    }

    /// Makes the chains anew. Linear in the chains and the numbers.
    fn rebuild(&mut self)
        requires some { 0 < length self.old.heads.items }
        requires links { length self.old.standing.items ≤ length self.old.next.items }
        requires few { length self.old.standing.items < 2 ^ 32 }
        requires differ { KeysDiffer self.old.standing.items }
        ensures table { IsTable self.new.heads.items self.new.next.items self.new.standing.items }
        ensures standing { self.new.standing.items ≡ self.old.standing.items }
        ensures next { length self.new.next.items ≡ length self.old.next.items }
    {
        clear(&mut self.heads);
        'numbers: for number in 0..self.standing.len() as u32 {
            self.enter(number);
        }
    }

    /// Gets room for so many numbers, and as many chains at least: where there are fewer, twice as many as there were at least.
    /// What stands stays, whatever it answers. Linear in the room where it grows.
    pub(crate) fn reserve(&mut self, numbers: u32) -> Result<(), AllocError>
        requires table { IsTable self.old.heads.items self.old.next.items self.old.standing.items }
        ensures table { IsTable self.new.heads.items self.new.next.items self.new.standing.items }
        ensures standing { (n : ℕ) → at self.new.standing.items n ≡ at self.old.standing.items n }
        ensures grows { length self.old.standing.items ≤ length self.new.standing.items }
        ensures ok { OnOk result (numbers ≤ length self.new.standing.items) }
        ensures succeeds { numbers ≤ length self.old.standing.items → IsOk result }
    {
        let places = self.standing.len();
        if numbers as usize <= places {
            return Ok(());
        }
        let room = (numbers as usize).max((2 * places).min(u32::MAX as usize));
        lengthen(&mut self.next, room)?;
        lengthen(&mut self.heads, room)?;
        self.rebuild();
        lengthen(&mut self.standing, room)?;
        Ok(())
    }
}
