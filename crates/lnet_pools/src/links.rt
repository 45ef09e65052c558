//! Links of one direction: by node its first place, by place the next one of its list.

ghost use Rattle.std.specs.Prelude.{◌≡◌, ◌≢◌, ℕ, ◌+◌, ◌<◌, ◌≤◌, ◌++◌, Option, Some, None, [], OnErr, OnOk, length, replicate, slice_index_or, vec_len, vec_capacity};
ghost use Rattle.lnet_chains.specs.Links.{at};

use std::alloc::{AllocError, Global};

/// Links of one direction.
#[derive(Drop)]
pub(crate) struct Links {
    /// By node the place at which its list begins in this direction.
    pub(crate) ends: Vec<Option<u32>>,
    /// By place the next one of its list in this direction.
    pub(crate) next: Vec<Option<u32>>,
}

/// The link at the number, none past the links. Constant time.
fn link(links: &Vec<Option<u32>>, n: u32) -> Option<u32>
    ensures { result ≡ at links.now.items n }
{
    match links.get(n as usize) {
        Some(link) => *link,
        None => None,
    }
}

/// So many links more, for which there is room, and which lead nowhere. Linear in them.
fn extend(links: &mut Vec<Option<u32>>, more: usize)
    requires { vec_len links.old + more ≤ vec_capacity links.old }
    ensures { links.new.items ≡ links.old.items ++ replicate more None }
{
    'links: for _ in 0..more {
        links.push_reserved(None);
    }
}

impl Links {
    ghost use Rattle.lnet_pools.specs.Orders.{follow, IsInside, IsSameLink};

    /// No links. Takes no memory.
    pub(crate) fn new(alloc: Global) -> Links
        ensures ends { result.ends.items ≡ [] }
        ensures next { result.next.items ≡ [] }
    {
        Links {
            ends: Vec::new(alloc),
            next: Vec::new(alloc),
        }
    }

    /// The place after this one in the node's list; after none, its first. Constant time.
    pub(crate) fn after(&self, n: u32, place: Option<u32>) -> Option<u32>
        ensures { result ≡ follow self.now n place }
    {
        match place {
            Some(at) => link(&self.next, at),
            None => link(&self.ends, n),
        }
    }

    /// Lets another place come after this one, or first. Constant time.
    pub(crate) fn set(&mut self, n: u32, place: Option<u32>, to: Option<u32>)
        requires node { n < length self.old.ends.items }
        requires inside { IsInside (length self.old.next.items) place }
        ensures here { follow self.new n place ≡ to }
        ensures others { (m : ℕ) (o : Option ℕ) → (IsSameLink n place m o → ⊥) → follow self.new m o ≡ follow self.old m o }
        ensures ends { length self.new.ends.items ≡ length self.old.ends.items }
        ensures next { length self.new.next.items ≡ length self.old.next.items }
    {
        match place {
            Some(at) => self.next[at as usize] = to,
            None => self.ends[n as usize] = to,
        }
    }

    /// Lets a place come between two that follow each other. Constant time.
    pub(crate) fn put_between(
        &mut self,
        n: u32,
        place: u32,
        before: Option<u32>,
        after: Option<u32>,
    )
        requires node { n < length self.old.ends.items }
        requires inside { IsInside (length self.old.next.items) before }
        requires place { place < length self.old.next.items }
        requires apart { before ≢ Some place }
        ensures first { follow self.new n before ≡ Some place }
        ensures second { follow self.new n (Some place) ≡ after }
        ensures others { (m : ℕ) (o : Option ℕ) → (IsSameLink n before m o → ⊥) → o ≢ Some place → follow self.new m o ≡ follow self.old m o }
        ensures ends { length self.new.ends.items ≡ length self.old.ends.items }
        ensures next { length self.new.next.items ≡ length self.old.next.items }
    {
        self.set(n, before, Some(place));
        self.set(n, Some(place), after);
    }

    /// Memory for so many nodes and places more. The links stay, whatever it answers. Linear in the links, amortized.
    pub(crate) fn reserve(&mut self, nodes: usize, places: usize) -> Result<(), AllocError>
        ensures ends { self.new.ends.items ≡ self.old.ends.items }
        ensures next { self.new.next.items ≡ self.old.next.items }
        ensures ends_room { OnOk result (vec_len self.new.ends + nodes ≤ vec_capacity self.new.ends) }
        ensures next_room { OnOk result (vec_len self.new.next + places ≤ vec_capacity self.new.next) }
    {
        self.ends.reserve(nodes)?;
        self.next.reserve(places)?;
        Ok(())
    }

    /// Links of so many nodes and places more, for which there is room, and which lead nowhere. Linear in them.
    pub(crate) fn extend(&mut self, nodes: usize, places: usize)
        requires ends { vec_len self.old.ends + nodes ≤ vec_capacity self.old.ends }
        requires next { vec_len self.old.next + places ≤ vec_capacity self.old.next }
        ensures ends { self.new.ends.items ≡ self.old.ends.items ++ replicate nodes None }
        ensures next { self.new.next.items ≡ self.old.next.items ++ replicate places None }
    {
        extend(&mut self.ends, nodes);
        extend(&mut self.next, places);
    }

    /// Lets no list begin. Linear in the nodes, and no memory.
    pub(crate) fn clear(&mut self)
        ensures ends { self.new.ends.items ≡ replicate (length self.old.ends.items) None }
        ensures next { self.new.next.items ≡ self.old.next.items }
    {
        let nodes = self.ends.len();
        self.ends.clear();
        extend(&mut self.ends, nodes);
    }
}
