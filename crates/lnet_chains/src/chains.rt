//! The lists of places, and the links that lead through them.

ghost use Rattle.std.specs.Prelude.{◌≡◌, ℕ, ◌+◌, ◌<◌, ◌≤◌, ◌++◌, [], Some, None, length, replicate, OnOk, OnErr, vec_len, vec_capacity, slice_get};
ghost use Rattle.lnet_chains.specs.Lists.{AreApart, Within, list_of, with_first, without_place, grown};
ghost use Rattle.lnet_chains.specs.Links.{at, IsLinkSet};

use std::alloc::{AllocError, Global};
use std::marker::Model;

/// For each node a list of places, in any order. No place stands in two lists, nor twice in one.
///
/// Nodes are the numbers below a count, and so are places. A contract sees the lists, by node, and the count of places.
#[derive(Drop)]
pub struct Chains {
    /// By node the first place of its list.
    firsts: Vec<Option<u32>>,
    /// By place the next one of its list.
    next: Vec<Option<u32>>,
    /// By place the one before it in its list.
    prev: Vec<Option<u32>>,
}

impl Model for Chains {
    ghost use Rattle.lnet_chains.specs.Lists.{ChainsValue};
    ghost use Rattle.lnet_chains.specs.Links.{AreChains, lists_of, value_of};

    ghost Value = { ChainsValue };

    ghost view = { λ c. value_of c.firsts.items c.next.items };

    ghost invariant = { λ c. AreChains c.firsts.items c.next.items c.prev.items (lists_of c.firsts.items c.next.items) };
}

/// The link at the number, none past the links. Constant time.
fn link(links: &Vec<Option<u32>>, n: u32) -> Option<u32>
    ensures { result ≡ at links.now.items n }
{
    match links.get(n as usize) {
        Some(link) => *link,
        None => None,
    }
}

/// Sets the link of a place, where there is one. Constant time.
fn set_link(links: &mut Vec<Option<u32>>, place: Option<u32>, to: Option<u32>)
    requires { (y : ℕ) → place ≡ Some y → y < length links.old.items }
    ensures { IsLinkSet links.old.items links.new.items place to }
{
    if let Some(at) = place {
        links[at as usize] = to;
    }
}

/// So many links more, for which there is room, and which lead nowhere. Linear in them.
fn extend(links: &mut Vec<Option<u32>>, more: usize)
    requires { vec_len links.old + more ≤ vec_capacity links.old }
    ensures { links.new.items ≡ links.old.items ++ replicate more None }
{
    'links: for _ in 0..more {
        links.push_reserved(None);
    }
}

impl Chains {
    /// No nodes and no places. It takes no memory.
    pub fn new(alloc: Global) -> Chains
        ensures { result ≡ record { lists = []; places = 0 } }
    {
        Chains {
            firsts: Vec::new(alloc),
            next: Vec::new(alloc),
            prev: Vec::new(alloc),
        }
    }

    /// The count of places: they are the numbers below it. Constant time.
    pub fn places(&self) -> u32
        ensures count { result ≡ self.now.places }
        ensures apart { AreApart self.now }
    {
        self.next.len() as u32
    }

    /// The first place of the node's list; none where it is empty, and for a number past the nodes. Constant time.
    pub fn first(&self, n: u32) -> Option<u32>
        ensures { result ≡ slice_get (list_of self.now n) 0 }
    {
        link(&self.firsts, n)
    }

    /// The place after this one in the list in which it stands; none where it is the last. Constant time.
    pub fn next(&self, place: u32) -> Option<u32>
        ensures { (n i : ℕ) → slice_get (list_of self.now n) i ≡ Some place
            → result ≡ slice_get (list_of self.now n) (i + 1) }
    {
        link(&self.next, place)
    }

    /// Lets a place that stands in no list be the first of the node's. Constant time, and no memory.
    pub fn push(&mut self, n: u32, place: u32)
        requires node { n < length self.old.lists }
        requires place { place < self.old.places }
        requires absent { (m : ℕ) → Within place (list_of self.old m) → ⊥ }
        ensures { self.new ≡ with_first self.old n place }
    {
        let first = self.firsts[n as usize];
        set_link(&mut self.prev, first, Some(place));
        self.prev[place as usize] = None;
        self.next[place as usize] = first;
        self.firsts[n as usize] = Some(place);
    }

    /// Takes a place out of the node's list, in which it stands. Constant time.
    pub fn unlink(&mut self, n: u32, place: u32)
        requires { Within place (list_of self.old n) }
        ensures { self.new ≡ without_place self.old n place }
    {
        let before = self.prev[place as usize];
        let after = self.next[place as usize];
        set_link(&mut self.next, before, after);
        set_link(&mut self.prev, after, before);
        if before.is_none() {
            self.firsts[n as usize] = after;
        }
    }

    /// Lets there be so many nodes and places, not fewer than now. Nothing stands in the lists of new nodes, and new places
    /// stand in no list. `Err` exactly where memory ran out: then nothing has changed. Linear in what is new, amortized.
    pub fn grow(&mut self, nodes: u32, places: u32) -> Result<(), AllocError>
        requires nodes { length self.old.lists ≤ nodes }
        requires places { self.old.places ≤ places }
        ensures ok { OnOk result (self.new ≡ grown self.old nodes places) }
        ensures err { OnErr result (self.new ≡ self.old) }
    {
        let more_nodes = nodes as usize - self.firsts.len();
        let more_places = places as usize - self.next.len();
        self.firsts.reserve(more_nodes)?;
        self.next.reserve(more_places)?;
        self.prev.reserve(more_places)?;
        extend(&mut self.firsts, more_nodes);
        extend(&mut self.next, more_places);
        extend(&mut self.prev, more_places);
        Ok(())
    }
}
