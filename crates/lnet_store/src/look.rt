//! Readers of a store that count what they read.

ghost use Rattle.std.specs.Prelude.{◌≡◌, ℕ, ◌≤◌, ◌∷◌, [], option_map, length, MatchOption};
ghost use Rattle.lnet_model.specs.Networks.{gate_at, live_count};
ghost use Rattle.lnet_model.specs.Fanouts.{fan};
ghost use Rattle.lnet_model.specs.Dags.{IsStored, NUMBERS};
ghost use Rattle.lnet_store.specs.StoreValues.{raised, IsOneOf};

use crate::store::Store;
use lnet_chains::Chains;
use lnet_gates::{Gate, Node};
use std::marker::Model;

/// A counter of reads, for one state of a store.
#[derive(Drop)]
pub struct Visits {
    count: u64,
    stamp: u64,
}

impl Model for Visits {
    ghost use Rattle.lnet_store.specs.StoreValues.{Tally};

    ghost Value = { Tally };

    ghost view = { λ v. record { count = v.count; stamp = v.stamp } };
}

impl Visits {
    /// The counter at 0 for the stamp.
    pub(crate) fn of(stamp: u64) -> Visits
        ensures { result ≡ record { count = 0; stamp = stamp } }
    {
        Visits { count: 0, stamp }
    }

    /// One more read.
    fn count_one(&mut self)
        ensures count { self.new.count ≡ raised self.old.count }
        ensures stamp { self.new.stamp ≡ self.old.stamp }
    {
        self.count = self.count.saturating_add(1);
    }

    /// How many reads were counted; it stays at the last `u64`. Constant time.
    pub fn count(&self) -> u64
        ensures { result ≡ self.now.count }
    {
        self.count
    }
}

/// A reader of a store as it stands. A contract sees what the store holds.
#[derive(Drop)]
pub struct Look<'a> {
    store: &'a Store,
}

impl<'a> Model for Look<'a> {
    ghost use Rattle.lnet_store.specs.StoreValues.{StoreValue, store_code};

    ghost Value = { StoreValue };

    ghost coded = { store_code };

    ghost view = { λ l. l.store.now };
}

impl<'a> Look<'a> {
    /// The reader of the store.
    pub(crate) fn of(store: &'a Store) -> Look<'a>
        ensures { result ≡ store.now }
    {
        Look { store }
    }

    /// How many numbers are live: at most 1,048,576. It reads no node, and isn't counted. Constant time.
    ///
    /// The clauses `limit` and `stored` are what every store keeps of its network.
    pub fn live_count(&self) -> u32
        ensures value { result ≡ live_count self.now.network }
        ensures limit { live_count self.now.network ≤ NUMBERS }
        ensures stored { IsStored self.now.network }
    {
        self.store.live_count()
    }

    /// The gate at the node; `None` exactly where no gate stands there. It counts one read, for the store's stamp. Constant
    /// time.
    pub fn gate_of(&self, n: Node, visits: &mut Visits) -> Option<&Gate>
        requires { visits.old.stamp ≡ self.now.stamp }
        ensures gate { option_map (λ g. g.now) result ≡ gate_at self.now.network n.0 }
        ensures stamp { visits.new.stamp ≡ visits.old.stamp }
        ensures count { visits.new.count ≡ raised visits.old.count }
    {
        visits.count_one();
        self.store.gate_of(n)
    }

    /// The node's parents: each pair of a parent and a slot whose fanin is the node once, in a free order. Reading them
    /// counts; making this doesn't. Constant time.
    pub fn parents(&self, n: Node) -> Parents<'a>
        ensures len { length result.rest ≡ length (fan self.now.network n.0) }
        ensures each { (p : ℕ × ℕ) → IsOneOf p result.rest → IsOneOf p (fan self.now.network n.0) }
        ensures all { (p : ℕ × ℕ) → IsOneOf p (fan self.now.network n.0) → IsOneOf p result.rest }
        ensures stamp { result.stamp ≡ self.now.stamp }
    {
        self.store.parents(n)
    }
}

/// The parents of a node that are still to come.
///
/// A cursor over the chain of the slots whose fanin is the node. A contract sees the pairs that are still to come, in the order in
/// which they come, and the stamp of the store.
#[derive(Drop)]
pub struct Parents<'a> {
    chains: &'a Chains,
    node: Node,
    at: Option<u32>,
    stamp: u64,
}

impl<'a> Model for Parents<'a> {
    ghost use Rattle.std.specs.Prelude.{◌≡◌, ℕ, Some};
    ghost use Rattle.lnet_chains.specs.Lists.{Within, list_of};
    ghost use Rattle.lnet_store.specs.StoreValues.{ParentsLeft};
    ghost use Rattle.lnet_store.specs.Cursors.{still};

    ghost Value = { ParentsLeft };

    ghost view = { λ p. record { rest = still p.at (list_of p.chains.now p.node.0); stamp = p.stamp } };

    ghost invariant = { λ p. (x : ℕ) → p.at ≡ Some x → Within x (list_of p.chains.now p.node.0) };
}

impl Store {
    /// The parents of the node: each pair of a parent and a slot whose fanin is the node once.
    fn parents(&self, n: Node) -> Parents<'_>
        ensures len { length result.rest ≡ length (fan self.now.network n.0) }
        ensures each { (p : ℕ × ℕ) → IsOneOf p result.rest → IsOneOf p (fan self.now.network n.0) }
        ensures all { (p : ℕ × ℕ) → IsOneOf p (fan self.now.network n.0) → IsOneOf p result.rest }
        ensures stamp { result.stamp ≡ self.now.stamp }
    {
        Parents {
            chains: &self.chains,
            node: n,
            at: self.chains.first(n.0),
            stamp: self.stamp,
        }
    }
}

impl<'a> Parents<'a> {
    /// The next parent and slot; `None` exactly where all were given. Each pair that is given counts as one read, for the
    /// stamp of the store that is read. Constant time.
    pub fn next(&mut self, visits: &mut Visits) -> Option<(Node, u8)>
        requires { visits.old.stamp ≡ self.old.stamp }
        ensures given { MatchOption result (self.old.rest ≡ []) (λ p. self.old.rest ≡ (p.0.0, p.1) ∷ self.new.rest) }
        ensures ended { self.old.rest ≡ [] → self.new.rest ≡ [] }
        ensures same { self.new.stamp ≡ self.old.stamp }
        ensures stamp { visits.new.stamp ≡ visits.old.stamp }
        ensures count { MatchOption result (visits.new.count ≡ visits.old.count) (λ _. visits.new.count ≡ raised visits.old.count) }
    {
        let _apart = self.chains.places();
        let place = self.at?;
        self.at = self.chains.next(place);
        visits.count_one();
        Some((Node(place / 6), (place % 6) as u8))
    }
}
