//! A session: the network in place, its names and its views.

ghost use Rattle.std.specs.Prelude.{◌≡◌, [], option_map, Some, None, IfOk, IfErr, OnOk, OnErr};
ghost use Rattle.lnet_any.specs.AnyNets.{network_in, watch_in};
ghost use Rattle.lnet_hashed.specs.Watches.{IsBare};
ghost use Rattle.std.specs.List.{count_by};
ghost use Rattle.lnet_subscriptions.specs.Rolls.{all_shelved, same_kind};
ghost use Rattle.lnet_session.specs.Effects.{SaysCounts};
ghost use Rattle.lnet_session.specs.Made.{counts_of as network_counts};
ghost use Rattle.lnet_build.specs.Sound.{IsSound};
ghost use Rattle.lnet_session.specs.Sessions.{AreDetachedBy, IsAtRestBy, IsGoodBy, FitNames, first_state_by, state_by};

use lnet_any::AnyNet;
use lnet_model::{ViewKind, ViewSpec};
use lnet_names::Names;
use lnet_replies::{Counts, Reply};
use lnet_store::View;
use lnet_subscriptions::Subscriptions;
use std::alloc::Global;

/// Why a command was not run to its end. It had no effect then.
#[derive(Clone, Copy, Debug, PartialEq, Eq)]
pub(crate) enum Stop {
    /// Its own fetch or store failed.
    Fault,
    /// Memory ran out.
    NoMemory,
}

/// What is in place: a network, and the names of its inputs and outputs.
#[derive(Drop)]
pub(crate) struct Place {
    pub(crate) network: AnyNet,
    pub(crate) names: Names,
}

/// What a session is given beside files and a sink.
#[derive(Drop)]
pub struct Kit {
    /// The views that can be attached, detached, in the order of the shelf.
    pub views: Vec<Box<dyn View>>,
}

/// The state between two commands.
pub struct Session {
    pub(crate) place: Option<Place>,
    pub(crate) views: Subscriptions,
}

impl Drop for Session {
    /// Lets its fields go. Where a value ends this is called; a derived one would be written out there.
    fn drop(self) {
        let Self { place: _, views: _ } = self;
    }
}

impl Session {
    /// A session in which nothing is in place, with the kit's views on the shelf. It takes no memory.
    pub fn new(alloc: Global, kit: Kit) -> Session
        requires detached { AreDetachedBy ⟦<dyn View as View>⟧ kit }
        ensures state { state_by ⟦<dyn View as View>⟧ result ≡ first_state_by ⟦<dyn View as View>⟧ kit }
        ensures good { IsGoodBy ⟦<dyn View as View>⟧ result }
    {
        Session {
            place: None,
            views: Subscriptions {
                live: Vec::new(alloc),
                ids: Vec::new(alloc),
                next: 1,
                shelf: kit.views,
            },
        }
    }

    /// The network, None exactly where none is in place. Constant time.
    pub fn network(&self) -> Option<&AnyNet>
        ensures { option_map (λ n. network_in n.now) result ≡ option_map (λ h. h.network) (state_by ⟦<dyn View as View>⟧ self.now).held }
    {
        match &self.place {
            Some(place) => Some(&place.network),
            None => None,
        }
    }

    /// The names of the network's inputs and outputs, None exactly where no network is in place. Constant time.
    pub fn names(&self) -> Option<&Names>
        ensures { option_map (λ n. n.now) result ≡ option_map (λ h. h.names) (state_by ⟦<dyn View as View>⟧ self.now).held }
    {
        match &self.place {
            Some(place) => Some(&place.names),
            None => None,
        }
    }

    /// The number that the next view gets. Constant time.
    pub fn next_view(&self) -> u32
        ensures { result ≡ (state_by ⟦<dyn View as View>⟧ self.now).roll.next }
    {
        self.views.next()
    }

    /// The live views, each by its number and spec, ascending. Constant time.
    pub fn live(&self) -> &[(u32, ViewSpec)]
        ensures { result.now ≡ (state_by ⟦<dyn View as View>⟧ self.now).roll.live }
    {
        self.views.live()
    }

    /// How many views of the kind are on the shelf. Linear in the shelf.
    pub fn shelf_len(&self, kind: ViewKind) -> usize
        ensures { result ≡ count_by (same_kind kind) (state_by ⟦<dyn View as View>⟧ self.now).roll.shelf }
    {
        self.views.shelf_len(kind)
    }

    /// Puts all live views on the shelf.
    fn shelve_views(&mut self) -> Result<(), Stop>
        requires good { IsGoodBy ⟦<dyn View as View>⟧ self.old }
        ensures roll { OnOk result ((state_by ⟦<dyn View as View>⟧ self.new).roll ≡ all_shelved (state_by ⟦<dyn View as View>⟧ self.old).roll) }
        ensures rest { OnOk result (IsAtRestBy ⟦<dyn View as View>⟧ self.new) }
        ensures err { OnErr result (state_by ⟦<dyn View as View>⟧ self.new ≡ state_by ⟦<dyn View as View>⟧ self.old) }
        ensures good { OnErr result (IsGoodBy ⟦<dyn View as View>⟧ self.new) }
        ensures memory { IfErr result (λ stop. stop ≡ Stop.NoMemory) }
    {
        if let Some(place) = &mut self.place {
            let shelved = self.views.shelve_all(&mut place.network);
            return match shelved {
                Ok(()) => Ok(()),
                Err(_) => Err(Stop::NoMemory),
            };
        }
        Ok(())
    }

    /// Puts a network without views in place, and all live views on the shelf; says its kind and counts.
    pub(crate) fn put_in_place(&mut self, network: AnyNet, names: Names) -> Result<Reply, Stop>
        requires good { IsGoodBy ⟦<dyn View as View>⟧ self.old }
        requires none { IsBare (watch_in network) }
        requires sound { IsSound (network_in network) }
        requires names { FitNames (network_in network) names }
        ensures held { OnOk result ((state_by ⟦<dyn View as View>⟧ self.new).held ≡ Some (record { network = network_in network; names = names })) }
        ensures roll { OnOk result ((state_by ⟦<dyn View as View>⟧ self.new).roll ≡ all_shelved (state_by ⟦<dyn View as View>⟧ self.old).roll) }
        ensures reply { IfOk result (SaysCounts (network_in network)) }
        ensures err { OnErr result (state_by ⟦<dyn View as View>⟧ self.new ≡ state_by ⟦<dyn View as View>⟧ self.old) }
        ensures memory { IfErr result (λ stop. stop ≡ Stop.NoMemory) }
        ensures good { IsGoodBy ⟦<dyn View as View>⟧ self.new }
    {
        match self.shelve_views() {
            Ok(()) => {
                let counts = counts_of(&network);
                self.place = Some(Place { network, names });
                Ok(Reply::Network(counts))
            }
            Err(stop) => Err(stop),
        }
    }
}

/// The kind and the counts of a network.
pub(crate) fn counts_of(network: &AnyNet) -> Counts
    ensures { result ≡ network_counts (network_in network.now) }
{
    Counts {
        kind: network.kind(),
        inputs: network.input_count(),
        outputs: network.output_count(),
        gates: network.gate_count(),
    }
}
