//! The views of a network, by their ids.

ghost use Rattle.std.specs.Prelude.{◌≡◌, ◌≤◌, ◌↔◌, ℕ, None, Some, IfOk, IfErr, IfSome, IsSome, IsSomeAnd, OnErr, option_map, slice_index_or};
ghost use Rattle.lnet_model.specs.Answers.{IsSpec, kind_for};
ghost use Rattle.lnet_network.specs.Kept.{level_kept};
ghost use Rattle.lnet_hashed.specs.Views.{StandsAs, IsLeastEmpty, OthersSame, IsDetachedFrom};
ghost use Rattle.lnet_hashed.specs.Watches.{AreFitBy, IsSeated, IsUnchanged};

use crate::network::Network;
use lnet_gates::{Gates, Node};
use lnet_store::{View, ViewSpec};
use std::alloc::AllocError;

/// The number under which a network has a view.
#[derive(Clone, Copy, Debug, PartialEq, Eq)]
pub struct ViewId(pub usize);

impl<G: Gates> Network<G> {
    /// Attaches a detached view for a spec of its kind, under the least number that no live view has. From then on it is told
    /// each event, after the network has changed. Refused for want of memory, the box comes back, detached and of its kind,
    /// and no view changed. Linear in the network, and in the views.
    pub fn subscribe(
        &mut self,
        view: Box<dyn View>,
        spec: ViewSpec,
    ) -> Result<ViewId, (Box<dyn View>, AllocError)>
        requires detached { spec_of view ≡ None }
        requires of_kind { kind_for spec ≡ kind_of view }
        requires rule { IsSpec spec }
        requires in_step { AreFitBy ⟦<dyn View as View>⟧ self.old.core.network self.old.core.room self.old.watch }
        ensures core { self.new.core ≡ self.old.core }
        ensures seated { IfOk result (λ id. IsSeated kind_of spec_of (kind_of view) spec self.old.watch self.new.watch id.0) }
        ensures same { OnErr result (IsUnchanged self.old.watch self.new.watch) }
        ensures back { IfErr result (λ e. IsDetachedFrom kind_of spec_of kept room view e.0) }
        ensures in_step { AreFitBy ⟦<dyn View as View>⟧ self.new.core.network self.new.core.room self.new.watch }
    {
        let room = self.core.hashed.room;
        match self
            .watch
            .subscribe(&self.core.hashed.store, room, view, spec)
        {
            Ok(id) => Ok(ViewId(id)),
            Err(refused) => Err(refused),
        }
    }

    /// Takes a view out, detached: `None` exactly where no live view has the id. The other views stay under their ids. It takes
    /// no memory. Constant time, beside the drop of the view's answers.
    pub fn unsubscribe(&mut self, id: ViewId) -> Option<Box<dyn View>>
        requires in_step { AreFitBy ⟦<dyn View as View>⟧ self.old.core.network self.old.core.room self.old.watch }
        ensures core { self.new.core ≡ self.old.core }
        ensures some { IsSome result ↔ IsSome (slice_index_or self.old.watch.views.items id.0 None) }
        ensures detached { IfSome result (λ b. IsSomeAnd (slice_index_or self.old.watch.views.items id.0 None) (λ a. IsDetachedFrom kind_of spec_of kept room a b)) }
        ensures empty { slice_index_or self.new.watch.views.items id.0 None ≡ None }
        ensures others { OthersSame self.old.watch.views.items self.new.watch.views.items id.0 }
        ensures visits { self.new.watch.visits.items ≡ self.old.watch.visits.items }
        ensures in_step { AreFitBy ⟦<dyn View as View>⟧ self.new.core.network self.new.core.room self.new.watch }
    {
        self.watch.unsubscribe(id.0)
    }

    /// The view with the id: `None` exactly where no live view has it. Constant time.
    pub fn view(&self, id: ViewId) -> Option<&Box<dyn View>>
        ensures { option_map (λ b. b.now) result ≡ slice_index_or self.now.watch.views.items id.0 None }
    {
        match self.watch.views.get(id.0) {
            Some(Some(view)) => Some(view),
            _ => None,
        }
    }

    /// How often the view read the network at the last event, 0 before the first: `None` exactly where no live view has the
    /// id. Constant time.
    pub fn visits(&self, id: ViewId) -> Option<u64>
        ensures { result ≡ option_map (λ _. slice_index_or self.now.watch.visits.items id.0 0) (slice_index_or self.now.watch.views.items id.0 None) }
    {
        self.watch.visits_of(id.0)
    }

    /// The level that the view with the id keeps for the node: `None` exactly where no live view has the id, or it keeps no level
    /// of the node. Constant time.
    pub fn level(&self, id: ViewId, n: Node) -> Option<u32>
        ensures { result ≡ level_kept (option_map (λ b. (⟦<dyn View as View>⟧ b.vtable).kept b.value n.0) (slice_index_or self.now.watch.views.items id.0 None)) }
    {
        match self.watch.views.get(id.0) {
            Some(Some(view)) => view.level(n),
            _ => None,
        }
    }
}
