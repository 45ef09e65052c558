//! Subscribing views: their slots and ids.

ghost use Rattle.std.specs.Prelude.{◌≡◌, ◌+◌, ◌≤◌, ◌<◌, max, ℕ, None, Some, IfOk, IfErr, IfSome, IsSome, IsSomeAnd, OnOk, OnErr, ◌↔◌, length, slice_index_or, option_map, vec_len, vec_capacity};
ghost use Rattle.lnet_model.specs.Answers.{IsSpec, kind_for};
ghost use Rattle.lnet_hashed.specs.Views.{Fits, StandsAs, IsLeastEmpty, OthersSame, IsDetachedFrom};
ghost use Rattle.lnet_hashed.specs.Watches.{AreFitBy, IsSeated, IsUnchanged};

use crate::watch::Watch;
use lnet_model::ViewSpec;
use lnet_store::{Store, View};
use std::alloc::AllocError;

/// The least number of an empty slot; how many slots there are, where none is empty. Linear in the slots.
pub(crate) fn least_empty(views: &Vec<Option<Box<dyn View>>>) -> usize
    ensures least { IsLeastEmpty views.now.items result }
    ensures within { result ≤ length views.now.items }
{
    for i in 0..views.len() {
        if views[i].is_none() {
            return i;
        }
    }
    views.len()
}

/// Gets memory for the place `id`, where it is past the end. Whatever it answers, the items are as before.
fn reserve_place<T: Drop>(items: &mut Vec<T>, id: usize) -> Result<(), AllocError>
    ensures same { items.new.items ≡ items.old.items }
    ensures len { vec_len items.new ≡ vec_len items.old }
    ensures room { OnOk result (vec_len items.new ≤ id → vec_len items.new < vec_capacity items.new) }
{
    if id < items.len() {
        return Ok(());
    }
    items.reserve(1)
}

/// Puts the view into the slot `id`, which may be the next one.
fn put(views: &mut Vec<Option<Box<dyn View>>>, id: usize, view: Box<dyn View>)
    requires next { id ≤ length views.old.items }
    requires room { vec_len views.old ≤ id → vec_len views.old < vec_capacity views.old }
    ensures placed { slice_index_or views.new.items id None ≡ Some view }
    ensures others { OthersSame views.old.items views.new.items id }
    ensures len { length views.new.items ≡ max (length views.old.items) (id + 1) }
{
    if id < views.len() {
        views[id] = Some(view);
        return;
    }
    if views.push(Some(view)).is_err() {
        unreachable!();
    }
}

/// Sets the number of visits at the place `id` to 0, or adds it.
fn restart(visits: &mut Vec<u64>, id: usize)
    requires room { vec_len visits.old ≤ id → vec_len visits.old < vec_capacity visits.old }
    ensures unread { slice_index_or visits.new.items id 0 ≡ 0 }
    ensures others { (k : ℕ) → (k ≡ id → ⊥) → slice_index_or visits.new.items k 0 ≡ slice_index_or visits.old.items k 0 }
    ensures len { id ≤ length visits.old.items → length visits.new.items ≡ max (length visits.old.items) (id + 1) }
{
    if id < visits.len() {
        visits[id] = 0;
        return;
    }
    if visits.push(0).is_err() {
        unreachable!();
    }
}

/// Attaches the detached view, and gets memory for `numbers` numbers in it. Refused for want of memory, it is detached.
fn attach_to(
    view: &mut Box<dyn View>,
    store: &Store,
    numbers: u32,
    spec: ViewSpec,
) -> Result<(), AllocError>
    requires detached { spec_of view.old ≡ None }
    requires of_kind { kind_for spec ≡ kind_of view.old }
    requires rule { IsSpec spec }
    ensures fit { OnOk result (Fits spec_of kept room store.now.network numbers view.new) }
    ensures stands { OnOk result (StandsAs kind_of spec_of (kind_of view.old) spec view.new) }
    ensures kind { kind_of view.new ≡ kind_of view.old }
    ensures grows { room view.old ≤ room view.new }
    ensures refused { OnErr result (IsDetachedFrom kind_of spec_of kept room view.old view.new) }
{
    view.attach(store, spec)?;
    match view.reserve(numbers) {
        Ok(()) => Ok(()),
        Err(error) => {
            view.detach();
            Err(error)
        }
    }
}

/// Detaches the view.
fn detach(view: &mut Box<dyn View>)
    ensures { IsDetachedFrom kind_of spec_of kept room view.old view.new }
{
    view.detach();
}

impl Watch {
    /// Gets memory for the slot `id` and its visits. Whatever it answers, the slots and visits are as before.
    fn reserve_places(&mut self, id: usize) -> Result<(), AllocError>
        ensures same { self.new.views.items ≡ self.old.views.items }
        ensures same_visits { self.new.visits.items ≡ self.old.visits.items }
        ensures room { OnOk result (vec_len self.new.views ≤ id → vec_len self.new.views < vec_capacity self.new.views) }
        ensures room_visits { OnOk result (vec_len self.new.visits ≤ id → vec_len self.new.visits < vec_capacity self.new.visits) }
    {
        reserve_place(&mut self.views, id)?;
        reserve_place(&mut self.visits, id)?;
        Ok(())
    }

    /// Attaches the detached view for a spec of its kind, with memory for `numbers` numbers, and puts it into the least empty
    /// slot, whose number is its id; its visits are 0. Refused for want of memory, it gives the view back, detached, and the
    /// slots and visits are as before. Linear in the slots, beside what attaching costs.
    pub fn subscribe(
        &mut self,
        store: &Store,
        numbers: u32,
        mut view: Box<dyn View>,
        spec: ViewSpec,
    ) -> Result<usize, (Box<dyn View>, AllocError)>
        requires detached { spec_of view ≡ None }
        requires of_kind { kind_for spec ≡ kind_of view }
        requires rule { IsSpec spec }
        requires fit { AreFitBy ⟦<dyn View as View>⟧ store.now.network numbers self.old }
        ensures fit { AreFitBy ⟦<dyn View as View>⟧ store.now.network numbers self.new }
        ensures seated { IfOk result (λ id. IsSeated kind_of spec_of (kind_of view) spec self.old self.new id) }
        ensures same { OnErr result (IsUnchanged self.old self.new) }
        ensures back { IfErr result (λ e. IsDetachedFrom kind_of spec_of kept room view e.0) }
    {
        let id = least_empty(&self.views);
        if let Err(error) = attach_to(&mut view, store, numbers, spec) {
            return Err((view, error));
        }
        if let Err(error) = self.reserve_places(id) {
            detach(&mut view);
            return Err((view, error));
        }
        put(&mut self.views, id, view);
        restart(&mut self.visits, id);
        Ok(id)
    }

    /// Takes the view out of its slot, detached; `None` exactly where the slot is empty or there is none. It takes no memory.
    /// Constant time, beside the drop of the view's answers.
    pub fn unsubscribe(&mut self, id: usize) -> Option<Box<dyn View>>
        ensures some { IsSome result ↔ IsSome (slice_index_or self.old.views.items id None) }
        ensures detached { IfSome result (λ b. IsSomeAnd (slice_index_or self.old.views.items id None) (λ a. IsDetachedFrom kind_of spec_of kept room a b)) }
        ensures empty { slice_index_or self.new.views.items id None ≡ None }
        ensures others { OthersSame self.old.views.items self.new.views.items id }
        ensures len { length self.new.views.items ≡ length self.old.views.items }
        ensures visits { self.new.visits ≡ self.old.visits }
    {
        let mut view = self.views.get_mut(id)?.take()?;
        detach(&mut view);
        Some(view)
    }

    /// How often the view of a slot read the network at the last event; `None` exactly where the slot is empty or there is none.
    /// Constant time.
    pub fn visits_of(&self, id: usize) -> Option<u64>
        ensures { result ≡ option_map (λ _. slice_index_or self.now.visits.items id 0) (slice_index_or self.now.views.items id None) }
    {
        match self.views.get(id) {
            Some(Some(_)) => Some(self.visits.get(id).copied().unwrap_or(0)),
            _ => None,
        }
    }
}
