//! Telling views of events, and their memory.

ghost use Rattle.std.specs.Prelude.{◌≡◌, ◌≤◌, ℕ, Option, None, IfSome, OnOk, length, slice_index_or};
ghost use Rattle.lnet_model.specs.Changes.{was, IsEvent};
ghost use Rattle.lnet_model.specs.Dags.{IsDag, AreBelow};
ghost use Rattle.lnet_hashed.specs.Views.{EachSlot, Fits, Kept, SlotKept, SlotsKept};
ghost use Rattle.lnet_hashed.specs.Watches.{AreFitBy, AreToldBy};

use crate::watch::Watch;
use lnet_store::{Event, Store, View};
use std::alloc::AllocError;

/// Tells the view of a slot of an event, and answers how often it read the network; 0 where the slot is empty. The view has
/// memory for `numbers` numbers, and those of the network are below.
fn tell_slot(slot: &mut Option<Box<dyn View>>, store: &Store, event: &Event, numbers: u32) -> u64
    requires before { IsDag (was event.now store.now.network) }
    requires event { IsEvent event.now store.now.network }
    requires below { AreBelow store.now.network numbers }
    requires below_before { AreBelow (was event.now store.now.network) numbers }
    requires fit { IfSome slot.old (Fits spec_of kept room (was event.now store.now.network) numbers) }
    ensures fit { IfSome slot.new (Fits spec_of kept room store.now.network numbers) }
    ensures kept { SlotKept (Kept kind_of spec_of room) slot.old slot.new }
{
    match slot {
        Some(view) => {
            let (look, mut visits) = store.look();
            view.after(look, event, &mut visits);
            visits.count()
        }
        None => 0,
    }
}

/// Gets memory for `more` numbers in the view of a slot, which has it for `numbers`.
fn reserve_slot(
    slot: &mut Option<Box<dyn View>>,
    store: &Store,
    numbers: u32,
    more: u32,
) -> Result<(), AllocError>
    requires fit { IfSome slot.old (Fits spec_of kept room store.now.network numbers) }
    requires more { numbers ≤ more }
    ensures fit { IfSome slot.new (Fits spec_of kept room store.now.network numbers) }
    ensures room { OnOk result (IfSome slot.new (Fits spec_of kept room store.now.network more)) }
    ensures kept { SlotKept (Kept kind_of spec_of room) slot.old slot.new }
{
    match slot {
        Some(view) => view.reserve(more),
        None => Ok(()),
    }
}

impl Watch {
    /// Tells each view of an event, and notes how often each read the network. The views have memory for `numbers` numbers,
    /// and those of the network are below. Each view takes its own time.
    pub fn tell(&mut self, store: &Store, event: &Event, numbers: u32)
        requires before { IsDag (was event.now store.now.network) }
        requires event { IsEvent event.now store.now.network }
        requires below { AreBelow store.now.network numbers }
        requires below_before { AreBelow (was event.now store.now.network) numbers }
        requires fit { AreFitBy ⟦<dyn View as View>⟧ (was event.now store.now.network) numbers self.old }
        ensures told { AreToldBy ⟦<dyn View as View>⟧ store.now.network numbers self.old self.new }
    {
        for i in 0..self.views.len() {
            self.visits[i] = tell_slot(&mut self.views[i], store, event, numbers);
        }
    }

    /// Gets memory for `more` numbers in each view. They have it for `numbers`, and keep that whatever the answer.
    pub fn reserve(&mut self, store: &Store, numbers: u32, more: u32) -> Result<(), AllocError>
        requires fit { AreFitBy ⟦<dyn View as View>⟧ store.now.network numbers self.old }
        requires more { numbers ≤ more }
        ensures told { AreToldBy ⟦<dyn View as View>⟧ store.now.network numbers self.old self.new }
        ensures room { OnOk result (AreFitBy ⟦<dyn View as View>⟧ store.now.network more self.new) }
        ensures visits { self.new.visits ≡ self.old.visits }
    {
        for i in 0..self.views.len() {
            reserve_slot(&mut self.views[i], store, numbers, more)?;
        }
        Ok(())
    }
}
