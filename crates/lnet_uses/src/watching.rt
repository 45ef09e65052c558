//! A depth view that follows a network.
#![tactic(auto, using(lnet_hashed::proofs::KeptViews::bare_fit))]

ghost use Rattle.std.specs.Prelude.{◌≡◌, None};
ghost use Rattle.lnet_model.specs.declared.view_spec.ViewKind.TheVariants.{Depth};
ghost use Rattle.lnet_hashed.specs.Watches.{AreFitBy};

use crate::building::adder_in;
use lnet_gates::{Gates, KlutGates};
use lnet_network::{Network, ViewId};
use lnet_store::{AddError, View, ViewSpec};
use lnet_views::DepthView;
use std::alloc::{AllocError, Global};

/// Lets a detached depth view follow the network from now on. Where memory runs out it is dropped.
pub fn watch<G: Gates>(net: &mut Network<G>, view: Box<dyn View>) -> Result<ViewId, AllocError>
    requires detached { spec_of view ≡ None }
    requires kind { kind_of view ≡ Depth }
    requires in_step { AreFitBy ⟦<dyn View as View>⟧ net.old.core.network net.old.core.room net.old.watch }
    ensures core { net.new.core ≡ net.old.core }
    ensures in_step { AreFitBy ⟦<dyn View as View>⟧ net.new.core.network net.new.core.room net.new.watch }
{
    match net.subscribe(view, ViewSpec::Depth) {
        Ok(id) => Ok(id),
        Err((_, refused)) => Err(refused),
    }
}

/// Takes the view out again. Whether there was one with the id.
pub fn stop_watching<G: Gates>(net: &mut Network<G>, id: ViewId) -> bool
    requires in_step { AreFitBy ⟦<dyn View as View>⟧ net.old.core.network net.old.core.room net.old.watch }
    ensures core { net.new.core ≡ net.old.core }
    ensures in_step { AreFitBy ⟦<dyn View as View>⟧ net.new.core.network net.new.core.room net.new.watch }
{
    net.unsubscribe(id).is_some()
}

/// A box of a type that a function's callers see is made where it is handed on, so the network and its view stand here together.
/// The answer is the level of the sum of a full adder of look-up tables, as its view keeps it.
pub fn level_of_a_sum(alloc: Global) -> Result<Option<u32>, AllocError> {
    let mut net: Network<KlutGates> = Network::new(alloc)?;
    let levels: Box<dyn View> = Box::new(alloc, DepthView::new(alloc)?)?;
    let id = watch(&mut net, levels)?;
    match adder_in(&mut net) {
        Ok(()) => {}
        Err(AddError::NoMemory) => return Err(AllocError),
        Err(AddError::Full) => return Ok(None),
    }
    let level = match net.output_at(0) {
        Some(sum) => net.level(id, sum.node),
        None => None,
    };
    let _watched = stop_watching(&mut net, id);
    Ok(level)
}
