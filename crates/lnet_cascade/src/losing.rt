//! Removing the gates that lost their last reference, and so on downward.
#![tactic(auto, using(lnet_hashed::proofs::KeptViews::told_twice, lnet_hashed::proofs::KeptViews::told_same))]

ghost use Rattle.std.specs.Prelude.{◌≡◌, ◌<◌, ◌↔◌, ℕ, IsTrue, true};
ghost use Rattle.lnet_model.specs.Networks.{NetworkValue};
ghost use Rattle.lnet_hashed.specs.Indexed.{AllClean};
ghost use Rattle.lnet_hashed.specs.Rooms.{HasRoom};
ghost use Rattle.lnet_hashed.specs.Swept.{IsUnnamed};
ghost use Rattle.lnet_hashed.specs.Watches.{AreFitBy, AreToldBy};
ghost use Rattle.lnet_cascade.specs.Cascading.{left};
ghost use Rattle.lnet_cascade.specs.Losing.{Drops, IsLost};
ghost use Rattle.lnet_cascade.specs.Marks.{marks_of};
ghost use Rattle.lnet_cascade.specs.Noting.{AreNoted};
ghost use Rattle.lnet_cascade.specs.Rooms.{IsMidway, StaysMidway};

use crate::noting::clear;
use crate::redirecting::remove;
use lnet_gates::Node;
use lnet_hashed::{Hashed, Watch};
use lnet_store::{Store, View};

/// Whether a gate stands at the number that nothing names. Constant time.
fn is_unnamed(store: &Store, n: Node) -> bool
    ensures { IsTrue result ↔ IsUnnamed store.now.network n.0 }
{
    if store.gate_of(n).is_none() || store.refs(n) > 0 {
        return false;
    }
    true
}

/// Takes a number that is noted as lost: where a gate stands there that nothing names, it is removed, and the views are told. Then
/// the number is noted no more.
fn drop_lost(hashed: &mut Hashed, watch: &mut Watch, n: Node)
    requires lost { marks_of hashed.old.notes.lost n.0 ≡ true }
    requires midway { IsMidway hashed.old }
    requires clean { AllClean hashed.old.keys }
    requires fit { AreFitBy ⟦<dyn View as View>⟧ hashed.old.store.network hashed.old.room watch.old }
    ensures drops { Drops hashed.old.store.network hashed.old.notes hashed.new.store.network }
    ensures less { left hashed.new.store.network hashed.new.notes.lost < left hashed.old.store.network hashed.old.notes.lost }
    ensures midway { StaysMidway hashed.old hashed.new }
    ensures clean { AllClean hashed.new.keys }
    ensures told { AreToldBy ⟦<dyn View as View>⟧ hashed.new.store.network hashed.new.room watch.old watch.new }
{
    if !is_unnamed(&hashed.store, n) {
        hashed.notes.lost.remove(n.0);
        return;
    }
    remove(hashed, watch, n);
    hashed.notes.lost.remove(n.0);
}

/// Removes the gates that lost their last reference, and so on downward. Then nothing is noted. It looks at what is noted alone.
pub(crate) fn sweep_lost(hashed: &mut Hashed, watch: &mut Watch)
    requires midway { IsMidway hashed.old }
    requires clean { AllClean hashed.old.keys }
    requires fit { AreFitBy ⟦<dyn View as View>⟧ hashed.old.store.network hashed.old.room watch.old }
    ensures drops { Drops hashed.old.store.network hashed.old.notes hashed.new.store.network }
    ensures none { (N : NetworkValue) → AreNoted N hashed.old.store.network hashed.old.notes → (n : ℕ) → IsLost N hashed.new.store.network n → ⊥ }
    ensures room { HasRoom hashed.new }
    ensures same { hashed.new.room ≡ hashed.old.room }
    ensures told { AreToldBy ⟦<dyn View as View>⟧ hashed.new.store.network hashed.new.room watch.old watch.new }
{
    'lost: while let Some(n) = hashed.notes.lost.least() {
        drop_lost(hashed, watch, Node(n));
    }
    clear(&mut hashed.notes.fresh);
}
