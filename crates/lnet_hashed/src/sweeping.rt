//! Sweeping: removing the gates that no output reaches.
#![tactic(auto, using(crate::proofs::KeptViews::told_twice, crate::proofs::KeptViews::told_same))]

ghost use Rattle.std.specs.Prelude.{◌≡◌, ◌<◌, ◌↔◌, ℕ, IsTrue, cond, false};
ghost use Rattle.lnet_model.specs.Networks.{live_count};
ghost use Rattle.lnet_model.specs.Changes.{without};
ghost use Rattle.lnet_hashed.specs.Swept.{IsSwept, IsTrimmed, IsUnnamed};
ghost use Rattle.lnet_hashed.specs.Watches.{AreFitBy, AreToldBy};
ghost use Rattle.lnet_hashed.specs.Rooms.{HasRoom};

use crate::hashed::{Hashed, remove};
use crate::watch::Watch;
use lnet_gates::Node;
use lnet_store::View;

/// Removes the gate at the number where nothing names it, and tells the views. Whether it did.
fn remove_unnamed(hashed: &mut Hashed, watch: &mut Watch, n: Node) -> bool
    requires room { HasRoom hashed.old }
    requires fit { AreFitBy ⟦<dyn View as View>⟧ hashed.old.store.network hashed.old.room watch.old }
    ensures answer { IsTrue result ↔ IsUnnamed hashed.old.store.network n.0 }
    ensures network { hashed.new.store.network ≡ cond result (without hashed.old.store.network n.0) hashed.old.store.network }
    ensures room { HasRoom hashed.new }
    ensures same { hashed.new.room ≡ hashed.old.room }
    ensures told { AreToldBy ⟦<dyn View as View>⟧ hashed.new.store.network hashed.new.room watch.old watch.new }
{
    if hashed.store.gate_of(n).is_none() || hashed.store.refs(n) > 0 {
        return false;
    }
    remove(hashed, watch, n);
    true
}

/// Removes the gates that nothing names, from the greatest number down: also those that nothing names once the ones above
/// went. Whether it removed one.
fn pass(hashed: &mut Hashed, watch: &mut Watch) -> bool
    requires room { HasRoom hashed.old }
    requires fit { AreFitBy ⟦<dyn View as View>⟧ hashed.old.store.network hashed.old.room watch.old }
    ensures trimmed { IsTrimmed hashed.old.store.network hashed.new.store.network }
    ensures fewer { IsTrue result → live_count hashed.new.store.network < live_count hashed.old.store.network }
    ensures unchanged { result ≡ false → hashed.new.store.network ≡ hashed.old.store.network }
    ensures none { result ≡ false → (n : ℕ) → IsUnnamed hashed.new.store.network n → ⊥ }
    ensures room { HasRoom hashed.new }
    ensures same { hashed.new.room ≡ hashed.old.room }
    ensures told { AreToldBy ⟦<dyn View as View>⟧ hashed.new.store.network hashed.new.room watch.old watch.new }
{
    let mut removed = false;
    for n in (0..hashed.store.numbers()).rev() {
        if remove_unnamed(hashed, watch, Node(n)) {
            removed = true;
        }
    }
    removed
}

/// Removes each gate that no output reaches, and tells the views of each removal. It takes no memory, and can't be refused.
///
/// By reference counts: a pass over the numbers from the greatest down removes the gates that nothing names, and passes follow
/// until one removes nothing. Where each gate stands above its fanins one pass removes all, and a second finds nothing. At worst,
/// where each gate stands below its fanins, there is a pass for each level that goes, and one more. A pass is linear in the
/// numbers, beside what the views take.
pub fn sweep(hashed: &mut Hashed, watch: &mut Watch)
    requires room { HasRoom hashed.old }
    requires fit { AreFitBy ⟦<dyn View as View>⟧ hashed.old.store.network hashed.old.room watch.old }
    ensures network { IsSwept hashed.old.store.network hashed.new.store.network }
    ensures room { HasRoom hashed.new }
    ensures same { hashed.new.room ≡ hashed.old.room }
    ensures told { AreToldBy ⟦<dyn View as View>⟧ hashed.new.store.network hashed.new.room watch.old watch.new }
{
    'passes: while pass(hashed, watch) {}
    let _live = hashed.store.live_count();
}
