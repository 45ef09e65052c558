//! Placing gates: at the signal that their normal form is, at the gate that has its key, or newly.
#![tactic(auto, using(crate::proofs::KeptViews::told_twice, crate::proofs::KeptViews::told_same))]

ghost use Rattle.std.specs.Prelude.{◌≡◌, ◌≤◌, ◌<◌, ◌↔◌, IfOk, OnErr, length, Err, min};
ghost use Rattle.lnet_gates.specs.NormalLaws.{keyed_gate};
ghost use Rattle.lnet_gates.specs.Natives.{IsNativeGate};
ghost use Rattle.lnet_gates.specs.Plans.{Takes};
ghost use Rattle.lnet_model.specs.Networks.{IsLive, live_count};
ghost use Rattle.lnet_model.specs.Along.{nodes_read};
ghost use Rattle.lnet_model.specs.Changes.{AreLive};
ghost use Rattle.lnet_model.specs.Dags.{NUMBERS};
ghost use Rattle.lnet_hashed.specs.Strashed.{found, placed, placed_key};
ghost use Rattle.lnet_hashed.specs.Watches.{AreFitBy, AreToldBy};
ghost use Rattle.lnet_hashed.specs.Rooms.{HasRoom};

use crate::hashed::{Hashed, add_key, find};
use crate::watch::Watch;
use lnet_gates::{Gate, Gates, Key, Normal, Signal};
use lnet_store::{AddError, View};

/// The signal of a key, complemented where `phase` is set: of the gate that has the key, or of a new one.
fn place_key(
    hashed: &mut Hashed,
    watch: &mut Watch,
    key: Key,
    phase: bool,
) -> Result<Signal, AddError>
    requires room { HasRoom hashed.old }
    requires live { AreLive hashed.old.store.network (nodes_read key.fanins) }
    requires arity { Takes key.op (length key.fanins) }
    requires fit { AreFitBy ⟦<dyn View as View>⟧ hashed.old.store.network hashed.old.room watch.old }
    ensures placed { IfOk result (λ s. placed_key hashed.old.store.network key phase (found hashed.old.store.network key) ≡ record { network = hashed.new.store.network; signal = s }) }
    ensures live { IfOk result (λ s. IsLive hashed.new.store.network s.node.0) }
    ensures room { HasRoom hashed.new }
    ensures grows { hashed.old.room ≤ hashed.new.room }
    ensures refused { OnErr result ((hashed.new.store.network ≡ hashed.old.store.network) × (hashed.new.store.stamp ≡ hashed.old.store.stamp)) }
    ensures full { (result ≡ Err AddError.Full) ↔ (NUMBERS < live_count (placed_key hashed.old.store.network key phase (found hashed.old.store.network key)).network) }
    ensures memory { result ≡ Err AddError.NoMemory → hashed.old.room < min NUMBERS (live_count (placed_key hashed.old.store.network key phase (found hashed.old.store.network key)).network) }
    ensures told { AreToldBy ⟦<dyn View as View>⟧ hashed.new.store.network hashed.new.room watch.old watch.new }
{
    let _live = hashed.store.live_count();
    match find(hashed, &key) {
        Some(signal) => Ok(signal.flipped(phase)),
        None => match add_key(hashed, watch, key) {
            Ok(n) => Ok(Signal {
                node: n,
                complement: phase,
            }),
            Err(error) => Err(error),
        },
    }
}

/// The signal of a gate: that of its normal form, or of the gate that has its key, or of a new one.
pub fn place<G: Gates>(
    hashed: &mut Hashed,
    watch: &mut Watch,
    gate: &Gate,
) -> Result<Signal, AddError>
    requires native { IsNativeGate G.KIND gate.now }
    requires live { AreLive hashed.old.store.network (nodes_read gate.now.fanins) }
    requires room { HasRoom hashed.old }
    requires fit { AreFitBy ⟦<dyn View as View>⟧ hashed.old.store.network hashed.old.room watch.old }
    ensures placed { IfOk result (λ s. placed G.KIND hashed.old.store.network gate.now ≡ record { network = hashed.new.store.network; signal = s }) }
    ensures live { IfOk result (λ s. IsLive hashed.new.store.network s.node.0) }
    ensures room { HasRoom hashed.new }
    ensures grows { hashed.old.room ≤ hashed.new.room }
    ensures refused { OnErr result ((hashed.new.store.network ≡ hashed.old.store.network) × (hashed.new.store.stamp ≡ hashed.old.store.stamp)) }
    ensures full { (result ≡ Err AddError.Full) ↔ (NUMBERS < live_count (placed G.KIND hashed.old.store.network gate.now).network) }
    ensures memory { result ≡ Err AddError.NoMemory → hashed.old.room < min NUMBERS (live_count (placed G.KIND hashed.old.store.network gate.now).network) }
    ensures told { AreToldBy ⟦<dyn View as View>⟧ hashed.new.store.network hashed.new.room watch.old watch.new }
{
    let _live = hashed.store.live_count();
    match G::normal(gate) {
        Normal::Is(signal) => Ok(signal),
        Normal::Gate(key, phase) => place_key(hashed, watch, key, phase),
    }
}
