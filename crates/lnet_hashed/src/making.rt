//! Making operations of signals, by the plan of the kind.
#![tactic(auto, using(crate::proofs::KeptViews::told_twice, crate::proofs::KeptViews::told_same))]

ghost use Rattle.std.specs.Prelude.{◌≡◌, ◌≤◌, ◌<◌, IfOk, OnErr, length, false, Err, min};
ghost use Rattle.lnet_gates.specs.NormalLaws.{keyed_gate};
ghost use Rattle.lnet_gates.specs.Plans.{Takes};
ghost use Rattle.lnet_model.specs.Networks.{live_count};
ghost use Rattle.lnet_model.specs.Along.{nodes_read};
ghost use Rattle.lnet_model.specs.Changes.{AreLive};
ghost use Rattle.lnet_model.specs.Dags.{NUMBERS};
ghost use Rattle.lnet_hashed.specs.Laid.{made};
ghost use Rattle.lnet_hashed.specs.Watches.{AreFitBy, AreToldBy};
ghost use Rattle.lnet_hashed.specs.Rooms.{HasRoom};

use crate::hashed::Hashed;
use crate::laying::lay;
use crate::placing::place;
use crate::watch::Watch;
use arrayvec::ArrayVec;
use lnet_gates::{Gate, Gates, Key, Op, Plan, Signal};
use lnet_store::{AddError, View};

/// The gate of an operation on operands, at most 6.
fn gate_on(op: Op, operands: &[Signal]) -> Gate
    requires { length operands.now ≤ 6 }
    ensures { result ≡ record { op = op; phase = false; fanins = operands.now } }
{
    let mut fanins = ArrayVec::new();
    for operand in operands {
        fanins.push(*operand);
    }
    Gate {
        op,
        phase: false,
        fanins,
    }
}

/// The gate of a key and a phase.
pub fn gate_of(key: &Key, phase: bool) -> Gate
    ensures { result ≡ keyed_gate key.now phase }
{
    let mut gate = gate_on(key.op, key.fanins.as_slice());
    gate.phase = phase;
    gate
}

/// The signal of an operation on operands, as many as it takes: by a gate where the kind has the operation, and else by the
/// steps of its plan. Refused, it takes back what it added.
pub fn make<G: Gates>(
    hashed: &mut Hashed,
    watch: &mut Watch,
    op: Op,
    operands: &[Signal],
) -> Result<Signal, AddError>
    requires arity { Takes op (length operands.now) }
    requires live { AreLive hashed.old.store.network (nodes_read operands.now) }
    requires room { HasRoom hashed.old }
    requires fit { AreFitBy ⟦<dyn View as View>⟧ hashed.old.store.network hashed.old.room watch.old }
    ensures made { IfOk result (λ s. made G.KIND hashed.old.store.network op operands.now ≡ record { network = hashed.new.store.network; signal = s }) }
    ensures refused { OnErr result (hashed.new.store.network ≡ hashed.old.store.network) }
    ensures room { HasRoom hashed.new }
    ensures grows { hashed.old.room ≤ hashed.new.room }
    ensures full { result ≡ Err AddError.Full → NUMBERS < live_count (made G.KIND hashed.old.store.network op operands.now).network }
    ensures memory { result ≡ Err AddError.NoMemory → hashed.old.room < min NUMBERS (live_count (made G.KIND hashed.old.store.network op operands.now).network) }
    ensures told { AreToldBy ⟦<dyn View as View>⟧ hashed.new.store.network hashed.new.room watch.old watch.new }
{
    match G::plan(&op, operands.len() as u8) {
        Plan::Native => {
            let gate = gate_on(op, operands);
            place::<G>(hashed, watch, &gate)
        }
        Plan::Steps(recipe) => lay::<G>(hashed, watch, &recipe, operands),
    }
}
