//! Laying the steps of recipes, and taking them back where one is refused.
#![tactic(auto, using(crate::proofs::KeptViews::told_twice, crate::proofs::KeptViews::told_same))]

ghost use Rattle.std.specs.Prelude.{◌≡◌, ◌≤◌, ◌<◌, ◌+◌, [], ◌∷◌, ◌++◌, ℕ, List, IfOk, OnOk, OnErr, IsTrue, reverse, length, false, Err, min};
ghost use Rattle.lnet_tables.specs.declared.step.Step.{Step as StepValue};
ghost use Rattle.lnet_gates.specs.Natives.{IsNativeGate};
ghost use Rattle.lnet_gates.specs.Operands.{constant};
ghost use Rattle.lnet_gates.specs.Plans.{is_native, op_of, AllNative};
ghost use Rattle.lnet_model.specs.Networks.{IsLive, live_count};
ghost use Rattle.lnet_model.specs.Along.{nodes_read};
ghost use Rattle.lnet_model.specs.Changes.{AreLive};
ghost use Rattle.lnet_model.specs.Dags.{NUMBERS};
ghost use Rattle.lnet_hashed.specs.Strashed.{placed};
ghost use Rattle.lnet_hashed.specs.Laid.{laid, laid_steps, signal_at as signal_of_literal, operands_at, step_gate as gate_of_step};
ghost use Rattle.lnet_hashed.specs.Undoing.{undone, IsUndoable};
ghost use Rattle.lnet_hashed.specs.Watches.{AreFitBy, AreToldBy};
ghost use Rattle.lnet_hashed.specs.Rooms.{HasRoom};

use crate::hashed::{Hashed, remove};
use crate::placing::place;
use crate::watch::Watch;
use arrayvec::ArrayVec;
use lnet_gates::{Gate, Gates, Node, Op, Signal};
use lnet_store::{AddError, View};
use lnet_tables::{Lit, Recipe, Step, StepOp};

/// A recipe under way: the signals of the places so far, and the nodes that were added for them.
#[derive(Drop)]
struct Laying {
    places: ArrayVec<Signal, 256>,
    added: ArrayVec<Node, 128>,
}

/// The signal of a literal; that of the constant for a place past the last.
fn signal_at(places: &[Signal], literal: Lit) -> Signal
    ensures { result ≡ signal_of_literal places.now literal }
{
    let Lit(code) = literal;
    places
        .get((code / 2) as usize)
        .copied()
        .unwrap_or(Signal::constant(false))
        .flipped(code % 2 == 1)
}

/// The gate of a step.
fn step_gate(places: &[Signal], step: &Step) -> Gate
    ensures { result ≡ gate_of_step places.now step.now }
{
    let mut fanins = ArrayVec::new();
    fanins.push(signal_at(places, step.a));
    fanins.push(signal_at(places, step.b));
    let op = match step.op {
        StepOp::And => Op::And,
        StepOp::Xor => Op::Xor,
        StepOp::Maj => {
            fanins.push(signal_at(places, step.c));
            Op::Maj
        }
    };
    Gate {
        op,
        phase: false,
        fanins,
    }
}

/// Takes back the nodes that were added, the last one first.
fn undo(hashed: &mut Hashed, watch: &mut Watch, added: ArrayVec<Node, 128>)
    requires undoable { IsUndoable (reverse added.items) hashed.old.store.network }
    requires room { HasRoom hashed.old }
    requires fit { AreFitBy ⟦<dyn View as View>⟧ hashed.old.store.network hashed.old.room watch.old }
    ensures network { hashed.new.store.network ≡ undone (reverse added.items) hashed.old.store.network }
    ensures room { HasRoom hashed.new }
    ensures same { hashed.new.room ≡ hashed.old.room }
    ensures told { AreToldBy ⟦<dyn View as View>⟧ hashed.new.store.network hashed.new.room watch.old watch.new }
{
    let mut added = added;
    while let Some(n) = added.pop() {
        remove(hashed, watch, n);
    }
}

/// Places a gate, and notes its node where it is new.
fn place_noting<G: Gates>(
    hashed: &mut Hashed,
    watch: &mut Watch,
    added: &mut ArrayVec<Node, 128>,
    gate: &Gate,
) -> Result<Signal, AddError>
    requires native { IsNativeGate G.KIND gate.now }
    requires live { AreLive hashed.old.store.network (nodes_read gate.now.fanins) }
    requires undoable { IsUndoable (reverse added.old.items) hashed.old.store.network }
    requires few { length added.old.items < 128 }
    requires room { HasRoom hashed.old }
    requires fit { AreFitBy ⟦<dyn View as View>⟧ hashed.old.store.network hashed.old.room watch.old }
    ensures placed { IfOk result (λ s. placed G.KIND hashed.old.store.network gate.now ≡ record { network = hashed.new.store.network; signal = s }) }
    ensures live { IfOk result (λ s. IsLive hashed.new.store.network s.node.0) }
    ensures lives { (m : ℕ) → IsLive hashed.old.store.network m → IsLive hashed.new.store.network m }
    ensures few { length added.new.items ≤ length added.old.items + 1 }
    ensures undoable { IsUndoable (reverse added.new.items) hashed.new.store.network }
    ensures undone { undone (reverse added.new.items) hashed.new.store.network ≡ undone (reverse added.old.items) hashed.old.store.network }
    ensures room { HasRoom hashed.new }
    ensures grows { hashed.old.room ≤ hashed.new.room }
    ensures full { result ≡ Err AddError.Full → NUMBERS < live_count (placed G.KIND hashed.old.store.network gate.now).network }
    ensures memory { result ≡ Err AddError.NoMemory → hashed.old.room < min NUMBERS (live_count (placed G.KIND hashed.old.store.network gate.now).network) }
    ensures told { AreToldBy ⟦<dyn View as View>⟧ hashed.new.store.network hashed.new.room watch.old watch.new }
{
    let before = hashed.store.live_count();
    match place::<G>(hashed, watch, gate) {
        Ok(signal) => {
            if before < hashed.store.live_count() {
                added.push(signal.node);
            }
            Ok(signal)
        }
        Err(error) => Err(error),
    }
}

/// Lays a step: places its gate, and adds the place.
fn lay_step<G: Gates>(
    hashed: &mut Hashed,
    watch: &mut Watch,
    laying: &mut Laying,
    step: &Step,
) -> Result<(), AddError>
    requires native { IsTrue (is_native G.KIND (op_of step.now.op)) }
    requires live { AreLive hashed.old.store.network (nodes_read laying.old.places.items) }
    requires undoable { IsUndoable (reverse laying.old.added.items) hashed.old.store.network }
    requires few { length laying.old.added.items < 128 }
    requires few_places { length laying.old.places.items < 256 }
    requires room { HasRoom hashed.old }
    requires fit { AreFitBy ⟦<dyn View as View>⟧ hashed.old.store.network hashed.old.room watch.old }
    ensures laid { OnOk result ((ss : List StepValue) → laid_steps G.KIND (step.now ∷ ss) hashed.old.store.network laying.old.places.items ≡ laid_steps G.KIND ss hashed.new.store.network laying.new.places.items) }
    ensures live { AreLive hashed.new.store.network (nodes_read laying.new.places.items) }
    ensures few { length laying.new.added.items ≤ length laying.old.added.items + 1 }
    ensures places { OnOk result (length laying.new.places.items ≡ length laying.old.places.items + 1) }
    ensures undoable { IsUndoable (reverse laying.new.added.items) hashed.new.store.network }
    ensures undone { undone (reverse laying.new.added.items) hashed.new.store.network ≡ undone (reverse laying.old.added.items) hashed.old.store.network }
    ensures room { HasRoom hashed.new }
    ensures grows { hashed.old.room ≤ hashed.new.room }
    ensures full { result ≡ Err AddError.Full → (ss : List StepValue) → NUMBERS < live_count (laid_steps G.KIND (step.now ∷ ss) hashed.old.store.network laying.old.places.items).network }
    ensures memory { result ≡ Err AddError.NoMemory → (ss : List StepValue) → hashed.old.room < min NUMBERS (live_count (laid_steps G.KIND (step.now ∷ ss) hashed.old.store.network laying.old.places.items).network) }
    ensures told { AreToldBy ⟦<dyn View as View>⟧ hashed.new.store.network hashed.new.room watch.old watch.new }
{
    let _live = hashed.store.live_count();
    let gate = step_gate(laying.places.as_slice(), step);
    match place_noting::<G>(hashed, watch, &mut laying.added, &gate) {
        Ok(signal) => {
            laying.places.push(signal);
            Ok(())
        }
        Err(error) => Err(error),
    }
}

/// The places before the first step: the constant's signal, and the leaves.
fn begin(leaves: &[Signal]) -> Laying
    requires { length leaves.now ≤ 10 }
    ensures places { result.places.items ≡ constant false ∷ leaves.now }
    ensures added { result.added.items ≡ [] }
{
    let mut places = ArrayVec::new();
    places.push(Signal::constant(false));
    for leaf in leaves {
        places.push(*leaf);
    }
    Laying {
        places,
        added: ArrayVec::new(),
    }
}

/// Lays a recipe of native steps over leaves, at most 10: each step at the gate that has its key, or newly. The answer is
/// the signal of its root. Refused, it takes back what it added.
pub fn lay<G: Gates>(
    hashed: &mut Hashed,
    watch: &mut Watch,
    recipe: &Recipe,
    leaves: &[Signal],
) -> Result<Signal, AddError>
    requires native { AllNative G.KIND recipe.now.steps }
    requires live { AreLive hashed.old.store.network (nodes_read leaves.now) }
    requires few { length leaves.now ≤ 10 }
    requires room { HasRoom hashed.old }
    requires fit { AreFitBy ⟦<dyn View as View>⟧ hashed.old.store.network hashed.old.room watch.old }
    ensures laid { IfOk result (λ s. laid G.KIND hashed.old.store.network recipe.now leaves.now ≡ record { network = hashed.new.store.network; signal = s }) }
    ensures refused { OnErr result (hashed.new.store.network ≡ hashed.old.store.network) }
    ensures room { HasRoom hashed.new }
    ensures grows { hashed.old.room ≤ hashed.new.room }
    ensures full { result ≡ Err AddError.Full → NUMBERS < live_count (laid G.KIND hashed.old.store.network recipe.now leaves.now).network }
    ensures memory { result ≡ Err AddError.NoMemory → hashed.old.room < min NUMBERS (live_count (laid G.KIND hashed.old.store.network recipe.now leaves.now).network) }
    ensures told { AreToldBy ⟦<dyn View as View>⟧ hashed.new.store.network hashed.new.room watch.old watch.new }
{
    let _live = hashed.store.live_count();
    let mut laying = begin(leaves);
    for i in 0..recipe.len() {
        let step = recipe.step(i);
        if let Err(error) = lay_step::<G>(hashed, watch, &mut laying, &step) {
            undo(hashed, watch, laying.added);
            return Err(error);
        }
    }
    Ok(signal_at(laying.places.as_slice(), recipe.root()))
}
