//! Answers from scratch: each node once, a gate after its fanins.
//!
//! The gates whose fanins are being computed stand on a stack, each a fanin of the one below it. So nothing is called along
//! the depth of the network, and each gate comes onto the stack once. Source: depth-first search with a stack of its own.

ghost use Rattle.std.specs.Prelude.{◌≡◌, ◌≢◌, ℕ, ◌+◌, ◌<◌, ◌≤◌, [], length, slice_index_or, is_some, IsSome, OnOk, MatchOption, None, take, false};
ghost use Rattle.lnet_model.specs.Networks.{IsLive, entry_at, live_count};
ghost use Rattle.lnet_model.specs.Along.{In, fanin_nodes, nodes_read};
ghost use Rattle.lnet_model.specs.Dags.{IsDag, IsStored, NUMBERS, numbers_of};
ghost use Rattle.lnet_views.specs.Rules.{IsInStep};
ghost use Rattle.lnet_views.specs.Keeping.{HavePlaces, height, kept_at};
ghost use Rattle.lnet_views.specs.Chains.{IsIdle};
ghost use Rattle.lnet_views.specs.Building.{IsBuilding, undone};

use crate::kept::{Kept, level_above, make_room, place};
use crate::rule::Rule;
use lnet_gates::{Gate, Node};
use lnet_store::Store;
use std::alloc::AllocError;

/// Whether the number has a level.
fn is_done(levels: &Vec<Option<u32>>, n: Node) -> bool
    ensures { result ≡ is_some (slice_index_or levels.now.items n.0 None) }
{
    match levels.get(n.0 as usize) {
        Some(Some(_)) => true,
        _ => false,
    }
}

/// The first of the gate's fanins that has no level yet.
fn first_undone(levels: &Vec<Option<u32>>, gate: &Gate) -> Option<Node>
    ensures { MatchOption result ((m : ℕ) → In m (nodes_read gate.now.fanins) → IsSome (slice_index_or levels.now.items m None)) (λ m. In m.0 (nodes_read gate.now.fanins) × (slice_index_or levels.now.items m.0 None ≡ None)) }
{
    for s in gate.fanins.as_slice() {
        if !is_done(levels, s.node) {
            return Some(s.node);
        }
    }
    None
}

/// Computes the answer at a live number that has none, or tells a fanin of it that has none.
fn visit<R: Rule>(kept: &mut Kept<R::Value>, rule: &R, n: Node, store: &Store) -> Option<Node>
    requires stored { IsStored store.now.network }
    requires small { live_count store.now.network ≤ NUMBERS }
    requires live { IsLive store.now.network n.0 }
    requires todo { slice_index_or kept.old.levels.items n.0 None ≡ None }
    requires building { IsBuilding R.Value.eq (R.first_of rule.now) (R.gives rule.now) store.now.network kept.old.values.items kept.old.levels.items kept.old.queue.levels.items }
    ensures building { IsBuilding R.Value.eq (R.first_of rule.now) (R.gives rule.now) store.now.network kept.new.values.items kept.new.levels.items kept.new.queue.levels.items }
    ensures len { length kept.new.levels.items ≡ length kept.old.levels.items }
    ensures queue { kept.new.queue ≡ kept.old.queue }
    ensures same { (q : ℕ) → q ≢ n.0 → slice_index_or kept.new.levels.items q None ≡ slice_index_or kept.old.levels.items q None }
    ensures step { MatchOption result (IsSome (slice_index_or kept.new.levels.items n.0 None) × (undone kept.new.levels.items + 1 ≡ undone kept.old.levels.items)) (λ m. (kept.new.levels.items ≡ kept.old.levels.items) × In m.0 (fanin_nodes (entry_at store.now.network n.0)) × (slice_index_or kept.old.levels.items m.0 None ≡ None)) }
{
    match store.gate_of(n) {
        Some(gate) => match first_undone(&kept.levels, gate) {
            Some(fanin) => Some(fanin),
            None => {
                let value = rule.of(n, gate, kept.values.as_slice());
                let level = level_above(&kept.levels, gate);
                place(kept, n, value, level);
                None
            }
        },
        None => {
            place(kept, n, rule.first(n), 0);
            None
        }
    }
}

/// Computes the answer at a live number that has none, and before it those that it needs.
fn complete<R: Rule>(
    kept: &mut Kept<R::Value>,
    rule: &R,
    n: Node,
    store: &Store,
    stack: &mut Vec<Node>,
) -> Result<(), AllocError>
    requires stored { IsStored store.now.network }
    requires small { live_count store.now.network ≤ NUMBERS }
    requires live { IsLive store.now.network n.0 }
    requires todo { slice_index_or kept.old.levels.items n.0 None ≡ None }
    requires empty { stack.old.items ≡ [] }
    requires building { IsBuilding R.Value.eq (R.first_of rule.now) (R.gives rule.now) store.now.network kept.old.values.items kept.old.levels.items kept.old.queue.levels.items }
    ensures building { IsBuilding R.Value.eq (R.first_of rule.now) (R.gives rule.now) store.now.network kept.new.values.items kept.new.levels.items kept.new.queue.levels.items }
    ensures len { length kept.new.levels.items ≡ length kept.old.levels.items }
    ensures queue { kept.new.queue ≡ kept.old.queue }
    ensures grows { (q : ℕ) → IsSome (slice_index_or kept.old.levels.items q None) → IsSome (slice_index_or kept.new.levels.items q None) }
    ensures done { OnOk result (IsSome (slice_index_or kept.new.levels.items n.0 None)) }
    ensures empty { OnOk result (stack.new.items ≡ []) }
{
    let mut at = n;
    'steps: loop {
        match visit(kept, rule, at, store) {
            Some(fanin) => {
                stack.push(at)?;
                at = fanin;
            }
            None => match stack.pop() {
                Some(below) => at = below,
                None => return Ok(()),
            },
        }
    }
}

/// Computes the answer at each live number.
fn complete_all<R: Rule>(
    kept: &mut Kept<R::Value>,
    rule: &R,
    store: &Store,
) -> Result<(), AllocError>
    requires room { numbers_of store.now.network ≤ length kept.old.values.items }
    requires building { IsBuilding R.Value.eq (R.first_of rule.now) (R.gives rule.now) store.now.network kept.old.values.items kept.old.levels.items kept.old.queue.levels.items }
    ensures building { IsBuilding R.Value.eq (R.first_of rule.now) (R.gives rule.now) store.now.network kept.new.values.items kept.new.levels.items kept.new.queue.levels.items }
    ensures len { length kept.new.levels.items ≡ length kept.old.levels.items }
    ensures queue { kept.new.queue ≡ kept.old.queue }
    ensures done { OnOk result ((m : ℕ) → IsLive store.now.network m → IsSome (slice_index_or kept.new.levels.items m None)) }
{
    let mut stack = Vec::new(*kept.levels.allocator());
    let (look, _visits) = store.look();
    let _live_count = look.live_count();
    for i in 0..store.numbers() {
        if store.is_live(Node(i)) && !is_done(&kept.levels, Node(i)) {
            complete(kept, rule, Node(i), store, &mut stack)?;
        }
    }
    Ok(())
}

/// Lengthens the values to this many by the rule's first values.
fn fill<R: Rule>(values: &mut Vec<R::Value>, rule: &R, room: usize) -> Result<(), AllocError>
    requires few { room ≤ 4294967295 }
    requires more { length values.old.items ≤ room }
    ensures prefix { take (length values.old.items) values.new.items ≡ values.old.items }
    ensures len { OnOk result (length values.new.items ≡ room) }
{
    while values.len() < room {
        let value = rule.first(Node(values.len() as u32));
        values.push(value)?;
    }
    Ok(())
}

/// Makes room for at least so many numbers, which have no answer.
pub fn grow<R: Rule>(kept: &mut Kept<R::Value>, rule: &R, numbers: u32) -> Result<(), AllocError>
    requires values { length kept.old.values.items ≡ length kept.old.levels.items }
    requires idle { IsIdle kept.old.queue }
    requires long { HavePlaces kept.old.levels.items kept.old.queue.levels.items }
    requires heads { length kept.old.levels.items < length kept.old.queue.heads.items }
    ensures values { length kept.new.values.items ≡ length kept.new.levels.items }
    ensures idle { IsIdle kept.new.queue }
    ensures long { HavePlaces kept.new.levels.items kept.new.queue.levels.items }
    ensures heads { length kept.new.levels.items < length kept.new.queue.heads.items }
    ensures grows { length kept.old.levels.items ≤ length kept.new.levels.items }
    ensures room { OnOk result (numbers ≤ length kept.new.levels.items) }
    ensures same { (n : ℕ) → kept_at kept.new.values.items kept.new.levels.items n ≡ kept_at kept.old.values.items kept.old.levels.items n }
    ensures levels { (n : ℕ) → slice_index_or kept.new.levels.items n None ≡ slice_index_or kept.old.levels.items n None }
{
    let old = kept.levels.len();
    make_room(&mut kept.levels, &mut kept.queue, numbers)?;
    match fill(&mut kept.values, rule, kept.levels.len()) {
        Ok(()) => Ok(()),
        Err(refused) => {
            kept.values.truncate(old);
            kept.levels.truncate(old);
            Err(refused)
        }
    }
}

/// Computes all answers from scratch, where none are kept.
pub fn build<R: Rule>(kept: &mut Kept<R::Value>, rule: &R, store: &Store) -> Result<(), AllocError>
    requires idle { IsIdle kept.old.queue }
    requires long { HavePlaces kept.old.levels.items kept.old.queue.levels.items }
    requires empty { (n : ℕ) → slice_index_or kept.old.levels.items n None ≡ None }
    ensures grows { length kept.old.levels.items ≤ length kept.new.levels.items }
    ensures idle { IsIdle kept.new.queue }
    ensures long { HavePlaces kept.new.levels.items kept.new.queue.levels.items }
    ensures values { OnOk result (length kept.new.values.items ≡ length kept.new.levels.items) }
    ensures heads { OnOk result (length kept.new.levels.items < length kept.new.queue.heads.items) }
    ensures small { OnOk result ((n : ℕ) → height kept.new.levels.items n ≤ NUMBERS) }
    ensures low { OnOk result ((n : ℕ) → height kept.new.levels.items n ≤ length kept.new.levels.items) }
    ensures room { OnOk result (numbers_of store.now.network ≤ length kept.new.levels.items) }
    ensures in_step { OnOk result (IsInStep R.Value.eq (R.first_of rule.now) (R.gives rule.now) (kept_at kept.new.values.items kept.new.levels.items) store.now.network) }
{
    let (look, _visits) = store.look();
    let _live_count = look.live_count();
    make_room(&mut kept.levels, &mut kept.queue, store.numbers())?;
    kept.values.clear();
    fill(&mut kept.values, rule, kept.levels.len())?;
    complete_all(kept, rule, store)?;
    Ok(())
}
