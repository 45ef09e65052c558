//! The repair of kept answers after an event: in the order of the old levels, and only upwards of what has changed.
//!
//! An event changes the fanins of one node alone, so the levels before it still order the others: a node that waits with the
//! least old level has fanins that are all final, and is computed once.
//! Source: selective-trace simulation of levelised circuits.

ghost use Rattle.std.specs.Prelude.{◌≡◌, ◌≢◌, ℕ, ◌+◌, ◌*◌, ◌<◌, ◌≤◌, length, slice_index_or, IsSome, IfSome, MatchOption, not, cond, slice_set, true, false, None};
ghost use Rattle.lnet_model.specs.Networks.{IsGate, IsLive, entry_at, gate_at};
ghost use Rattle.lnet_model.specs.Along.{once};
ghost use Rattle.lnet_model.specs.Fanouts.{fan, IsParent};
ghost use Rattle.lnet_model.specs.Changes.{with_entry, without, was, IsEvent};
ghost use Rattle.lnet_model.specs.Dags.{IsDag, IsStored, NUMBERS};
ghost use Rattle.lnet_model.specs.Visits.{reads_of};
ghost use Rattle.lnet_views.specs.Repair.{pair_eq, pair_step, IsNext, IsSettled};
ghost use Rattle.lnet_views.specs.Rules.{rule_step, rule_bound};
ghost use Rattle.lnet_views.specs.Chains.{waiting, IsQueue, IsIdle};
ghost use Rattle.lnet_views.specs.Keeping.{answer, mark, height, IsTied, IsSound, IsKept, scratch};

use crate::kept::{Kept, height_of, is_same, level_above, place};
use crate::queue::Queue;
use crate::rule::Rule;
use lnet_gates::{Gate, Node};
use lnet_model::Event;
use lnet_store::{Look, Visits};

/// Lets a number wait at its level, if it doesn't yet.
fn let_wait(levels: &Vec<Option<u32>>, queue: &mut Queue, n: Node)
    requires queue { IsQueue queue.old }
    requires number { n.0 < length queue.old.levels.items }
    requires wide { height levels.now.items n.0 < length queue.old.heads.items }
    requires high { queue.old.floor ≤ height levels.now.items n.0 }
    requires tied { IsTied levels.now.items queue.old.levels.items }
    ensures queue { IsQueue queue.new }
    ensures tied { IsTied levels.now.items queue.new.levels.items }
    ensures here { mark queue.new.levels.items n.0 ≡ true }
    ensures others { (m : ℕ) → m ≢ n.0 → mark queue.new.levels.items m ≡ mark queue.old.levels.items m }
    ensures len { length queue.new.levels.items ≡ length queue.old.levels.items }
    ensures heads { length queue.new.heads.items ≡ length queue.old.heads.items }
    ensures floor { queue.new.floor ≡ queue.old.floor }
    ensures count { waiting queue.new.levels.items ≤ waiting queue.old.levels.items + 1 }
{
    if queue.levels[n.0 as usize].is_none() {
        queue.put(n.0, height_of(levels, n));
    }
}

/// Lets the parents of a node wait.
fn mark_parents(
    levels: &Vec<Option<u32>>,
    queue: &mut Queue,
    n: Node,
    look: &Look,
    visits: &mut Visits,
)
    requires queue { IsQueue queue.old }
    requires room { (m : ℕ) → IsLive look.now.network m → m < length queue.old.levels.items }
    requires wide { (p : ℕ) → IsParent look.now.network n.0 p → height levels.now.items p < length queue.old.heads.items }
    requires high { (p : ℕ) → IsParent look.now.network n.0 p → queue.old.floor ≤ height levels.now.items p }
    requires tied { IsTied levels.now.items queue.old.levels.items }
    requires stamp { visits.old.stamp ≡ look.now.stamp }
    ensures queue { IsQueue queue.new }
    ensures tied { IsTied levels.now.items queue.new.levels.items }
    ensures len { length queue.new.levels.items ≡ length queue.old.levels.items }
    ensures heads { length queue.new.heads.items ≡ length queue.old.heads.items }
    ensures kept { (m : ℕ) → mark queue.old.levels.items m ≡ true → mark queue.new.levels.items m ≡ true }
    ensures parents { (p : ℕ) → IsParent look.now.network n.0 p → mark queue.new.levels.items p ≡ true }
    ensures only { (m : ℕ) → mark queue.new.levels.items m ≡ true → mark queue.old.levels.items m ≡ false → IsParent look.now.network n.0 m }
    ensures stamp { visits.new.stamp ≡ visits.old.stamp }
    ensures count { visits.new.count + waiting queue.new.levels.items ≤ visits.old.count + waiting queue.old.levels.items + 2 * length (fan look.now.network n.0) }
    ensures more { waiting queue.new.levels.items ≤ waiting queue.old.levels.items + length (fan look.now.network n.0) }
{
    let mut parents = look.parents(n);
    'steps: loop {
        match parents.next(visits) {
            Some((parent, _)) => let_wait(levels, queue, parent),
            None => return,
        }
    }
}

/// Makes a gate's answer anew. Whether it stays the same.
fn renew<R: Rule>(
    kept: &mut Kept<R::Value>,
    rule: &R,
    n: Node,
    look: &Look,
    visits: &mut Visits,
) -> bool
    requires sound { IsSound look.now.network kept.old.values.items kept.old.levels.items kept.old.queue.levels.items }
    requires dag { IsDag look.now.network }
    requires gate { IsSome (gate_at look.now.network n.0) }
    requires small { (m : ℕ) → height kept.old.levels.items m ≤ NUMBERS }
    requires stamp { visits.old.stamp ≡ look.now.stamp }
    ensures sound { IsSound look.now.network kept.new.values.items kept.new.levels.items kept.new.queue.levels.items }
    ensures each { (q : ℕ) → q ≢ n.0 → answer (R.first_of rule.now 0) kept.new.values.items kept.new.levels.items q ≡ answer (R.first_of rule.now 0) kept.old.values.items kept.old.levels.items q }
    ensures is { pair_eq R.Value.eq (answer (R.first_of rule.now 0) kept.new.values.items kept.new.levels.items n.0) (once (entry_at look.now.network) (pair_step (rule_step (R.first_of rule.now) (R.gives rule.now))) (R.first_of rule.now 0, 0) (answer (R.first_of rule.now 0) kept.old.values.items kept.old.levels.items) n.0) ≡ true }
    ensures same { result ≡ pair_eq R.Value.eq (answer (R.first_of rule.now 0) kept.new.values.items kept.new.levels.items n.0) (answer (R.first_of rule.now 0) kept.old.values.items kept.old.levels.items n.0) }
    ensures levels { (q : ℕ) → q ≢ n.0 → slice_index_or kept.new.levels.items q None ≡ slice_index_or kept.old.levels.items q None }
    ensures queue { kept.new.queue ≡ kept.old.queue }
    ensures len { length kept.new.values.items ≡ length kept.old.values.items }
    ensures stamp { visits.new.stamp ≡ visits.old.stamp }
    ensures count { visits.new.count ≤ visits.old.count + 1 }
{
    match look.gate_of(n, visits) {
        Some(gate) => {
            let value = rule.of(n, gate, kept.values.as_slice());
            let level = level_above(&kept.levels, gate);
            let same = is_same(&kept.values, &kept.levels, n, &value, level);
            place(kept, n, value, level);
            same
        }
        None => unreachable!(),
    }
}

/// Takes the next gate that waits, renews its answer, and lets its parents wait where it changed; `None` exactly where nothing
/// waits.
fn advance<R: Rule>(
    kept: &mut Kept<R::Value>,
    rule: &R,
    look: &Look,
    visits: &mut Visits,
) -> Option<Node>
    requires sound { IsSound look.now.network kept.old.values.items kept.old.levels.items kept.old.queue.levels.items }
    requires queue { IsQueue kept.old.queue }
    requires tied { IsTied kept.old.levels.items kept.old.queue.levels.items }
    requires dag { IsDag look.now.network }
    requires gates { (m : ℕ) → mark kept.old.queue.levels.items m ≡ true → IsSome (gate_at look.now.network m) }
    requires small { (m : ℕ) → height kept.old.levels.items m ≤ NUMBERS }
    requires wide { (m : ℕ) → height kept.old.levels.items m < length kept.old.queue.heads.items }
    requires rises { (n p : ℕ) → IsNext (height kept.old.levels.items) (mark kept.old.queue.levels.items) n → IsParent look.now.network n p → height kept.old.levels.items n ≤ height kept.old.levels.items p }
    requires stamp { visits.old.stamp ≡ look.now.stamp }
    ensures sound { IsSound look.now.network kept.new.values.items kept.new.levels.items kept.new.queue.levels.items }
    ensures queue { IsQueue kept.new.queue }
    ensures tied { IsTied kept.new.levels.items kept.new.queue.levels.items }
    ensures heads { length kept.new.queue.heads.items ≡ length kept.old.queue.heads.items }
    ensures none { result ≡ None → (m : ℕ) → slice_index_or kept.new.queue.levels.items m None ≡ None }
    ensures stays { result ≡ None → (kept.new.values.items ≡ kept.old.values.items) × (kept.new.levels.items ≡ kept.old.levels.items) × (kept.new.queue.levels.items ≡ kept.old.queue.levels.items) }
    ensures next { IfSome result (λ n. IsNext (height kept.old.levels.items) (mark kept.old.queue.levels.items) n.0) }
    ensures settled { IfSome result (λ n. IsSettled (pair_eq R.Value.eq) look.now.network n.0 (pair_step (rule_step (R.first_of rule.now) (R.gives rule.now))) (R.first_of rule.now 0, 0) (answer (R.first_of rule.now 0) kept.old.values.items kept.old.levels.items) (answer (R.first_of rule.now 0) kept.new.values.items kept.new.levels.items) (mark kept.old.queue.levels.items) (mark kept.new.queue.levels.items)) }
    ensures len { length kept.new.values.items ≡ length kept.old.values.items }
    ensures stamp { visits.new.stamp ≡ visits.old.stamp }
    ensures count { MatchOption result (visits.new.count ≡ visits.old.count) (λ n. visits.new.count + waiting kept.new.queue.levels.items ≤ visits.old.count + waiting kept.old.queue.levels.items + cond (pair_eq R.Value.eq (answer (R.first_of rule.now 0) kept.new.values.items kept.new.levels.items n.0) (answer (R.first_of rule.now 0) kept.old.values.items kept.old.levels.items n.0)) 0 (2 * length (fan look.now.network n.0))) }
    ensures fewer { IfSome result (λ n. waiting kept.new.queue.levels.items + 1 ≤ waiting kept.old.queue.levels.items + cond (pair_eq R.Value.eq (answer (R.first_of rule.now 0) kept.new.values.items kept.new.levels.items n.0) (answer (R.first_of rule.now 0) kept.old.values.items kept.old.levels.items n.0)) 0 (length (fan look.now.network n.0))) }
{
    match kept.queue.take() {
        Some(next) => {
            let n = Node(next);
            if renew(kept, rule, n, look, visits) {
                return Some(n);
            }
            mark_parents(&kept.levels, &mut kept.queue, n, look, visits);
            Some(n)
        }
        None => None,
    }
}

/// Repairs the answers after the gate at `n` was changed from `old`.
fn repair<R: Rule>(
    kept: &mut Kept<R::Value>,
    rule: &R,
    n: Node,
    old: &Gate,
    look: &Look,
    visits: &mut Visits,
)
    requires sound { IsSound look.now.network kept.old.values.items kept.old.levels.items kept.old.queue.levels.items }
    requires idle { IsIdle kept.old.queue }
    requires low { (m : ℕ) → height kept.old.levels.items m ≤ length kept.old.values.items }
    requires heads { length kept.old.values.items < length kept.old.queue.heads.items }
    requires stored { IsStored look.now.network }
    requires small { (m : ℕ) → height kept.old.levels.items m ≤ NUMBERS }
    requires gate { IsSome (gate_at look.now.network n.0) }
    requires before { IsDag (with_entry look.now.network n.0 (IsGate old.now)) }
    requires in_step { IsKept R.Value.eq (R.first_of rule.now) (R.gives rule.now) (with_entry look.now.network n.0 (IsGate old.now)) kept.old.values.items kept.old.levels.items }
    requires stamp { visits.old.stamp ≡ look.now.stamp }
    ensures sound { IsSound look.now.network kept.new.values.items kept.new.levels.items kept.new.queue.levels.items }
    ensures idle { IsIdle kept.new.queue }
    ensures heads { length kept.new.queue.heads.items ≡ length kept.old.queue.heads.items }
    ensures in_step { IsKept R.Value.eq (R.first_of rule.now) (R.gives rule.now) look.now.network kept.new.values.items kept.new.levels.items }
    ensures len { length kept.new.values.items ≡ length kept.old.values.items }
    ensures stamp { visits.new.stamp ≡ visits.old.stamp }
    ensures visits { visits.new.count ≤ visits.old.count + reads_of look.now.network (λ x. not (pair_eq R.Value.eq (scratch (R.first_of rule.now) (R.gives rule.now) look.now.network x) (scratch (R.first_of rule.now) (R.gives rule.now) (with_entry look.now.network n.0 (IsGate old.now)) x))) }
{
    let _live_count = look.live_count();
    kept.queue.begin(n.0, height_of(&kept.levels, n));
    'repairs: loop {
        match advance(kept, rule, look, visits) {
            Some(_) => {}
            None => return,
        }
    }
}

/// What a live number's fanins give it: the value and the level.
fn answer_of<R: Rule>(
    kept: &Kept<R::Value>,
    rule: &R,
    n: Node,
    look: &Look,
    visits: &mut Visits,
) -> (R::Value, u32)
    requires live { IsLive look.now.network n.0 }
    requires room { (m : ℕ) → IsLive look.now.network m → m < length kept.now.values.items }
    requires dag { IsDag look.now.network }
    requires known { (m : ℕ) → IsParent look.now.network m n.0 → IsSome (slice_index_or kept.now.levels.items m None) }
    requires small { (m : ℕ) → height kept.now.levels.items m ≤ NUMBERS }
    requires stamp { visits.old.stamp ≡ look.now.stamp }
    ensures is { pair_eq R.Value.eq result (once (entry_at look.now.network) (pair_step (rule_step (R.first_of rule.now) (R.gives rule.now))) (R.first_of rule.now 0, 0) (answer (R.first_of rule.now 0) kept.now.values.items kept.now.levels.items) n.0) ≡ true }
    ensures stamp { visits.new.stamp ≡ visits.old.stamp }
    ensures count { visits.new.count ≤ visits.old.count + 1 }
{
    match look.gate_of(n, visits) {
        Some(gate) => {
            let value = rule.of(n, gate, kept.values.as_slice());
            let level = level_above(&kept.levels, gate);
            (value, level)
        }
        None => (rule.first(n), 0),
    }
}

/// Takes up a new number.
fn enter<R: Rule>(kept: &mut Kept<R::Value>, rule: &R, n: Node, look: &Look, visits: &mut Visits)
    requires live { IsLive look.now.network n.0 }
    requires room { (m : ℕ) → IsLive look.now.network m → m < length kept.old.values.items }
    requires dag { IsDag look.now.network }
    requires before { IsDag (without look.now.network n.0) }
    requires sound { IsSound (without look.now.network n.0) kept.old.values.items kept.old.levels.items kept.old.queue.levels.items }
    requires small { (m : ℕ) → height kept.old.levels.items m ≤ NUMBERS }
    requires in_step { IsKept R.Value.eq (R.first_of rule.now) (R.gives rule.now) (without look.now.network n.0) kept.old.values.items kept.old.levels.items }
    requires stamp { visits.old.stamp ≡ look.now.stamp }
    ensures sound { IsSound look.now.network kept.new.values.items kept.new.levels.items kept.new.queue.levels.items }
    ensures queue { kept.new.queue ≡ kept.old.queue }
    ensures in_step { IsKept R.Value.eq (R.first_of rule.now) (R.gives rule.now) look.now.network kept.new.values.items kept.new.levels.items }
    ensures len { length kept.new.values.items ≡ length kept.old.values.items }
    ensures stamp { visits.new.stamp ≡ visits.old.stamp }
    ensures count { visits.new.count ≤ visits.old.count + 1 }
{
    let (value, level) = answer_of(kept, rule, n, look, visits);
    place(kept, n, value, level);
}

/// Gives up a number.
fn leave<V>(kept: &mut Kept<V>, n: Node)
    requires inside { n.0 < length kept.old.levels.items }
    ensures values { kept.new.values.items ≡ kept.old.values.items }
    ensures levels { kept.new.levels.items ≡ slice_set kept.old.levels.items n.0 None }
    ensures queue { kept.new.queue ≡ kept.old.queue }
{
    kept.levels[n.0 as usize] = None;
}

/// Brings the answers in step with the network after an event.
pub fn follow<R: Rule>(
    kept: &mut Kept<R::Value>,
    rule: &R,
    look: &Look,
    event: &Event,
    visits: &mut Visits,
)
    requires event { IsEvent event.now look.now.network }
    requires room { (m : ℕ) → IsLive look.now.network m → m < length kept.old.values.items }
    requires stored { IsStored look.now.network }
    requires before { IsDag (was event.now look.now.network) }
    requires sound { IsSound (was event.now look.now.network) kept.old.values.items kept.old.levels.items kept.old.queue.levels.items }
    requires idle { IsIdle kept.old.queue }
    requires low { (m : ℕ) → height kept.old.levels.items m ≤ length kept.old.values.items }
    requires heads { length kept.old.values.items < length kept.old.queue.heads.items }
    requires small { (m : ℕ) → height kept.old.levels.items m ≤ NUMBERS }
    requires in_step { IsKept R.Value.eq (R.first_of rule.now) (R.gives rule.now) (was event.now look.now.network) kept.old.values.items kept.old.levels.items }
    requires stamp { visits.old.stamp ≡ look.now.stamp }
    ensures sound { IsSound look.now.network kept.new.values.items kept.new.levels.items kept.new.queue.levels.items }
    ensures idle { IsIdle kept.new.queue }
    ensures heads { length kept.new.queue.heads.items ≡ length kept.old.queue.heads.items }
    ensures in_step { IsKept R.Value.eq (R.first_of rule.now) (R.gives rule.now) look.now.network kept.new.values.items kept.new.levels.items }
    ensures len { length kept.new.values.items ≡ length kept.old.values.items }
    ensures stamp { visits.new.stamp ≡ visits.old.stamp }
    ensures visits { visits.new.count ≤ visits.old.count + rule_bound R.Value.eq (R.first_of rule.now) (R.gives rule.now) event.now look.now.network }
{
    match event {
        Event::Added(n) => enter(kept, rule, *n, look, visits),
        Event::Modified(n, old) => repair(kept, rule, *n, old, look, visits),
        Event::Deleted(n, _) => leave(kept, *n),
    }
}
