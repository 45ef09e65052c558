//! What is kept by number: values, levels, and which numbers wait.

ghost use Rattle.std.specs.Prelude.{◌≡◌, ℕ, ◌+◌, ◌<◌, ◌≤◌, length, slice_index_or, slice_get, option_map, slice_set, IsSome, OnOk, OnErr, Some, None};
ghost use Rattle.lnet_model.specs.Dags.{NUMBERS};
ghost use Rattle.lnet_views.specs.Repair.{pair_eq};
ghost use Rattle.lnet_views.specs.Chains.{IsIdle};
ghost use Rattle.lnet_views.specs.Keeping.{HavePlaces, answer, height, tallest};

use crate::queue::{Queue, lengthen};
use lnet_gates::{Gate, Node};
use std::alloc::AllocError;

/// By number a value, and a level where the number is live; and the numbers that wait for their repair.
#[derive(Drop)]
pub struct Kept<V> {
    pub values: Vec<V>,
    pub levels: Vec<Option<u32>>,
    pub queue: Queue,
}

/// The level kept for a number.
pub fn level_of(levels: &Vec<Option<u32>>, n: Node) -> Option<u32>
    ensures { result ≡ slice_index_or levels.now.items n.0 None }
{
    match levels.get(n.0 as usize) {
        Some(level) => *level,
        None => None,
    }
}

/// The value kept for a number.
pub fn value_of<V>(values: &Vec<V>, n: Node) -> Option<&V>
    ensures { option_map (λ v. v.now) result ≡ slice_get values.now.items n.0 }
{
    values.get(n.0 as usize)
}

/// The level kept for a number, 0 where there is none.
pub fn height_of(levels: &Vec<Option<u32>>, n: Node) -> u32
    ensures { result ≡ height levels.now.items n.0 }
{
    match levels.get(n.0 as usize) {
        Some(Some(level)) => *level,
        _ => 0,
    }
}

/// The level of a gate over those kept for its fanins.
pub fn level_above(levels: &Vec<Option<u32>>, gate: &Gate) -> u32
    requires small { (n : ℕ) → height levels.now.items n ≤ NUMBERS }
    ensures { result ≡ 1 + tallest levels.now.items gate.now.fanins }
{
    let mut top = 0;
    for s in gate.fanins.as_slice() {
        top = height_of(levels, s.node).max(top);
    }
    1 + top
}

/// Whether this value and level are those that are kept for the number.
pub fn is_same<V: Eq>(
    values: &Vec<V>,
    levels: &Vec<Option<u32>>,
    n: Node,
    value: &V,
    level: u32,
) -> bool
    requires values { n.0 < length values.now.items }
    requires levels { length levels.now.items ≡ length values.now.items }
    requires known { IsSome (slice_index_or levels.now.items n.0 None) }
    ensures { (none : V) → result ≡ pair_eq V.eq (value.now, level) (answer none values.now.items levels.now.items n.0) }
{
    let at = n.0 as usize;
    levels[at] == Some(level) && *value == values[at]
}

/// Keeps a value and a level for the number.
pub fn place<V: Drop>(kept: &mut Kept<V>, n: Node, value: V, level: u32)
    requires values { n.0 < length kept.old.values.items }
    requires levels { length kept.old.levels.items ≡ length kept.old.values.items }
    ensures values { kept.new.values.items ≡ slice_set kept.old.values.items n.0 value }
    ensures levels { kept.new.levels.items ≡ slice_set kept.old.levels.items n.0 (Some level) }
    ensures queue { kept.new.queue ≡ kept.old.queue }
{
    let at = n.0 as usize;
    kept.values[at] = value;
    kept.levels[at] = Some(level);
}

/// Makes room for at least so many numbers, which have no level and don't wait.
pub fn make_room(
    levels: &mut Vec<Option<u32>>,
    queue: &mut Queue,
    numbers: u32,
) -> Result<(), AllocError>
    requires idle { IsIdle queue.old }
    requires long { HavePlaces levels.old.items queue.old.levels.items }
    ensures idle { IsIdle queue.new }
    ensures long { HavePlaces levels.new.items queue.new.levels.items }
    ensures heads { OnOk result (length levels.new.items < length queue.new.heads.items) }
    ensures more_heads { length queue.old.heads.items ≤ length queue.new.heads.items }
    ensures grows { length levels.old.items ≤ length levels.new.items }
    ensures room { OnOk result (numbers ≤ length levels.new.items) }
    ensures refused { OnErr result (length levels.new.items ≡ length levels.old.items) }
    ensures levels { (n : ℕ) → slice_index_or levels.new.items n None ≡ slice_index_or levels.old.items n None }
{
    let room = levels.len().max(numbers as usize);
    queue.reserve(room)?;
    lengthen(levels, room)?;
    Ok(())
}

/// Drops the answers, and keeps the memory.
pub fn clear<V: Drop>(kept: &mut Kept<V>)
    ensures len { length kept.new.levels.items ≡ length kept.old.levels.items }
    ensures levels { (n : ℕ) → slice_index_or kept.new.levels.items n None ≡ None }
    ensures queue { kept.new.queue ≡ kept.old.queue }
{
    clear_levels(&mut kept.levels);
    kept.values.clear();
}

/// Drops the levels.
fn clear_levels(levels: &mut Vec<Option<u32>>)
    ensures len { length levels.new.items ≡ length levels.old.items }
    ensures empty { (n : ℕ) → slice_index_or levels.new.items n None ≡ None }
{
    for i in 0..levels.len() {
        levels[i] = None;
    }
}
