//! Counting how many fanin slots and outputs name each node.

ghost use Rattle.std.specs.Prelude.{◌≡◌, ◌≤◌, ◌<◌, ◌+◌, ◌^◌, ℕ, length, slice_index};
ghost use Rattle.lnet_model.specs.Along.{In, nodes_read};
ghost use Rattle.lnet_store.specs.Fields.{naming};

use lnet_gates::{Node, Signal};

/// The count of the node, 0 past the last.
pub(crate) fn count_of(counts: &[u32], n: Node) -> u32
    ensures { result ≡ slice_index counts.now n.0 }
{
    match counts.get(n.0 as usize) {
        Some(count) => *count,
        None => 0,
    }
}

/// One more for each node that is read.
pub(crate) fn count_all(counts: &mut Vec<u32>, signals: &[Signal])
    requires known { (m : ℕ) → In m (nodes_read signals.now) → m < length counts.old.items }
    requires fits { (n : ℕ) → slice_index counts.old.items n + naming n signals.now < 2 ^ 32 }
    ensures len { length counts.new.items ≡ length counts.old.items }
    ensures more { (n : ℕ) → slice_index counts.new.items n ≡ slice_index counts.old.items n + naming n signals.now }
{
    'signals: for signal in signals {
        counts[signal.node.0 as usize] += 1;
    }
}

/// One less for each node that is read.
pub(crate) fn uncount_all(counts: &mut Vec<u32>, signals: &[Signal])
    requires known { (m : ℕ) → In m (nodes_read signals.now) → m < length counts.old.items }
    requires counted { (n : ℕ) → naming n signals.now ≤ slice_index counts.old.items n }
    ensures len { length counts.new.items ≡ length counts.old.items }
    ensures less { (n : ℕ) → slice_index counts.new.items n + naming n signals.now ≡ slice_index counts.old.items n }
{
    'signals: for signal in signals {
        counts[signal.node.0 as usize] -= 1;
    }
}
