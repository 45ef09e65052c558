//! Whether a node depends on another: a search along fanins, breadth first. It takes no memory.

ghost use Rattle.std.specs.Prelude.{◌≡◌, ◌≤◌, ◌<◌, ◌↔◌, ◌∷◌, ℕ, [], IsTrue, IsSome, length, slice_index, slice_index_or, false, true};
ghost use Rattle.std.specs.Vec.{vec_capacity};
ghost use Rattle.std.specs.FinMap.{get};
ghost use Rattle.lnet_model.specs.Along.{In, nodes_read, fanin_nodes, Depends};
ghost use Rattle.lnet_store.specs.Held.{IsFitting};
ghost use Rattle.lnet_store.specs.Search.{Comes, AreMarked, Enters, HasPlaces};

use crate::slots::NodeSlots;
use crate::store::Store;
use lnet_gates::{Node, Signal};

/// Whether the number is marked.
fn is_marked(marks: &[bool], n: u32) -> bool
    ensures { result ≡ slice_index_or marks.now n false }
{
    match marks.get(n as usize) {
        Some(mark) => *mark,
        None => false,
    }
}

/// Marks the number and puts it to the end of the queue, where it isn't marked.
fn enter(marks: &mut Vec<bool>, queue: &mut Vec<u32>, n: u32)
    requires marked { AreMarked marks.old.items queue.old.items }
    requires known { n < length marks.old.items }
    requires places { HasPlaces queue.old.items (n ∷ []) (vec_capacity queue.old) }
    ensures marked { AreMarked marks.new.items queue.new.items }
    ensures enters { Enters queue.old.items queue.new.items (n ∷ []) }
    ensures len { length marks.new.items ≡ length marks.old.items }
    ensures capacity { vec_capacity queue.new ≡ vec_capacity queue.old }
{
    if is_marked(marks, n) {
        return;
    }
    marks[n as usize] = true;
    queue.push_reserved(n);
}

/// The same for each node that is read.
fn enter_all(marks: &mut Vec<bool>, queue: &mut Vec<u32>, signals: &[Signal])
    requires marked { AreMarked marks.old.items queue.old.items }
    requires known { (m : ℕ) → In m (nodes_read signals.now) → m < length marks.old.items }
    requires places { HasPlaces queue.old.items (nodes_read signals.now) (vec_capacity queue.old) }
    ensures marked { AreMarked marks.new.items queue.new.items }
    ensures enters { Enters queue.old.items queue.new.items (nodes_read signals.now) }
    ensures len { length marks.new.items ≡ length marks.old.items }
    ensures capacity { vec_capacity queue.new ≡ vec_capacity queue.old }
{
    'signals: for signal in signals {
        enter(marks, queue, signal.node.0);
    }
}

/// The same for the fanins of a node.
fn enter_fanins(nodes: &NodeSlots, marks: &mut Vec<bool>, queue: &mut Vec<u32>, n: u32)
    requires marked { AreMarked marks.old.items queue.old.items }
    requires known { (m : ℕ) → In m (fanin_nodes (get nodes.now.nodes n)) → m < length marks.old.items }
    requires places { HasPlaces queue.old.items (fanin_nodes (get nodes.now.nodes n)) (vec_capacity queue.old) }
    ensures marked { AreMarked marks.new.items queue.new.items }
    ensures enters { Enters queue.old.items queue.new.items (fanin_nodes (get nodes.now.nodes n)) }
    ensures len { length marks.new.items ≡ length marks.old.items }
    ensures capacity { vec_capacity queue.new ≡ vec_capacity queue.old }
{
    match nodes.gate_of(Node(n)) {
        Some(gate) => enter_all(marks, queue, &gate.fanins),
        None => (),
    }
}

/// Whether a walk from a live node comes to the other. It leaves the nodes that it came to marked and in the queue.
fn search(
    nodes: &NodeSlots,
    marks: &mut Vec<bool>,
    queue: &mut Vec<u32>,
    from: u32,
    to: u32,
) -> bool
    requires live { IsSome (get nodes.now.nodes from) }
    requires closed { (n m : ℕ) → In m (fanin_nodes (get nodes.now.nodes n)) → IsSome (get nodes.now.nodes m) }
    requires fitting { IsFitting nodes.now }
    requires empty { queue.old.items ≡ [] }
    requires unmarked { (n : ℕ) → slice_index_or marks.old.items n false ≡ false }
    requires known { nodes.now.room ≤ length marks.old.items }
    requires places { nodes.now.room ≤ vec_capacity queue.old }
    ensures answer { IsTrue result ↔ Comes (get nodes.now.nodes) from to }
    ensures marked { AreMarked marks.new.items queue.new.items }
    ensures len { length marks.new.items ≡ length marks.old.items }
    ensures capacity { vec_capacity queue.new ≡ vec_capacity queue.old }
{
    enter(marks, queue, from);
    let mut head = 0;
    'search: while head < queue.len() && !is_marked(marks, to) {
        let n = queue[head];
        enter_fanins(nodes, marks, queue, n);
        head += 1;
    }
    is_marked(marks, to)
}

/// Clears the marks of the queue's numbers.
fn unmark(marks: &mut Vec<bool>, queue: &[u32])
    requires { AreMarked marks.old.items queue.now }
    ensures unmarked { (n : ℕ) → slice_index_or marks.new.items n false ≡ false }
    ensures len { length marks.new.items ≡ length marks.old.items }
{
    'numbers: for n in queue {
        marks[*n as usize] = false;
    }
}

impl Store {
    /// Whether a walk along fanins from the signal's node comes to the node, which may be the signal's own: `false` where
    /// the signal's node isn't live. No contract sees what it writes. It goes to each node that the signal depends on once
    /// at most, and reads each of its fanins.
    pub fn depends_on(&mut self, s: Signal, n: Node) -> bool
        ensures answer { IsTrue result ↔ Depends self.old.network s n.0 }
        ensures same { self.new ≡ self.old }
    {
        if !self.nodes.is_live(s.node) {
            return false;
        }
        self.queue.clear();
        let found = search(&self.nodes, &mut self.marks, &mut self.queue, s.node.0, n.0);
        unmark(&mut self.marks, &self.queue);
        found
    }
}
