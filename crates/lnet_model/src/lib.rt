//! Networks as values, and the laws of their definitions.
#![tactic(auto)]

ghost use Rattle.std.specs.Prelude.{◌≡◌, ◌≢◌, ◌≤◌, ◌<◌, ◌+◌, ℕ, Bool, true, false, List, [], ◌∷◌, map, None, Some};
ghost use Rattle.lnet_gates.specs.Gates.{GateValue, apply};
ghost use Rattle.lnet_model.specs.Networks.{NetworkValue, Entry, IsGate, entry_at, live_count, fanins_of};
ghost use Rattle.lnet_model.specs.Along.{Acyclic, IsClosed, In, fanin_nodes, nodes_read, once, along};
ghost use Rattle.lnet_model.specs.Values.{value_step, node_value, signal_value, network_outputs};
ghost use Rattle.lnet_model.specs.Levels.{greatest, level_step, level, depth};
ghost use Rattle.lnet_model.specs.Fanouts.{fan, references, IsParent};
ghost use Rattle.lnet_model.specs.Cuts.{cuts};
ghost use Rattle.lnet_model.specs.Changes.{with_entry, without, AreLive};
ghost use Rattle.lnet_model.specs.Visits.{visit_bound};
ghost use Rattle.lnet_model.specs.Worked.{worked_event, worked_network, cut};
ghost use Rattle.lnet_model.specs.declared.view_spec.ViewSpec.TheVariants.{Depth, Fanout, Cuts};

mod cut;
mod event;
mod view_spec;

pub use cut::Cut;
pub use event::Event;
pub use view_spec::{CutRule, ViewKind, ViewSpec};

/// In a network without cycles a gate's value is its operation on its fanins' values, complemented where its phase is
/// true.
pub fn gate_values()
    ensures { (N : NetworkValue) (a : ℕ → Bool) (n : ℕ) (g : GateValue) → Acyclic N → entry_at N n ≡ Some (IsGate g) → node_value N a n ≡ apply g.op g.phase (map (signal_value N a) g.fanins) }
{}

/// In a network without cycles a depth of the recursion past the count of the live nodes gives the same values.
pub fn depth_is_enough()
    ensures { (N : NetworkValue) (a : ℕ → Bool) (n d : ℕ) → Acyclic N → live_count N ≤ d → along (entry_at N) (value_step a) (Bool.false) d n ≡ node_value N a n }
{}

/// What is added at a free number, on live fanins, makes no cycle, and changes no value and no level elsewhere.
pub fn additions_keep_the_rest()
    ensures acyclic { (N : NetworkValue) (k : ℕ) (e : Entry) → IsClosed N → entry_at N k ≡ None → AreLive N (nodes_read (fanins_of e)) → Acyclic N → Acyclic (with_entry N k e) }
    ensures values { (N : NetworkValue) (k : ℕ) (e : Entry) → IsClosed N → entry_at N k ≡ None → AreLive N (nodes_read (fanins_of e)) → Acyclic N → (a : ℕ → Bool) (n : ℕ) → n ≢ k → node_value (with_entry N k e) a n ≡ node_value N a n }
    ensures levels { (N : NetworkValue) (k : ℕ) (e : Entry) → IsClosed N → entry_at N k ≡ None → AreLive N (nodes_read (fanins_of e)) → Acyclic N → (n : ℕ) → n ≢ k → level (with_entry N k e) n ≡ level N n }
{}

/// A gate that gives way to one of the same value, or of the same level, with no cycle made, changes no value, and so no
/// output, or no level.
pub fn equal_gates_keep_the_rest()
    ensures outputs { (N : NetworkValue) (k : ℕ) (g : GateValue) → Acyclic N → Acyclic (with_entry N k (IsGate g)) → ((a : ℕ → Bool) → apply g.op g.phase (map (signal_value N a) g.fanins) ≡ node_value N a k) → (a : ℕ → Bool) → network_outputs (with_entry N k (IsGate g)) a ≡ network_outputs N a }
    ensures levels { (N : NetworkValue) (k : ℕ) (g : GateValue) → Acyclic N → Acyclic (with_entry N k (IsGate g)) → 1 + greatest (map (level N) (nodes_read g.fanins)) ≡ level N k → (n : ℕ) → level (with_entry N k (IsGate g)) n ≡ level N n }
{}

/// What no gate reads goes without making a cycle, and changes no value and no level elsewhere.
pub fn removals_keep_the_rest()
    ensures acyclic { (N : NetworkValue) (k : ℕ) → Acyclic N → Acyclic (without N k) }
    ensures values { (N : NetworkValue) (k : ℕ) → Acyclic N → ((p : ℕ) → IsParent N k p → ⊥) → (a : ℕ → Bool) (n : ℕ) → n ≢ k → node_value (without N k) a n ≡ node_value N a n }
    ensures levels { (N : NetworkValue) (k : ℕ) → Acyclic N → ((p : ℕ) → IsParent N k p → ⊥) → (n : ℕ) → n ≢ k → level (without N k) n ≡ level N n }
{}

/// Numbers that agree with their fanins' everywhere, in a network without cycles, are the levels. A level is above those of
/// the gate's fanins, and no level is above the count of the live nodes.
pub fn levels_by_their_equation()
    ensures unique { (N : NetworkValue) (L : ℕ → ℕ) → Acyclic N → ((n : ℕ) → L n ≡ once (entry_at N) level_step 0 L n) → (n : ℕ) → level N n ≡ L n }
    ensures falls { (N : NetworkValue) → Acyclic N → (n m : ℕ) → In m (fanin_nodes (entry_at N n)) → level N m < level N n }
    ensures small { (N : NetworkValue) (n : ℕ) → level N n ≤ live_count N }
{}

/// The definitions at the worked network: levels and the depth, the outputs where each input is true, a fanout and references, the
/// cuts of node 10 with up to 3 leaves and 4 cuts, and with up to 4 leaves and 8 cuts, and how often a view may read it after a
/// change at node 9: none, a depth view, a fanout view and a cut view. There nodes 9 and 10 have a new answer, and node 9 one parent.
pub fn worked_rows()
    ensures levels { map (level worked_network) (0 ∷ 4 ∷ 5 ∷ 6 ∷ 7 ∷ 8 ∷ 9 ∷ 10 ∷ []) ≡ 0 ∷ 0 ∷ 1 ∷ 2 ∷ 3 ∷ 4 ∷ 2 ∷ 3 ∷ [] }
    ensures depth { depth worked_network ≡ 4 }
    ensures outputs { network_outputs worked_network (λ k. true) ≡ true ∷ false ∷ [] }
    ensures fanout { fan worked_network 5 ≡ (6, 1) ∷ (9, 1) ∷ [] }
    ensures references { map (references worked_network) (5 ∷ 8 ∷ 9 ∷ []) ≡ 2 ∷ 1 ∷ 1 ∷ [] }
    ensures narrow { cuts worked_network 3 4 10 ≡ cut (4 ∷ 9 ∷ []) 8 ∷ cut (3 ∷ 4 ∷ 5 ∷ []) 128 ∷ cut (10 ∷ []) 2 ∷ [] }
    ensures wide { cuts worked_network 4 8 10 ≡ cut (4 ∷ 9 ∷ []) 8 ∷ cut (3 ∷ 4 ∷ 5 ∷ []) 128 ∷ cut (1 ∷ 2 ∷ 3 ∷ 4 ∷ []) 32768 ∷ cut (10 ∷ []) 2 ∷ [] }
    ensures visits { map (visit_bound worked_event worked_network) (None ∷ Some Depth ∷ Some Fanout ∷ Some (Cuts (record { size = 3; limit = 4 })) ∷ []) ≡ 0 ∷ 3 ∷ 1 ∷ 3 ∷ [] }
{}
