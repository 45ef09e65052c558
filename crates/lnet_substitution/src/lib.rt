//! Substitution: what it leaves, and the laws of the ways that lead there.
#![tactic(auto)]

ghost use Rattle.std.specs.Prelude.{◌≡◌, ◌≢◌, ◌≤◌, ◌<◌, ◌⊎◌, ℕ, Bool, true, false};
ghost use Rattle.lnet_gates.specs.declared.gate.Kind.{Kind};
ghost use Rattle.lnet_gates.specs.declared.gate.Kind.TheVariants.{Aig};
ghost use Rattle.lnet_gates.specs.declared.signal.Signal.{Signal};
ghost use Rattle.lnet_gates.specs.declared.normal.Normal.TheVariants.{Gate};
ghost use Rattle.lnet_gates.specs.Gates.{GateValue, KeyValue};
ghost use Rattle.lnet_gates.specs.NormalLaws.{keyed_gate};
ghost use Rattle.lnet_gates.specs.Forms.{form_of};
ghost use Rattle.lnet_model.specs.Networks.{NetworkValue, IsLive, IsGate, entry_at, live_count};
ghost use Rattle.lnet_model.specs.Along.{Acyclic, IsClosed, IsWhole, In, fanin_nodes};
ghost use Rattle.lnet_model.specs.Values.{node_value, signal_value, network_outputs};
ghost use Rattle.lnet_model.specs.Levels.{level, depth};
ghost use Rattle.lnet_model.specs.Changes.{GateAt, IsGateAt, with_entry, without};
ghost use Rattle.lnet_model.specs.Worked.{signal, worked_network};
ghost use Rattle.lnet_hashed.specs.Strashed.{IsStrashed};
ghost use Rattle.lnet_hashed.specs.Swept.{IsReached, IsSwept};
ghost use Rattle.lnet_substitution.specs.Replaced.{signal_of, redirected, replaced};
ghost use Rattle.lnet_substitution.specs.Representatives.{Represents};
ghost use Rattle.lnet_substitution.specs.Substitutions.{CanSubstitute, IsMerged, IsNamed, IsTidy, DropsLost, Substitutes};
ghost use Rattle.lnet_substitution.specs.Cascades.{IsCascading, CanMerge, IsUnusedKey, IsDirtyAfter, IsCleanAfter, IsDropping};
ghost use Rattle.lnet_substitution.specs.Worked.{left_network, stands_now};

/// What a substitution leaves has the outputs of the network with the node replaced and nothing else done; and where the
/// signal has the node's value, the outputs that there were.
pub fn substitutions_keep_outputs()
    ensures replaced { (kind : Kind) (N : NetworkValue) (o : ℕ) (s : Signal) (Q : NetworkValue) → CanSubstitute kind N o s → Substitutes kind N o s Q → (a : ℕ → Bool) → network_outputs Q a ≡ network_outputs (replaced N o s) a }
    ensures equal { (kind : Kind) (N : NetworkValue) (o : ℕ) (s : Signal) (Q : NetworkValue) → CanSubstitute kind N o s → Substitutes kind N o s Q → (a : ℕ → Bool) → signal_value N a s ≡ node_value N a o → network_outputs Q a ≡ network_outputs N a }
{}

/// What a substitution leaves has no cycle, what is named in it is live, it is hashed, and each of its gates is named where
/// each gate was.
pub fn substitutions_keep_the_shape()
    ensures acyclic { (kind : Kind) (N : NetworkValue) (o : ℕ) (s : Signal) (Q : NetworkValue) → CanSubstitute kind N o s → Substitutes kind N o s Q → Acyclic Q }
    ensures whole { (kind : Kind) (N : NetworkValue) (o : ℕ) (s : Signal) (Q : NetworkValue) → CanSubstitute kind N o s → Substitutes kind N o s Q → IsWhole Q }
    ensures strashed { (kind : Kind) (N : NetworkValue) (o : ℕ) (s : Signal) (Q : NetworkValue) → CanSubstitute kind N o s → Substitutes kind N o s Q → IsStrashed kind Q }
    ensures tidy { (kind : Kind) (N : NetworkValue) (o : ℕ) (s : Signal) (Q : NetworkValue) → CanSubstitute kind N o s → Substitutes kind N o s Q → IsTidy N → IsTidy Q }
{}

/// What a substitution leaves was live, the gate that gave way isn't, and so there are fewer live numbers.
pub fn substitutions_leave_fewer_nodes()
    ensures live { (kind : Kind) (N : NetworkValue) (o : ℕ) (s : Signal) (Q : NetworkValue) → CanSubstitute kind N o s → Substitutes kind N o s Q → (n : ℕ) → IsLive Q n → IsLive N n × (n ≢ o) }
    ensures count { (kind : Kind) (N : NetworkValue) (o : ℕ) (s : Signal) (Q : NetworkValue) → CanSubstitute kind N o s → Substitutes kind N o s Q → live_count Q < live_count N }
{}

/// What stands for each node is determined, in a hashed network, by what stands for the constant and the inputs.
pub fn representatives_are_determined()
    ensures { (kind : Kind) (P M : NetworkValue) (r q : ℕ → Signal) → IsStrashed kind P → Acyclic M → IsClosed M → Represents kind P M r → Represents kind P M q → (n : ℕ) → IsLive M n → r n ≡ q n }
{}

/// A cascade: it begins with the node replaced and its parents dirty; a dirty gate may be merged into what its normal form is,
/// or into the clean gate of its key, and then its parents are dirty; or it may be set to its normal form where no clean gate
/// has the key; and where no gate is dirty, all references have gone over and all gates of one structure are one.
pub fn cascades_merge()
    ensures begin { (kind : Kind) (N : NetworkValue) (o : ℕ) (s : Signal) (dirty : ℕ → Bool) → CanSubstitute kind N o s → ((n : ℕ) → dirty n ≡ true → In o (fanin_nodes (entry_at N n))) → ((n : ℕ) → In o (fanin_nodes (entry_at N n)) → dirty n ≡ true) → IsCascading kind N o s (replaced N o s) signal_of dirty }
    ensures merge { (kind : Kind) (N : NetworkValue) (o : ℕ) (s : Signal) (C : NetworkValue) (rep : ℕ → Signal) (dirty later : ℕ → Bool) (x : ℕ) (g : GateValue) (t : Signal) → CanSubstitute kind N o s → IsCascading kind N o s C rep dirty → GateAt C x g → dirty x ≡ true → t.node.0 ≢ x → IsLive C t.node.0 → CanMerge kind C g t → IsDirtyAfter C x dirty later → IsCascading kind N o s (replaced C x t) (λ n. redirected x t (rep n)) later }
    ensures settle { (kind : Kind) (N : NetworkValue) (o : ℕ) (s : Signal) (C : NetworkValue) (rep : ℕ → Signal) (dirty later : ℕ → Bool) (x : ℕ) (g : GateValue) (k : KeyValue) (phase : Bool) → IsCascading kind N o s C rep dirty → GateAt C x g → dirty x ≡ true → form_of kind g ≡ Gate k phase → IsUnusedKey C dirty k → IsCleanAfter x dirty later → IsCascading kind N o s (with_entry C x (IsGate (keyed_gate k phase))) rep later }
    ensures end { (kind : Kind) (N : NetworkValue) (o : ℕ) (s : Signal) (C : NetworkValue) (rep : ℕ → Signal) (dirty : ℕ → Bool) → IsCascading kind N o s C rep dirty → ((n : ℕ) → dirty n ≡ false) → IsMerged kind N o s C rep }
{}

/// The sweep after a cascade: any gate that was named when the substitution began and isn't any more may go, and where there
/// is none, the gates that lost their last reference are gone, and so on downward.
pub fn lost_gates_go()
    ensures begin { (N P : NetworkValue) → IsDropping N P P }
    ensures step { (N P Q : NetworkValue) (x : ℕ) → IsDropping N P Q → IsGateAt Q x → (IsNamed Q x → ⊥) → IsNamed N x → IsDropping N P (without Q x) }
    ensures end { (N P Q : NetworkValue) → IsDropping N P Q → Acyclic P → ((n : ℕ) → IsGateAt Q n → IsNamed Q n ⊎ (IsNamed N n → ⊥)) → DropsLost N P Q }
{}

/// What stands for the nodes of the replaced network: each gate that an output of the outcome reaches stands for a gate that an
/// output reached, at a level that is no higher than that node's; so once what no output reaches is gone, the outcome has no
/// more nodes than the replaced network. Where the level of the signal is at most that of the gate
/// that gives way, no gate's level rises, nor does the depth.
pub fn representatives_are_low()
    ensures reached { (kind : Kind) (N : NetworkValue) (o : ℕ) (s : Signal) (Q : NetworkValue) → CanSubstitute kind N o s → (h : Substitutes kind N o s Q) → (n : ℕ) → IsGateAt Q n → IsReached Q n → (m : ℕ) × IsReached (replaced N o s) m × IsGateAt (replaced N o s) m × ((h.rep m).node.0 ≡ n) }
    ensures low { (kind : Kind) (N : NetworkValue) (o : ℕ) (s : Signal) (Q : NetworkValue) → CanSubstitute kind N o s → (h : Substitutes kind N o s Q) → (n : ℕ) → IsLive (replaced N o s) n → level Q (h.rep n).node.0 ≤ level (replaced N o s) n }
    ensures no_more { (kind : Kind) (N : NetworkValue) (o : ℕ) (s : Signal) (Q : NetworkValue) → CanSubstitute kind N o s → Substitutes kind N o s Q → (after before : NetworkValue) → IsSwept Q after → IsSwept (replaced N o s) before → live_count after ≤ live_count before }
    ensures levels { (kind : Kind) (N : NetworkValue) (o : ℕ) (s : Signal) (Q : NetworkValue) → CanSubstitute kind N o s → Substitutes kind N o s Q → level N s.node.0 ≤ level N o → (n : ℕ) → IsGateAt Q n → level Q n ≤ level N n }
    ensures depth { (kind : Kind) (N : NetworkValue) (o : ℕ) (s : Signal) (Q : NetworkValue) → CanSubstitute kind N o s → Substitutes kind N o s Q → level N s.node.0 ≤ level N o → depth Q ≤ depth N }
{}

/// The worked network once node 5 has taken the place of gate 6: gates 7 and 8 are of one structure with gates 9 and 10, which
/// stand for them.
pub fn worked_substitution()
    ensures can { CanSubstitute Aig worked_network 6 (signal 5 false) }
    ensures merges { IsMerged Aig worked_network 6 (signal 5 false) left_network stands_now }
    ensures substitutes { Substitutes Aig worked_network 6 (signal 5 false) left_network }
{}
