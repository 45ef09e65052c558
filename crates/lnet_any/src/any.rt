//! A network of any of the four kinds. Each call is that of the network's own kind.

ghost use Rattle.std.specs.Prelude.{◌≡◌, ◌≤◌, ◌<◌, ◌↔◌, ℕ, Bool, None, Some, IfOk, IfErr, IfSome, IsSome, IsSomeAnd, IsTrue, OnErr, length, option_map, slice_index_or, string_bytes};
ghost use Rattle.lnet_model.specs.Along.{Depends};
ghost use Rattle.lnet_model.specs.Answers.{IsSpec, kind_for};
ghost use Rattle.lnet_model.specs.Changes.{IsGateAt};
ghost use Rattle.lnet_model.specs.Fanouts.{references};
ghost use Rattle.lnet_model.specs.Values.{network_outputs, node_value, signal_value};
ghost use Rattle.lnet_hashed.specs.Strashed.{IsStrashed};
ghost use Rattle.lnet_substitution.specs.Substitutions.{Substitutes};
ghost use Rattle.lnet_model.specs.Networks.{IsLive, gate_count as gates_in};
ghost use Rattle.lnet_model.specs.Dags.{IsStored};
ghost use Rattle.lnet_model.specs.Levels.{depth as depth_of};
ghost use Rattle.lnet_network.specs.Kept.{level_kept};
ghost use Rattle.lnet_hashed.specs.Views.{StandsAs, IsLeastEmpty, OthersSame, IsDetachedFrom};
ghost use Rattle.lnet_hashed.specs.Watches.{AreFitBy, AreToldBy, IsSeated, IsUnchanged};
ghost use Rattle.lnet_print.specs.Printed.{print_text};
ghost use Rattle.lnet_any.specs.AnyNets.{core_in, network_in, views_in, watch_in};

use crate::substituting::substitute;
use lnet_gates::{AigGates, Gates, Kind, KlutGates, MigGates, Node, Signal, XagGates};
use lnet_network::{Network, ViewId};
use lnet_print::{gate_count, print};
use lnet_store::{View, ViewSpec};
use std::alloc::{AllocError, Global};

/// A network of one of the four kinds.
pub enum AnyNet {
    /// An and-inverter graph.
    Aig(Network<AigGates>),
    /// A graph of ands and exclusive ors.
    Xag(Network<XagGates>),
    /// A majority-inverter graph.
    Mig(Network<MigGates>),
    /// A network of look-up tables.
    Klut(Network<KlutGates>),
}

impl Drop for AnyNet {
    /// Lets its network go. Where a value ends this is called; a derived one would be written out there.
    fn drop(self) {
        match self {
            Self::Aig(_) => {}
            Self::Xag(_) => {}
            Self::Mig(_) => {}
            Self::Klut(_) => {}
        }
    }
}

impl AnyNet {
    /// The kind. Constant time.
    pub fn kind(&self) -> Kind
        ensures { result ≡ (network_in self.now).kind }
    {
        match self {
            AnyNet::Aig(net) => net.kind(),
            AnyNet::Xag(net) => net.kind(),
            AnyNet::Mig(net) => net.kind(),
            AnyNet::Klut(net) => net.kind(),
        }
    }

    /// How many inputs there are. Constant time.
    pub fn input_count(&self) -> u32
        ensures { result ≡ length (network_in self.now).inputs }
    {
        match self {
            AnyNet::Aig(net) => net.input_count(),
            AnyNet::Xag(net) => net.input_count(),
            AnyNet::Mig(net) => net.input_count(),
            AnyNet::Klut(net) => net.input_count(),
        }
    }

    /// How many outputs there are. Constant time.
    pub fn output_count(&self) -> u32
        ensures { result ≡ length (network_in self.now).outputs }
    {
        match self {
            AnyNet::Aig(net) => net.output_count(),
            AnyNet::Xag(net) => net.output_count(),
            AnyNet::Mig(net) => net.output_count(),
            AnyNet::Klut(net) => net.output_count(),
        }
    }

    /// How many gates there are. Linear in the numbers.
    pub fn gate_count(&self) -> u32
        ensures { result ≡ gates_in (network_in self.now) }
    {
        match self {
            AnyNet::Aig(net) => gate_count(net),
            AnyNet::Xag(net) => gate_count(net),
            AnyNet::Mig(net) => gate_count(net),
            AnyNet::Klut(net) => gate_count(net),
        }
    }

    /// Whether the number is live. Constant time.
    pub fn is_live(&self, n: Node) -> bool
        ensures { IsTrue result ↔ IsLive (network_in self.now) n.0 }
    {
        match self {
            AnyNet::Aig(net) => net.is_live(n),
            AnyNet::Xag(net) => net.is_live(n),
            AnyNet::Mig(net) => net.is_live(n),
            AnyNet::Klut(net) => net.is_live(n),
        }
    }

    /// Whether a gate has the number. Constant time.
    pub fn is_gate(&self, n: Node) -> bool
        ensures { IsTrue result ↔ IsGateAt (network_in self.now) n.0 }
    {
        match self {
            AnyNet::Aig(net) => is_gate(net, n),
            AnyNet::Xag(net) => is_gate(net, n),
            AnyNet::Mig(net) => is_gate(net, n),
            AnyNet::Klut(net) => is_gate(net, n),
        }
    }

    /// Whether a walk along fanins from the signal's node comes to the node, which may be the signal's own: `false` where the signal's
    /// node isn't live. Linear in the nodes that the signal depends on and their fanins; it takes no memory.
    pub fn depends_on(&mut self, s: Signal, n: Node) -> bool
        requires in_step { AreFitBy ⟦<dyn View as View>⟧ (network_in self.old) (core_in self.old).room (watch_in self.old) }
        ensures answer { IsTrue result ↔ Depends (network_in self.old) s n.0 }
        ensures same { self.new ≡ self.old }
        ensures in_step { AreFitBy ⟦<dyn View as View>⟧ (network_in self.new) (core_in self.new).room (watch_in self.new) }
    {
        match self {
            AnyNet::Aig(net) => net.depends_on(s, n),
            AnyNet::Xag(net) => net.depends_on(s, n),
            AnyNet::Mig(net) => net.depends_on(s, n),
            AnyNet::Klut(net) => net.depends_on(s, n),
        }
    }

    /// The network's depth: the greatest level of an output's node, 0 without outputs. It takes memory for the levels, and is
    /// refused only where there is none. Linear in the network.
    pub fn depth(&self) -> Result<u32, AllocError>
        ensures { IfOk result (λ d. d ≡ depth_of (network_in self.now)) }
    {
        match self {
            AnyNet::Aig(net) => net.depth(),
            AnyNet::Xag(net) => net.depth(),
            AnyNet::Mig(net) => net.depth(),
            AnyNet::Klut(net) => net.depth(),
        }
    }

    /// The network's text: a line for each live node, then one for each output. `Err` exactly where memory ran out. Linear in the
    /// network.
    pub fn print(&self, alloc: Global) -> Result<String, AllocError>
        ensures { IfOk result (λ text. string_bytes text ≡ print_text (network_in self.now)) }
    {
        match self {
            AnyNet::Aig(net) => print(alloc, net),
            AnyNet::Xag(net) => print(alloc, net),
            AnyNet::Mig(net) => print(alloc, net),
            AnyNet::Klut(net) => print(alloc, net),
        }
    }

    /// Attaches a detached view for a spec of its kind, under the least number that no live view has. Refused for want of memory,
    /// the box comes back, detached and of its kind, and no view changed. Linear in the network, and in the views.
    pub fn subscribe(
        &mut self,
        view: Box<dyn View>,
        spec: ViewSpec,
    ) -> Result<ViewId, (Box<dyn View>, AllocError)>
        requires detached { spec_of view ≡ None }
        requires of_kind { kind_for spec ≡ kind_of view }
        requires rule { IsSpec spec }
        requires in_step { AreFitBy ⟦<dyn View as View>⟧ (network_in self.old) (core_in self.old).room (watch_in self.old) }
        ensures core { core_in self.new ≡ core_in self.old }
        ensures seated { IfOk result (λ id. IsSeated kind_of spec_of (kind_of view) spec (watch_in self.old) (watch_in self.new) id.0) }
        ensures same { OnErr result (IsUnchanged (watch_in self.old) (watch_in self.new)) }
        ensures back { IfErr result (λ e. IsDetachedFrom kind_of spec_of kept room view e.0) }
        ensures in_step { AreFitBy ⟦<dyn View as View>⟧ (network_in self.new) (core_in self.new).room (watch_in self.new) }
    {
        match self {
            AnyNet::Aig(net) => net.subscribe(view, spec),
            AnyNet::Xag(net) => net.subscribe(view, spec),
            AnyNet::Mig(net) => net.subscribe(view, spec),
            AnyNet::Klut(net) => net.subscribe(view, spec),
        }
    }

    /// Takes a view out, detached: `None` exactly where no live view has the id. The other views stay under their ids. It takes no
    /// memory. Constant time, beside the drop of the view's answers.
    pub fn unsubscribe(&mut self, id: ViewId) -> Option<Box<dyn View>>
        requires in_step { AreFitBy ⟦<dyn View as View>⟧ (network_in self.old) (core_in self.old).room (watch_in self.old) }
        ensures core { core_in self.new ≡ core_in self.old }
        ensures some { IsSome result ↔ IsSome (slice_index_or (views_in self.old) id.0 None) }
        ensures detached { IfSome result (λ b. IsSomeAnd (slice_index_or (views_in self.old) id.0 None) (λ a. IsDetachedFrom kind_of spec_of kept room a b)) }
        ensures empty { slice_index_or (views_in self.new) id.0 None ≡ None }
        ensures others { OthersSame (views_in self.old) (views_in self.new) id.0 }
        ensures visits { (watch_in self.new).visits.items ≡ (watch_in self.old).visits.items }
        ensures in_step { AreFitBy ⟦<dyn View as View>⟧ (network_in self.new) (core_in self.new).room (watch_in self.new) }
    {
        match self {
            AnyNet::Aig(net) => net.unsubscribe(id),
            AnyNet::Xag(net) => net.unsubscribe(id),
            AnyNet::Mig(net) => net.unsubscribe(id),
            AnyNet::Klut(net) => net.unsubscribe(id),
        }
    }

    /// Replaces each reference to a gate by a signal that is live and doesn't depend on it, complement included, and lets gates of one
    /// structure be one, many levels up where need be; the gates that lose their last reference go. Each view is told each single
    /// change, after it was made. It takes no memory, and can't be refused. What it costs `Network::substitute` says.
    pub fn substitute(&mut self, gate: Node, signal: Signal)
        requires gate { IsGateAt (network_in self.old) gate.0 }
        requires live { IsLive (network_in self.old) signal.node.0 }
        requires free { Depends (network_in self.old) signal gate.0 → ⊥ }
        requires in_step { AreFitBy ⟦<dyn View as View>⟧ (network_in self.old) (core_in self.old).room (watch_in self.old) }
        ensures substitutes { Substitutes (network_in self.old).kind (network_in self.old) gate.0 signal (network_in self.new) }
        // Equal functions leave the outputs as they were.
        ensures outputs { ((a : ℕ → Bool) → signal_value (network_in self.old) a signal ≡ node_value (network_in self.old) a gate.0) → (a : ℕ → Bool) → network_outputs (network_in self.new) a ≡ network_outputs (network_in self.old) a }
        ensures stored { IsStored (network_in self.new) }
        ensures strashed { IsStrashed (network_in self.new).kind (network_in self.new) }
        ensures tidy { ((n : ℕ) → IsGateAt (network_in self.old) n → 0 < references (network_in self.old) n) → (n : ℕ) → IsGateAt (network_in self.new) n → 0 < references (network_in self.new) n }
        ensures kind { (network_in self.new).kind ≡ (network_in self.old).kind }
        ensures inputs { (network_in self.new).inputs ≡ (network_in self.old).inputs }
        ensures outputs_count { length (network_in self.new).outputs ≡ length (network_in self.old).outputs }
        ensures room { (core_in self.new).room ≡ (core_in self.old).room }
        ensures in_step { AreToldBy ⟦<dyn View as View>⟧ (network_in self.new) (core_in self.new).room (watch_in self.old) (watch_in self.new) }
    {
        match self {
            AnyNet::Aig(net) => substitute(net, gate, signal),
            AnyNet::Xag(net) => substitute(net, gate, signal),
            AnyNet::Mig(net) => substitute(net, gate, signal),
            AnyNet::Klut(net) => substitute(net, gate, signal),
        }
    }

    /// The level that the view with the id keeps for the node: `None` exactly where no live view has the id, or it keeps no level
    /// of the node. Constant time.
    pub fn level(&self, id: ViewId, n: Node) -> Option<u32>
        ensures { result ≡ level_kept (option_map (λ b. (⟦<dyn View as View>⟧ b.vtable).kept b.value n.0) (slice_index_or (views_in self.now) id.0 None)) }
    {
        match self {
            AnyNet::Aig(net) => net.level(id, n),
            AnyNet::Xag(net) => net.level(id, n),
            AnyNet::Mig(net) => net.level(id, n),
            AnyNet::Klut(net) => net.level(id, n),
        }
    }
}

/// Whether a gate of the network of one kind has the number.
fn is_gate<G: Gates>(net: &Network<G>, n: Node) -> bool
    ensures { IsTrue result ↔ IsGateAt net.now.core.network n.0 }
{
    net.gate_of(n).is_some()
}
