//! The commands that evaluate the network in place, and that let a signal take a gate's place in it.

ghost use Rattle.std.specs.Prelude.{◌≡◌, ◌≤◌, ◌<◌, ℕ, List, Bool, length, IfOk, IfErr, IfNone, IfSome, OnErr, MatchOption};
ghost use Rattle.lnet_model.specs.Changes.{IsGateAt};
ghost use Rattle.lnet_model.specs.Networks.{IsLive};
ghost use Rattle.lnet_model.specs.Values.{network_outputs};
ghost use Rattle.lnet_hashed.specs.Watches.{AreToldBy};
ghost use Rattle.lnet_any.specs.AnyNets.{core_in, network_in, watch_in};
ghost use Rattle.lnet_simulate.specs.Assignments.{AgreeUnder, DifferFirst, assignment};
ghost use Rattle.lnet_subscriptions.specs.Kept.{InStepWith};
ghost use Rattle.lnet_replies.specs.Texts.{bits_word};
ghost use Rattle.lnet_session.specs.Effects.{Merges, Simulates};
ghost use Rattle.lnet_build.specs.Sound.{IsSound};
ghost use Rattle.lnet_session.specs.Merging.{MergesIn, StandsInTheWay, bit_named};
ghost use Rattle.lnet_session.specs.Sessions.{IsGoodBy, state_by};

use crate::session::{Session, Stop};
use lnet_any::AnyNet;
use lnet_edge::Name;
use lnet_gates::{Node, Signal};
use lnet_replies::{Reply, Unmet};
use lnet_simulate::{equal_exhaustive, simulate as evaluate};
use lnet_store::View;
use std::alloc::{AllocError, Global};

/// The value that a character tells.
fn bit_of(byte: u8) -> Option<bool>
    ensures { result ≡ bit_named byte }
{
    match byte {
        b'0' => Some(false),
        b'1' => Some(true),
        _ => None,
    }
}

/// The values of so many inputs that a word tells, a character for each: `None` exactly where it tells none.
fn bits_in(alloc: Global, word: &[u8], count: u32) -> Result<Option<Vec<bool>>, AllocError>
    ensures { IfOk result (λ r. MatchOption r ((bits : List Bool) → word.now ≡ bits_word bits → length bits ≡ count → ⊥) (λ v. (word.now ≡ bits_word v.items) × (length v.items ≡ count))) }
{
    if count == 0 {
        return Ok(if word == b"-".as_slice() {
            Some(Vec::new(alloc))
        } else {
            None
        });
    }
    if word.len() != count as usize {
        return Ok(None);
    }
    let mut bits = Vec::new(alloc);
    for byte in word {
        match bit_of(*byte) {
            Some(bit) => bits.push(bit)?,
            None => return Ok(None),
        }
    }
    Ok(Some(bits))
}

/// The outputs of a network of any kind under one assignment.
fn outputs_of(alloc: Global, net: &AnyNet, bits: &[bool]) -> Result<Vec<bool>, AllocError>
    requires { length bits.now ≡ length (network_in net.now).inputs }
    ensures { IfOk result (λ v. v.items ≡ network_outputs (network_in net.now) (assignment bits.now)) }
{
    match net {
        AnyNet::Aig(net) => evaluate(alloc, net, bits),
        AnyNet::Xag(net) => evaluate(alloc, net, bits),
        AnyNet::Mig(net) => evaluate(alloc, net, bits),
        AnyNet::Klut(net) => evaluate(alloc, net, bits),
    }
}

/// The least assignment under which a node and a signal of a network of any kind differ.
fn difference_of(alloc: Global, net: &AnyNet, n: Node, s: Signal) -> Result<Option<u32>, AllocError>
    requires inputs { length (network_in net.now).inputs ≤ 16 }
    requires node { IsLive (network_in net.now) n.0 }
    requires signal { IsLive (network_in net.now) s.node.0 }
    ensures equal { IfOk result (λ r. IfNone r ((a : ℕ → Bool) → AgreeUnder (network_in net.now) n.0 s a)) }
    ensures differ { IfOk result (λ r. IfSome r (DifferFirst (network_in net.now) n.0 s)) }
{
    match net {
        AnyNet::Aig(net) => equal_exhaustive(alloc, net, n, s),
        AnyNet::Xag(net) => equal_exhaustive(alloc, net, n, s),
        AnyNet::Mig(net) => equal_exhaustive(alloc, net, n, s),
        AnyNet::Klut(net) => equal_exhaustive(alloc, net, n, s),
    }
}

/// What stands in the way of letting the signal take the gate's place.
fn obstacle(
    alloc: Global,
    net: &mut AnyNet,
    n: Node,
    s: Signal,
) -> Result<Option<Unmet>, AllocError>
    requires in_step { InStepWith (λ b. (⟦<dyn View as View>⟧ b.vtable).spec_of b.value) (λ b. (⟦<dyn View as View>⟧ b.vtable).kept b.value) (λ b. (⟦<dyn View as View>⟧ b.vtable).room b.value) net.old }
    ensures stands { IfOk result (StandsInTheWay (network_in net.old) n.0 s) }
    ensures same { net.new ≡ net.old }
    ensures in_step { InStepWith (λ b. (⟦<dyn View as View>⟧ b.vtable).spec_of b.value) (λ b. (⟦<dyn View as View>⟧ b.vtable).kept b.value) (λ b. (⟦<dyn View as View>⟧ b.vtable).room b.value) net.new }
{
    if !net.is_gate(n) || !net.is_live(s.node) {
        return Ok(Some(Unmet::NoNode));
    }
    let inputs = net.input_count();
    if inputs > 16 {
        return Ok(Some(Unmet::TooWide));
    }
    if net.depends_on(s, n) {
        return Ok(Some(Unmet::Cycle));
    }
    match difference_of(alloc, net, n, s)? {
        Some(assignment) => Ok(Some(Unmet::Unequal { inputs, assignment })),
        None => Ok(None),
    }
}

/// Lets the signal take the gate's place, where nothing stands in the way.
fn merge_in(alloc: Global, net: &mut AnyNet, n: Node, s: Signal) -> Result<Reply, Stop>
    requires in_step { InStepWith (λ b. (⟦<dyn View as View>⟧ b.vtable).spec_of b.value) (λ b. (⟦<dyn View as View>⟧ b.vtable).kept b.value) (λ b. (⟦<dyn View as View>⟧ b.vtable).room b.value) net.old }
    ensures merges { IfOk result (λ answer. MergesIn (network_in net.old) n.0 s answer (network_in net.new)) }
    ensures err { OnErr result (net.new ≡ net.old) }
    ensures memory { IfErr result (λ stop. stop ≡ Stop.NoMemory) }
    ensures sound { IsSound (network_in net.old) → IsSound (network_in net.new) }
    ensures inputs { length (network_in net.new).inputs ≡ length (network_in net.old).inputs }
    ensures outputs { length (network_in net.new).outputs ≡ length (network_in net.old).outputs }
    ensures in_step { AreToldBy ⟦<dyn View as View>⟧ (network_in net.new) (core_in net.new).room (watch_in net.old) (watch_in net.new) }
{
    match obstacle(alloc, net, n, s) {
        Ok(Some(cause)) => Ok(Reply::Unmet(cause)),
        Ok(None) => {
            net.substitute(n, s);
            Ok(Reply::Merged {
                node: n.0,
                gates: net.gate_count(),
            })
        }
        Err(_) => Err(Stop::NoMemory),
    }
}

impl Session {
    /// Evaluates the outputs where the inputs have the values that the word tells.
    pub(crate) fn simulate(&self, alloc: Global, word: &Name) -> Result<Reply, Stop>
        ensures simulates { IfOk result (Simulates (state_by ⟦<dyn View as View>⟧ self.now).held word.now) }
        ensures memory { IfErr result (λ stop. stop ≡ Stop.NoMemory) }
    {
        let Some(place) = &self.place else {
            return Ok(Reply::Unmet(Unmet::NoNetwork));
        };
        let bits = match bits_in(alloc, word.as_str().as_bytes(), place.network.input_count()) {
            Ok(Some(bits)) => bits,
            Ok(None) => return Ok(Reply::Unmet(Unmet::BadBits)),
            Err(_) => return Err(Stop::NoMemory),
        };
        match outputs_of(alloc, &place.network, &bits) {
            Ok(values) => Ok(Reply::Simulated(values)),
            Err(_) => Err(Stop::NoMemory),
        }
    }

    /// Lets the signal take the gate's place in the network, where both compute one function.
    pub(crate) fn merge(&mut self, alloc: Global, n: Node, s: Signal) -> Result<Reply, Stop>
        requires good { IsGoodBy ⟦<dyn View as View>⟧ self.old }
        ensures merges { IfOk result (λ answer. Merges (state_by ⟦<dyn View as View>⟧ self.old) (state_by ⟦<dyn View as View>⟧ self.old).held n.0 s answer (state_by ⟦<dyn View as View>⟧ self.new)) }
        ensures err { OnErr result (state_by ⟦<dyn View as View>⟧ self.new ≡ state_by ⟦<dyn View as View>⟧ self.old) }
        ensures memory { IfErr result (λ stop. stop ≡ Stop.NoMemory) }
        ensures good { IsGoodBy ⟦<dyn View as View>⟧ self.new }
    {
        if let Some(place) = &mut self.place {
            let merged = merge_in(alloc, &mut place.network, n, s);
            return merged;
        }
        Ok(Reply::Unmet(Unmet::NoNetwork))
    }
}
