//! Changes of a network that has views.
#![tactic(auto, using(lnet_hashed::proofs::KeptViews::told_same))]

ghost use Rattle.std.specs.Prelude.{◌≡◌, ◌↔◌, IsTrue, true, false, length};
ghost use Rattle.lnet_model.specs.Changes.{IsGateAt};
ghost use Rattle.lnet_hashed.specs.Watches.{AreFitBy, AreToldBy};
ghost use Rattle.lnet_substitution.specs.Substitutions.{Substitutes};

use lnet_gates::{Gates, Node, Signal};
use lnet_network::Network;
use lnet_store::View;

/// Whether a gate has the number.
fn is_gate<G: Gates>(net: &Network<G>, n: Node) -> bool
    ensures { IsTrue result ↔ IsGateAt net.now.core.network n.0 }
{
    net.gate_of(n).is_some()
}

/// Lets a gate give way to a signal, where the number is a gate's, and the signal is live and doesn't depend on it. Whether it
/// did; where it didn't, nothing changed.
pub fn replace<G: Gates>(net: &mut Network<G>, n: Node, s: Signal) -> bool
    requires in_step { AreFitBy ⟦<dyn View as View>⟧ net.old.core.network net.old.core.room net.old.watch }
    ensures replaced { result ≡ true → Substitutes G.KIND net.old.core.network n.0 s net.new.core.network }
    ensures same { result ≡ false → net.new ≡ net.old }
    ensures in_step { AreToldBy ⟦<dyn View as View>⟧ net.new.core.network net.new.core.room net.old.watch net.new.watch }
{
    if !is_gate(net, n) || !net.is_live(s.node) || net.depends_on(s, n) {
        return false;
    }
    net.substitute(n, s);
    true
}

/// Complements an output, where there is one. Whether it did.
pub fn turn_output<G: Gates>(net: &mut Network<G>, k: u32) -> bool
    requires in_step { AreFitBy ⟦<dyn View as View>⟧ net.old.core.network net.old.core.room net.old.watch }
    ensures count { length net.new.core.network.outputs ≡ length net.old.core.network.outputs }
    ensures in_step { AreToldBy ⟦<dyn View as View>⟧ net.new.core.network net.new.core.room net.old.watch net.new.watch }
{
    match net.output_at(k) {
        Some(s) if k < net.output_count() => {
            net.set_output(k, s.flipped(true));
            true
        }
        _ => false,
    }
}
