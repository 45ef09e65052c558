//! And, or and xor of signals.
#![tactic(auto, using(lnet_hashed::proofs::KeptViews::bare_fit, lnet_hashed::proofs::KeptViews::bare_told))]

ghost use Rattle.std.specs.Prelude.{◌≡◌, ◌<◌, [], ◌∷◌, IfOk, OnOk, Err, length};
ghost use Rattle.lnet_gates.specs.Plans.{Takes};
ghost use Rattle.lnet_model.specs.Along.{nodes_read};
ghost use Rattle.lnet_model.specs.Changes.{AreLive};
ghost use Rattle.lnet_model.specs.Dags.{NUMBERS};
ghost use Rattle.lnet_model.specs.Networks.{IsLive, live_count};
ghost use Rattle.lnet_hashed.specs.Laid.{made};
ghost use Rattle.lnet_rules.specs.Joins.{by_join, joined_from, folded};
ghost use Rattle.lnet_rules.specs.Live.{KeepsLive};
ghost use Rattle.lnet_hashed.specs.Watches.{IsBare};

use lnet_gates::{Gates, Op, Signal};
use lnet_network::Network;
use lnet_store::AddError;

/// How signals are joined.
#[derive(Clone, Copy, Debug, PartialEq, Eq)]
pub enum Join {
    /// True where both are.
    And,
    /// True where one is, or both.
    Or,
    /// True where just one is.
    Xor,
}

/// The signal of an operation on operands, as many as it takes.
pub(crate) fn make<G: Gates>(
    net: &mut Network<G>,
    op: Op,
    operands: &[Signal],
) -> Result<Signal, AddError>
    requires arity { Takes op (length operands.now) }
    requires live { AreLive net.old.core.network (nodes_read operands.now) }
    requires none { IsBare net.old.watch }
    ensures made { IfOk result (λ s. made G.KIND net.old.core.network op operands.now ≡ record { network = net.new.core.network; signal = s }) }
    ensures live { IfOk result (λ s. IsLive net.new.core.network s.node.0) }
    ensures keeps { OnOk result (KeepsLive net.old.core.network net.new.core.network) }
    ensures full { result ≡ Err AddError.Full → NUMBERS < live_count (made G.KIND net.old.core.network op operands.now).network }
    ensures none { IsBare net.new.watch }
{
    net.gate(op, operands)
}

/// The signal of two signals joined. `a` or `b` is the complement of the and of their complements.
pub(crate) fn join_two<G: Gates>(
    net: &mut Network<G>,
    how: Join,
    a: Signal,
    b: Signal,
) -> Result<Signal, AddError>
    requires live_a { IsLive net.old.core.network a.node.0 }
    requires live_b { IsLive net.old.core.network b.node.0 }
    requires none { IsBare net.old.watch }
    ensures built { IfOk result (λ s. by_join G.KIND how net.old.core.network a b ≡ record { network = net.new.core.network; signal = s }) }
    ensures live { IfOk result (λ s. IsLive net.new.core.network s.node.0) }
    ensures keeps { OnOk result (KeepsLive net.old.core.network net.new.core.network) }
    ensures full { result ≡ Err AddError.Full → NUMBERS < live_count (by_join G.KIND how net.old.core.network a b).network }
    ensures none { IsBare net.new.watch }
{
    match how {
        Join::And => make(net, Op::And, &[a, b]),
        Join::Xor => make(net, Op::Xor, &[a, b]),
        Join::Or => match make(net, Op::And, &[a.flipped(true), b.flipped(true)]) {
            Ok(both) => Ok(both.flipped(true)),
            Err(error) => Err(error),
        },
    }
}

/// All of the signals joined from the left: `((a, b), c)`. One signal is itself; no signal gives the constant `none`.
pub fn fold<G: Gates>(
    net: &mut Network<G>,
    how: Join,
    none: bool,
    signals: &[Signal],
) -> Result<Signal, AddError>
    requires live { AreLive net.old.core.network (nodes_read signals.now) }
    requires none { IsBare net.old.watch }
    ensures built { IfOk result (λ s. folded G.KIND how none net.old.core.network signals.now ≡ record { network = net.new.core.network; signal = s }) }
    ensures live { IfOk result (λ s. IsLive net.new.core.network s.node.0) }
    ensures keeps { OnOk result (KeepsLive net.old.core.network net.new.core.network) }
    ensures full { result ≡ Err AddError.Full → NUMBERS < live_count (folded G.KIND how none net.old.core.network signals.now).network }
    ensures none { IsBare net.new.watch }
{
    let _live = net.live_count();
    match signals {
        [] => Ok(Signal::constant(none)),
        [first, rest @ ..] => join_all(net, how, *first, rest),
    }
}

/// The first signal and the others, joined one after another.
fn join_all<G: Gates>(
    net: &mut Network<G>,
    how: Join,
    first: Signal,
    others: &[Signal],
) -> Result<Signal, AddError>
    requires first { IsLive net.old.core.network first.node.0 }
    requires live { AreLive net.old.core.network (nodes_read others.now) }
    requires none { IsBare net.old.watch }
    ensures built { IfOk result (λ s. joined_from G.KIND how (record { network = net.old.core.network; signal = first }) others.now ≡ record { network = net.new.core.network; signal = s }) }
    ensures live { IfOk result (λ s. IsLive net.new.core.network s.node.0) }
    ensures keeps { OnOk result (KeepsLive net.old.core.network net.new.core.network) }
    ensures full { result ≡ Err AddError.Full → NUMBERS < live_count (joined_from G.KIND how (record { network = net.old.core.network; signal = first }) others.now).network }
    ensures none { IsBare net.new.watch }
{
    let mut joined = first;
    for other in others {
        joined = join_two(net, how, joined, *other)?;
    }
    Ok(joined)
}
