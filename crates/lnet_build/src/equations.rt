//! The equations of a circuit, built in order.
#![tactic(auto, using(lnet_hashed::proofs::KeptViews::bare_fit, lnet_hashed::proofs::KeptViews::bare_told))]

ghost use Rattle.std.specs.Prelude.{◌≡◌, ◌<◌, ◌≤◌, [], ℕ, Some, map, slice_get, All, OnOk, Err, length};
ghost use Rattle.lnet_model.specs.Dags.{NUMBERS};
ghost use Rattle.lnet_model.specs.Networks.{live_count};
ghost use Rattle.lnet_edge.specs.CircuitLists.{equation_view, equation_views};
ghost use Rattle.lnet_edge.specs.Wires.{HasArity, HasArities};
ghost use Rattle.lnet_rules.specs.Rules.{FitsTable};
ghost use Rattle.lnet_build.specs.Built.{Building, with_equation, with_places};
ghost use Rattle.lnet_build.specs.Signals.{AreSignalsLive, FitsPlace, Stand};
ghost use Rattle.lnet_hashed.specs.Watches.{IsBare};

use crate::signals::{Signals, signals_of};
use lnet_edge::Equation;
use lnet_gates::Gates;
use lnet_network::Network;
use lnet_rules::build_rule;
use lnet_store::AddError;
use std::alloc::Global;

/// Builds the equations at these places, one after another.
pub(crate) fn build_equations<G: Gates>(
    alloc: Global,
    net: &mut Network<G>,
    signals: &mut Signals,
    equations: &[Equation],
    order: &[usize],
) -> Result<(), AddError>
    requires arities { HasArities (equation_views equations.now) }
    requires within { All (λ k. k < length equations.now) order.now }
    requires live { AreSignalsLive net.old.core.network signals.old }
    requires none { IsBare net.old.watch }
    ensures built { OnOk result ((b : Building) → Stand net.old.core.network signals.old b → Stand net.new.core.network signals.new (with_places G.KIND (equation_views equations.now) b order.now)) }
    ensures live { OnOk result (AreSignalsLive net.new.core.network signals.new) }
    ensures full { result ≡ Err AddError.Full → (b : Building) → Stand net.old.core.network signals.old b → NUMBERS < live_count (with_places G.KIND (equation_views equations.now) b order.now).network }
    ensures none { IsBare net.new.watch }
    ensures words { OnOk result (All (FitsPlace (equation_views equations.now)) order.now) }
{
    for place in order {
        build_equation(alloc, net, signals, &equations[*place])?;
    }
    Ok(())
}

/// Builds an equation, whose operands are built or inputs.
fn build_equation<G: Gates>(
    alloc: Global,
    net: &mut Network<G>,
    signals: &mut Signals,
    equation: &Equation,
) -> Result<(), AddError>
    requires arity { HasArity equation.now.rule (length equation.now.operands.items) }
    requires live { AreSignalsLive net.old.core.network signals.old }
    requires none { IsBare net.old.watch }
    ensures built { OnOk result ((b : Building) → Stand net.old.core.network signals.old b → Stand net.new.core.network signals.new (with_equation G.KIND b (equation_view equation.now))) }
    ensures live { OnOk result (AreSignalsLive net.new.core.network signals.new) }
    ensures full { result ≡ Err AddError.Full → (b : Building) → Stand net.old.core.network signals.old b → NUMBERS < live_count (with_equation G.KIND b (equation_view equation.now)).network }
    ensures none { IsBare net.new.watch }
    ensures word { OnOk result (FitsTable equation.now.rule) }
{
    let _live = net.live_count();
    let operands = match signals_of(alloc, signals, equation.operands.as_slice()) {
        Ok(operands) => operands,
        Err(_) => return Err(AddError::NoMemory),
    };
    let signal = build_rule(alloc, net, &equation.rule, &operands)?;
    match signals.insert(equation.target.0, signal) {
        Ok(_) => Ok(()),
        Err(_) => Err(AddError::NoMemory),
    }
}
