//! Covers row by row.
#![tactic(auto, using(lnet_hashed::proofs::KeptViews::bare_fit, lnet_hashed::proofs::KeptViews::bare_told))]

ghost use Rattle.std.specs.Prelude.{◌≡◌, ◌<◌, ◌≤◌, [], IfOk, OnOk, Err, length, slice_get, Some};
ghost use Rattle.lnet_model.specs.Along.{nodes_read};
ghost use Rattle.lnet_model.specs.Changes.{AreLive};
ghost use Rattle.lnet_model.specs.Dags.{NUMBERS};
ghost use Rattle.lnet_model.specs.Networks.{IsLive, live_count};
ghost use Rattle.lnet_edge.specs.Wires.{HasArity};
ghost use Rattle.lnet_edge.specs.declared.circuit.Rule.TheVariants.{Cover};
ghost use Rattle.lnet_rules.specs.Live.{KeepsLive};
ghost use Rattle.lnet_rules.specs.Rules.{row_built, with_row, rows_built, by_rows};
ghost use Rattle.lnet_hashed.specs.Watches.{IsBare};

use crate::covering::literals_of;
use crate::joining::{Join, fold, join_two};
use lnet_edge::CoverRows;
use lnet_gates::{Gates, Signal};
use lnet_network::Network;
use lnet_store::AddError;
use std::alloc::Global;

/// The operands that a row names, joined by and; none gives true.
fn build_row<G: Gates>(
    alloc: Global,
    net: &mut Network<G>,
    row: &[u8],
    operands: &[Signal],
) -> Result<Signal, AddError>
    requires width { length row.now ≡ length operands.now }
    requires live { AreLive net.old.core.network (nodes_read operands.now) }
    requires none { IsBare net.old.watch }
    ensures built { IfOk result (λ s. row_built G.KIND net.old.core.network row.now operands.now ≡ record { network = net.new.core.network; signal = s }) }
    ensures live { IfOk result (λ s. IsLive net.new.core.network s.node.0) }
    ensures keeps { OnOk result (KeepsLive net.old.core.network net.new.core.network) }
    ensures full { result ≡ Err AddError.Full → NUMBERS < live_count (row_built G.KIND net.old.core.network row.now operands.now).network }
    ensures none { IsBare net.new.watch }
{
    match literals_of(alloc, row, operands) {
        Ok(literals) => fold(net, Join::And, true, &literals),
        Err(_) => Err(AddError::NoMemory),
    }
}

/// A row built, and joined by or with what the rows before it gave.
fn add_row<G: Gates>(
    alloc: Global,
    net: &mut Network<G>,
    before: Signal,
    row: &[u8],
    operands: &[Signal],
) -> Result<Signal, AddError>
    requires width { length row.now ≡ length operands.now }
    requires live { AreLive net.old.core.network (nodes_read operands.now) }
    requires before { IsLive net.old.core.network before.node.0 }
    requires none { IsBare net.old.watch }
    ensures built { IfOk result (λ s. with_row G.KIND (record { network = net.old.core.network; signal = before }) row.now operands.now ≡ record { network = net.new.core.network; signal = s }) }
    ensures live { IfOk result (λ s. IsLive net.new.core.network s.node.0) }
    ensures keeps { OnOk result (KeepsLive net.old.core.network net.new.core.network) }
    ensures full { result ≡ Err AddError.Full → NUMBERS < live_count (with_row G.KIND (record { network = net.old.core.network; signal = before }) row.now operands.now).network }
    ensures none { IsBare net.new.watch }
{
    match build_row(alloc, net, row, operands) {
        Ok(holds) => join_two(net, Join::Or, before, holds),
        Err(error) => Err(error),
    }
}

/// The first row and then the others.
fn add_rows<G: Gates>(
    alloc: Global,
    net: &mut Network<G>,
    cover: &CoverRows,
    operands: &[Signal],
) -> Result<Signal, AddError>
    requires some { 0 < length cover.now.rows }
    requires width { HasArity (Cover cover.now) (length operands.now) }
    requires live { AreLive net.old.core.network (nodes_read operands.now) }
    requires none { IsBare net.old.watch }
    ensures built { IfOk result (λ s. rows_built G.KIND net.old.core.network cover.now.rows operands.now ≡ record { network = net.new.core.network; signal = s }) }
    ensures live { IfOk result (λ s. IsLive net.new.core.network s.node.0) }
    ensures keeps { OnOk result (KeepsLive net.old.core.network net.new.core.network) }
    ensures full { result ≡ Err AddError.Full → NUMBERS < live_count (rows_built G.KIND net.old.core.network cover.now.rows operands.now).network }
    ensures none { IsBare net.new.watch }
{
    let mut built = build_row(alloc, net, cover.row(0), operands)?;
    for k in 1..cover.len() {
        built = add_row(alloc, net, built, cover.row(k), operands)?;
    }
    Ok(built)
}

/// The cover built row by row: the rows joined by or, complemented where their value is false; false without rows.
pub(crate) fn build_rows<G: Gates>(
    alloc: Global,
    net: &mut Network<G>,
    cover: &CoverRows,
    operands: &[Signal],
) -> Result<Signal, AddError>
    requires width { HasArity (Cover cover.now) (length operands.now) }
    requires live { AreLive net.old.core.network (nodes_read operands.now) }
    requires none { IsBare net.old.watch }
    ensures built { IfOk result (λ s. by_rows G.KIND net.old.core.network cover.now.value cover.now.rows operands.now ≡ record { network = net.new.core.network; signal = s }) }
    ensures live { IfOk result (λ s. IsLive net.new.core.network s.node.0) }
    ensures keeps { OnOk result (KeepsLive net.old.core.network net.new.core.network) }
    ensures full { result ≡ Err AddError.Full → NUMBERS < live_count (by_rows G.KIND net.old.core.network cover.now.value cover.now.rows operands.now).network }
    ensures none { IsBare net.new.watch }
{
    if cover.len() == 0 {
        let _live = net.live_count();
        return Ok(Signal::constant(false));
    }
    match add_rows(alloc, net, cover, operands) {
        Ok(built) => Ok(built.flipped(!cover.value())),
        Err(error) => Err(error),
    }
}
