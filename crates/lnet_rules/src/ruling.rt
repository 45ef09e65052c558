//! The rules of equations.
#![tactic(auto, using(lnet_hashed::proofs::KeptViews::bare_fit, lnet_hashed::proofs::KeptViews::bare_told))]

ghost use Rattle.std.specs.Prelude.{◌≡◌, ◌<◌, [], IfOk, OnOk, Err, length};
ghost use Rattle.lnet_model.specs.Along.{nodes_read};
ghost use Rattle.lnet_model.specs.Changes.{AreLive};
ghost use Rattle.lnet_model.specs.Dags.{NUMBERS};
ghost use Rattle.lnet_model.specs.Networks.{IsLive, live_count};
ghost use Rattle.lnet_edge.specs.Wires.{HasArity};
ghost use Rattle.lnet_edge.specs.declared.circuit.Rule.TheVariants.{Cover};
ghost use Rattle.lnet_rules.specs.Live.{KeepsLive};
ghost use Rattle.lnet_rules.specs.Rules.{has_tables as kind_has_tables, turned_answer, cover_built, rule_built, FitsTable};
ghost use Rattle.lnet_hashed.specs.Watches.{IsBare};

use crate::covering::table_of;
use crate::joining::{Join, fold, make};
use crate::rows::build_rows;
use lnet_edge::{CoverRows, Rule};
use lnet_gates::{Gates, Kind, Op, Signal};
use lnet_network::Network;
use lnet_store::AddError;
use std::alloc::Global;

/// Builds the rule of an equation over the signals of its operands, and tells the signal of its value.
///
/// `net` is without views; each of `operands` is live, and there are as many as the rule takes. `And`, `Or` and `Xor` of
/// several operands are folded from the left, and one operand is itself. A cover over at most six operands is one look-up table
/// in a network of tables, and any other cover is built row by row. The complement of the result comes last, and takes no gate.
///
/// # Errors
/// `Full` only where the gates that are missing are more than the free numbers; `NoMemory` where memory runs out.
///
/// As many gates are made as there are operands, or cells in the rows; what a gate costs `Network::gate` says.
pub fn build_rule<G: Gates>(
    alloc: Global,
    net: &mut Network<G>,
    rule: &Rule,
    operands: &[Signal],
) -> Result<Signal, AddError>
    requires arity { HasArity rule.now (length operands.now) }
    requires live { AreLive net.old.core.network (nodes_read operands.now) }
    requires none { IsBare net.old.watch }
    ensures built { IfOk result (λ s. rule_built G.KIND net.old.core.network rule.now operands.now ≡ record { network = net.new.core.network; signal = s }) }
    ensures live { IfOk result (λ s. IsLive net.new.core.network s.node.0) }
    ensures keeps { OnOk result (KeepsLive net.old.core.network net.new.core.network) }
    ensures full { result ≡ Err AddError.Full → NUMBERS < live_count (rule_built G.KIND net.old.core.network rule.now operands.now).network }
    ensures none { IsBare net.new.watch }
    // What the value of a table's bits rests on.
    ensures word { FitsTable rule.now }
{
    table_fits(rule);
    match rule {
        Rule::And(complement) => turn(fold(net, Join::And, true, operands), *complement),
        Rule::Or(complement) => turn(fold(net, Join::Or, false, operands), *complement),
        Rule::Xor(complement) => turn(fold(net, Join::Xor, false, operands), *complement),
        Rule::Maj(complement) => turn(make(net, Op::Maj, operands), *complement),
        Rule::Lut(table) => make(net, Op::Lut(*table), operands),
        Rule::Cover(cover) => build_cover(alloc, net, cover, operands),
    }
}

/// A look-up table's table is a word: said for the law of the values.
fn table_fits(rule: &Rule)
    ensures { FitsTable rule.now }
{
    match rule {
        Rule::Lut(table) => {
            let _word = *table;
        }
        _ => {}
    }
}

/// The signal as it is, or complemented.
fn turn(answer: Result<Signal, AddError>, complement: bool) -> Result<Signal, AddError>
    ensures { result ≡ turned_answer complement answer }
{
    match answer {
        Ok(signal) => Ok(signal.flipped(complement)),
        Err(error) => Err(error),
    }
}

/// A cover: one look-up table where gates are tables and there are at most six operands, and else row by row.
fn build_cover<G: Gates>(
    alloc: Global,
    net: &mut Network<G>,
    cover: &CoverRows,
    operands: &[Signal],
) -> Result<Signal, AddError>
    requires width { HasArity (Cover cover.now) (length operands.now) }
    requires live { AreLive net.old.core.network (nodes_read operands.now) }
    requires none { IsBare net.old.watch }
    ensures built { IfOk result (λ s. cover_built G.KIND net.old.core.network cover.now operands.now ≡ record { network = net.new.core.network; signal = s }) }
    ensures live { IfOk result (λ s. IsLive net.new.core.network s.node.0) }
    ensures keeps { OnOk result (KeepsLive net.old.core.network net.new.core.network) }
    ensures full { result ≡ Err AddError.Full → NUMBERS < live_count (cover_built G.KIND net.old.core.network cover.now operands.now).network }
    ensures none { IsBare net.new.watch }
{
    if has_tables(G::KIND) && operands.len() <= 6 {
        let table = table_of(cover, operands.len());
        return make(net, Op::Lut(table), operands);
    }
    build_rows(alloc, net, cover, operands)
}

/// Whether the gates of the kind are look-up tables.
fn has_tables(kind: Kind) -> bool
    ensures { result ≡ kind_has_tables kind }
{
    match kind {
        Kind::Klut => true,
        _ => false,
    }
}
