//! The commands on the network in place that leave it as it is: on its views, and what is told of it.

ghost use Rattle.std.specs.Prelude.{◌≡◌, ◌≤◌, ◌<◌, ◌+◌, ◌-◌, ◌^◌, ◌↔◌, All, IfOk, IfErr, IsTrue, OnErr, IsErrOf, Some, false, length};
ghost use Rattle.lnet_model.specs.Answers.{IsSpec};
ghost use Rattle.lnet_edge.specs.Circuits.{circuit_limit};
ghost use Rattle.lnet_edge.specs.Outside.{call_of, one_more};
ghost use Rattle.lnet_edge.specs.declared.outside.Direction.TheVariants.{Store};
ghost use Rattle.lnet_edge.specs.Plain.{IsPlain};
ghost use Rattle.lnet_edge.specs.declared.circuit.Rule.TheVariants.{And};
ghost use Rattle.lnet_session.specs.Formats.{HasAndsAlone, HasGatesOf, IsTextOf, text_in};
ghost use Rattle.lnet_session.specs.Effects.{AsksLevel, Prints, PutsBack, SaysStats, Views, Writes};
ghost use Rattle.lnet_session.specs.Sessions.{IsGoodBy, state_by};
ghost use Rattle.lnet_session.specs.Calls.{CanWrite, at_fault};

use crate::circuits::export;
use crate::session::{Session, Stop, counts_of};
use lnet_aiger::{write_ascii, write_binary};
use lnet_edge::{Circuit, Files, Name, PutError};
use lnet_gates::{Kind, Node};
use lnet_model::ViewSpec;
use lnet_replies::{Reply, Unmet};
use lnet_script::WriteFormat;
use lnet_store::View;
use lnet_subscriptions::{AskError, AttachError, DropError};
use std::alloc::{AllocError, Global};

/// Whether the format has the gates of the kind: AIGER has And alone.
fn has_gates_of(format: WriteFormat, kind: Kind) -> bool
    ensures { IsTrue result ↔ HasGatesOf format kind }
{
    match format {
        WriteFormat::Aag | WriteFormat::Aig => kind == Kind::Aig,
        WriteFormat::Blif | WriteFormat::Bench => true,
    }
}

/// The text of a circuit in the format.
fn text_of(alloc: Global, format: WriteFormat, circuit: &Circuit) -> Result<Vec<u8>, AllocError>
    requires plain { IsPlain circuit.now.equations }
    requires ands { HasAndsAlone format → All (λ e. e.rule ≡ And false) circuit.now.equations }
    requires few { length circuit.now.inputs + length circuit.now.equations ≤ circuit_limit }
    ensures text { IfOk result (λ v. v.items ≡ text_in format circuit.now) }
    ensures means { IfOk result (λ v. IsTextOf format v.items circuit.now) }
{
    match format {
        WriteFormat::Aag => write_ascii(alloc, circuit),
        WriteFormat::Aig => write_binary(alloc, circuit),
        WriteFormat::Blif => lnet_blifmeans::write(alloc, circuit),
        WriteFormat::Bench => lnet_benchvalues::write(alloc, circuit),
    }
}

impl Session {
    /// Attaches the first view of the spec's kind on the shelf.
    pub(crate) fn view(&mut self, spec: ViewSpec) -> Result<Reply, Stop>
        requires rule { IsSpec spec }
        requires next { (state_by ⟦<dyn View as View>⟧ self.old).roll.next < 2 ^ 32 - 1 }
        requires good { IsGoodBy ⟦<dyn View as View>⟧ self.old }
        ensures views { IfOk result (λ answer. Views (state_by ⟦<dyn View as View>⟧ self.old) spec answer (state_by ⟦<dyn View as View>⟧ self.new)) }
        ensures err { OnErr result (state_by ⟦<dyn View as View>⟧ self.new ≡ state_by ⟦<dyn View as View>⟧ self.old) }
        ensures memory { IfErr result (λ stop. stop ≡ Stop.NoMemory) }
        ensures good { IsGoodBy ⟦<dyn View as View>⟧ self.new }
    {
        if let Some(place) = &mut self.place {
            let attached = self.views.attach(&mut place.network, spec);
            return match attached {
                Ok(number) => Ok(Reply::Viewed { number, spec }),
                Err(AttachError::ShelfEmpty) => Ok(Reply::Unmet(Unmet::ShelfEmpty)),
                Err(AttachError::NoMemory) => Err(Stop::NoMemory),
            };
        }
        Ok(Reply::Unmet(Unmet::NoNetwork))
    }

    /// Puts the live view with the number back on the shelf.
    pub(crate) fn put_back(&mut self, number: u32) -> Result<Reply, Stop>
        requires good { IsGoodBy ⟦<dyn View as View>⟧ self.old }
        ensures back { IfOk result (λ answer. PutsBack (state_by ⟦<dyn View as View>⟧ self.old) number answer (state_by ⟦<dyn View as View>⟧ self.new)) }
        ensures err { OnErr result (state_by ⟦<dyn View as View>⟧ self.new ≡ state_by ⟦<dyn View as View>⟧ self.old) }
        ensures memory { IfErr result (λ stop. stop ≡ Stop.NoMemory) }
        ensures good { IsGoodBy ⟦<dyn View as View>⟧ self.new }
    {
        if let Some(place) = &mut self.place {
            let dropped = self.views.drop_view(&mut place.network, number);
            return match dropped {
                Ok(()) => Ok(Reply::Dropped(number)),
                Err(DropError::NoView) => Ok(Reply::Unmet(Unmet::NoView)),
                Err(DropError::NoMemory) => Err(Stop::NoMemory),
            };
        }
        Ok(Reply::Unmet(Unmet::NoNetwork))
    }

    /// Asks the live depth view with the number for the node's level.
    pub(crate) fn ask_level(&self, number: u32, n: Node) -> Reply
        requires good { IsGoodBy ⟦<dyn View as View>⟧ self.now }
        ensures { AsksLevel (state_by ⟦<dyn View as View>⟧ self.now).held (state_by ⟦<dyn View as View>⟧ self.now).roll.live number n.0 result }
    {
        let Some(place) = &self.place else {
            return Reply::Unmet(Unmet::NoNetwork);
        };
        match self.views.level(&place.network, number, n) {
            Ok(level) => Reply::Level { node: n.0, level },
            Err(AskError::NoView) => Reply::Unmet(Unmet::NoView),
            Err(AskError::NoNode) => Reply::Unmet(Unmet::NoNode),
        }
    }

    /// The lines of the network.
    pub(crate) fn print(&self, alloc: Global) -> Result<Reply, Stop>
        ensures prints { IfOk result (Prints (state_by ⟦<dyn View as View>⟧ self.now).held) }
        ensures memory { IfErr result (λ stop. stop ≡ Stop.NoMemory) }
    {
        let Some(place) = &self.place else {
            return Ok(Reply::Unmet(Unmet::NoNetwork));
        };
        match place.network.print(alloc) {
            Ok(text) => Ok(Reply::Printed(text)),
            Err(_) => Err(Stop::NoMemory),
        }
    }

    /// The network's kind, counts and depth.
    pub(crate) fn stats(&self) -> Result<Reply, Stop>
        ensures counts { IfOk result (SaysStats (state_by ⟦<dyn View as View>⟧ self.now).held) }
        ensures memory { IfErr result (λ stop. stop ≡ Stop.NoMemory) }
    {
        let Some(place) = &self.place else {
            return Ok(Reply::Unmet(Unmet::NoNetwork));
        };
        match place.network.depth() {
            Ok(depth) => Ok(Reply::Stats {
                counts: counts_of(&place.network),
                depth,
            }),
            Err(_) => Err(Stop::NoMemory),
        }
    }

    /// Stores the text of the network under the name.
    pub(crate) fn write_file<F: Files>(
        &self,
        alloc: Global,
        format: WriteFormat,
        name: &Name,
        files: &mut F,
    ) -> Result<Reply, Stop>
        requires good { IsGoodBy ⟦<dyn View as View>⟧ self.now }
        ensures writes { IfOk result (λ answer. Writes format (state_by ⟦<dyn View as View>⟧ self.now).held (F.contents files.old) name.now answer (F.contents files.new)) }
        ensures err { OnErr result (F.contents files.new ≡ F.contents files.old) }
        ensures allowed { IsErrOf result Stop.Fault → CanWrite format (state_by ⟦<dyn View as View>⟧ self.now).held }
        ensures faults { F.faults files.new ≡ at_fault result (one_more (F.faults files.old)) (F.faults files.old) }
        ensures last { F.last files.new ≡ at_fault result (Some (call_of Store name.now)) (F.last files.old) }
    {
        let Some(place) = &self.place else {
            return Ok(Reply::Unmet(Unmet::NoNetwork));
        };
        if !has_gates_of(format, place.network.kind()) {
            return Ok(Reply::Unmet(Unmet::WrongKind));
        }
        let Ok(circuit) = export(alloc, &place.network, &place.names) else {
            return Err(Stop::NoMemory);
        };
        let Ok(text) = text_of(alloc, format, &circuit) else {
            return Err(Stop::NoMemory);
        };
        match files.store(name.as_str(), &text) {
            Ok(()) => Ok(Reply::Wrote(text.len())),
            Err(PutError::Failed) => Err(Stop::Fault),
            Err(PutError::NoMemory) => Err(Stop::NoMemory),
        }
    }
}
