//! The commands that put a network in place: of a file, of a generated circuit, and of another kind.

ghost use Rattle.std.specs.Prelude.{◌≡◌, ◌≤◌, ℕ, List, Option, length, IfOk, IfErr, OnErr, Err, Some};
ghost use Rattle.lnet_edge.specs.Circuits.{CircuitValue};
ghost use Rattle.lnet_edge.specs.declared.fault.Malformed.{Malformed as MalformedValue};
ghost use Rattle.lnet_edge.specs.Outside.{call_of, file_limit, one_more};
ghost use Rattle.lnet_edge.specs.declared.outside.Direction.TheVariants.{Fetch};
ghost use Rattle.lnet_generate.specs.Drawing.{generated};
ghost use Rattle.lnet_session.specs.Calls.{at_fault};
ghost use Rattle.lnet_session.specs.Effects.{Converts, Generates, Holds, Places, Reads};
ghost use Rattle.lnet_session.specs.Formats.{IsMalformed, MeansIn};
ghost use Rattle.lnet_session.specs.Sessions.{IsGoodBy, state_by};

use crate::circuits::{build, export};
use crate::session::{Session, Stop};
use lnet_edge::{Circuit, FetchError, Files, Name, ReadError};
use lnet_gates::Kind;
use lnet_generate::generate;
use lnet_replies::{Reply, Unmet};
use lnet_script::{Generation, ReadFormat};
use lnet_store::{AddError, View};
use std::alloc::Global;

/// The circuit that the bytes mean in the format.
fn circuit_of(alloc: Global, format: ReadFormat, bytes: &[u8]) -> Result<Circuit, ReadError>
    requires { length bytes.now ≤ file_limit }
    ensures means { IfOk result (MeansIn format bytes.now) }
    ensures malformed { (m : MalformedValue) → result ≡ Err (ReadError.Malformed m) → IsMalformed format bytes.now m }
{
    match format {
        ReadFormat::Aiger => lnet_aiger::read(alloc, bytes),
        ReadFormat::Blif => lnet_blif::read(alloc, bytes),
        ReadFormat::Bench => lnet_bench::read(alloc, bytes),
    }
}

impl Session {
    /// Builds the network of the circuit in this kind, and puts it in place.
    fn place_circuit(&mut self, alloc: Global, kind: Kind, circuit: &Circuit) -> Result<Reply, Stop>
        requires good { IsGoodBy ⟦<dyn View as View>⟧ self.old }
        ensures places { IfOk result (λ answer. Places (state_by ⟦<dyn View as View>⟧ self.old) kind circuit.now answer (state_by ⟦<dyn View as View>⟧ self.new)) }
        ensures err { OnErr result (state_by ⟦<dyn View as View>⟧ self.new ≡ state_by ⟦<dyn View as View>⟧ self.old) }
        ensures memory { IfErr result (λ stop. stop ≡ Stop.NoMemory) }
        ensures good { IsGoodBy ⟦<dyn View as View>⟧ self.new }
    {
        match build(alloc, kind, circuit) {
            Ok((network, names)) => self.put_in_place(network, names),
            Err(AddError::Full) => Ok(Reply::Unmet(Unmet::Full)),
            Err(AddError::NoMemory) => Err(Stop::NoMemory),
        }
    }

    /// Puts the network of the circuit that the bytes mean in place.
    fn load(
        &mut self,
        alloc: Global,
        format: ReadFormat,
        kind: Kind,
        bytes: &[u8],
    ) -> Result<Reply, Stop>
        requires short { length bytes.now ≤ file_limit }
        requires good { IsGoodBy ⟦<dyn View as View>⟧ self.old }
        ensures reads { IfOk result (λ answer. (source : Option CircuitValue) × Reads (state_by ⟦<dyn View as View>⟧ self.old) format kind bytes.now answer source (state_by ⟦<dyn View as View>⟧ self.new)) }
        ensures err { OnErr result (state_by ⟦<dyn View as View>⟧ self.new ≡ state_by ⟦<dyn View as View>⟧ self.old) }
        ensures memory { IfErr result (λ stop. stop ≡ Stop.NoMemory) }
        ensures good { IsGoodBy ⟦<dyn View as View>⟧ self.new }
    {
        match circuit_of(alloc, format, bytes) {
            Ok(circuit) => self.place_circuit(alloc, kind, &circuit),
            Err(ReadError::Malformed(broken)) => {
                Ok(Reply::Unmet(Unmet::Malformed(broken.line, broken.kind)))
            }
            Err(ReadError::NoMemory) => Err(Stop::NoMemory),
        }
    }

    /// Puts the network of the circuit in place that is generated from the start.
    pub(crate) fn generate(
        &mut self,
        alloc: Global,
        kind: Kind,
        sizes: Generation,
    ) -> Result<Reply, Stop>
        requires inputs { (1 ≤ sizes.inputs) × (sizes.inputs ≤ 4096) }
        requires gates { sizes.gates ≤ 262144 }
        requires outputs { sizes.outputs ≤ 4096 }
        requires good { IsGoodBy ⟦<dyn View as View>⟧ self.old }
        ensures generates { IfOk result (λ answer. (source : Option CircuitValue) × Generates (state_by ⟦<dyn View as View>⟧ self.old) kind (generated kind sizes.inputs sizes.gates sizes.outputs sizes.start) answer source (state_by ⟦<dyn View as View>⟧ self.new)) }
        ensures err { OnErr result (state_by ⟦<dyn View as View>⟧ self.new ≡ state_by ⟦<dyn View as View>⟧ self.old) }
        ensures memory { IfErr result (λ stop. stop ≡ Stop.NoMemory) }
        ensures good { IsGoodBy ⟦<dyn View as View>⟧ self.new }
    {
        let Generation {
            inputs,
            gates,
            outputs,
            start,
        } = sizes;
        let Ok(circuit) = generate(alloc, kind, inputs, gates, outputs, start) else {
            return Err(Stop::NoMemory);
        };
        self.place_circuit(alloc, kind, &circuit)
    }

    /// Puts the network of another kind in place that computes the same.
    pub(crate) fn convert(&mut self, alloc: Global, kind: Kind) -> Result<Reply, Stop>
        requires good { IsGoodBy ⟦<dyn View as View>⟧ self.old }
        ensures converts { IfOk result (λ answer. Converts (state_by ⟦<dyn View as View>⟧ self.old) (state_by ⟦<dyn View as View>⟧ self.old).held kind answer (state_by ⟦<dyn View as View>⟧ self.new)) }
        ensures err { OnErr result (state_by ⟦<dyn View as View>⟧ self.new ≡ state_by ⟦<dyn View as View>⟧ self.old) }
        ensures memory { IfErr result (λ stop. stop ≡ Stop.NoMemory) }
        ensures good { IsGoodBy ⟦<dyn View as View>⟧ self.new }
    {
        let Some(place) = &self.place else {
            return Ok(Reply::Unmet(Unmet::NoNetwork));
        };
        let Ok(circuit) = export(alloc, &place.network, &place.names) else {
            return Err(Stop::NoMemory);
        };
        self.place_circuit(alloc, kind, &circuit)
    }

    /// Fetches the file and puts the network of its circuit in place.
    pub(crate) fn read_file<F: Files>(
        &mut self,
        alloc: Global,
        format: ReadFormat,
        name: &Name,
        kind: Kind,
        files: &mut F,
    ) -> Result<Reply, Stop>
        requires good { IsGoodBy ⟦<dyn View as View>⟧ self.old }
        ensures reads { IfOk result (λ answer. (bytes : List ℕ) × Holds (F.contents files.old) name.now bytes × ((source : Option CircuitValue) × Reads (state_by ⟦<dyn View as View>⟧ self.old) format kind bytes answer source (state_by ⟦<dyn View as View>⟧ self.new))) }
        ensures contents { F.contents files.new ≡ F.contents files.old }
        ensures err { OnErr result (state_by ⟦<dyn View as View>⟧ self.new ≡ state_by ⟦<dyn View as View>⟧ self.old) }
        ensures faults { F.faults files.new ≡ at_fault result (one_more (F.faults files.old)) (F.faults files.old) }
        ensures last { F.last files.new ≡ at_fault result (Some (call_of Fetch name.now)) (F.last files.old) }
        ensures good { IsGoodBy ⟦<dyn View as View>⟧ self.new }
    {
        match files.fetch(alloc, name.as_str()) {
            Ok(bytes) => self.load(alloc, format, kind, &bytes),
            Err(FetchError::TooLong) => Ok(Reply::Unmet(Unmet::TooLong)),
            Err(FetchError::Failed) => Err(Stop::Fault),
            Err(FetchError::NoMemory) => Err(Stop::NoMemory),
        }
    }
}
