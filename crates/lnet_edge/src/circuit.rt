//! Circuits as files hold them: inputs, equations and outputs, by wires.

ghost use Rattle.std.specs.Prelude.{◌≡◌, ◌+◌, ◌<◌, ◌≤◌, ◌↔◌, length, IsTrue, IfOk, IfErr};
ghost use Rattle.lnet_edge.specs.CircuitLists.{equation_views, listed_circuit};
ghost use Rattle.lnet_edge.specs.Plain.{IsPlain};
ghost use Rattle.lnet_edge.specs.Wires.{HasArities, IsCircuit, IsRefused};
ghost use Rattle.lnet_edge.specs.Circuits.{output_limit};

use crate::cover::CoverRows;
use crate::cycles::is_cyclic;
use crate::drivers::{drive_all, drivers_of};
use crate::fault::Fault;
use crate::name::Name;
use crate::plain::are_plain;
use smallvec::SmallVec;
use std::alloc::{AllocError, Global};
use std::marker::Model;

/// The most inputs and equations, together, of a circuit that a network holds or that is read or written by numbers.
pub const CIRCUIT_LIMIT: u64 = 1_048_576;

/// The most outputs of a circuit.
pub const OUTPUT_LIMIT: u64 = 100_000_000;

/// A wire by its number. Wire 0 is the constant false.
#[derive(Clone, Copy, Debug, Default, PartialEq, Eq)]
pub struct Wire(pub u32);

/// A use of a wire, as it is or complemented.
#[derive(Clone, Copy, Debug, Default, PartialEq, Eq)]
pub struct WireRef {
    /// The wire.
    pub wire: Wire,
    /// Whether the value is the complement of the wire's.
    pub complement: bool,
}

/// How an equation's value comes from the values of its operands. The flag says that the result is complemented.
#[derive(Drop)]
pub enum Rule {
    /// True where all operands are true. It takes one operand or more.
    And(bool),
    /// True where some operand is true. It takes one operand or more.
    Or(bool),
    /// True where an odd number of operands is true. It takes one operand or more.
    Xor(bool),
    /// True where two or three operands are true. It takes three operands.
    Maj(bool),
    /// The bit of the table at the row whose bit `i` is operand `i`; bit 0 is the least. It takes at most six operands.
    Lut(u64),
    /// The union of the rows, complemented where their value is false, and false without rows. It takes an operand for
    /// each byte of each row.
    Cover(CoverRows),
}

/// An equation: a wire, and what drives it.
#[derive(Drop)]
pub struct Equation {
    /// The wire that is driven.
    pub target: Wire,
    /// How its value comes from the operands.
    pub rule: Rule,
    /// The operands in the order of the file.
    pub operands: SmallVec<WireRef, 4>,
}

/// An input of a circuit.
#[derive(Drop)]
pub struct InputPort {
    /// The wire that the input drives.
    pub wire: Wire,
    /// The name that the file gives it, if any.
    pub name: Option<Name>,
}

/// An output of a circuit.
#[derive(Drop)]
pub struct OutputPort {
    /// The wire, or its complement, that the output shows.
    pub source: WireRef,
    /// The name that the file gives it, if any.
    pub name: Option<Name>,
}

/// Why lists are no circuit.
#[derive(Clone, Copy, Debug, PartialEq, Eq)]
pub enum CircuitError {
    /// A rule of circuits is broken: `Undriven`, `Twice` or `Cycle`, the first in this order.
    Fault(Fault),
    /// Memory ran out.
    NoMemory,
}

impl From<AllocError> for CircuitError {
    ghost use Rattle.std.specs.Prelude.{◌≡◌};
    ghost use Rattle.lnet_edge.specs.declared.circuit.CircuitError.TheVariants.{NoMemory};

    ghost from_gives = { λ _ e. e ≡ NoMemory };

    fn from(_: AllocError) -> CircuitError {
        CircuitError::NoMemory
    }
}

/// A circuit: its inputs and outputs in order, and the equations between them.
///
/// Each wire is driven once, by the constant (wire 0), an input or an equation. Each wire that an output or an operand
/// names is driven, and no wire depends on itself. Each rule has as many operands as it takes. There are at most
/// 100,000,000 outputs, and fewer than 4,294,967,296 inputs and equations together. A contract sees the three lists.
#[derive(Drop)]
pub struct Circuit {
    inputs: Vec<InputPort>,
    outputs: Vec<OutputPort>,
    equations: Vec<Equation>,
    // Whether the equations are plain, which only the search in `new` can tell in linear time.
    plain: bool,
}

impl Model for Circuit {
    ghost use Rattle.std.specs.Prelude.{◌↔◌, IsTrue};
    ghost use Rattle.lnet_edge.specs.Circuits.{CircuitValue};
    ghost use Rattle.lnet_edge.specs.Wires.{IsCircuit};
    ghost use Rattle.lnet_edge.specs.CircuitLists.{equation_views, listed_circuit};
    ghost use Rattle.lnet_edge.specs.Plain.{IsPlain};

    ghost Value = { CircuitValue };

    ghost view = { λ c. listed_circuit c.inputs.items c.outputs.items c.equations.items };

    ghost invariant = { λ c. IsCircuit (listed_circuit c.inputs.items c.outputs.items c.equations.items) × (IsTrue c.plain ↔ IsPlain (equation_views c.equations.items)) };
}

impl Circuit {
    /// The circuit of these ports and equations.
    ///
    /// `alloc` is where the search keeps what it needs until it ends. Expected time and memory are linear in the size of
    /// the lists. Cycles are found by a depth-first search along operands (R. Tarjan, "Depth-First Search and Linear
    /// Graph Algorithms", 1972) with a stack of its own.
    ///
    /// # Errors
    /// `Fault` exactly where a rule is broken, the first of these: `Undriven` where an output or an operand names a wire
    /// that nothing drives, `Twice` where a wire is driven twice (wire 0 is driven by the constant), `Cycle` where a wire
    /// depends on itself through equations. `NoMemory` where memory runs out.
    pub fn new(
        alloc: Global,
        inputs: Vec<InputPort>,
        outputs: Vec<OutputPort>,
        equations: Vec<Equation>,
    ) -> Result<Circuit, CircuitError>
        requires arities { HasArities (equation_views equations.items) }
        requires few { length inputs.items + length equations.items < 4294967296 }
        requires few_outputs { length outputs.items ≤ output_limit }
        ensures lists { IfOk result (λ c. c ≡ listed_circuit inputs.items outputs.items equations.items) }
        // No rule is broken.
        ensures circuit { IfOk result (λ c. IsCircuit c) }
        // That rule is broken, and none before it.
        ensures refused { IfErr result (IsRefused (listed_circuit inputs.items outputs.items equations.items)) }
    {
        let (drivers, twice) = drivers_of(alloc, &inputs, &equations)?;
        if !drive_all(&drivers, &outputs, &equations) {
            return Err(CircuitError::Fault(Fault::Undriven));
        }
        if twice {
            return Err(CircuitError::Fault(Fault::Twice));
        }
        if is_cyclic(alloc, &drivers, &equations)? {
            return Err(CircuitError::Fault(Fault::Cycle));
        }
        let plain = are_plain(&drivers, &equations);
        Ok(Circuit {
            inputs,
            outputs,
            equations,
            plain,
        })
    }

    /// The inputs in order.
    pub fn inputs(&self) -> &[InputPort]
        ensures { result.now ≡ self.now.inputs }
    {
        &self.inputs
    }

    /// The outputs in order.
    pub fn outputs(&self) -> &[OutputPort]
        ensures { result.now ≡ self.now.outputs }
    {
        &self.outputs
    }

    /// The equations in order.
    pub fn equations(&self) -> &[Equation]
        ensures value { equation_views result.now ≡ self.now.equations }
        // What the type keeps of the whole circuit.
        ensures circuit { IsCircuit self.now }
    {
        &self.equations
    }

    /// Whether each equation is an And or an Xor of two operands, a Maj or a Lut, and stands after those whose wires it
    /// uses. Constant time; it takes no memory.
    pub fn is_plain(&self) -> bool
        ensures { IsTrue result ↔ IsPlain self.now.equations }
    {
        self.plain
    }
}
