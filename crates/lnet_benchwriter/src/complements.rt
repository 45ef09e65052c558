//! The wires that are used with complement.

ghost use Rattle.std.specs.Prelude.{◌≡◌, ◌++◌, ◌∷◌, [], List, IfOk, OnOk};
ghost use Rattle.lnet_edge.specs.declared.circuit.WireRef.{WireRef};
ghost use Rattle.lnet_edge.specs.CircuitLists.{equation_views};
ghost use Rattle.lnet_benchwriter.specs.Nodes.{output_uses, equation_uses, uses_of};
ghost use Rattle.lnet_benchwriter.specs.Kept.{KnowsTurned};

use lnet_edge::{Circuit, Equation, OutputPort, WireRef};
use std::alloc::{AllocError, Global};
use std::collections::HashSet;

/// The wires that are used with complement.
pub(crate) type Turned = HashSet<u32>;

/// Keeps the wire of a use that is complemented.
fn note_use(turned: &mut Turned, reference: WireRef) -> Result<(), AllocError>
    ensures { OnOk result ((uses : List WireRef) → KnowsTurned turned.old uses → KnowsTurned turned.new (uses ++ reference ∷ [])) }
{
    if reference.complement {
        turned.insert(reference.wire.0)?;
    }
    Ok(())
}

fn note_operands(turned: &mut Turned, operands: &[WireRef]) -> Result<(), AllocError>
    ensures { OnOk result ((uses : List WireRef) → KnowsTurned turned.old uses → KnowsTurned turned.new (uses ++ operands.now)) }
{
    for operand in operands {
        note_use(turned, *operand)?;
    }
    Ok(())
}

fn note_outputs(turned: &mut Turned, ports: &[OutputPort]) -> Result<(), AllocError>
    ensures { OnOk result ((uses : List WireRef) → KnowsTurned turned.old uses → KnowsTurned turned.new (uses ++ output_uses ports.now)) }
{
    for port in ports {
        note_use(turned, port.source)?;
    }
    Ok(())
}

fn note_equations(turned: &mut Turned, equations: &[Equation]) -> Result<(), AllocError>
    ensures { OnOk result ((uses : List WireRef) → KnowsTurned turned.old uses → KnowsTurned turned.new (uses ++ equation_uses (equation_views equations.now))) }
{
    for equation in equations {
        note_operands(turned, equation.operands.as_slice())?;
    }
    Ok(())
}

/// The wires that outputs or operands of the circuit use with complement.
pub(crate) fn turned_in(alloc: Global, circuit: &Circuit) -> Result<Turned, AllocError>
    ensures { IfOk result (λ turned. KnowsTurned turned (uses_of circuit.now)) }
{
    let mut turned = HashSet::new(alloc);
    note_outputs(&mut turned, circuit.outputs())?;
    note_equations(&mut turned, circuit.equations())?;
    Ok(turned)
}
