//! Writing a circuit, with what the text means.

ghost use Rattle.std.specs.Prelude.{◌≡◌, ◌≤◌, ◌+◌, length, IfOk};
ghost use Rattle.lnet_edge.specs.Outside.{file_limit};
ghost use Rattle.lnet_edge.specs.Plain.{IsPlain};
ghost use Rattle.lnet_edge.specs.Circuits.{circuit_limit};
ghost use Rattle.lnet_blifwriter.specs.Texts.{blif_text};
ghost use Rattle.lnet_blifmeans.specs.Same.{MeansSame};

use lnet_edge::Circuit;
use std::alloc::{AllocError, Global};

/// Writes a circuit in the Berkeley Logic Interchange Format, as `lnet_blifwriter::write` does.
///
/// # Errors
/// `AllocError` where memory runs out.
pub fn write(alloc: Global, circuit: &Circuit) -> Result<Vec<u8>, AllocError>
    // Each equation is an And or an Xor of two operands, a Maj or a Lut, and stands after those it uses.
    requires { IsPlain circuit.now.equations }
    // The bytes are the circuit's text.
    ensures text { IfOk result (λ v. v.items ≡ blif_text circuit.now) }
    // Where the circuit is of a size that networks have, they mean a circuit with the same outputs, under the settled names.
    ensures means { length circuit.now.inputs + length circuit.now.equations ≤ circuit_limit → IfOk result (λ v. MeansSame v.items circuit.now) }
    // So they do where they are no more than a file may have.
    ensures in_file { IfOk result (λ v. length v.items ≤ file_limit → MeansSame v.items circuit.now) }
{
    lnet_kept::keep(circuit);
    lnet_blifwriter::write(alloc, circuit)
}
