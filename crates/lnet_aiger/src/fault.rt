//! Why a file is not read.

ghost use Rattle.std.specs.Prelude.{◌≡◌};

use lnet_edge::{Fault, Malformed, ReadError};

/// The error of a fault on a line.
pub fn malformed(line: u32, kind: Fault) -> ReadError
    ensures { result ≡ ReadError.Malformed (record { line = line; kind = kind }) }
{
    ReadError::Malformed(Malformed { line, kind })
}
