//! The signals of wires.

ghost use Rattle.std.specs.Prelude.{◌≡◌, map, IfOk};
ghost use Rattle.lnet_build.specs.Signals.{read_in};

use lnet_edge::WireRef;
use lnet_gates::Signal;
use std::alloc::{AllocError, Global};
use std::collections::HashMap;

/// From each wire that is built: its signal.
pub(crate) type Signals = HashMap<u32, Signal>;

/// The signal of a wire as it is used; the constant false where the wire isn't built.
pub(crate) fn signal_of(signals: &Signals, wire: WireRef) -> Signal
    ensures { result ≡ read_in signals.now wire }
{
    let signal = signals
        .get(&wire.wire.0)
        .copied()
        .unwrap_or(Signal::constant(false));
    signal.flipped(wire.complement)
}

/// The signals of wires as they are used, in order.
pub(crate) fn signals_of(
    alloc: Global,
    signals: &Signals,
    wires: &[WireRef],
) -> Result<Vec<Signal>, AllocError>
    ensures { IfOk result (λ found. found.items ≡ map (read_in signals.now) wires.now) }
{
    let mut found = Vec::new(alloc);
    for wire in wires {
        found.push(signal_of(signals, *wire))?;
    }
    Ok(found)
}
