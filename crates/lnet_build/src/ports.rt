//! The inputs and outputs of a network that is built.
#![tactic(auto, using(lnet_hashed::proofs::KeptViews::bare_fit, lnet_hashed::proofs::KeptViews::bare_told))]

ghost use Rattle.std.specs.Prelude.{◌≡◌, ◌+◌, ◌≤◌, [], map, OnOk, Err, length};
ghost use Rattle.lnet_model.specs.Dags.{NUMBERS, OUTPUTS};
ghost use Rattle.lnet_model.specs.Networks.{live_count};
ghost use Rattle.lnet_build.specs.Built.{Building, with_port, with_ports, with_outputs};
ghost use Rattle.lnet_build.specs.Signals.{read_in, AreSignalsLive, Stand};
ghost use Rattle.lnet_hashed.specs.Watches.{IsBare};

use crate::signals::{Signals, signal_of};
use lnet_edge::{InputPort, OutputPort};
use lnet_gates::Gates;
use lnet_network::Network;
use lnet_store::AddError;
use std::alloc::AllocError;

/// Makes the inputs, in order; there are numbers for them.
pub(crate) fn add_inputs<G: Gates>(
    net: &mut Network<G>,
    signals: &mut Signals,
    ports: &[InputPort],
) -> Result<(), AddError>
    requires few { live_count net.old.core.network + length ports.now ≤ NUMBERS }
    requires live { AreSignalsLive net.old.core.network signals.old }
    requires none { IsBare net.old.watch }
    ensures built { OnOk result ((b : Building) → Stand net.old.core.network signals.old b → Stand net.new.core.network signals.new (with_ports b ports.now)) }
    ensures live { OnOk result (AreSignalsLive net.new.core.network signals.new) }
    ensures full { result ≡ Err AddError.Full → ⊥ }
    ensures none { IsBare net.new.watch }
{
    for port in ports {
        add_input(net, signals, port)?;
    }
    Ok(())
}

/// Makes an input; there is a number for it.
fn add_input<G: Gates>(
    net: &mut Network<G>,
    signals: &mut Signals,
    port: &InputPort,
) -> Result<(), AddError>
    requires few { live_count net.old.core.network + 1 ≤ NUMBERS }
    requires live { AreSignalsLive net.old.core.network signals.old }
    requires none { IsBare net.old.watch }
    ensures built { OnOk result ((b : Building) → Stand net.old.core.network signals.old b → Stand net.new.core.network signals.new (with_port b port.now)) }
    ensures count { OnOk result (live_count net.new.core.network ≡ live_count net.old.core.network + 1) }
    ensures live { OnOk result (AreSignalsLive net.new.core.network signals.new) }
    ensures full { result ≡ Err AddError.Full → ⊥ }
    ensures none { IsBare net.new.watch }
{
    let _before = net.live_count();
    let signal = net.input()?;
    match signals.insert(port.wire.0, signal) {
        Ok(_) => Ok(()),
        Err(_) => Err(AddError::NoMemory),
    }
}

/// Adds the outputs, in order.
pub(crate) fn add_outputs<G: Gates>(
    net: &mut Network<G>,
    signals: &Signals,
    ports: &[OutputPort],
) -> Result<(), AllocError>
    requires few { length net.old.core.network.outputs + length ports.now ≤ OUTPUTS }
    requires live { AreSignalsLive net.old.core.network signals.now }
    requires none { IsBare net.old.watch }
    ensures network { OnOk result (net.new.core.network ≡ with_outputs net.old.core.network (map (λ p. read_in signals.now p.source) ports.now)) }
    ensures none { IsBare net.new.watch }
{
    for port in ports {
        let _live = net.live_count();
        net.output(signal_of(signals, port.source))?;
    }
    Ok(())
}
