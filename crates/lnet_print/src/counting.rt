//! How many gates a network has.

ghost use Rattle.std.specs.Prelude.{◌≡◌};
ghost use Rattle.lnet_model.specs.Networks.{gate_count};

use lnet_gates::{Gates, Node};
use lnet_network::Network;

/// How many gates there are. Linear in the numbers.
pub fn gate_count<G: Gates>(net: &Network<G>) -> u32
    ensures { result ≡ gate_count net.now.core.network }
{
    let mut count = 0;
    for n in 0..net.numbers() {
        if net.gate_of(Node(n)).is_some() {
            count += 1;
        }
    }
    count
}
