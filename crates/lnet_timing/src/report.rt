//! The line that is printed for a call.

use std::io;
use std::time::Duration;

/// Prints the nanoseconds of each of so many calls, to a tenth, and what came out of them.
pub fn report(rt: &impl Print, name: &str, calls: u32, time: Duration, sum: u64) -> io::Result<()> {
    let tenths = if calls == 0 {
        0
    } else {
        time.as_nanos() * 10 / u128::from(calls)
    };
    println!(rt; "{name}: {}.{} ns, sum {sum:x}", tenths / 10, tenths % 10)
}
