//! Times calls of the library: `lnet_timing CALLS` makes each call so many times, and prints the nanoseconds of each.
#![tactic(auto)]

mod covers;
mod gates;
mod report;
mod tables;

use std::{env, io};

fn main(rt: HostRuntime) -> io::Result<()> {
    let words = env::args(&rt)?.collect::<Vec<String>>(rt.alloc())?;
    let calls = match words.as_slice() {
        [_, calls] => calls.as_str().parse::<u32>().ok(),
        _ => None,
    };
    match calls {
        Some(calls) => {
            tables::time_all(&rt, calls)?;
            gates::time_all(&rt, calls)?;
            covers::time_all(&rt, rt.alloc(), calls)
        }
        None => println!(rt; "usage: lnet_timing CALLS"),
    }
}
