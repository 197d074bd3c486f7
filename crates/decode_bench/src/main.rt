//! Decodes the message on standard input as often as the argument says, so that bench/run can tell how long one takes.
#![tactic(auto)]

use bgp_update::decode;
use std::io::Read;
use std::{env, io};

/// The argument, or none.
fn times(rt: &HostRuntime) -> u32 {
    let Ok(args) = env::args(rt) else {
        return 0;
    };
    match args.skip(1).next() {
        None => 0,
        Some(word) => word.as_str().parse().unwrap_or(0),
    }
}

fn main(rt: HostRuntime) -> io::Result<()> {
    let mut bytes = Vec::new(rt.alloc());
    rt.stdin().read_to_end(&mut bytes)?;
    let mut read = 0u32;
    for _ in 0..times(&rt) {
        if decode(rt.alloc(), bytes.as_slice()).is_ok() {
            read = read.saturating_add(1);
        }
    }
    println!(rt; "{read} decoded")
}
