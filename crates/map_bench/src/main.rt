//! Makes room for as many prefixes in a map as the first argument says, puts as many into it as the second one says, looks up as
//! many addresses as the third one says, and tells how many there are and how many were found, so that bench/run can tell how
//! long each takes.
#![tactic(auto)]

use net_types::{Ip, Memory, Prefix};
use prefix_map::PrefixMap;
use std::alloc::Global;
use std::mem::ManuallyDrop;
use std::{env, io};

/// Addresses in no order.
#[derive(Drop)]
struct Addresses {
    last: u32,
}

impl Addresses {
    fn next(&mut self) -> Ip {
        self.last = self.last.wrapping_mul(1664525).wrapping_add(1013904223);
        Ip(self.last)
    }
}

/// The arguments: for how many prefixes there is room, how many there are, and how many addresses.
fn counts(rt: &HostRuntime) -> (u32, u32, u32) {
    let Ok(args) = env::args(rt) else {
        return (0, 0, 0);
    };
    let mut words = args.skip(1);
    let room = number(words.next());
    let prefixes = number(words.next());
    let addresses = number(words.next());
    (room, prefixes, addresses)
}

fn number(word: Option<String>) -> u32 {
    match word {
        None => 0,
        Some(word) => word.as_str().parse().unwrap_or(0),
    }
}

/// A map with room for so many prefixes, and then with so many of 20 to 31 bits.
fn filled(alloc: Global, room: u32, count: u32) -> Result<PrefixMap<u32>, Memory> {
    let mut addresses = Addresses { last: 1 };
    let mut map = PrefixMap::new(alloc);
    map.reserve(room as usize)?;
    for number in 0..count {
        let ip = addresses.next();
        if let Ok(prefix) = Prefix::new(ip, 20 + (number % 12) as u8) {
            map.insert(prefix, number)?;
        }
    }
    Ok(map)
}

/// How many of so many addresses are covered.
fn found(map: &PrefixMap<u32>, count: u32) -> u32 {
    let mut addresses = Addresses { last: 1 };
    let mut found = 0u32;
    for _ in 0..count {
        if map.longest(addresses.next()).is_some() {
            found = found.saturating_add(1);
        }
    }
    found
}

fn main(rt: HostRuntime) -> io::Result<()> {
    let (room, prefixes, addresses) = counts(&rt);
    match filled(rt.alloc(), room, prefixes) {
        Err(Memory) => println!(rt; "no memory"),
        Ok(map) => {
            let held = map.len();
            let found = found(&map, addresses);
            // The process ends, and the system takes the map's memory back at once.
            let _left = ManuallyDrop::new(map);
            println!(rt; "{held} prefixes, {found} of {addresses} addresses found")
        }
    }
}
