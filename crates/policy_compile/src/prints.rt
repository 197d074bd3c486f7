//! Numbers that tell cubes apart. Nothing rests on them but how soon an answer is found.

use net_types::{Cube, PortNo, Prefix};

// odd numbers without a pattern, one for each field of a cube
const SRC: u64 = 0x9E37_79B9_7F4A_7C15;

const DST: u64 = 0xBF58_476D_1CE4_E5B9;

const SPORT: u64 = 0x94D0_49BB_1331_11EB;

const DPORT: u64 = 0xC2B2_AE3D_27D4_EB4F;

const INPORT: u64 = 0x85EB_CA77_C2B2_AE63;

const PROTO: u64 = 0xD6E8_FEB8_6659_FD93;

fn port(port: Option<u16>) -> u64 {
    match port {
        Some(port) => port as u64,
        None => u64::MAX,
    }
}

fn inport(port: Option<PortNo>) -> u64 {
    match port {
        Some(port) => port.0 as u64,
        None => u64::MAX,
    }
}

fn protocol(number: Option<u8>) -> u64 {
    match number {
        Some(number) => number as u64,
        None => u64::MAX,
    }
}

fn prefix(prefix: Prefix) -> u64 {
    (prefix.address.0 as u64)
        .wrapping_mul(64)
        .wrapping_add(prefix.len as u64)
}

/// The number of a cube.
pub fn print_of_cube(cube: &Cube) -> u64 {
    let addresses = prefix(cube.src)
        .wrapping_mul(SRC)
        .wrapping_add(prefix(cube.dst).wrapping_mul(DST));
    let ports = port(cube.sport)
        .wrapping_mul(SPORT)
        .wrapping_add(port(cube.dport).wrapping_mul(DPORT));
    let others = inport(cube.inport)
        .wrapping_mul(INPORT)
        .wrapping_add(protocol(cube.proto).wrapping_mul(PROTO));
    addresses.wrapping_add(ports).wrapping_add(others)
}
