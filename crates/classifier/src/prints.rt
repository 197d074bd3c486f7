//! Numbers that tell results, and lists of them, apart. Nothing rests on them but how soon those that differ are seen to.

use net_types::{Assign, Ip, Loc};

// odd numbers without a pattern, one for each value of a pair, and one for its place in the list
const PLACE: u64 = 0xD6E8_FEB8_6659_FD93;

const SRC: u64 = 0x9E37_79B9_7F4A_7C15;

const DST: u64 = 0xBF58_476D_1CE4_E5B9;

const SPORT: u64 = 0x94D0_49BB_1331_11EB;

const DPORT: u64 = 0xC2B2_AE3D_27D4_EB4F;

const LOC: u64 = 0x85EB_CA77_C2B2_AE63;

fn address(address: Option<Ip>) -> u64 {
    match address {
        Some(ip) => ip.0 as u64,
        None => u64::MAX,
    }
}

fn port(port: Option<u16>) -> u64 {
    match port {
        Some(port) => port as u64,
        None => u64::MAX,
    }
}

fn place(loc: Loc) -> u64 {
    match loc {
        Loc::Stay => 0,
        Loc::To(who) => (who.0 as u64).wrapping_mul(2),
        Loc::Out(port) => !(port.0 as u64),
        Loc::Nowhere => 1,
    }
}

/// A number by which most pairs differ. Nothing rests on it but how soon two that differ are told apart.
pub fn print_of_pair(pair: &(Assign, Loc)) -> u64 {
    let set = &pair.0;
    let addresses = address(set.src)
        .wrapping_mul(SRC)
        .wrapping_add(address(set.dst).wrapping_mul(DST));
    let ports = port(set.sport)
        .wrapping_mul(SPORT)
        .wrapping_add(port(set.dport).wrapping_mul(DPORT));
    addresses
        .wrapping_add(ports)
        .wrapping_add(place(pair.1).wrapping_mul(LOC))
}

/// A number by which most lists of pairs differ.
pub(crate) fn print_of(pairs: &[(Assign, Loc)]) -> u64 {
    let mut print = 0u64;
    for pair in pairs {
        print = print.wrapping_mul(PLACE).wrapping_add(print_of_pair(pair));
    }
    print
}
