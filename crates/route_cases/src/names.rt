//! Questions to the registry.

use crate::words::{address, first_word, no_question, numbers, octet, yes_or_no};
use net_types::{Ip, Mac, Memory, Pid, PortNo};
use registry::{RegFault, Registry};
use std::alloc::Global;

/// The hardware address that ends in this octet.
fn mac(last: u32) -> Mac {
    Mac([2, 0, 0, 0, 0, octet(last)])
}

fn port_number(number: u32) -> PortNo {
    PortNo((number % 65536) as u16)
}

fn fault(alloc: Global, fault: RegFault) -> Result<String, Memory> {
    match fault {
        RegFault::Taken => Ok(String::from_str(alloc, "taken")?),
        RegFault::Full => Ok(String::from_str(alloc, "full")?),
        RegFault::Memory => Err(Memory),
    }
}

/// A participant by its place, or none.
pub fn found(alloc: Global, who: Option<Pid>) -> Result<String, Memory> {
    match who {
        Some(Pid(place)) => Ok(format!(in alloc; "{place}")?),
        None => Ok(String::from_str(alloc, "none")?),
    }
}

fn added(alloc: Global, answer: Result<Pid, RegFault>) -> Result<String, Memory> {
    match answer {
        Ok(who) => found(alloc, Some(who)),
        Err(why) => fault(alloc, why),
    }
}

/// `NAME AS ID` is declared.
pub fn participant(alloc: Global, names: &mut Registry, text: &str) -> Result<String, Memory> {
    let (name, rest) = first_word(text);
    match numbers(alloc, rest)?.as_slice() {
        [asn, a, b, c, d] => {
            let id = address(*a, *b, *c, *d);
            added(alloc, names.add_participant(name, *asn, id))
        }
        _ => no_question(alloc),
    }
}

/// A participant whose name is this octet is declared.
pub fn octets(alloc: Global, names: &mut Registry, text: &str) -> Result<String, Memory> {
    match numbers(alloc, text)?.as_slice() {
        [name] => added(alloc, names.add_octets(&[octet(*name)], 65001, Ip(1))),
        _ => no_question(alloc),
    }
}

fn declared(
    alloc: Global,
    names: &mut Registry,
    owner: u32,
    number: u32,
    ip: Ip,
    last: u32,
) -> Result<String, Memory> {
    if owner as usize >= names.participants().len() {
        return no_question(alloc);
    }
    match names.add_port(Pid(owner), port_number(number), ip, mac(last)) {
        Ok(()) => Ok(String::from_str(alloc, "declared")?),
        Err(why) => fault(alloc, why),
    }
}

/// A port: its owner, number, address, and the last octet of its hardware address.
pub fn port(alloc: Global, names: &mut Registry, text: &str) -> Result<String, Memory> {
    match numbers(alloc, text)?.as_slice() {
        [owner, number, a, b, c, d, last] => {
            declared(
                alloc,
                names,
                *owner,
                *number,
                address(*a, *b, *c, *d),
                *last,
            )
        }
        _ => no_question(alloc),
    }
}

/// Whether a number, an address or a hardware address is taken.
pub fn taken(alloc: Global, names: &Registry, text: &str) -> Result<String, Memory> {
    match numbers(alloc, text)?.as_slice() {
        [number, a, b, c, d, last] => {
            let ip = address(*a, *b, *c, *d);
            yes_or_no(alloc, names.is_taken(port_number(*number), ip, mac(*last)))
        }
        _ => no_question(alloc),
    }
}

/// Whether a participant has a port of this address.
pub fn owns(alloc: Global, names: &Registry, text: &str) -> Result<String, Memory> {
    match numbers(alloc, text)?.as_slice() {
        [who, a, b, c, d] => {
            yes_or_no(alloc, names.has_address(Pid(*who), address(*a, *b, *c, *d)))
        }
        _ => no_question(alloc),
    }
}

/// The numbers of a participant's ports.
pub fn ports(alloc: Global, names: &Registry, text: &str) -> Result<String, Memory> {
    let mut told = String::new(alloc);
    for number in names.ports_of(Pid(text.parse().unwrap_or(0))) {
        let number = number.0;
        write!(told, "[{number}]")?;
    }
    Ok(told)
}

/// How many participants there are, and each port: owner, number, address, and hardware address.
pub fn list(alloc: Global, names: &Registry) -> Result<String, Memory> {
    let count = names.participants().len();
    let mut told = format!(in alloc; "{count} participants")?;
    for port in names.ports() {
        let (owner, number) = (port.owner.0, port.number.0);
        let [a, b, c, d] = port.ip.0.to_be_bytes();
        let [first, .., last] = port.mac.0;
        write!(told, "; {owner} {number} {a}.{b}.{c}.{d} {first}..{last}")?;
    }
    Ok(told)
}
