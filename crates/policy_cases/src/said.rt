//! Places, assignments and packets as an answer says them.

use net_types::{Assign, Headers, Ip, Loc, Memory, Pid, PortNo};
use std::alloc::Global;

/// Where a packet is going.
pub fn loc_text(alloc: Global, loc: Loc) -> Result<String, Memory> {
    match loc {
        Loc::Stay => Ok(String::from_str(alloc, "stay")?),
        Loc::Nowhere => Ok(String::from_str(alloc, "nowhere")?),
        Loc::To(Pid(who)) => Ok(format!(in alloc; "to {who}")?),
        Loc::Out(PortNo(port)) => Ok(format!(in alloc; "out {port}")?),
    }
}

fn push_set_ip(text: &mut String, field: &str, ip: Option<Ip>) -> Result<(), Memory> {
    if let Some(ip) = ip {
        let [a, b, c, d] = ip.0.to_be_bytes();
        write!(text, "{field}={a}.{b}.{c}.{d} ")?;
    }
    Ok(())
}

fn push_set_port(text: &mut String, field: &str, port: Option<u16>) -> Result<(), Memory> {
    if let Some(port) = port {
        write!(text, "{field}={port} ")?;
    }
    Ok(())
}

/// The fields that are assigned, with a space behind each.
pub fn push_assign(text: &mut String, set: &Assign) -> Result<(), Memory> {
    push_set_ip(text, "srcip", set.src)?;
    push_set_ip(text, "dstip", set.dst)?;
    push_set_port(text, "srcport", set.sport)?;
    push_set_port(text, "dstport", set.dport)
}

fn port_text(alloc: Global, port: Option<u16>) -> Result<String, Memory> {
    match port {
        Some(port) => Ok(format!(in alloc; "{port}")?),
        None => Ok(String::from_str(alloc, "-")?),
    }
}

/// A packet: the port that it came in by, its addresses, protocol and ports, and where it is going.
pub fn packet_text(alloc: Global, headers: &Headers, loc: Loc) -> Result<String, Memory> {
    let Headers {
        src,
        dst,
        proto,
        ..
    } = *headers;
    let (inport, [a, b, c, d]) = (headers.inport.0, src.0.to_be_bytes());
    let [e, f, g, h] = dst.0.to_be_bytes();
    let sport = port_text(alloc, headers.sport)?;
    let dport = port_text(alloc, headers.dport)?;
    let to = loc_text(alloc, loc)?;
    Ok(format!(in alloc; "{inport} {a}.{b}.{c}.{d} {e}.{f}.{g}.{h} {proto} {sport} {dport} {to}")?)
}
