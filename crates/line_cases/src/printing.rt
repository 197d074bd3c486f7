//! Events as texts.

use crate::octets::{push_escaped, push_hex};
use events::Event;
use net_types::{Ip, Mac, Memory, Name, PortNo, Text};

fn push_address(text: &mut String, ip: Ip) -> Result<(), Memory> {
    let [a, b, c, d] = ip.0.to_be_bytes();
    write!(text, " {a}.{b}.{c}.{d}")?;
    Ok(())
}

fn push_mac(text: &mut String, mac: Mac) -> Result<(), Memory> {
    let [a, b, c, d, e, f] = mac.0;
    write!(text, " {a:02x}:{b:02x}:{c:02x}:{d:02x}:{e:02x}:{f:02x}")?;
    Ok(())
}

/// A word with the name behind it.
fn push_named(text: &mut String, word: &str, name: &Name) -> Result<(), Memory> {
    write!(text, "{word} ")?;
    push_escaped(text, name.items())
}

/// A word with a name and a text in quotes.
fn push_quoted(text: &mut String, word: &str, name: &Name, quoted: &Text) -> Result<(), Memory> {
    push_named(text, word, name)?;
    text.push_str(" \"")?;
    push_escaped(text, quoted.items())?;
    text.push_str("\"")?;
    Ok(())
}

/// A word with a port and octets.
fn push_octets(text: &mut String, word: &str, port: PortNo, octets: &[u8]) -> Result<(), Memory> {
    let port = port.0;
    write!(text, "{word} {port} ")?;
    push_hex(text, octets)
}

fn push_port(text: &mut String, number: PortNo, ip: Ip, mac: Mac) -> Result<(), Memory> {
    let number = number.0;
    write!(text, " {number}")?;
    push_address(text, ip)?;
    push_mac(text, mac)
}

/// An event that declares.
fn push_declared(text: &mut String, event: &Event) -> Result<(), Memory> {
    match event {
        Event::Exchange {
            base,
            size,
            capacity,
        } => {
            text.push_str("exchange")?;
            push_address(text, *base)?;
            write!(text, " {size} {capacity}")?;
            Ok(())
        }
        Event::Participant { name, asn, id } => {
            push_named(text, "participant", name)?;
            write!(text, " {asn}")?;
            push_address(text, *id)
        }
        Event::Port {
            name,
            number,
            ip,
            mac,
        } => {
            push_named(text, "port", name)?;
            push_port(text, *number, *ip, *mac)
        }
        _ => push_bare(text, event),
    }
}

/// An event of a number or none.
fn push_bare(text: &mut String, event: &Event) -> Result<(), Memory> {
    match event {
        Event::Bad => text.push_str("refused")?,
        Event::Resolve { port: PortNo(port) } => write!(text, "resolve {port}")?,
        Event::Recompile => text.push_str("recompile")?,
        Event::Work { units } => write!(text, "work {units}")?,
        _ => text.push_str("table")?,
    }
    Ok(())
}

/// An event of one participant.
fn push_of_participant(text: &mut String, event: &Event) -> Result<(), Memory> {
    match event {
        Event::Update { name, bytes } => {
            push_named(text, "update", name)?;
            text.push_str(" ")?;
            push_hex(text, bytes.items())
        }
        Event::Down { name } => push_named(text, "down", name),
        Event::Drain { name } => push_named(text, "drain", name),
        Event::Export { name, text: rules } => push_quoted(text, "export", name, rules),
        Event::Outbound { name, text: policy } => push_quoted(text, "out", name, policy),
        Event::Inbound { name, text: policy } => push_quoted(text, "in", name, policy),
        Event::Take { name, count } => {
            push_named(text, "take", name)?;
            write!(text, " {count}")?;
            Ok(())
        }
        _ => push_declared(text, event),
    }
}

/// What a line is read as; a line that is skipped is no event.
pub fn push_event(text: &mut String, event: &Option<Event>) -> Result<(), Memory> {
    match event {
        None => {
            text.push_str("skipped")?;
            Ok(())
        }
        Some(Event::Arp { port, bytes }) => push_octets(text, "arp", *port, bytes.items()),
        Some(Event::Packet { port, bytes }) => push_octets(text, "packet", *port, bytes.items()),
        Some(Event::Frame { port, bytes }) => push_octets(text, "frame", *port, bytes.items()),
        Some(event) => push_of_participant(text, event),
    }
}
