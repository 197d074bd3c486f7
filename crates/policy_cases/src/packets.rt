//! What compiled policies make of packets.

use crate::classifiers::decided;
use crate::declared::Declared;
use crate::said::packet_text;
use crate::words::{first_word, no_policy, port};
use bumpalo::Bump;
use classifier::Classifier;
use net_types::{Headers, Ip, Memory, PortNo};
use policy_compile::compile;
use policy_syntax::{SyntaxFault, parse};
use std::alloc::Global;

/// What comes in by port 1 from OCTET.0.0.1 to OCTET.1.0.1, of the protocol of that number.
fn sent(octet: u8, sport: Option<u16>, dport: Option<u16>) -> Headers {
    Headers {
        inport: PortNo(1),
        src: Ip(u32::from_be_bytes([octet, 0, 0, 1])),
        dst: Ip(u32::from_be_bytes([octet, 1, 0, 1])),
        proto: octet,
        sport,
        dport,
    }
}

/// `OCTET PORT PORT TEXT`: a packet, where what is no number is no port, and a policy.
fn asked(text: &str) -> (Headers, &str) {
    let (octet, rest) = first_word(text);
    let (sport, rest) = first_word(rest);
    let (dport, rest) = first_word(rest);
    let headers = sent(octet.parse().unwrap_or(0), port(sport), port(dport));
    (headers, rest)
}

fn compiled(alloc: Global, text: &str) -> Result<Option<Classifier>, Memory> {
    let arena = Bump::new(alloc);
    match parse(alloc, &arena, text) {
        Ok(tree) => Ok(Some(compile(alloc, &tree, &Declared)?)),
        Err(SyntaxFault::Memory) => Err(Memory),
        Err(_) => Ok(None),
    }
}

/// What the policy makes of the packet, result by result; none where the text is no policy.
fn made(alloc: Global, text: &str) -> Result<Option<Vec<String>>, Memory> {
    let (headers, text) = asked(text);
    let Some(rules) = compiled(alloc, text)? else {
        return Ok(None);
    };
    let mut parts = Vec::new(alloc);
    for (set, loc) in decided(&rules, &headers).unwrap_or(&[]) {
        parts.push(packet_text(alloc, &set.apply(&headers), *loc)?)?;
    }
    Ok(Some(parts))
}

/// The packets between semicolons.
fn told(alloc: Global, parts: &[String]) -> Result<String, Memory> {
    let Some((first, others)) = parts.split_first() else {
        return Ok(String::from_str(alloc, "nothing")?);
    };
    let mut told = first.clone()?;
    for other in others {
        write!(told, "; {other}")?;
    }
    Ok(told)
}

/// What the policy makes of the packet, result by result.
pub fn results(alloc: Global, text: &str) -> Result<String, Memory> {
    match made(alloc, text)? {
        Some(parts) => told(alloc, &parts),
        None => no_policy(alloc),
    }
}

/// The set of packets that the policy makes of the packet, in the order of their texts.
pub fn packets(alloc: Global, text: &str) -> Result<String, Memory> {
    match made(alloc, text)? {
        Some(mut parts) => {
            parts.sort_unstable();
            parts.dedup();
            told(alloc, &parts)
        }
        None => no_policy(alloc),
    }
}
