//! What replies begin with.

use crate::words::{first_word, numbers, small, some_address};
use events::{Head, Refusal};
use net_types::{Fault, Ip, Kind, Memory};
use std::alloc::Global;

fn fault(word: &str) -> Fault {
    match word {
        "type" => Fault::NotUpdate,
        "header" => Fault::BadHeader,
        "lengths" => Fault::Malformed,
        "unknown" => Fault::UnknownWellKnown,
        "missing" => Fault::MissingWellKnown,
        "flags" => Fault::Flags,
        "length" => Fault::Length,
        "origin" => Fault::Origin,
        "next-hop" => Fault::NextHopSyntax,
        "network" => Fault::Network,
        _ => Fault::AsPath,
    }
}

fn kind(word: &str) -> Kind {
    match word {
        "unknown" => Kind::UnknownName,
        "own" => Kind::OwnName,
        "kind" => Kind::FwdKind,
        "port" => Kind::ForeignPort,
        "modify" => Kind::ModifyOutbound,
        _ => Kind::InportInbound,
    }
}

/// Refusals that say nothing more.
fn plain(word: &str) -> Refusal {
    match word {
        "place" => Refusal::Misplaced,
        "name" => Refusal::Unknown,
        "taken" => Refusal::Clash,
        "full" => Refusal::Full,
        "long" => Refusal::TextLong,
        "wide" => Refusal::TooWide,
        "as" => Refusal::FirstAs,
        "hop" => Refusal::NextHop,
        "size" => Refusal::Oversize,
        "datagram" => Refusal::BadPacket,
        _ => Refusal::BadLine,
    }
}

/// Refusals with two numbers.
fn counted(word: &str, first: u64, second: u64) -> Refusal {
    match word {
        "wrong" => Refusal::Syntax { at: small(first) },
        "deep" => Refusal::TooDeep { at: small(first) },
        "tags" => Refusal::NoNextHop {
            need: first,
            free: small(second),
        },
        _ => Refusal::TableFull {
            rules: first as usize,
            capacity: second as usize,
        },
    }
}

fn isolation(word: &str, first: u64, second: u64) -> Refusal {
    Refusal::Isolate {
        kind: kind(word),
        start: small(first),
        end: small(second),
    }
}

/// `refused WORD`, `refused update WORD`, `refused policy WORD FIRST END` or `refused WORD N N`.
fn refusal(alloc: Global, text: &str) -> Result<Refusal, Memory> {
    let (word, rest) = first_word(text);
    if word == "update" {
        return Ok(Refusal::BadUpdate(fault(rest)));
    }
    if word == "policy" {
        let (word, rest) = first_word(rest);
        return match numbers(alloc, rest)?.as_slice() {
            [first, second] => Ok(isolation(word, *first, *second)),
            _ => Ok(Refusal::BadLine),
        };
    }
    match numbers(alloc, rest)?.as_slice() {
        [first, second] => Ok(counted(word, *first, *second)),
        _ => Ok(plain(word)),
    }
}

/// What a reply begins with.
pub fn head(alloc: Global, text: &str) -> Result<Head, Memory> {
    let (word, rest) = first_word(text);
    match word {
        "working" => Ok(Head::Working(rest.parse().unwrap_or(0))),
        "finished" => Ok(Head::Finished),
        "unrouted" => Ok(Head::Unrouted),
        "unresolved" => Ok(Head::Unresolved(some_address(alloc, rest)?.unwrap_or(Ip(0)))),
        "silent" => Ok(Head::Silent),
        "refused" => Ok(Head::Refused(refusal(alloc, rest)?)),
        _ => Ok(Head::Fine),
    }
}
