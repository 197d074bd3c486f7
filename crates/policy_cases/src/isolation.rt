//! Policies that keep or break isolation, and whom they name.

use crate::declared::Declared;
use crate::words::no_policy;
use bumpalo::Bump;
use net_types::{Memory, Pid};
use policy_isolate::{IsolateFault, Kind, check_in, check_out, named};
use policy_syntax::parse;
use std::alloc::Global;

fn kind_word(kind: Kind) -> &'static str {
    match kind {
        Kind::UnknownName => "unknown-name",
        Kind::OwnName => "own-name",
        Kind::FwdKind => "fwd-kind",
        Kind::ForeignPort => "foreign-port",
        Kind::ModifyOutbound => "modify-outbound",
        Kind::InportInbound => "inport-inbound",
    }
}

/// The first part that breaks isolation, from its first octet up to its end, or none.
fn told(alloc: Global, checked: Result<(), IsolateFault>) -> Result<String, Memory> {
    match checked {
        Ok(()) => Ok(String::from_str(alloc, "kept")?),
        Err(IsolateFault { kind, span }) => {
            let (word, start, end) = (kind_word(kind), span.start, span.end);
            Ok(format!(in alloc; "{word} {start} to {end}")?)
        }
    }
}

/// Whether A may have the policy as its outbound one.
pub fn outbound(alloc: Global, text: &str) -> Result<String, Memory> {
    let arena = Bump::new(alloc);
    match parse(alloc, &arena, text) {
        Ok(tree) => told(alloc, check_out(&tree, &Declared, Pid(0))),
        Err(_) => no_policy(alloc),
    }
}

/// Whether B may have the policy as its inbound one.
pub fn inbound(alloc: Global, text: &str) -> Result<String, Memory> {
    let arena = Bump::new(alloc);
    match parse(alloc, &arena, text) {
        Ok(tree) => told(alloc, check_in(&tree, &Declared, Pid(1))),
        Err(_) => no_policy(alloc),
    }
}

/// Participants by their numbers.
fn numbers(alloc: Global, pids: &[Pid]) -> Result<String, Memory> {
    let mut text = String::from_str(alloc, "named")?;
    for pid in pids {
        let number = pid.0;
        write!(text, " {number}")?;
    }
    Ok(text)
}

/// Whom an outbound policy names.
pub fn names(alloc: Global, text: &str) -> Result<String, Memory> {
    let arena = Bump::new(alloc);
    match parse(alloc, &arena, text) {
        Ok(tree) => {
            let pids = named(alloc, &tree, &Declared)?;
            numbers(alloc, pids.items())
        }
        Err(_) => no_policy(alloc),
    }
}
