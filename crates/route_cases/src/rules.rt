//! Export rules: whether a text is read, and what its rules allow.

use crate::words::{address, no_question, numbers, octet, yes_or_no};
use export_rules::{BindFault, Bound, RulesFault, parse_rules};
use net_types::{Ip, Memory, Pid, Prefix};
use registry::Registry;
use std::alloc::Global;

fn fault(alloc: Global, fault: RulesFault) -> Result<String, Memory> {
    match fault {
        RulesFault::TextLong => Ok(String::from_str(alloc, "too long")?),
        RulesFault::Syntax { at } => Ok(format!(in alloc; "wrong at {at}")?),
        RulesFault::Memory => Err(Memory),
    }
}

/// Whether a text is read.
pub fn read(alloc: Global, text: &str) -> Result<String, Memory> {
    match parse_rules(alloc, text) {
        Ok(_) => Ok(String::from_str(alloc, "read")?),
        Err(why) => fault(alloc, why),
    }
}

/// The rules of a text; none where it isn't read or a name isn't declared.
fn bind(alloc: Global, names: &Registry, text: &str) -> Result<Option<Bound>, Memory> {
    let Ok(rules) = parse_rules(alloc, text) else {
        return Ok(None);
    };
    match rules.bind(names) {
        Ok(bound) => Ok(Some(bound)),
        Err(BindFault::UnknownName) => Ok(None),
        Err(BindFault::Memory) => Err(Memory),
    }
}

/// Whether all names in rules are declared.
pub fn bound(alloc: Global, names: &Registry, text: &str) -> Result<String, Memory> {
    yes_or_no(alloc, bind(alloc, names, text)?.is_some())
}

fn allowed_by(alloc: Global, rules: &Bound, who: u32, ip: Ip, len: u32) -> Result<String, Memory> {
    match Prefix::new(ip, octet(len)) {
        Ok(prefix) => yes_or_no(alloc, rules.allows(Pid(who), prefix)),
        Err(_) => no_question(alloc),
    }
}

/// `WHO A.B.C.D LENGTH: RULES`: whether the prefix is given to the participant.
pub fn allowed(alloc: Global, names: &Registry, text: &str) -> Result<String, Memory> {
    let (asked, text) = text.split_once(": ").unwrap_or((text, ""));
    let Some(rules) = bind(alloc, names, text)? else {
        return no_question(alloc);
    };
    match numbers(alloc, asked)?.as_slice() {
        [who, a, b, c, d, len] => {
            let ip = address(*a, *b, *c, *d);
            allowed_by(alloc, &rules, *who, ip, *len)
        }
        _ => no_question(alloc),
    }
}
