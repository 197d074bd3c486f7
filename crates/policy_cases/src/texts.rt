//! Texts: whether they are read, how they are grouped, and their canonical text.

use crate::words::{first_word, no_policy};
use bumpalo::Bump;
use net_types::{Memory, PortNo, Span};
use policy_syntax::{Node, SyntaxFault, Target, Tree, parse, print};
use std::alloc::Global;

fn fault(alloc: Global, fault: SyntaxFault) -> Result<String, Memory> {
    match fault {
        SyntaxFault::TextLong => Ok(String::from_str(alloc, "too long")?),
        SyntaxFault::Syntax { at } => Ok(format!(in alloc; "wrong at {at}")?),
        SyntaxFault::TooDeep { at } => Ok(format!(in alloc; "too deep at {at}")?),
        SyntaxFault::Memory => Err(Memory),
    }
}

/// Whether a text is read.
pub fn read(alloc: Global, text: &str) -> Result<String, Memory> {
    let arena = Bump::new(alloc);
    match parse(alloc, &arena, text) {
        Ok(_) => Ok(String::from_str(alloc, "read")?),
        Err(why) => fault(alloc, why),
    }
}

/// `COUNT TEXT`: whether a text behind so many spaces is read.
pub fn spaces(alloc: Global, text: &str) -> Result<String, Memory> {
    let (count, text) = first_word(text);
    let count: u32 = count.parse().unwrap_or(0);
    let mut all = String::new(alloc);
    for _ in 0..count {
        all.push(' ')?;
    }
    all.push_str(text)?;
    read(alloc, all.as_str())
}

/// The canonical text of a text.
pub fn printed(alloc: Global, text: &str) -> Result<String, Memory> {
    let arena = Bump::new(alloc);
    match parse(alloc, &arena, text) {
        Ok(tree) => print(alloc, &tree),
        Err(_) => no_policy(alloc),
    }
}

/// Who or what is sent to, and the octets that say so.
fn forward(alloc: Global, target: Target<'_>, span: Span) -> Result<String, Memory> {
    let Span { start, end } = span;
    match target {
        Target::Name(name) => Ok(format!(in alloc; "fwd {name} {start} to {end}")?),
        Target::Number(PortNo(port)) => Ok(format!(in alloc; "fwd {port} {start} to {end}")?),
    }
}

/// Each sum and each chain with its parts.
fn grouping(alloc: Global, tree: &Tree<'_>) -> Result<String, Memory> {
    match tree.node() {
        Node::Drop => Ok(String::from_str(alloc, "drop")?),
        Node::Pass => Ok(String::from_str(alloc, "pass")?),
        Node::Block => Ok(String::from_str(alloc, "block")?),
        Node::Test(_) => Ok(String::from_str(alloc, "match")?),
        Node::Set(_, _) => Ok(String::from_str(alloc, "modify")?),
        Node::Fwd(target, span) => forward(alloc, target, span),
        Node::Both(first, second) => {
            let (first, second) = (grouping(alloc, first)?, grouping(alloc, second)?);
            Ok(format!(in alloc; "sum({first}, {second})")?)
        }
        Node::Then(first, second) => {
            let (first, second) = (grouping(alloc, first)?, grouping(alloc, second)?);
            Ok(format!(in alloc; "chain({first}, {second})")?)
        }
    }
}

/// How a text is grouped.
pub fn grouped(alloc: Global, text: &str) -> Result<String, Memory> {
    let arena = Bump::new(alloc);
    match parse(alloc, &arena, text) {
        Ok(tree) => grouping(alloc, &tree),
        Err(_) => no_policy(alloc),
    }
}
