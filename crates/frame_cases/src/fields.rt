//! The fields of what a message says, and whether its copy has the same.

use crate::octets::{digits, octets};
use crate::updates::fault;
use crate::words::{push_address, push_prefixes};
use bgp_update::decode;
use net_types::{Attrs, Memory, Segment, TryCopy, Unknown, Update, same_optional};
use std::alloc::Global;

fn push_segment(text: &mut String, segment: &Segment) -> Result<(), Memory> {
    let (name, asns) = match segment {
        Segment::Set(asns) => (" set", asns),
        Segment::Sequence(asns) => (" sequence", asns),
    };
    text.push_str(name)?;
    for asn in asns.items() {
        write!(text, " {asn}")?;
    }
    Ok(())
}

fn push_path(text: &mut String, path: &[Segment]) -> Result<(), Memory> {
    for segment in path {
        push_segment(text, segment)?;
    }
    Ok(())
}

/// Puts each unknown attribute behind a text: its type, and its octets.
fn push_unknown(alloc: Global, text: &mut String, unknown: &[Unknown]) -> Result<(), Memory> {
    for attribute in unknown {
        let kind = attribute.kind;
        let value = digits(alloc, attribute.value.items())?;
        write!(text, " {kind}/{value}")?;
    }
    Ok(())
}

fn push_attrs(alloc: Global, text: &mut String, attrs: &Attrs) -> Result<(), Memory> {
    let origin = attrs.origin;
    write!(text, "; origin {origin}; path:")?;
    push_path(text, attrs.path.items())?;
    text.push_str("; next hop ")?;
    push_address(text, attrs.next_hop)?;
    text.push_str("; unknown:")?;
    push_unknown(alloc, text, attrs.unknown.items())
}

fn are_same(one: &Update, other: &Update) -> bool {
    let attrs = same_optional(one.attrs.as_ref(), other.attrs.as_ref());
    let withdrawn = one.withdrawn.items() == other.withdrawn.items();
    attrs && withdrawn && one.announced.items() == other.announced.items()
}

fn shown(alloc: Global, update: &Update) -> Result<String, Memory> {
    let mut text = String::from_str(alloc, "announced:")?;
    push_prefixes(&mut text, update.announced.items())?;
    if let Some(attrs) = &update.attrs {
        push_attrs(alloc, &mut text, attrs)?;
    }
    if are_same(update, &update.copy()?) {
        text.push_str("; copied")?;
    }
    Ok(text)
}

/// What a message announces, and `copied` where a copy of all that it says is equal; or the word of its fault.
pub fn answer(alloc: Global, text: &str) -> Result<String, Memory> {
    match decode(alloc, octets(alloc, text)?.as_slice()) {
        Ok(update) => shown(alloc, &update),
        Err(why) => fault(alloc, why),
    }
}
