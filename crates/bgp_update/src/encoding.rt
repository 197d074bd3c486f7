//! Writing the parts of a message: prefixes and attributes.

ghost use Rattle.std.specs.Prelude.{◌≡◌, ◌<◌, ◌++◌, [], ◌∷◌, ◌&&◌, if◌then◌else◌, OnOk, nat_lt, nat_le};
ghost use Rattle.std.specs.List.{flat_map};
ghost use Rattle.net_types.specs.Octets.{address_octets, word};
ghost use Rattle.net_types.specs.AttributeTypes.{type_flags, type_number};
ghost use Rattle.net_types.specs.Updates.{aggregator_octets, atomic_octets, attribute, attrs_octets, communities_octets, long, med_octets, optional_attrs_octets, passed_on, prefix_octets, prefixes_octets, segment_octets, short, wide_octets, wide_segment_octets};
ghost use Rattle.net_types.specs.declared.route.Unknown.{Unknown as Foreign};

use crate::lengths::path_len;
use crate::paths::has_wide;
use net_types::{Aggregator, AttributeType, Attrs, Ip, Memory, Prefix, Segment, Unknown};
use std::alloc::Global;

/// A number in two octets, without its upper part.
pub fn word(n: usize) -> [u8; 2]
    ensures { result ≡ word n }
{
    [(n / 256 % 256) as u8, (n % 256) as u8]
}

/// A number in four octets.
fn long(n: u32) -> [u8; 4]
    ensures number { result ≡ long n }
    ensures address { result ≡ address_octets (record { 0 = n }) }
{
    let first = (n / 16777216) as u8;
    let second = (n / 65536 % 256) as u8;
    let third = (n / 256 % 256) as u8;
    let fourth = (n % 256) as u8;
    [first, second, third, fourth]
}

/// An AS number in two octets: AS_TRANS stands for one that takes more (RFC 6793 9).
fn short(asn: u32) -> [u8; 2]
    ensures { result ≡ short asn }
{
    let told = if asn < 65536 { asn } else { 23456 };
    word(told as usize)
}

fn push_shorts(out: &mut Vec<u8>, asns: &[u32]) -> Result<(), Memory>
    ensures { OnOk result (out.new.items ≡ out.old.items ++ flat_map short asns.now) }
{
    for asn in asns {
        let [high, low] = short(*asn);
        out.reserve(2)?;
        out.push_reserved(high);
        out.push_reserved(low);
    }
    Ok(())
}

fn push_longs(out: &mut Vec<u8>, numbers: &[u32]) -> Result<(), Memory>
    ensures { OnOk result (out.new.items ≡ out.old.items ++ flat_map long numbers.now) }
{
    for number in numbers {
        let [first, second, third, fourth] = long(*number);
        out.reserve(4)?;
        out.push_reserved(first);
        out.push_reserved(second);
        out.push_reserved(third);
        out.push_reserved(fourth);
    }
    Ok(())
}

pub fn push_prefixes(out: &mut Vec<u8>, prefixes: &[Prefix]) -> Result<(), Memory>
    ensures { OnOk result (out.new.items ≡ out.old.items ++ prefixes_octets prefixes.now) }
{
    for prefix in prefixes {
        push_prefix(out, *prefix)?;
    }
    Ok(())
}

/// A length, and the fewest octets that hold so many bits.
pub fn push_prefix(out: &mut Vec<u8>, prefix: Prefix) -> Result<(), Memory>
    ensures { OnOk result (out.new.items ≡ out.old.items ++ prefix_octets prefix) }
{
    let held = (prefix.len as usize + 7) / 8;
    let [first, second, third, fourth] = long(prefix.address.0);
    let octets = [prefix.len, first, second, third, fourth];
    out.extend_from_slice(&octets.as_slice()[..1 + held])?;
    Ok(())
}

fn push_path(out: &mut Vec<u8>, path: &[Segment]) -> Result<(), Memory>
    ensures { OnOk result (out.new.items ≡ out.old.items ++ flat_map segment_octets path.now) }
{
    for segment in path {
        push_segment(out, segment)?;
    }
    Ok(())
}

/// AS_SET is 1, AS_SEQUENCE 2.
fn push_segment(out: &mut Vec<u8>, segment: &Segment) -> Result<(), Memory>
    ensures { OnOk result (out.new.items ≡ out.old.items ++ segment_octets segment.now) }
{
    match segment {
        Segment::Set(asns) => {
            out.push(1)?;
            out.push((asns.len() % 256) as u8)?;
            push_shorts(out, asns.items())
        }
        Segment::Sequence(asns) => {
            out.push(2)?;
            out.push((asns.len() % 256) as u8)?;
            push_shorts(out, asns.items())
        }
    }
}

/// A segment of AS4_PATH.
fn push_wide_segment(out: &mut Vec<u8>, segment: &Segment) -> Result<(), Memory>
    ensures { OnOk result (out.new.items ≡ out.old.items ++ wide_segment_octets segment.now) }
{
    match segment {
        Segment::Set(asns) => {
            out.push(1)?;
            out.push((asns.len() % 256) as u8)?;
            push_longs(out, asns.items())
        }
        Segment::Sequence(asns) => {
            out.push(2)?;
            out.push((asns.len() % 256) as u8)?;
            push_longs(out, asns.items())
        }
    }
}

fn push_wide_path(out: &mut Vec<u8>, path: &[Segment]) -> Result<(), Memory>
    ensures { OnOk result (out.new.items ≡ out.old.items ++ flat_map wide_segment_octets path.now) }
{
    for segment in path {
        push_wide_segment(out, segment)?;
    }
    Ok(())
}

/// What stands in front of a value of at most 255 octets.
fn push_short_head(out: &mut Vec<u8>, flags: u8, number: u8, len: u8) -> Result<(), Memory>
    ensures { OnOk result (out.new.items ≡ out.old.items ++ flags ∷ number ∷ len ∷ []) }
{
    out.reserve(3 + len as usize)?;
    out.push_reserved(flags);
    out.push_reserved(number);
    out.push_reserved(len);
    Ok(())
}

/// An attribute; its length takes two octets, which the flag 0x10 says, only where one doesn't hold it.
fn push_attribute(out: &mut Vec<u8>, flags: u8, number: u8, value: &[u8]) -> Result<(), Memory>
    requires { flags < 240 }
    ensures { OnOk result (out.new.items ≡ out.old.items ++ attribute flags number value.now) }
{
    if value.len() <= 255 {
        push_short_head(out, flags, number, value.len() as u8)?;
    } else {
        let [high, low] = word(value.len());
        out.extend_from_slice([flags + 16, number, high, low].as_slice())?;
    }
    out.extend_from_slice(value)?;
    Ok(())
}

/// An attribute of the table.
fn push_known(out: &mut Vec<u8>, kind: AttributeType, value: &[u8]) -> Result<(), Memory>
    ensures { OnOk result (out.new.items ≡ out.old.items ++ attribute (type_flags kind) (type_number kind) value.now) }
{
    let row = kind.row();
    push_attribute(out, row.flags, row.number, value)
}

/// An attribute of the table that may have passed somebody who doesn't know it, which the flag 0x20 says.
fn push_passed_on(
    out: &mut Vec<u8>,
    kind: AttributeType,
    partial: bool,
    value: &[u8],
) -> Result<(), Memory>
    requires { type_flags kind ≡ 192 }
    ensures { OnOk result (out.new.items ≡ out.old.items ++ attribute (passed_on partial) (type_number kind) value.now) }
{
    let row = kind.row();
    let flags = if partial { row.flags + 32 } else { row.flags };
    push_attribute(out, flags, row.number, value)
}

fn push_as_path(alloc: Global, out: &mut Vec<u8>, path: &[Segment]) -> Result<(), Memory>
    ensures { OnOk result (out.new.items ≡ out.old.items ++ attribute 64 2 (flat_map segment_octets path.now)) }
{
    let row = AttributeType::AsPath.row();
    let len = path_len(path);
    if len <= 255 {
        push_short_head(out, row.flags, row.number, len as u8)?;
        return push_path(out, path);
    }
    let mut value = Vec::new(alloc);
    push_path(&mut value, path)?;
    push_attribute(out, row.flags, row.number, value.as_slice())
}

/// AS4_PATH has the whole path, where AS_PATH doesn't tell some number of it.
fn push_as4_path(alloc: Global, out: &mut Vec<u8>, path: &[Segment]) -> Result<(), Memory>
    ensures { OnOk result (out.new.items ≡ out.old.items ++ wide_octets path.now) }
{
    if !has_wide(path) {
        return Ok(());
    }
    let mut value = Vec::new(alloc);
    push_wide_path(&mut value, path)?;
    push_known(out, AttributeType::As4Path, value.as_slice())
}

fn push_med(out: &mut Vec<u8>, med: Option<u32>) -> Result<(), Memory>
    ensures { OnOk result (out.new.items ≡ out.old.items ++ med_octets med) }
{
    match med {
        None => Ok(()),
        Some(med) => push_known(out, AttributeType::MultiExitDisc, long(med).as_slice()),
    }
}

fn push_atomic(out: &mut Vec<u8>, atomic: bool) -> Result<(), Memory>
    ensures { OnOk result (out.new.items ≡ out.old.items ++ atomic_octets atomic) }
{
    if !atomic {
        return Ok(());
    }
    push_known(out, AttributeType::AtomicAggregate, [].as_slice())
}

fn push_aggregator(out: &mut Vec<u8>, aggregator: Option<Aggregator>) -> Result<(), Memory>
    ensures { OnOk result (out.new.items ≡ out.old.items ++ aggregator_octets aggregator) }
{
    match aggregator {
        None => Ok(()),
        Some(aggregator) => {
            let [high, low] = word(aggregator.asn as usize);
            let [first, second, third, fourth] = long(aggregator.ip.0);
            let value = [high, low, first, second, third, fourth];
            push_passed_on(
                out,
                AttributeType::Aggregator,
                aggregator.partial,
                value.as_slice(),
            )
        }
    }
}

fn push_communities(
    alloc: Global,
    out: &mut Vec<u8>,
    partial: bool,
    communities: &[u32],
) -> Result<(), Memory>
    ensures { OnOk result (out.new.items ≡ out.old.items ++ communities_octets partial communities.now) }
{
    match communities {
        [] => Ok(()),
        [_, ..] => {
            let mut value = Vec::new(alloc);
            push_longs(&mut value, communities)?;
            push_passed_on(out, AttributeType::Communities, partial, value.as_slice())
        }
    }
}

/// An unknown attribute, where it is chosen.
fn push_unknown(out: &mut Vec<u8>, unknown: &Unknown, chosen: bool) -> Result<(), Memory>
    ensures { OnOk result (out.new.items ≡ out.old.items ++ (if chosen then attribute 224 unknown.now.kind unknown.now.value else [])) }
{
    if !chosen {
        return Ok(());
    }
    push_attribute(out, 224, unknown.kind, unknown.value.items())
}

/// The unknown attribute whose type is below all that are known.
fn push_lowest(out: &mut Vec<u8>, list: &[Unknown]) -> Result<(), Memory>
    ensures { OnOk result (out.new.items ≡ out.old.items ++ flat_map (λ (u : Foreign). if nat_lt u.kind 1 then attribute 224 u.kind u.value else []) list.now) }
{
    for unknown in list {
        push_unknown(out, unknown, unknown.kind < 1)?;
    }
    Ok(())
}

/// The unknown attributes whose types are between those that are known.
fn push_middle(out: &mut Vec<u8>, list: &[Unknown]) -> Result<(), Memory>
    ensures { OnOk result (out.new.items ≡ out.old.items ++ flat_map (λ (u : Foreign). if nat_le 1 u.kind && nat_lt u.kind 17 then attribute 224 u.kind u.value else []) list.now) }
{
    for unknown in list {
        push_unknown(out, unknown, 1 <= unknown.kind && unknown.kind < 17)?;
    }
    Ok(())
}

/// The unknown attributes whose types are above all that are known.
fn push_highest(out: &mut Vec<u8>, list: &[Unknown]) -> Result<(), Memory>
    ensures { OnOk result (out.new.items ≡ out.old.items ++ flat_map (λ (u : Foreign). if nat_le 17 u.kind then attribute 224 u.kind u.value else []) list.now) }
{
    for unknown in list {
        push_unknown(out, unknown, 17 <= unknown.kind)?;
    }
    Ok(())
}

/// The attributes that a route may lack, among the known ones.
#[tactic(auto, using(std::proofs::Common::append_assoc))]
fn push_optional(alloc: Global, out: &mut Vec<u8>, attrs: &Attrs) -> Result<(), Memory>
    ensures { OnOk result (out.new.items ≡ out.old.items ++ (med_octets attrs.now.med ++ (atomic_octets attrs.now.atomic ++ (aggregator_octets attrs.now.aggregator ++ communities_octets attrs.now.communities_partial attrs.now.communities)))) }
{
    push_med(out, attrs.med)?;
    push_atomic(out, attrs.atomic)?;
    push_aggregator(out, attrs.aggregator)?;
    push_communities(
        alloc,
        out,
        attrs.communities_partial,
        attrs.communities.items(),
    )
}

/// The attributes that each route has, with this NEXT_HOP.
#[tactic(auto, using(std::proofs::Common::append_assoc))]
fn push_needed(alloc: Global, out: &mut Vec<u8>, attrs: &Attrs, next_hop: Ip) -> Result<(), Memory>
    ensures { OnOk result (out.new.items ≡ out.old.items ++ (attribute 64 1 (attrs.now.origin ∷ []) ++ (attribute 64 2 (flat_map segment_octets attrs.now.path) ++ attribute 64 3 (address_octets next_hop)))) }
{
    push_known(out, AttributeType::Origin, [attrs.origin].as_slice())?;
    push_as_path(alloc, out, attrs.path.items())?;
    push_known(out, AttributeType::NextHop, long(next_hop.0).as_slice())
}

/// All attributes with this NEXT_HOP, ascending by type.
#[tactic(auto, using(std::proofs::Common::append_assoc))]
pub fn push_attrs(
    alloc: Global,
    out: &mut Vec<u8>,
    attrs: &Attrs,
    next_hop: Ip,
) -> Result<(), Memory>
    ensures { OnOk result (out.new.items ≡ out.old.items ++ attrs_octets (record attrs.now { next_hop = next_hop })) }
{
    push_lowest(out, attrs.unknown.items())?;
    push_needed(alloc, out, attrs, next_hop)?;
    push_optional(alloc, out, attrs)?;
    push_middle(out, attrs.unknown.items())?;
    push_as4_path(alloc, out, attrs.path.items())?;
    push_highest(out, attrs.unknown.items())?;
    Ok(())
}

pub fn push_optional_attrs(
    alloc: Global,
    out: &mut Vec<u8>,
    attrs: &Option<Attrs>,
) -> Result<(), Memory>
    ensures { OnOk result (out.new.items ≡ out.old.items ++ optional_attrs_octets attrs.now) }
{
    match attrs {
        None => Ok(()),
        Some(attrs) => push_attrs(alloc, out, attrs, attrs.next_hop),
    }
}
