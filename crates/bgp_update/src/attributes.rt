//! Attributes of a message, one after the other (RFC 4271 4.3, 5, 6.3; RFC 1997; RFC 6793 3).

ghost use Rattle.std.specs.Prelude.{◌≡◌, ◌<◌, ◌≤◌, take, drop, length, IfOk, IsTrue, false};
ghost use Rattle.net_types.specs.AttributeTypes.{has_length, type_length, type_of};
ghost use Rattle.net_types.specs.UpdateFormat.{address, is_long, is_partial, no_types, segment_of, unknown_value, wide_value};
ghost use Rattle.grammar.specs.Numbers.{big_endian};
ghost use Rattle.grammar.specs.FormatReading.{read_items};
ghost use Rattle.bgp_update.specs.Answers.{AreNew, Gives, marked, numbers_of};
ghost use Rattle.net_types.specs.UpdateReading.{read_attribute, read_attributes, read_known_value, read_segment_by, read_value, read_value_length, read_wide_segments, wide_read};

use crate::fault::UpdateFault;
use crate::octets::{ensure, longs, number, octet, octets, two_octets, words};
use net_types::{
    Aggregator, Attribute, AttributeType, Fault, Ip, Items, Memory, Numbers, Segment, Segments,
    Unknown,
};
use std::alloc::Global;

/// A segment whose numbers have so many octets each, 2 or 4.
#[tactic(auto, unfolding(net_types::specs::UpdateReading::read_segment_by))]
fn segment(alloc: Global, size: usize, rest: &[u8]) -> Result<(Segment, &[u8]), UpdateFault>
    requires { size ≤ 4 }
    ensures reads { Gives (λ x. (x.0, x.1.now)) result (read_segment_by size (numbers_of size) rest.now) }
    ensures left { IfOk result (λ x. length x.1.now < length rest.now) }
{
    let (kind, rest) = octet(rest, Fault::AsPath)?;
    ensure(kind == 1 || kind == 2, Fault::AsPath)?;
    let (count, rest) = octet(rest, Fault::AsPath)?;
    ensure(1 <= count, Fault::AsPath)?;
    let (asns, rest) = octets(count as usize * size, rest, Fault::AsPath)?;
    let segment = segment_of(alloc, kind, size, asns)?;
    Ok((segment, rest))
}

/// AS_SET and AS_SEQUENCE are told by their numbers, 1 and 2.
fn segment_of(alloc: Global, kind: u8, size: usize, asns: &[u8]) -> Result<Segment, Memory>
    ensures { IfOk result (λ s. s ≡ segment_of kind (numbers_of size asns.now)) }
{
    let asns = numbers(alloc, size, asns)?;
    if kind == 1 {
        Ok(Segment::Set(asns))
    } else {
        Ok(Segment::Sequence(asns))
    }
}

/// The numbers of two octets each, or of four.
fn numbers(alloc: Global, size: usize, octets: &[u8]) -> Result<Numbers, Memory>
    ensures { IfOk result (λ ns. ns ≡ numbers_of size octets.now) }
{
    if size == 2 {
        words(alloc, octets)
    } else {
        longs(alloc, octets)
    }
}

fn segments(alloc: Global, size: usize, block: &[u8]) -> Result<Segments, UpdateFault>
    requires { size ≤ 4 }
    ensures { Gives (λ v. v) result (read_items (read_segment_by size (numbers_of size)) block.now) }
{
    let mut all = Items::new(alloc);
    let mut left = block;
    while !left.is_empty() {
        let (item, after) = segment(alloc, size, left)?;
        all.push(item)?;
        left = after;
    }
    Ok(all)
}

/// AS4_PATH; a value of another form says nothing, and is no fault.
#[tactic(auto, unfolding(net_types::specs::UpdateReading::read_wide_segments))]
fn wide_path(alloc: Global, inner: &[u8]) -> Result<Attribute, Memory>
    ensures { IfOk result (λ a. a ≡ wide_read (read_wide_segments inner.now)) }
{
    match segments(alloc, 4, inner) {
        Ok(path) => Ok(wide_value(path)),
        Err(UpdateFault::Bad(_)) => Ok(Attribute::Ignored(17)),
        Err(UpdateFault::Memory) => Err(Memory),
    }
}

fn wide_value(path: Segments) -> Attribute
    ensures { result ≡ wide_value path }
{
    if path.is_empty() {
        Attribute::Ignored(17)
    } else {
        Attribute::As4Path(path)
    }
}

/// A length has two octets where the flag 0x10 is set.
#[tactic(auto, unfolding(net_types::specs::UpdateReading::read_value_length))]
fn value_length(flags: u8, rest: &[u8]) -> Result<(usize, &[u8]), UpdateFault>
    ensures reads { Gives (λ x. (x.0, x.1.now)) result (read_value_length (is_long flags) rest.now) }
    ensures left { IfOk result (λ x. length x.1.now ≤ length rest.now) }
{
    if flags / 16 % 2 == 1 {
        two_octets(rest, Fault::Malformed)
    } else {
        let (len, rest) = octet(rest, Fault::Malformed)?;
        Ok((len as usize, rest))
    }
}

/// A value of a type in the table, whose length is right.
#[tactic(auto, unfolding(net_types::specs::UpdateReading::read_known_value, net_types::specs::UpdateReading::read_segments))]
fn known_value<'a>(
    alloc: Global,
    kind: AttributeType,
    partial: bool,
    inner: &[u8],
    rest: &'a [u8],
) -> Result<(Attribute, &'a [u8]), UpdateFault>
    requires { IsTrue (has_length (type_length kind) (length inner.now)) }
    ensures reads { Gives (λ x. (x.0, x.1.now)) result (read_known_value kind partial inner.now rest.now) }
    ensures left { IfOk result (λ x. length x.1.now ≤ length rest.now) }
{
    match kind {
        AttributeType::Origin => {
            let origin = number(inner);
            ensure(origin <= 2, Fault::Origin)?;
            Ok((Attribute::Origin(origin as u8), rest))
        }
        AttributeType::AsPath => Ok((Attribute::AsPath(segments(alloc, 2, inner)?), rest)),
        AttributeType::NextHop => {
            ensure(1 <= inner[0] && inner[0] < 224, Fault::NextHopSyntax)?;
            Ok((Attribute::NextHop(Ip(number(inner))), rest))
        }
        AttributeType::MultiExitDisc => Ok((Attribute::MultiExitDisc(number(inner)), rest)),
        AttributeType::LocalPref => Ok((Attribute::LocalPref, rest)),
        AttributeType::AtomicAggregate => Ok((Attribute::AtomicAggregate, rest)),
        AttributeType::Aggregator => {
            let aggregator = aggregator(partial, inner);
            Ok((Attribute::Aggregator(aggregator), rest))
        }
        AttributeType::Communities => {
            let communities = longs(alloc, inner)?;
            Ok((Attribute::Communities(partial, communities), rest))
        }
        AttributeType::As4Path => Ok((wide_path(alloc, inner)?, rest)),
    }
}

fn aggregator(partial: bool, inner: &[u8]) -> Aggregator
    requires { length inner.now ≡ 6 }
    ensures { result ≡ record { partial = partial; asn = big_endian (take 2 inner.now); ip = address (drop 2 inner.now) } }
{
    let (asn, ip) = inner.split_at(2);
    Aggregator {
        partial,
        asn: number(asn),
        ip: Ip(number(ip)),
    }
}

/// A value of a type outside the table: it is passed on where it is transitive.
fn unknown_value(
    alloc: Global,
    kind: u8,
    transitive: bool,
    inner: &[u8],
) -> Result<Attribute, Memory>
    ensures { IfOk result (λ a. a ≡ unknown_value transitive kind inner.now) }
{
    if !transitive {
        return Ok(Attribute::Ignored(kind));
    }
    let value = Items::from_vec(Vec::from_slice(alloc, inner)?);
    Ok(Attribute::Unknown(Unknown { kind, value }))
}

#[tactic(auto, unfolding(net_types::specs::UpdateReading::read_value))]
fn value<'a>(
    alloc: Global,
    number: u8,
    flags: u8,
    inner: &[u8],
    rest: &'a [u8],
) -> Result<(Attribute, &'a [u8]), UpdateFault>
    ensures reads { Gives (λ x. (x.0, x.1.now)) result (read_value (type_of number) number flags inner.now rest.now) }
    ensures left { IfOk result (λ x. length x.1.now ≤ length rest.now) }
{
    let Some(kind) = AttributeType::of(number) else {
        ensure(flags / 128 % 2 == 1, Fault::UnknownWellKnown)?;
        let value = unknown_value(alloc, number, flags / 64 % 2 == 1, inner)?;
        return Ok((value, rest));
    };
    let row = kind.row();
    ensure(flags / 64 % 4 == row.flags / 64 % 4, Fault::Flags)?;
    ensure(row.length.allows(inner.len()), Fault::Length)?;
    known_value(alloc, kind, flags / 32 % 2 == 1, inner, rest)
}

/// An attribute of a type that isn't marked.
#[tactic(auto, unfolding(net_types::specs::UpdateReading::read_attribute))]
fn attribute<'a>(
    alloc: Global,
    seen: &[bool; 256],
    rest: &'a [u8],
) -> Result<(Attribute, &'a [u8]), UpdateFault>
    ensures reads { Gives (λ x. (x.0, x.1.now)) result (read_attribute (marked seen.now) rest.now) }
    ensures left { IfOk result (λ x. length x.1.now < length rest.now) }
{
    let (flags, rest) = octet(rest, Fault::Malformed)?;
    let (number, rest) = octet(rest, Fault::Malformed)?;
    let (len, rest) = value_length(flags, rest)?;
    let (inner, rest) = octets(len, rest, Fault::Malformed)?;
    ensure(!seen[number as usize], Fault::Malformed)?;
    value(alloc, number, flags, inner, rest)
}

/// The attributes of a block.
fn block(alloc: Global, block: &[u8]) -> Result<Vec<Attribute>, UpdateFault>
    ensures { Gives (λ v. v.items) result (read_attributes block.now) }
{
    let mut all = Vec::new(alloc);
    let mut seen = [false; 256];
    let mut left = block;
    while !left.is_empty() {
        let (item, after) = attribute(alloc, &seen, left)?;
        seen[item.number() as usize] = true;
        all.push(item)?;
        left = after;
    }
    Ok(all)
}

/// The attributes of a block, each of a type of its own.
pub fn attributes(alloc: Global, octets: &[u8]) -> Result<Vec<Attribute>, UpdateFault>
    ensures reads { Gives (λ v. v.items) result (read_attributes octets.now) }
    ensures new { IfOk result (λ v. AreNew no_types v.items) }
{
    block(alloc, octets)
}
