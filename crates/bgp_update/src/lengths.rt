//! How long a message is that an update is written as, without writing it; lengths over 65535 are told as 65535.

ghost use Rattle.std.specs.Prelude.{◌≡◌, ◌+◌, ◌*◌, nat_le, nat_lt, min, length, Some, if◌then◌else◌};
ghost use Rattle.std.specs.List.{flat_map, list_any};
ghost use Rattle.net_types.specs.Updates.{aggregator_octets, atomic_octets, attrs_octets, canonical, communities_octets, is_oversize, is_oversize_with, med_octets, prefix_octets, prefixes_octets, segment_octets, unknown_octets, wide_octets, wide_segment_octets};

use crate::paths::has_wide;
use net_types::{Aggregator, Attrs, Prefix, Segment, Unknown, Update};

/// The sum, or 65535.
fn add(a: usize, b: usize) -> usize
    ensures { result ≡ min 65535 (a + b) }
{
    let sum = a.saturating_add(b);
    if sum < 65535 { sum } else { 65535 }
}

fn four_times(n: usize) -> usize
    ensures { result ≡ min 65535 (4 * n) }
{
    let two = add(n, n);
    add(two, two)
}

/// The length of an attribute whose value has so many octets.
fn attribute_len(len: usize) -> usize
    ensures { result ≡ min 65535 (if nat_le len 255 then 3 + len else 4 + len) }
{
    if len <= 255 { add(3, len) } else { add(4, len) }
}

pub fn prefix_len(prefix: Prefix) -> usize
    ensures { result ≡ length (prefix_octets prefix) }
{
    1 + (prefix.len as usize + 7) / 8
}

fn prefixes_len(prefixes: &[Prefix]) -> usize
    ensures { result ≡ min 65535 (length (prefixes_octets prefixes.now)) }
{
    let mut total = 0;
    for prefix in prefixes {
        total = add(total, prefix_len(*prefix));
    }
    total
}

#[tactic(auto, using(crate::proofs::LengthSums::shorts_len))]
fn segment_len(segment: &Segment) -> usize
    ensures { result ≡ min 65535 (length (segment_octets segment.now)) }
{
    match segment {
        Segment::Set(asns) => add(2, add(asns.len(), asns.len())),
        Segment::Sequence(asns) => add(2, add(asns.len(), asns.len())),
    }
}

pub fn path_len(path: &[Segment]) -> usize
    ensures { result ≡ min 65535 (length (flat_map segment_octets path.now)) }
{
    let mut total = 0;
    for segment in path {
        total = add(total, segment_len(segment));
    }
    total
}

#[tactic(auto, using(crate::proofs::LengthSums::longs_len))]
fn wide_segment_len(segment: &Segment) -> usize
    ensures { result ≡ min 65535 (length (wide_segment_octets segment.now)) }
{
    match segment {
        Segment::Set(asns) => add(2, four_times(asns.len())),
        Segment::Sequence(asns) => add(2, four_times(asns.len())),
    }
}

fn wide_path_len(path: &[Segment]) -> usize
    ensures { result ≡ min 65535 (length (flat_map wide_segment_octets path.now)) }
{
    let mut total = 0;
    for segment in path {
        total = add(total, wide_segment_len(segment));
    }
    total
}

fn as4_path_len(path: &[Segment]) -> usize
    ensures { result ≡ min 65535 (length (wide_octets path.now)) }
{
    if has_wide(path) {
        attribute_len(wide_path_len(path))
    } else {
        0
    }
}

fn unknown_len(unknown: &[Unknown]) -> usize
    ensures { result ≡ min 65535 (length (unknown_octets unknown.now)) }
{
    let mut total = 0;
    for attribute in unknown {
        total = add(total, attribute_len(attribute.value.len()));
    }
    total
}

fn med_len(med: Option<u32>) -> usize
    ensures { result ≡ length (med_octets med) }
{
    match med {
        None => 0,
        Some(_) => 7,
    }
}

fn atomic_len(atomic: bool) -> usize
    ensures { result ≡ length (atomic_octets atomic) }
{
    if atomic { 3 } else { 0 }
}

fn aggregator_len(aggregator: Option<Aggregator>) -> usize
    ensures { result ≡ length (aggregator_octets aggregator) }
{
    match aggregator {
        None => 0,
        Some(_) => 9,
    }
}

fn communities_len(partial: bool, communities: &[u32]) -> usize
    ensures { result ≡ min 65535 (length (communities_octets partial communities.now)) }
{
    match communities {
        [] => 0,
        [_, ..] => { attribute_len(four_times(communities.len())) }
    }
}

pub fn attrs_len(attrs: &Attrs) -> usize
    ensures { result ≡ min 65535 (length (attrs_octets attrs.now)) }
{
    let path = attribute_len(path_len(attrs.path.items()));
    let unknown = unknown_len(attrs.unknown.items());
    let communities = communities_len(attrs.communities_partial, attrs.communities.items());
    let small = 11
        + med_len(attrs.med)
        + atomic_len(attrs.atomic)
        + aggregator_len(attrs.aggregator);
    let wide = as4_path_len(attrs.path.items());
    add(add(add(unknown, path), add(small, communities)), wide)
}

/// How many octets the canonical message of an update has, or 65535 where it has more. No memory is taken.
pub fn encoded_len(update: &Update) -> usize
    ensures { result ≡ min 65535 (length (canonical update.now)) }
{
    let withdrawn = prefixes_len(update.withdrawn.items());
    let announced = prefixes_len(update.announced.items());
    let prefixes = add(add(23, withdrawn), announced);
    match &update.attrs {
        None => prefixes,
        Some(attrs) => add(prefixes, attrs_len(attrs)),
    }
}

/// Whether a message with so many octets in front of the prefix has more than 4096.
fn exceeds(front: usize, prefix: Prefix) -> bool
    ensures { result ≡ nat_lt 4096 (min 65535 (front + length (prefix_octets prefix))) }
{
    4096 < add(front, prefix_len(prefix))
}

fn some_exceeds(front: usize, announced: &[Prefix]) -> bool
    ensures { result ≡ list_any (λ p. nat_lt 4096 (min 65535 (front + length (prefix_octets p)))) announced.now }
{
    announced.iter().any(|prefix| exceeds(front, *prefix))
}

/// Whether the announcement of some prefix with these attributes takes more than 4096 octets.
fn is_oversize_with(attrs: &Attrs, announced: &[Prefix]) -> bool
    ensures { result ≡ is_oversize_with (Some attrs.now) announced.now }
{
    some_exceeds(add(23, attrs_len(attrs)), announced)
}

/// Whether some announced prefix couldn't be told, since a message with it alone has more than 4096 octets. No memory is
/// taken.
pub fn is_oversize(update: &Update) -> bool
    ensures { result ≡ is_oversize update.now }
{
    match &update.attrs {
        None => false,
        Some(attrs) => is_oversize_with(attrs, update.announced.items()),
    }
}
