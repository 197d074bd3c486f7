//! Where prefixes lie, seen from one another.

ghost use Rattle.std.specs.Prelude.{◌≡◌, ◌≤◌, ◌<◌, ◌+◌, nat_lt};
ghost use Rattle.prefix_map.specs.Halves.{middle, past, LiesIn, LiesLow, LiesHigh};
ghost use Rattle.prefix_map.specs.Placed.{IsPlaced};

use net_types::{Ip, Prefix};
use std::cmp::Ordering;

/// Where a prefix stands, seen from another.
pub(crate) enum Place {
    Same,
    /// In the lower half.
    Low,
    /// In the upper half.
    High,
    /// The other one is in its lower half.
    OverLow,
    /// The other one is in its upper half.
    OverHigh,
    Before,
    After,
}

/// Whether an address comes before the upper half of a prefix.
pub(crate) fn is_below(ip: Ip, at: Prefix) -> bool
    ensures { result ≡ nat_lt ip.0 (middle at) }
{
    let half = 1u64 << 31u8.saturating_sub(at.len);
    u64::from(ip.0) < u64::from(at.address.0) + half
}

/// Where a prefix stands, seen from another one.
pub(crate) fn place_of(at: Prefix, key: Prefix) -> Place
    ensures { IsPlaced at key result }
{
    match at.len.cmp(&key.len) {
        Ordering::Less => place_of_longer(at, key),
        Ordering::Equal => place_of_alike(at, key),
        Ordering::Greater => place_of_shorter(at, key),
    }
}

fn place_of_longer(at: Prefix, key: Prefix) -> Place
    requires { at.len < key.len }
    ensures { IsPlaced at key result }
{
    if key.address.0 < at.address.0 {
        return Place::Before;
    }
    if is_below(key.address, at) {
        return Place::Low;
    }
    if at.covers(key.address) {
        return Place::High;
    }
    Place::After
}

fn place_of_alike(at: Prefix, key: Prefix) -> Place
    requires { at.len ≡ key.len }
    ensures { IsPlaced at key result }
{
    if key.address.0 < at.address.0 {
        return Place::Before;
    }
    if at.address.0 < key.address.0 {
        return Place::After;
    }
    Place::Same
}

fn place_of_shorter(at: Prefix, key: Prefix) -> Place
    requires { key.len < at.len }
    ensures { IsPlaced at key result }
{
    if at.address.0 < key.address.0 {
        return Place::After;
    }
    if is_below(at.address, key) {
        return Place::OverLow;
    }
    if key.covers(at.address) {
        return Place::OverHigh;
    }
    Place::Before
}

/// The longest prefix that covers two that lie apart, where the first one comes before the second.
pub(crate) fn common(left: Prefix, right: Prefix) -> Prefix
    requires { past left ≤ right.address.0 }
    ensures low { LiesLow result left }
    ensures high { LiesHigh result right }
{
    common_within(start_of(left, right), left, right)
}

/// A prefix in which both lie, of the bits with which both addresses begin. Where they lie apart it is the one that is looked for, so
/// that nothing is left to go through.
fn start_of(left: Prefix, right: Prefix) -> Prefix
    ensures left { LiesIn result left }
    ensures right { LiesIn result right }
{
    let alike = (left.address.0 ^ right.address.0).leading_zeros() as u8;
    match Prefix::new(left.address, alike) {
        Ok(start) if left.within(start) && right.within(start) => start,
        _ => Prefix::any(),
    }
}

fn common_within(within: Prefix, left: Prefix, right: Prefix) -> Prefix
    requires left { LiesIn within left }
    requires right { LiesIn within right }
    requires apart { past left ≤ right.address.0 }
    ensures low { LiesLow result left }
    ensures high { LiesHigh result right }
{
    if is_below(right.address, within) {
        return common_within(lower_half(within), left, right);
    }
    if is_below(left.address, within) {
        return within;
    }
    common_within(upper_half(within), left, right)
}

fn lower_half(of: Prefix) -> Prefix
    requires { of.len < 32 }
    ensures address { result.address.0 ≡ of.address.0 }
    ensures len { result.len ≡ of.len + 1 }
    ensures past { past result ≡ middle of }
{
    Prefix {
        address: of.address,
        len: of.len + 1,
    }
}

fn upper_half(of: Prefix) -> Prefix
    requires { of.len < 32 }
    ensures address { result.address.0 ≡ middle of }
    ensures len { result.len ≡ of.len + 1 }
    ensures past { past result ≡ past of }
{
    Prefix {
        address: Ip(of.address.0 + (1 << (31 - of.len))),
        len: of.len + 1,
    }
}
