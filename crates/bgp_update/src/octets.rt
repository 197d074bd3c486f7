//! Octets and numbers from the front of what is left of a message, and tests.

ghost use Rattle.std.specs.Prelude.{◌≡◌, ◌+◌, ◌<◌, ◌≤◌, ◌^◌, ◌++◌, length, Ok, IfOk, if◌then◌else◌};
ghost use Rattle.grammar.specs.FormatReading.{read_octet, read_octets, read_two_octets};
ghost use Rattle.grammar.specs.Numbers.{big_endian};
ghost use Rattle.net_types.specs.UpdateFormat.{longs, padded, words};
ghost use Rattle.bgp_update.specs.Answers.{Gives};

use crate::fault::UpdateFault;
use net_types::{Fault, Items, Memory, Numbers};
use std::alloc::Global;

pub fn ensure(test: bool, fault: Fault) -> Result<(), UpdateFault>
    ensures { result ≡ (if test then Ok tt else Err (UpdateFault.Bad fault)) }
{
    if test {
        Ok(())
    } else {
        Err(UpdateFault::Bad(fault))
    }
}

pub fn octet(rest: &[u8], fault: Fault) -> Result<(u8, &[u8]), UpdateFault>
    ensures reads { Gives (λ x. (x.0, x.1.now)) result (read_octet fault rest.now) }
    ensures left { IfOk result (λ x. length x.1.now + 1 ≡ length rest.now) }
{
    match rest {
        [] => Err(UpdateFault::Bad(fault)),
        [first, others @ ..] => Ok((*first, others)),
    }
}

pub fn octets(count: usize, rest: &[u8], fault: Fault) -> Result<(&[u8], &[u8]), UpdateFault>
    ensures reads { Gives (λ x. (x.0.now, x.1.now)) result (read_octets count fault rest.now) }
    ensures left { IfOk result (λ x. length x.1.now ≤ length rest.now) }
    ensures len { IfOk result (λ x. length x.0.now ≡ count) }
{
    if rest.len() < count {
        return Err(UpdateFault::Bad(fault));
    }
    Ok(rest.split_at(count))
}

/// A number of two octets.
#[tactic(auto, unfolding(grammar::specs::FormatReading::read_two_octets))]
pub fn two_octets(rest: &[u8], fault: Fault) -> Result<(usize, &[u8]), UpdateFault>
    ensures reads { Gives (λ x. (x.0, x.1.now)) result (read_two_octets fault rest.now) }
    ensures within { IfOk result (λ x. x.0 < 2 ^ 16) }
    ensures left { IfOk result (λ x. length x.1.now ≤ length rest.now) }
{
    let (high, rest) = octet(rest, fault)?;
    let (low, rest) = octet(rest, fault)?;
    Ok((high as usize * 256 + low as usize, rest))
}

/// A number of four octets, with zeros where they are missing at the end.
pub fn padded(bits: &[u8]) -> u32
    ensures { result ≡ padded bits.now }
{
    match bits {
        [] => 0,
        [a] => *a as u32 * 16777216,
        [a, b] => (*a as u32 * 256 + *b as u32) * 65536,
        [a, b, c] => ((*a as u32 * 256 + *b as u32) * 256 + *c as u32) * 256,
        [a, b, c, d, ..] => ((*a as u32 * 256 + *b as u32) * 256 + *c as u32) * 256 + *d as u32,
    }
}

/// A number of four octets at most.
pub fn number(octets: &[u8]) -> u32
    requires { length octets.now ≤ 4 }
    ensures { result ≡ big_endian octets.now }
{
    match octets {
        [] => 0,
        [a] => *a as u32,
        [a, b] => *a as u32 * 256 + *b as u32,
        [a, b, c] => (*a as u32 * 256 + *b as u32) * 256 + *c as u32,
        [a, b, c, d, ..] => ((*a as u32 * 256 + *b as u32) * 256 + *c as u32) * 256 + *d as u32,
    }
}

/// The numbers of two octets each.
pub fn words(alloc: Global, octets: &[u8]) -> Result<Numbers, Memory>
    ensures { IfOk result (λ ns. ns ≡ words octets.now) }
{
    let mut all = Items::new(alloc);
    let mut left = octets;
    while let [a, b, more @ ..] = left {
        all.push(*a as u32 * 256 + *b as u32)?;
        left = more;
    }
    Ok(all)
}

/// The numbers of four octets each.
pub fn longs(alloc: Global, octets: &[u8]) -> Result<Numbers, Memory>
    ensures { IfOk result (λ ns. ns ≡ longs octets.now) }
{
    let mut all = Items::new(alloc);
    let mut left = octets;
    while let [a, b, c, d, more @ ..] = left {
        let high = *a as u32 * 256 + *b as u32;
        all.push((high * 256 + *c as u32) * 256 + *d as u32)?;
        left = more;
    }
    Ok(all)
}
