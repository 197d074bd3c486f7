//! What participants say: updates that are sound, whose paths are short.

ghost use Rattle.std.specs.Prelude.{◌≡◌, ◌<◌, ◌≤◌, ◌^◌, ◌∷◌, [], sum_by, true, IfOk, IfSome};
ghost use Rattle.net_types.specs.Paths.{hops_of};
ghost use Rattle.net_types.specs.Sets.{Each};
ghost use Rattle.net_types.specs.SoundUpdates.{AreSoundAttrs, IsSoundSegment, IsSoundNextHop, IsSoundUpdate};
ghost use Rattle.net_types.specs.UpdateSpelling.{is_before};

use crate::wrong::Wrong;
use net_types::{
    Asns, Attrs, Ip, Items, Memory, Numbers, Pid, Prefix, Prefixes, Segment, Segments, Update,
};
use std::alloc::Global;

#[derive(Clone, Copy)]
pub enum Who {
    A,
    B,
    C,
}

impl Who {
    pub fn pid(self) -> Pid
        ensures { result.0 < 3 }
    {
        match self {
            Who::A => Pid(0),
            Who::B => Pid(1),
            Who::C => Pid(2),
        }
    }
}

/// A path, by its AS numbers.
#[derive(Clone, Copy)]
pub enum Path {
    Empty,
    /// A sequence of one.
    Own(u16),
    /// A sequence of two.
    Long(u16, u16),
    /// A sequence of one, and a set of two.
    Set(u16, u16, u16),
    /// A set of one.
    SetAlone(u16),
}

/// Communities: BLACKHOLE, 65535:666, and another.
#[derive(Clone, Copy)]
pub enum Communities {
    None,
    Another,
    Hole,
    /// BLACKHOLE between others.
    Among,
    Twice,
}

/// A route: its path, the last octet of its next hop 172.16.1.x, its discriminator, and its communities.
#[derive(Clone, Copy)]
pub struct Route {
    pub path: Path,
    pub hop: u8,
    pub med: Option<u32>,
    pub communities: Communities,
}

/// An update. The prefixes are those of 8 bits with these first octets.
#[derive(Clone, Copy)]
pub enum Said {
    Gone(u8),
    Here(Route, u8),
    Two(Route, u8, u8),
    /// The first prefix is withdrawn, and the other one announced.
    Moved(Route, u8, u8),
}

pub fn prefix(first: u8) -> Result<Prefix, Memory> {
    Prefix::new(Ip(u32::from_be_bytes([first, 0, 0, 0])), 8).map_err(|_| Memory)
}

fn one(alloc: Global, asn: u16) -> Result<Asns, Memory>
    ensures { IfOk result (λ asns. asns ≡ asn ∷ []) }
{
    let mut asns = Items::new(alloc);
    asns.push(asn as u32)?;
    Ok(asns)
}

fn two(alloc: Global, first: u16, second: u16) -> Result<Asns, Memory>
    ensures { IfOk result (λ asns. asns ≡ first ∷ second ∷ []) }
{
    let mut asns = one(alloc, first)?;
    asns.push(second as u32)?;
    Ok(asns)
}

fn segment(alloc: Global, segment: Segment) -> Result<Segments, Memory>
    ensures { IfOk result (λ path. path ≡ segment ∷ []) }
{
    let mut path = Items::new(alloc);
    path.push(segment)?;
    Ok(path)
}

fn segments(alloc: Global, path: Path) -> Result<Segments, Memory>
    ensures sound { IfOk result (λ path. Each IsSoundSegment path) }
    ensures short { IfOk result (λ path. sum_by hops_of path < 2 ^ 32) }
{
    match path {
        Path::Empty => Ok(Items::new(alloc)),
        Path::Own(asn) => segment(alloc, Segment::Sequence(one(alloc, asn)?)),
        Path::Long(first, second) => {
            segment(alloc, Segment::Sequence(two(alloc, first, second)?))
        }
        Path::Set(asn, first, second) => {
            let mut path = segment(alloc, Segment::Sequence(one(alloc, asn)?))?;
            path.push(Segment::Set(two(alloc, first, second)?))?;
            Ok(path)
        }
        Path::SetAlone(asn) => segment(alloc, Segment::Set(one(alloc, asn)?)),
    }
}

fn address(last: u8) -> Ip
    ensures { IsSoundNextHop result }
{
    Ip(2886729984 + last as u32)
}

const BLACKHOLE: u32 = 4294902426;

const ANOTHER: u32 = 4294902425;

fn numbers(alloc: Global, given: &[u32]) -> Result<Numbers, Memory> {
    Ok(Items::from_vec(Vec::from_slice(alloc, given)?))
}

fn communities_of(alloc: Global, said: Communities) -> Result<Numbers, Memory> {
    match said {
        Communities::None => numbers(alloc, &[]),
        Communities::Another => numbers(alloc, &[ANOTHER]),
        Communities::Hole => numbers(alloc, &[BLACKHOLE]),
        Communities::Among => numbers(alloc, &[ANOTHER, BLACKHOLE, ANOTHER]),
        Communities::Twice => numbers(alloc, &[BLACKHOLE, BLACKHOLE]),
    }
}

fn attrs(alloc: Global, route: Route) -> Result<Attrs, Memory>
    ensures sound { IfOk result (λ attrs. AreSoundAttrs attrs) }
    ensures short { IfOk result (λ attrs. sum_by hops_of attrs.path < 2 ^ 32) }
{
    Ok(Attrs {
        origin: 0,
        path: segments(alloc, route.path)?,
        next_hop: address(route.hop),
        med: route.med,
        atomic: false,
        aggregator: None,
        communities: communities_of(alloc, route.communities)?,
        communities_partial: false,
        unknown: Items::new(alloc),
    })
}

fn alone(alloc: Global, prefix: Prefix) -> Result<Prefixes, Memory>
    ensures { IfOk result (λ prefixes. prefixes ≡ prefix ∷ []) }
{
    let mut prefixes = Items::new(alloc);
    prefixes.push(prefix)?;
    Ok(prefixes)
}

fn withdrawing(alloc: Global, gone: Prefix) -> Result<Update, Memory>
    ensures sound { IfOk result (λ update. IsSoundUpdate update) }
    ensures short { IfOk result (λ update. IfSome update.attrs (λ a. sum_by hops_of a.path < 2 ^ 32)) }
{
    Ok(Update {
        withdrawn: alone(alloc, gone)?,
        attrs: None,
        announced: Items::new(alloc),
    })
}

fn announcing(alloc: Global, route: Route, here: Prefix) -> Result<Update, Memory>
    ensures sound { IfOk result (λ update. IsSoundUpdate update) }
    ensures short { IfOk result (λ update. IfSome update.attrs (λ a. sum_by hops_of a.path < 2 ^ 32)) }
{
    Ok(Update {
        withdrawn: Items::new(alloc),
        attrs: Some(attrs(alloc, route)?),
        announced: alone(alloc, here)?,
    })
}

fn announcing_two(
    alloc: Global,
    route: Route,
    first: Prefix,
    second: Prefix,
) -> Result<Update, Memory>
    requires { first.address.0 < second.address.0 }
    ensures sound { IfOk result (λ update. IsSoundUpdate update) }
    ensures short { IfOk result (λ update. IfSome update.attrs (λ a. sum_by hops_of a.path < 2 ^ 32)) }
{
    let mut announced = alone(alloc, first)?;
    announced.push(second)?;
    Ok(Update {
        withdrawn: Items::new(alloc),
        attrs: Some(attrs(alloc, route)?),
        announced,
    })
}

fn moving(alloc: Global, route: Route, gone: Prefix, here: Prefix) -> Result<Update, Memory>
    requires { gone.address.0 < here.address.0 }
    ensures sound { IfOk result (λ update. IsSoundUpdate update) }
    ensures short { IfOk result (λ update. IfSome update.attrs (λ a. sum_by hops_of a.path < 2 ^ 32)) }
{
    Ok(Update {
        withdrawn: alone(alloc, gone)?,
        attrs: Some(attrs(alloc, route)?),
        announced: alone(alloc, here)?,
    })
}

/// The update. Of two prefixes the first has to be the lower one.
pub fn update(alloc: Global, said: Said) -> Result<Update, Wrong>
    ensures sound { IfOk result (λ update. IsSoundUpdate update) }
    ensures short { IfOk result (λ update. IfSome update.attrs (λ a. sum_by hops_of a.path < 2 ^ 32)) }
{
    match said {
        Said::Gone(gone) => Ok(withdrawing(alloc, prefix(gone)?)?),
        Said::Here(route, here) => Ok(announcing(alloc, route, prefix(here)?)?),
        Said::Two(route, first, second) => {
            let (first, second) = (prefix(first)?, prefix(second)?);
            if first.address.0 >= second.address.0 {
                return Err(Wrong::Row);
            }
            Ok(announcing_two(alloc, route, first, second)?)
        }
        Said::Moved(route, gone, here) => {
            let (gone, here) = (prefix(gone)?, prefix(here)?);
            if gone.address.0 >= here.address.0 {
                return Err(Wrong::Row);
            }
            Ok(moving(alloc, route, gone, here)?)
        }
    }
}
