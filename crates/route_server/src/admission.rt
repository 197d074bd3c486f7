//! Whether an update is taken.

ghost use Rattle.std.specs.Prelude.{◌≡◌, ◌<◌, ◌^◌, sum_by};
ghost use Rattle.net_types.specs.Paths.{hops_of};
ghost use Rattle.net_types.specs.Updates.{first_as};
ghost use Rattle.route_server.specs.Admission.{first_in, attrs_refusal, refusal};

use crate::fault::RouteFault;
use crate::rows::asn_of;
use bgp_update::is_oversize;
use net_types::{Attrs, Pid, Segment, Update};
use registry::Registry;

fn first_in(segment: &Segment) -> Option<u32>
    ensures { result ≡ first_in segment.now }
{
    match segment {
        Segment::Set(_) => None,
        Segment::Sequence(asns) => asns.items().first().copied(),
    }
}

/// The first AS of a path that begins with a sequence.
fn first_as(path: &[Segment]) -> Option<u32>
    ensures { result ≡ first_as path.now }
{
    match path.first() {
        Some(segment) => first_in(segment),
        None => None,
    }
}

/// Why attributes are refused: the first AS is looked at before the next hop.
fn attrs_refusal(names: &Registry, from: Pid, attrs: &Attrs) -> Option<RouteFault>
    ensures { result ≡ attrs_refusal names.now from attrs.now }
{
    let own = asn_of(names, from);
    let is_own = match first_as(attrs.path.items()) {
        Some(first) => first == own,
        None => false,
    };
    if !is_own {
        return Some(RouteFault::FirstAs);
    }
    if !names.has_address(from, attrs.next_hop) {
        return Some(RouteFault::NextHop);
    }
    None
}

/// Why an update is refused, where it announces: its attributes are looked at before its length.
pub fn refusal(names: &Registry, from: Pid, update: &Update) -> Option<RouteFault>
    ensures { result ≡ refusal names.now from update.now }
{
    let Some(attrs) = &update.attrs else {
        return None;
    };
    if let Some(fault) = attrs_refusal(names, from, attrs) {
        return Some(fault);
    }
    if is_oversize(update) {
        return Some(RouteFault::Oversize);
    }
    None
}

fn hops_in(segment: &Segment) -> usize
    ensures { result ≡ hops_of segment.now }
{
    match segment {
        Segment::Set(_) => 1,
        Segment::Sequence(asns) => asns.len(),
    }
}

/// The AS numbers in a path, where a set counts one as a whole.
// RFC 4271 9.1.2.2 a
pub fn hops(path: &[Segment]) -> u32
    requires { sum_by hops_of path.now < 2 ^ 32 }
    ensures { result ≡ sum_by hops_of path.now }
{
    let mut count: usize = 0;
    for segment in path {
        count += hops_in(segment);
    }
    count as u32
}
