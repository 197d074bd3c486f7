//! Whether attributes, or signatures, say the same.

ghost use Rattle.std.specs.Prelude.{◌≡◌, ◌&&◌, Bool, nat_eq, length};
ghost use Rattle.std.specs.Cmp.Lexicographic.{pointwise};
ghost use Rattle.std.specs.Option.{option_copied};
ghost use Rattle.net_types.specs.Attributes.{same_option, same_bool, same_ip, same_segment, same_aggregator, same_unknown, same_attrs, same_offer, same_part, same_signature};

use crate::route::{Aggregator, Attrs, Offer, Part, Segment, Unknown};

/// Values that can be told apart.
pub trait Same {
    // What `same` answers.
    ghost same: { Self → Self → Bool };

    /// Whether two values are equal.
    fn same(&self, other: &Self) -> bool
        ensures { result ≡ same self.now other.now };
}

/// Whether two lists have the same items in the same order.
pub fn same_items<T: Same>(one: &[T], other: &[T]) -> bool
    ensures { result ≡ pointwise T.same one.now other.now }
{
    if one.len() != other.len() {
        return false;
    }
    for i in 0..one.len() {
        if !one[i].same(&other[i]) {
            return false;
        }
    }
    true
}

impl Same for Segment {
    ghost same = { same_segment };

    fn same(&self, other: &Segment) -> bool {
        match self {
            Segment::Set(asns) => match other {
                Segment::Set(others) => asns.items() == others.items(),
                Segment::Sequence(_) => false,
            },
            Segment::Sequence(asns) => match other {
                Segment::Set(_) => false,
                Segment::Sequence(others) => asns.items() == others.items(),
            },
        }
    }
}

impl Same for Unknown {
    ghost same = { same_unknown };

    fn same(&self, other: &Unknown) -> bool {
        self.kind == other.kind && self.value.items() == other.value.items()
    }
}

impl Same for Offer {
    ghost same = { same_offer };

    fn same(&self, other: &Offer) -> bool {
        let holes = same_bool(self.hole, other.hole);
        self.exporter.0 == other.exporter.0 && (self.port.0 == other.port.0 && holes)
    }
}

impl Same for Part {
    ghost same = { same_part };

    fn same(&self, other: &Part) -> bool {
        let offers = same_items(self.offers.items(), other.offers.items());
        self.sender.0 == other.sender.0 && (self.best.0 == other.best.0 && offers)
    }
}

fn same_bool(one: bool, other: bool) -> bool
    ensures { result ≡ same_bool one other }
{
    if one { other } else { !other }
}

fn same_med(one: Option<u32>, other: Option<u32>) -> bool
    ensures { result ≡ same_option nat_eq one other }
{
    match one {
        None => match other {
            None => true,
            Some(_) => false,
        },
        Some(one) => match other {
            None => false,
            Some(other) => one == other,
        },
    }
}

fn is_same_aggregator(one: Aggregator, other: Aggregator) -> bool
    ensures { result ≡ same_aggregator one other }
{
    let partial = same_bool(one.partial, other.partial);
    partial && (one.asn == other.asn && one.ip.0 == other.ip.0)
}

fn same_aggregators(one: Option<Aggregator>, other: Option<Aggregator>) -> bool
    ensures { result ≡ same_option same_aggregator one other }
{
    match one {
        None => match other {
            None => true,
            Some(_) => false,
        },
        Some(one) => match other {
            None => false,
            Some(other) => is_same_aggregator(one, other),
        },
    }
}

fn same_ends(one: &Attrs, other: &Attrs) -> bool
    ensures { result ≡ (pointwise nat_eq one.now.communities other.now.communities && (same_bool one.now.communities_partial other.now.communities_partial && pointwise same_unknown one.now.unknown other.now.unknown)) }
{
    let communities = one.communities.items() == other.communities.items();
    let partial = same_bool(one.communities_partial, other.communities_partial);
    let unknown = same_items(one.unknown.items(), other.unknown.items());
    communities && (partial && unknown)
}

fn same_middles(one: &Attrs, other: &Attrs) -> bool
    ensures { result ≡ (same_option nat_eq one.now.med other.now.med && (same_bool one.now.atomic other.now.atomic && (same_option same_aggregator one.now.aggregator other.now.aggregator && (pointwise nat_eq one.now.communities other.now.communities
        && (same_bool one.now.communities_partial other.now.communities_partial && pointwise same_unknown one.now.unknown other.now.unknown))))) }
{
    let med = same_med(one.med, other.med);
    let atomic = same_bool(one.atomic, other.atomic);
    let aggregator = same_aggregators(one.aggregator, other.aggregator);
    let ends = same_ends(one, other);
    med && (atomic && (aggregator && ends))
}

/// Whether attributes say the same in each field.
pub fn same_attrs(one: &Attrs, other: &Attrs) -> bool
    ensures { result ≡ same_attrs one.now other.now }
{
    let path = same_items(one.path.items(), other.path.items());
    let middles = same_middles(one, other);
    one.origin == other.origin && (path && (one.next_hop.0 == other.next_hop.0 && middles))
}

/// The same of attributes that may be absent.
pub fn same_optional(one: Option<&Attrs>, other: Option<&Attrs>) -> bool
    ensures { result ≡ same_option same_attrs (option_copied one.entry) (option_copied other.entry) }
{
    match one {
        None => match other {
            None => true,
            Some(_) => false,
        },
        Some(one) => match other {
            None => false,
            Some(other) => same_attrs(one, other),
        },
    }
}
