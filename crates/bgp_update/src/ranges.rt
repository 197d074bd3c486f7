//! That the numbers of an update are in the ranges of their types. Nothing is done for it.

ghost use Rattle.std.specs.Prelude.{◌<◌};
ghost use Rattle.bgp_update.specs.RoundTrip.{FitAttrs, FitOptional, FitsAggregator, FitsMed};
ghost use Rattle.net_types.specs.Sets.{Each};

use net_types::{Aggregator, Attrs};

fn med_fits(med: Option<u32>)
    ensures { FitsMed med }
{
    match med {
        None => {}
        Some(_med) => {}
    }
}

fn aggregator_fits(aggregator: Option<Aggregator>)
    ensures { FitsAggregator aggregator }
{
    match aggregator {
        None => {}
        Some(_aggregator) => {}
    }
}

fn communities_fit(communities: &[u32])
    ensures { Each (λ n. n < 4294967296) communities.now }
{}

fn attrs_fit(attrs: &Attrs)
    ensures { FitAttrs attrs.now }
{
    med_fits(attrs.med);
    aggregator_fits(attrs.aggregator);
    communities_fit(attrs.communities.items());
}

pub fn optional_fit(attrs: &Option<Attrs>)
    ensures { FitOptional attrs.now }
{
    match attrs {
        None => {}
        Some(attrs) => attrs_fit(attrs),
    }
}
