//! What the attributes of a message say, and the update that comes of them.

ghost use Rattle.std.specs.Prelude.{◌≡◌, [], OnOk, IfOk, Result};
ghost use Rattle.std.specs.List.{fold};
ghost use Rattle.std.specs.List.Sorted.{IsPermutation, IsNonDecreasingBy};
ghost use Rattle.net_types.specs.UpdateFormat.{Parts, no_types};
ghost use Rattle.net_types.specs.UpdateValue.{nothing_said, said, with_attribute};
ghost use Rattle.net_types.specs.declared.route.Unknown.{Unknown as Foreign};
ghost use Rattle.bgp_update.specs.Answers.{AreGiven, AreNew, IsFinished, IsWhole, parts_of, said_view};

use crate::fault::UpdateFault;
use crate::paths::whole_path;
use crate::prefixes::without;
use net_types::{
    Aggregator, Attribute, Attrs, Fault, Ip, Items, Memory, Numbers, Prefix, Segments, Unknown,
    Update, ascending,
};
use std::alloc::Global;

/// What attributes say, whichever of them are there.
#[derive(Drop)]
pub struct Said {
    origin: Option<u8>,
    path: Option<Segments>,
    wide: Option<Segments>,
    next_hop: Option<Ip>,
    med: Option<u32>,
    atomic: bool,
    aggregator: Option<Aggregator>,
    communities: Numbers,
    communities_partial: bool,
    unknown: Vec<Unknown>,
}

impl Said {
    fn nothing(alloc: Global) -> Said
        ensures { said_view result ≡ nothing_said }
    {
        Said {
            origin: None,
            path: None,
            wide: None,
            next_hop: None,
            med: None,
            atomic: false,
            aggregator: None,
            communities: Items::new(alloc),
            communities_partial: false,
            unknown: Vec::new(alloc),
        }
    }

    /// One attribute more.
    fn add(&mut self, attribute: Attribute) -> Result<(), Memory>
        ensures { OnOk result (said_view self.new ≡ with_attribute (said_view self.old) attribute) }
    {
        match attribute {
            Attribute::Origin(origin) => self.origin = Some(origin),
            Attribute::AsPath(path) => self.path = Some(path),
            Attribute::NextHop(ip) => self.next_hop = Some(ip),
            Attribute::MultiExitDisc(med) => self.med = Some(med),
            Attribute::LocalPref | Attribute::Ignored(_) => {}
            Attribute::AtomicAggregate => self.atomic = true,
            Attribute::Aggregator(aggregator) => self.aggregator = Some(aggregator),
            Attribute::Communities(partial, communities) => {
                self.communities_partial = partial && !communities.is_empty();
                self.communities = communities;
            }
            Attribute::As4Path(path) => self.wide = Some(path),
            Attribute::Unknown(unknown) => self.unknown.push(unknown)?,
        }
        Ok(())
    }
}

/// What all attributes say.
fn collected(alloc: Global, attributes: Vec<Attribute>) -> Result<Said, Memory>
    ensures { IfOk result (λ s. said_view s ≡ said attributes.items) }
{
    let mut said = Said::nothing(alloc);
    for attribute in attributes {
        said.add(attribute)?;
    }
    Ok(said)
}

/// The same attributes, ascending by type.
fn by_type(list: Vec<Unknown>) -> Vec<Unknown>
    ensures moved { IsPermutation list.items result.items }
    ensures sorted { IsNonDecreasingBy (λ (u : Foreign). u.kind) result.items }
{
    let mut sorted = list;
    sorted.sort_unstable_by_key(|unknown| unknown.kind);
    sorted
}

/// The attributes of a route, of which three may not be missing.
fn whole(alloc: Global, said: Said) -> Result<Attrs, UpdateFault>
    ensures { IsWhole (said_view said) result }
{
    let (Some(origin), Some(path), Some(next_hop)) = (said.origin, said.path, said.next_hop) else {
        return Err(UpdateFault::Bad(Fault::MissingWellKnown));
    };
    let path = whole_path(alloc, path, said.wide)?;
    Ok(Attrs {
        origin,
        path,
        next_hop,
        med: said.med,
        atomic: said.atomic,
        aggregator: said.aggregator,
        communities: said.communities,
        communities_partial: said.communities_partial,
        unknown: Items::from_vec(by_type(said.unknown)),
    })
}

/// The attributes, where something is announced.
fn attrs(alloc: Global, announced: &[Prefix], said: Said) -> Result<Option<Attrs>, UpdateFault>
    ensures { AreGiven (said_view said) announced.now result }
{
    if announced.is_empty() {
        return Ok(None);
    }
    match whole(alloc, said) {
        Ok(attrs) => Ok(Some(attrs)),
        Err(fault) => Err(fault),
    }
}

/// The update of a message's parts.
pub fn update(
    alloc: Global,
    withdrawn: Vec<Prefix>,
    attributes: Vec<Attribute>,
    announced: Vec<Prefix>,
) -> Result<Update, UpdateFault>
    requires { AreNew no_types attributes.items }
    ensures { IsFinished (parts_of withdrawn.items attributes.items announced.items) result }
{
    let announced = ascending(announced);
    let withdrawn = Items::from_vec(without(withdrawn, announced.as_slice()));
    let said = collected(alloc, attributes)?;
    match attrs(alloc, announced.as_slice(), said) {
        Ok(attrs) => Ok(Update {
            withdrawn,
            attrs,
            announced: Items::from_vec(announced),
        }),
        Err(fault) => Err(fault),
    }
}
