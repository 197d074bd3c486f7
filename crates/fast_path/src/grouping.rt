//! The groups of the touched prefixes that need a fresh tag: those with the same tag before and the same signature after
//! share one.

ghost use Rattle.std.specs.Prelude.{◌≡◌, [], ◌∷◌, IfOk, OnOk, length};
ghost use Rattle.std.specs.List.{position_from};
ghost use Rattle.net_types.specs.Attributes.{same_option};
ghost use Rattle.events.specs.Tags.{same_tag};
ghost use Rattle.fast_path.specs.Grouping.{groups_of, is_first_class, more_groups, moved_groups, one_more, same_class};

use crate::fresh::Fresh;
use crate::group_key::GroupKey;
use crate::known::KnownClasses;
use net_types::{Memory, Prefix, Sig, Tag, TryCopy, same_items};
use ordered_map::OrderedMap;
use route_server::Proposal;
use std::alloc::Global;
use std::marker::Model;

/// Groups by their first places, each found by its tag before and its signature after: the first, which mostly is the only
/// one, by a look at it, and the others in a map. Contracts see the list of them.
#[derive(Drop)]
pub struct Groups<'a> {
    fresh: Vec<Fresh>,
    places: OrderedMap<GroupKey<'a>, usize>,
}

impl<'a> Model for Groups<'a> {
    ghost use Rattle.std.specs.Prelude.{List};
    ghost use Rattle.fast_path.specs.Grouping.{groups_of};
    ghost use Rattle.fast_path.specs.GroupOrder.{ArePlaces, behind};
    ghost use Rattle.fast_path.specs.declared.fresh.Fresh.{Fresh};

    ghost Value = { List Fresh };

    ghost view = { λ a. a.fresh.items };

    ghost invariant = { λ a. ArePlaces 1 (behind (groups_of a.fresh.items)) a.places.items };
}

/// Whether the group of a class is the one with this tag before and this signature after.
fn is_class(fresh: &Fresh, before: Option<Tag>, sig: &Sig) -> bool
    ensures { result ≡ same_class before sig.now fresh.now }
{
    same_tags(before, fresh.before) && same_items(sig.items(), fresh.sig.items())
}

/// Whether the first group is the one with this tag before and this signature after.
fn is_first(fresh: &[Fresh], before: Option<Tag>, sig: &Sig) -> bool
    ensures { result ≡ is_first_class before sig.now fresh.now }
{
    match fresh {
        [first, ..] => is_class(first, before, sig),
        [] => false,
    }
}

impl<'a> Groups<'a> {
    /// No group.
    fn new(alloc: Global) -> Groups<'a>
        ensures { result ≡ [] }
    {
        Groups {
            fresh: Vec::new(alloc),
            places: OrderedMap::new(alloc),
        }
    }

    /// How many groups there are.
    pub fn len(&self) -> usize
        ensures { result ≡ length self.now }
    {
        self.fresh.len()
    }

    /// The place of the group with this tag before and this signature after.
    pub fn place(&self, before: Option<Tag>, sig: &'a Sig) -> Option<usize>
        ensures { result ≡ position_from (same_class before sig.now) 0 self.now }
    {
        if is_first(&self.fresh, before, sig) {
            return Some(0);
        }
        self.places.get(&GroupKey::new(before, sig)).copied()
    }

    /// A group behind the others, where it isn't among them.
    fn add(&mut self, before: Option<Tag>, sig: &'a Sig) -> Result<(), Memory>
        ensures { OnOk result (groups_of self.new ≡ one_more (groups_of self.old) (record { before = before; after = sig.now })) }
    {
        if self.place(before, sig).is_some() {
            return Ok(());
        }
        let own = sig.copy()?;
        if self.fresh.is_empty() {
            self.fresh.push(Fresh { before, sig: own })?;
            return Ok(());
        }
        self.places.reserve(1)?;
        let place = self.fresh.len();
        self.fresh.push(Fresh { before, sig: own })?;
        self.places.put(GroupKey::new(before, sig), place);
        Ok(())
    }

    /// The groups alone.
    pub fn into_fresh(self) -> Vec<Fresh>
        ensures { result.items ≡ self.entry }
    {
        self.fresh
    }
}

/// Whether two tags are the same, or both absent.
pub fn same_tags(one: Option<Tag>, other: Option<Tag>) -> bool
    ensures { result ≡ same_option same_tag one other }
{
    match one {
        None => match other {
            None => true,
            Some(_) => false,
        },
        Some(one) => match other {
            None => false,
            Some(other) => one.0 == other.0,
        },
    }
}

/// The groups with that of a further prefix, where it moves.
fn consider<'a>(
    groups: &mut Groups<'a>,
    known: &KnownClasses<'_>,
    prefix: Prefix,
    sig: &'a Sig,
) -> Result<(), Memory>
    ensures { OnOk result (groups_of groups.new ≡ more_groups (groups_of groups.old) (moved_groups known.now (prefix ∷ []) (sig.now ∷ []))) }
{
    if sig.is_empty() {
        return Ok(());
    }
    let before = known.tag_of(prefix);
    if !known.is_kept(before, sig) {
        groups.add(before, sig)?;
    }
    Ok(())
}

/// The groups of the touched prefixes that move, by their first places.
pub fn groups_for<'a>(
    alloc: Global,
    known: &KnownClasses<'_>,
    proposal: &'a Proposal,
) -> Result<Groups<'a>, Memory>
    ensures { IfOk result (λ groups. groups_of groups ≡ more_groups [] (moved_groups known.now proposal.now.touched proposal.now.sigs)) }
{
    let mut groups = Groups::new(alloc);
    for (at, prefix) in proposal.touched().iter().enumerate() {
        let sig = proposal.sig(at);
        consider(&mut groups, known, *prefix, sig)?;
    }
    Ok(groups)
}
