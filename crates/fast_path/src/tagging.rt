//! The fresh tags of groups, the tags of the touched prefixes afterwards, and those that become others.

ghost use Rattle.std.specs.Prelude.{◌≡◌, ◌≤◌, length, take, IfOk};
ghost use Rattle.next_hop_pool.specs.Free.{free_tags};
ghost use Rattle.fast_path.specs.Grouping.{tag_after};
ghost use Rattle.fast_path.specs.Offers.{tagged};

use crate::grouping::Groups;
use crate::known::KnownClasses;
use events::{TagChange, TagChanges};
use net_types::{Items, Memory, Prefix, Sig, Tag};
use next_hop_pool::Pool;
use route_server::Proposal;
use std::alloc::Global;

/// So many free tags, the least ones, ascending.
pub fn fresh_tags(alloc: Global, pool: &Pool, count: usize) -> Result<Vec<Tag>, Memory>
    requires { count ≤ length (free_tags pool.now) }
    ensures { IfOk result (λ tags. tags.items ≡ take count (free_tags pool.now)) }
{
    let mut tags = Vec::with_capacity(alloc, count)?;
    let mut last = None;
    while tags.len() < count {
        last = pool.next_free(last);
        match last {
            Some(tag) => tags.push(tag)?,
            None => unreachable!(),
        }
    }
    Ok(tags)
}

/// The tag of a prefix with this signature: the one that it has where the signature is kept for it, or else that of its
/// class; none where nobody has a best route.
fn tag_after<'a>(
    known: &KnownClasses<'_>,
    groups: &Groups<'a>,
    tags: &[Tag],
    prefix: Prefix,
    sig: &'a Sig,
) -> Option<Tag>
    ensures { result ≡ tag_after known.now groups.now tags.now prefix sig.now }
{
    if sig.is_empty() {
        return None;
    }
    let before = known.tag_of(prefix);
    if known.is_kept(before, sig) {
        return before;
    }
    let place = groups.place(before, sig)?;
    tags.get(place).copied()
}

/// The touched prefixes, each with its tag afterwards, in order.
pub fn tagged<'a>(
    alloc: Global,
    known: &KnownClasses<'_>,
    proposal: &'a Proposal,
    groups: &Groups<'a>,
    tags: &[Tag],
) -> Result<TagChanges, Memory>
    ensures { IfOk result (λ all. all ≡ tagged known.now groups.now tags.now proposal.now.touched proposal.now.sigs) }
{
    let touched = proposal.touched();
    let mut all = Items::from_vec(Vec::with_capacity(alloc, touched.len())?);
    for (at, prefix) in touched.iter().enumerate() {
        let tag = tag_after(known, groups, tags, *prefix, proposal.sig(at));
        all.push(TagChange {
            prefix: *prefix,
            tag,
        })?;
    }
    Ok(all)
}
