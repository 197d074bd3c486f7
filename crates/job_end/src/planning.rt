//! Planning the end of a job: the tags that the moves leave, the pairs that go with them, and the pairs that get other rules.

ghost use Rattle.std.specs.Prelude.{◌≡◌, length, map, IfOk};
ghost use Rattle.events.specs.State.{State};
ghost use Rattle.fast_path.specs.Emptied.{old_tags};
ghost use Rattle.job_end.specs.Drafts.{IsDraft, told_change};
ghost use Rattle.job_end.specs.Ends.{IsEnd, IsEnding, IsEndingFor};
ghost use Rattle.net_types.specs.Keys.{tag_cmp};
ghost use Rattle.net_types.specs.Maps.{ordered};

use crate::changed::{built_flows, changed_pairs};
use crate::ended::End;
use crate::offering::offers_of;
use advert_queue::Adverts;
use block_build::Blocks;
use events::{TagChange, TagChanges};
use fast_path::{dropped_pairs, gone_pairs, old_tags, untold};
use net_types::{Items, Memory, Prefix, Tag, ascending};
use prefix_classes::ClassMap;
use recompile::Swap;
use registry::Registry;
use std::alloc::Global;

/// The moves as a reply tells them.
fn tag_changes(alloc: Global, moves: &[(Prefix, Tag)]) -> Result<TagChanges, Memory>
    ensures { IfOk result (λ tags. tags ≡ map told_change moves.now) }
{
    let mut tags = Items::from_vec(Vec::with_capacity(alloc, moves.len())?);
    for &(prefix, least) in moves {
        tags.push(TagChange {
            prefix,
            tag: Some(least),
        })?;
    }
    Ok(tags)
}

/// The tags that the moved prefixes had, ascending. No prefix has one of them any more, since all of its members move.
fn left_tags(alloc: Global, classes: &ClassMap, tags: &[TagChange]) -> Result<Vec<Tag>, Memory>
    ensures { IfOk result (λ left. left.items ≡ ordered tag_cmp (old_tags classes.now.tag tags.now)) }
{
    let old = old_tags(alloc, classes, tags)?;
    Ok(ascending(old))
}

/// Each part of an end, as it is found.
fn drafted<B: Blocks>(
    alloc: Global,
    names: &Registry,
    classes: &ClassMap,
    adverts: &Adverts,
    switch: &B,
    swap: &Swap,
) -> Result<End, Memory>
    requires { length names.now.participants ≡ length adverts.now.told }
    ensures { IfOk result (IsDraft names.now classes.now adverts.now (B.installed switch.now).table swap.now) }
{
    let moves = swap.moves.list();
    let tags = tag_changes(alloc, moves)?;
    let left = left_tags(alloc, classes, tags.items())?;
    let dead = untold(alloc, adverts, &left)?;
    let gone = gone_pairs(alloc, names, classes, adverts, &left, &dead)?;
    let changed = changed_pairs(alloc, switch, &swap.built, gone.items())?;
    let drops = dropped_pairs(alloc, gone.items(), changed.items())?;
    let adds = built_flows(alloc, &swap.built, changed.items())?;
    let offers = offers_of(alloc, names, adverts, moves)?;
    Ok(End {
        tags,
        gone,
        changed,
        drops,
        adds,
        dead,
        offers,
    })
}

/// What the end of a job does, by what the job ends with. Memory is the only refusal.
pub fn plan_end<B: Blocks>(
    alloc: Global,
    names: &Registry,
    classes: &ClassMap,
    adverts: &Adverts,
    switch: &B,
    swap: &Swap,
) -> Result<End, Memory>
    requires { IsEndingFor names.now classes.now adverts.now (B.installed switch.now) swap.now }
    ensures { (s : State) → IsEnding s names.now classes.now adverts.now (B.installed switch.now) swap.now → IfOk result (IsEnd s swap.now) }
{
    let end = drafted(alloc, names, classes, adverts, switch, swap)?;
    Ok(end)
}
