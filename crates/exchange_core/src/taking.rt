//! The pairs and tags that go with what a participant was told.

ghost use Rattle.std.specs.Prelude.{◌≡◌, ◌≤◌, IfOk, length, map, filter, slice_set};
ghost use Rattle.std.specs.FinMap as map;
ghost use Rattle.fast_path.specs.Pairs.{is_told};
ghost use Rattle.net_types.specs.Sets.{union_over};
ghost use Rattle.exchange_core.specs.Taking.{all_pairs, dead_tags, pairs_at};

use advert_queue::Adverts;
use fast_path::push_pairs;
use net_types::{Memory, Pair, Pid, PortNo, Tag, ascending};
use prefix_classes::ClassMap;
use std::alloc::Global;

/// Each of the tags at each of the ports.
fn each_pair(alloc: Global, ports: &[PortNo], tags: &[Tag]) -> Result<Vec<Pair>, Memory>
    ensures { IfOk result (λ pairs. pairs.items ≡ union_over (pairs_at ports.now) tags.now) }
{
    let mut pairs = Vec::new(alloc);
    for &tag in tags {
        push_pairs(ports, tag, &mut pairs)?;
    }
    Ok(pairs)
}

/// Each of the tags at each of the ports, ascending by port, and then by tag.
pub fn pairs_of(alloc: Global, ports: &[PortNo], tags: &[Tag]) -> Result<Vec<Pair>, Memory>
    ensures { IfOk result (λ pairs. pairs.items ≡ all_pairs ports.now tags.now) }
{
    Ok(ascending(each_pair(alloc, ports, tags)?))
}

/// Whether anybody but one participant was told the tag.
fn is_told_elsewhere(adverts: &Adverts, who: Pid, tag: Tag) -> bool
    requires { length adverts.now.told ≤ 256 }
    ensures { result ≡ is_told (slice_set adverts.now.told who.0 map.empty) tag }
{
    for at in 0..adverts.len() as u32 {
        if at != who.0 && adverts.tells(Pid(at), tag) {
            return true;
        }
    }
    false
}

/// Those of the tags that no prefix has, and that nobody but one participant was told, in their order. A tag costs a look-up
/// for each participant at most.
pub fn dead_among(
    alloc: Global,
    classes: &ClassMap,
    adverts: &Adverts,
    who: Pid,
    tags: &[Tag],
) -> Result<Vec<Tag>, Memory>
    requires { length adverts.now.told ≤ 256 }
    ensures { IfOk result (λ dead. dead.items ≡ dead_tags classes.now.tag adverts.now.told who.0 tags.now) }
{
    let mut dead = Vec::new(alloc);
    for &tag in tags {
        if classes.members(tag) == 0 && !is_told_elsewhere(adverts, who, tag) {
            dead.push(tag)?;
        }
    }
    Ok(dead)
}
