//! The tags that no prefix has any more once changes are made.

ghost use Rattle.std.specs.Prelude.{◌≡◌, IfOk, IsPermutation, count_by};
ghost use Rattle.std.specs.List.Sorted.{IsNonDecreasingBy};
ghost use Rattle.events.specs.Tags.{same_tag};
ghost use Rattle.net_types.specs.declared.address.Tag.{Tag as AnyTag};
ghost use Rattle.net_types.specs.Keys.{tag_cmp};
ghost use Rattle.net_types.specs.Maps.{ordered};
ghost use Rattle.fast_path.specs.Emptied.{emptied_of, old_tags};

use events::TagChange;
use net_types::{Memory, Tag, ascending};
use prefix_classes::ClassMap;
use std::alloc::Global;

/// The tags that the changed prefixes had, in order of the changes. Memory is the only refusal.
pub fn old_tags(
    alloc: Global,
    classes: &ClassMap,
    changes: &[TagChange],
) -> Result<Vec<Tag>, Memory>
    ensures { IfOk result (λ tags. tags.items ≡ old_tags classes.now.tag changes.now) }
{
    let mut tags = Vec::new(alloc);
    for change in changes {
        if let Some(tag) = classes.tag_of(change.prefix) {
            tags.push(tag)?;
        }
    }
    Ok(tags)
}

/// The same tags, ascending, as often as they stand there.
fn sorted(mut tags: Vec<Tag>) -> Vec<Tag>
    ensures moved { IsPermutation tags.items result.items }
    ensures sorted { IsNonDecreasingBy (λ (t : AnyTag). t.0) result.items }
{
    tags.sort_unstable_by_key(|tag| tag.0);
    tags
}

/// How often the tag stands among ascending tags.
fn count_of(tags: &[Tag], tag: Tag) -> usize
    requires { IsNonDecreasingBy (λ (t : AnyTag). t.0) tags.now }
    ensures { result ≡ count_by (same_tag tag) tags.now }
{
    let below = tags.partition_point(|other| other.0 < tag.0);
    let through = tags.partition_point(|other| other.0 <= tag.0);
    through - below
}

/// The same tags, ascending, each once.
fn each_once(alloc: Global, tags: &[Tag]) -> Result<Vec<Tag>, Memory>
    ensures { IfOk result (λ once. once.items ≡ ordered tag_cmp tags.now) }
{
    let copied = Vec::from_slice(alloc, tags)?;
    Ok(ascending(copied))
}

/// Those of the tags that changed prefixes had, as often as they had them, that no other prefix has, ascending, each once.
/// Memory is the only refusal.
pub fn emptied(alloc: Global, classes: &ClassMap, left: Vec<Tag>) -> Result<Vec<Tag>, Memory>
    ensures { IfOk result (λ emptied. emptied.items ≡ emptied_of classes.now.tag left.items) }
{
    let old = sorted(left);
    let once = each_once(alloc, &old)?;
    let mut emptied = Vec::new(alloc);
    for &tag in &once {
        if count_of(&old, tag) == classes.members(tag) {
            emptied.push(tag)?;
        }
    }
    Ok(emptied)
}
