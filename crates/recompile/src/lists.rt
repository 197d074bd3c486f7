//! The lists of what may be still to do.

ghost use Rattle.std.specs.Prelude.{◌≡◌, ◌≤◌, ◌++◌, [], true, false, length, Some, IfNone, IfOk, IfSome, OnErr, OnOk};
ghost use Rattle.std.specs.FinMap.{get};
ghost use Rattle.net_types.specs.Sets.{Member};
ghost use Rattle.net_types.specs.declared.address.Tag.{Tag as AnyTag};
ghost use Rattle.prefix_classes.specs.Classes.{members};
ghost use Rattle.recompile.specs.Covering.{IsTagToDo};
ghost use Rattle.recompile.specs.Units.{AreListable, AreListed, HasRules, IsLast, KeepsThose, without_each};

use block_build::Blocks;
use net_types::{Memory, Pair, Pairs, Rule, Tag};
use prefix_classes::{ClassMap, Grouping};

/// The tags with members, and fresh ones.
pub(crate) fn tags_with(classes: &ClassMap, fresh: &[Tag]) -> Result<Vec<Tag>, Memory>
    ensures used { IfOk result (λ tags. AreListed classes.now.tag tags.items) }
    ensures fresh { IfOk result (λ tags. (t : AnyTag) → Member t fresh.now → Member t tags.items) }
{
    let mut tags = classes.used_tags()?;
    tags.extend_from_slice(fresh)?;
    Ok(tags)
}

/// The most pairs that a job lists: more than any memory holds. With as many tags it owes no more than the most units.
const MOST_PAIRS: usize = 1 << 49;

/// The pairs of a table as a list. More than the most are refused like want of memory.
pub(crate) fn listed(pairs: Pairs) -> Result<Vec<Pair>, Memory>
    ensures { IfOk result (λ listed. (listed.items ≡ pairs) × AreListable listed.items) }
{
    if pairs.len() > MOST_PAIRS {
        return Err(Memory);
    }
    Ok(pairs.into_vec())
}

/// Puts pairs last. More than the most are refused like want of memory.
fn push_pairs(pairs: &mut Vec<Pair>, added: &[Pair]) -> Result<(), Memory>
    ensures pairs { OnOk result (pairs.new.items ≡ pairs.old.items ++ added.now) }
    ensures few { OnOk result (AreListable pairs.new.items) }
    ensures same { OnErr result (pairs.new.items ≡ pairs.old.items) }
{
    if pairs.len().saturating_add(added.len()) > MOST_PAIRS {
        return Err(Memory);
    }
    pairs.extend_from_slice(added)?;
    Ok(())
}

/// Puts tags and pairs last, or after want of memory neither.
pub(crate) fn push_both(
    tags: &mut Vec<Tag>,
    pairs: &mut Vec<Pair>,
    fresh: &[Tag],
    added: &[Pair],
) -> Result<(), Memory>
    ensures tags { OnOk result (tags.new.items ≡ tags.old.items ++ fresh.now) }
    ensures pairs { OnOk result (pairs.new.items ≡ pairs.old.items ++ added.now) }
    ensures few { OnOk result (AreListable pairs.new.items) }
    ensures same_tags { OnErr result (tags.new.items ≡ tags.old.items) }
    ensures same_pairs { OnErr result (pairs.new.items ≡ pairs.old.items) }
{
    let before = tags.len();
    tags.extend_from_slice(fresh)?;
    if push_pairs(pairs, added).is_err() {
        tags.truncate(before);
        return Err(Memory);
    }
    Ok(())
}

/// Makes room for placing tags, so that a unit takes no longer where there are many.
pub(crate) fn reserve_each(placed: &mut Grouping, tags: &[Tag]) -> Result<(), Memory>
    ensures { placed.new ≡ placed.old }
{
    for &tag in tags {
        placed.reserve(tag)?;
    }
    Ok(())
}

/// Takes tags out of a grouping.
pub(crate) fn take_out_each(placed: &mut Grouping, tags: &[Tag])
    ensures { placed.new ≡ without_each tags.now placed.old }
{
    for &tag in tags {
        placed.take_out(tag);
    }
}

/// Whether a tag has members and isn't placed.
fn is_tag_to_do(placed: &Grouping, classes: &ClassMap, tag: Tag) -> bool
    ensures yes { result ≡ true → IsTagToDo classes.now.tag placed.now tag }
    ensures no { result ≡ false → ¬ IsTagToDo classes.now.tag placed.now tag }
{
    classes.members(tag) > 0 && !placed.has(tag)
}

/// The last tag that is still to do; those that come after it in the list and aren't any more are taken out.
pub(crate) fn tag_to_do(tags: &mut Vec<Tag>, placed: &Grouping, classes: &ClassMap) -> Option<Tag>
    ensures one { IfSome result (IsTagToDo classes.now.tag placed.now) }
    ensures last { IfSome result (IsLast tags.new.items) }
    ensures none { IfNone result (tags.new.items ≡ []) }
    ensures kept { KeepsThose (IsTagToDo classes.now.tag placed.now) tags.old.items tags.new.items }
{
    while let Some(&tag) = tags.last() {
        if is_tag_to_do(placed, classes, tag) {
            return Some(tag);
        }
        tags.pop();
    }
    None
}

/// The last pair of a list that has rules, with these; those that come after it and have none are taken out.
pub(crate) fn pair_to_do<'s, B: Blocks>(
    pairs: &mut Vec<Pair>,
    switch: &'s B,
) -> Option<(Pair, &'s [Rule])>
    ensures found { IfSome result (λ found. get (B.installed switch.now).table found.0 ≡ Some found.1.now) }
    ensures last { IfSome result (λ found. IsLast pairs.new.items found.0) }
    ensures none { IfNone result (pairs.new.items ≡ []) }
    ensures kept { KeepsThose (HasRules (B.installed switch.now).table) pairs.old.items pairs.new.items }
    ensures fewer { length pairs.new.items ≤ length pairs.old.items }
{
    while let Some(&pair) = pairs.last() {
        if let Some(rules) = switch.rules_of(pair) {
            return Some((pair, rules));
        }
        pairs.pop();
    }
    None
}
