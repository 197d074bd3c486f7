//! The fresh tags of a line, each with the signature of its group and the prefixes that get it.

ghost use Rattle.std.specs.Prelude.{◌≡◌, [], map, IfOk, OnOk};
ghost use Rattle.net_types.specs.Sets.{IsRising};
ghost use Rattle.fast_path.specs.Building.{AreInOrder};
ghost use Rattle.fast_path.specs.Committing.{classes_of, kept_of};
ghost use Rattle.fast_path.specs.Members.{joined};
ghost use Rattle.fast_path.specs.Planned.{is_tag_below};
ghost use Rattle.fast_path.specs.declared.fresh.Fresh.{Fresh as AnyFresh};

use crate::fresh::Fresh;
use crate::planned::Class;
use events::TagChange;
use net_types::{Items, Memory, Tag};
use std::alloc::Global;

/// The fresh tags with the signatures of their groups, without prefixes.
fn without_members(alloc: Global, groups: Vec<Fresh>, tags: &[Tag]) -> Result<Vec<Class>, Memory>
    ensures { IfOk result (λ classes. classes.items ≡ classes_of [] (kept_of tags.now (map (λ (f : AnyFresh). f.sig) groups.items))) }
{
    let mut classes = Vec::with_capacity(alloc, tags.len())?;
    let mut left = groups.into_iter();
    for tag in tags {
        let Some(group) = left.next() else {
            return Ok(classes);
        };
        classes.push(Class {
            tag: *tag,
            sig: group.sig,
            members: Items::new(alloc),
        })?;
    }
    Ok(classes)
}

/// Gives the prefix of a change to the class of its tag, where there is one.
fn join(classes: &mut [Class], change: TagChange) -> Result<(), Memory>
    requires { AreInOrder classes.old }
    ensures { OnOk result (classes.new ≡ map (joined change) classes.old) }
{
    let Some(tag) = change.tag else {
        return Ok(());
    };
    if let Ok(at) = classes.binary_search_by_key(&tag, |class| class.tag) {
        classes[at].members.push(change.prefix)?;
    }
    Ok(())
}

/// The fresh tags with the signatures of their groups and the prefixes that get them.
pub fn with_tags(
    alloc: Global,
    groups: Vec<Fresh>,
    tags: &[Tag],
    changes: &[TagChange],
) -> Result<Vec<Class>, Memory>
    requires { IsRising is_tag_below tags.now }
    ensures { IfOk result (λ fresh. fresh.items ≡ classes_of changes.now (kept_of tags.now (map (λ (f : AnyFresh). f.sig) groups.items))) }
{
    let mut classes = without_members(alloc, groups, tags)?;
    for change in changes {
        join(&mut classes, *change)?;
    }
    Ok(classes)
}
