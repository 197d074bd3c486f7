//! Rows of the calls.

use net_types::{Ip, Memory, Prefix, Sig, Tag};
use prefix_classes::{ClassMap, new_ones_are_few};
use std::alloc::Global;
use std::test::Fail;

fn prefix(first: u8) -> Result<Prefix, Memory> {
    Prefix::new(Ip(u32::from_be_bytes([first, 0, 0, 0])), 8).map_err(|_| Memory)
}

// Keeps a tag that isn't kept, and gives it to these prefixes.
fn give(
    classes: &mut ClassMap,
    alloc: Global,
    tag: Tag,
    members: &[Prefix],
) -> Result<bool, Memory> {
    if classes.sig_of(tag).is_some() {
        return Ok(false);
    }
    classes.reserve(members.len(), tag.0 as usize + 1)?;
    new_ones_are_few();
    classes.give(tag, Sig::new(alloc), members);
    Ok(true)
}

// Forgets a tag, where it has no members.
fn forget(classes: &mut ClassMap, tag: Tag) -> bool {
    if classes.members(tag) > 0 {
        return false;
    }
    classes.forget(tag);
    true
}

#[test]
fn members_are_counted(rt: HostRuntime) -> Result<(), Fail> {
    let mut classes = ClassMap::new(rt.alloc());
    let (ten, eleven, twelve) = (prefix(10)?, prefix(11)?, prefix(12)?);
    assert!(rt; give(&mut classes, rt.alloc(), Tag(2), &[ten, eleven])?);
    assert!(rt; !give(&mut classes, rt.alloc(), Tag(2), &[twelve])?);
    assert!(rt; give(&mut classes, rt.alloc(), Tag(1), &[eleven, twelve, twelve])?);
    for (tag, members) in [(1, 2), (2, 1), (3, 0)] {
        assert!(rt; classes.members(Tag(tag)) == members, "tag {tag}");
    }
    assert!(rt; classes.tag_of(eleven) == Some(Tag(1)));
    assert!(rt; give(&mut classes, rt.alloc(), Tag(3), &[eleven])?);
    assert!(rt; classes.members(Tag(1)) == 1);
    assert!(rt; !forget(&mut classes, Tag(1)));
    classes.drop_prefix(twelve);
    classes.drop_prefix(twelve);
    assert!(rt; classes.tag_of(twelve) == None);
    assert!(rt; classes.tagged() == 3);
    assert!(rt; forget(&mut classes, Tag(1)));
    assert!(rt; classes.tagged() == 2);
    assert!(rt; classes.sig_of(Tag(1)).is_none() && classes.sig_of(Tag(2)).is_some());
    assert!(rt; classes.members(Tag(3)) == 1);
    Ok(())
}

#[test]
fn the_next_tag_has_members(rt: HostRuntime) -> Result<(), Fail> {
    let mut classes = ClassMap::new(rt.alloc());
    let (ten, eleven) = (prefix(10)?, prefix(11)?);
    assert!(rt; give(&mut classes, rt.alloc(), Tag(5), &[ten])?);
    assert!(rt; give(&mut classes, rt.alloc(), Tag(2), &[eleven])?);
    assert!(rt; give(&mut classes, rt.alloc(), Tag(3), &[])?);
    for (after, next) in [
        (None, Some(2)),
        (Some(1), Some(2)),
        (Some(2), Some(5)),
        (Some(5), None),
    ] {
        assert!(rt;
            classes.next_tag(after.map(Tag)) == next.map(Tag),
            "behind {after:?}"
        );
    }
    Ok(())
}
