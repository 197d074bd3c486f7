//! Committing: the classes, the pool and the table become those that were planned. It takes no memory.

ghost use Rattle.std.specs.Prelude.{◌≡◌, ◌≤◌, ◌+◌, length, true, false};
ghost use Rattle.events.specs.After.{without_pairs};
ghost use Rattle.block_build.specs.Installed.{rule_count};
ghost use Rattle.fast_path.specs.Committing.{AreFree, AreTaken, AreUnkept, AreUnused, HaveTagsBelow, block_count, given_all, kept_with, kept_without, marked_all, member_count, signed, tags_of, untagged, untagged_one, with_blocks};
ghost use Rattle.fast_path.specs.Grouping.{known_by};

use crate::planned::Class;
use block_build::{Block, Blocks};
use events::TagChange;
use net_types::{Pair, Pid, Pids, Tag};
use next_hop_pool::Pool;
use prefix_classes::{ClassMap, new_ones_are_few};

/// Where a participant's policy names others from now on, the offers of those that it doesn't name go from its parts.
pub fn trim_named(classes: &mut ClassMap, named: Option<(Pid, Pids)>)
    ensures tag { classes.new.tag ≡ classes.old.tag }
    ensures kept { classes.new.kept ≡ (known_by named classes.old).kept }
    ensures prefixes { classes.new.prefixes ≡ classes.old.prefixes }
    ensures tags { classes.new.tags ≡ classes.old.tags }
{
    if let Some((who, pids)) = named {
        classes.trim(who, pids.items());
    }
}

/// Keeps each fresh tag with its signature, and gives it to its members.
pub fn give_members(classes: &mut ClassMap, fresh: Vec<Class>)
    requires new { AreUnkept classes.old.kept (signed fresh.items) }
    requires tags { HaveTagsBelow classes.old.tags fresh.items }
    requires prefixes { member_count fresh.items ≤ classes.old.prefixes }
    ensures tag { classes.new.tag ≡ given_all classes.old.tag fresh.items }
    ensures kept { classes.new.kept ≡ kept_with classes.old.kept (signed fresh.items) }
{
    for class in fresh {
        let Class { tag, sig, members } = class;
        new_ones_are_few();
        classes.give(tag, sig, members.items());
    }
}

/// Takes the tag of a prefix that is to have none.
fn untag(classes: &mut ClassMap, change: &TagChange)
    ensures tag { classes.new.tag ≡ untagged_one classes.old.tag change.now }
    ensures kept { classes.new.kept ≡ classes.old.kept }
{
    if change.tag.is_none() {
        classes.drop_prefix(change.prefix);
    }
}

/// Takes the tags of prefixes that are to have none.
pub fn untag_all(classes: &mut ClassMap, changes: &[TagChange])
    ensures tag { classes.new.tag ≡ untagged classes.old.tag changes.now }
    ensures kept { classes.new.kept ≡ classes.old.kept }
{
    for change in changes {
        untag(classes, change);
    }
}

/// Forgets the signatures of tags that no prefix has.
pub fn forget_all(classes: &mut ClassMap, dead: &[Tag])
    requires { AreUnused classes.old.tag dead.now }
    ensures tag { classes.new.tag ≡ classes.old.tag }
    ensures kept { classes.new.kept ≡ kept_without classes.old.kept dead.now }
{
    classes.forget_each(dead);
}

/// Takes the fresh tags.
pub fn take_all(pool: &mut Pool, fresh: &[Class])
    requires { AreFree pool.old (tags_of (signed fresh.now)) }
    ensures { pool.new ≡ marked_all pool.old (tags_of (signed fresh.now)) true }
{
    for class in fresh {
        pool.take(class.tag);
    }
}

/// Gives tags back.
pub fn give_all(pool: &mut Pool, dead: &[Tag])
    requires { AreTaken pool.old dead.now }
    ensures { pool.new ≡ marked_all pool.old dead.now false }
{
    for tag in dead {
        pool.give_back(*tag);
    }
}

/// Takes the rules of pairs out.
pub fn remove_all<B: Blocks>(switch: &mut B, drops: &[Pair])
    ensures table { (B.installed switch.new).table ≡ without_pairs (B.installed switch.old).table drops.now }
    ensures capacity { (B.installed switch.new).capacity ≡ (B.installed switch.old).capacity }
    ensures room { (B.installed switch.old).room ≤ (B.installed switch.new).room }
    ensures count { rule_count (B.installed switch.new).table ≤ rule_count (B.installed switch.old).table }
{
    switch.drop_blocks(drops);
}

/// Puts the rules of pairs in.
pub fn put_all<B: Blocks>(switch: &mut B, blocks: Vec<(Pair, Block)>)
    requires room { length blocks.items ≤ (B.installed switch.old).room }
    requires few { rule_count (B.installed switch.old).table + block_count blocks.items ≤ (B.installed switch.old).capacity }
    ensures table { (B.installed switch.new).table ≡ with_blocks (B.installed switch.old).table blocks.items }
    ensures capacity { (B.installed switch.new).capacity ≡ (B.installed switch.old).capacity }
{
    for block in blocks {
        switch.swap_block(block.0, block.1);
    }
}
