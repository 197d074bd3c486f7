//! Committing a plan: it takes no memory, so it can't be refused.

ghost use Rattle.std.specs.Prelude.{◌≡◌, ◌≤◌, length, true, false, OnOk};
ghost use Rattle.events.specs.After.{without_pairs};
ghost use Rattle.fast_path.specs.Committing.{CanCommit, HaveTagsBelow, kept_with, kept_without, marked_all, signed, tags_of, tags_with, with_blocks};
ghost use Rattle.fast_path.specs.Grouping.{known_by};
ghost use Rattle.fast_path.specs.Offers.{AreTo, HaveRoom, offered_all};

use crate::offering::{offer_all, reserve_all};
use crate::parts::{
    forget_all, give_all, give_members, put_all, remove_all, take_all, trim_named, untag_all,
};
use crate::planned::{Changes, Class, Plan};
use advert_queue::Adverts;
use block_build::Blocks;
use net_types::Memory;
use next_hop_pool::Pool;
use prefix_classes::ClassMap;
use registry::Registry;
use std::alloc::Global;

/// A number above those of all fresh tags.
fn above_all(fresh: &[Class]) -> usize
    ensures { HaveTagsBelow result fresh.now }
{
    let mut most = 0;
    for class in fresh {
        most = most.max(class.tag.0 as usize + 1);
    }
    most
}

/// Makes room for what a plan puts into the classes and offers to the participants, and changes nothing else. The rules need
/// room in the table besides, for as many new pairs as the plan has blocks.
pub fn reserve(
    alloc: Global,
    names: &Registry,
    plan: &Plan,
    classes: &mut ClassMap,
    adverts: &mut Adverts,
) -> Result<(), Memory>
    requires declared { length names.now.participants ≡ length adverts.old.told }
    requires known { AreTo (length adverts.old.told) plan.now.offers.items }
    ensures tag { classes.new.tag ≡ classes.old.tag }
    ensures kept { classes.new.kept ≡ classes.old.kept }
    ensures told { adverts.new.told ≡ adverts.old.told }
    ensures present { adverts.new.present ≡ adverts.old.present }
    ensures prefixes { OnOk result (length plan.now.tags ≤ classes.new.prefixes) }
    ensures tags { OnOk result (HaveTagsBelow classes.new.tags plan.now.fresh.items) }
    ensures offers { OnOk result (HaveRoom adverts.new plan.now.offers.items) }
{
    classes.reserve(plan.tags.len(), above_all(&plan.fresh))?;
    reserve_all(alloc, names, adverts, &plan.offers)
}

/// The classes, the pool, the table and the adverts become those that were planned. What the plan says of tags and rules is
/// given back.
pub fn commit<B: Blocks>(
    plan: Plan,
    classes: &mut ClassMap,
    pool: &mut Pool,
    switch: &mut B,
    adverts: &mut Adverts,
) -> Changes
    requires { CanCommit plan classes.old pool.old (B.installed switch.old) adverts.old }
    ensures tag { classes.new.tag ≡ tags_with classes.old.tag plan.tags }
    ensures kept { classes.new.kept ≡ kept_without (kept_with (known_by plan.named classes.old).kept (signed plan.fresh.items)) plan.dead.items }
    ensures pool { pool.new ≡ marked_all (marked_all pool.old (tags_of (signed plan.fresh.items)) true) plan.dead.items false }
    ensures table { (B.installed switch.new).table ≡ with_blocks (without_pairs (B.installed switch.old).table plan.drops) plan.blocks.items }
    ensures capacity { (B.installed switch.new).capacity ≡ (B.installed switch.old).capacity }
    ensures told { adverts.new.told ≡ adverts.old.told }
    ensures present { adverts.new.present ≡ offered_all adverts.old.present plan.offers.items }
    ensures changes { result ≡ record { tags = plan.tags; drops = plan.drops; adds = plan.adds } }
{
    let Plan {
        tags,
        drops,
        adds,
        blocks,
        fresh,
        dead,
        offers,
        named,
        ..
    } = plan;
    trim_named(classes, named);
    take_all(pool, &fresh);
    give_all(pool, &dead);
    give_members(classes, fresh);
    untag_all(classes, tags.items());
    forget_all(classes, &dead);
    remove_all(switch, drops.items());
    put_all(switch, blocks);
    offer_all(adverts, offers);
    Changes { tags, drops, adds }
}
