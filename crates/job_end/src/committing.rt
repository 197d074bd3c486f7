//! Committing the end of a job: it takes no memory, so it can't be refused.

ghost use Rattle.std.specs.Prelude.{◌≡◌, length, false, OnOk};
ghost use Rattle.fast_path.specs.Committing.{kept_without, marked_all};
ghost use Rattle.fast_path.specs.Offers.{AreTo, HaveRoom, offered_all};
ghost use Rattle.job_end.specs.Committing.{CanEnd};
ghost use Rattle.job_end.specs.Rebuilt.{table_with};
ghost use Rattle.prefix_classes.specs.Merging.{moved};

use crate::ended::End;
use crate::swapping::swap_all;
use advert_queue::Adverts;
use block_build::Blocks;
use fast_path::{Changes, forget_all, give_all, offer_all, remove_all, reserve_all};
use net_types::Memory;
use next_hop_pool::Pool;
use prefix_classes::ClassMap;
use recompile::Swap;
use registry::Registry;
use std::alloc::Global;

/// Makes room for what the end of a job offers to the participants, and changes nothing else. No prefix, tag or pair is new,
/// so nothing else needs room.
pub fn reserve_end(
    alloc: Global,
    names: &Registry,
    end: &End,
    adverts: &mut Adverts,
) -> Result<(), Memory>
    requires declared { length names.now.participants ≡ length adverts.old.told }
    requires known { AreTo (length adverts.old.told) end.now.offers.items }
    ensures told { adverts.new.told ≡ adverts.old.told }
    ensures present { adverts.new.present ≡ adverts.old.present }
    ensures offers { OnOk result (HaveRoom adverts.new end.now.offers.items) }
{
    reserve_all(alloc, names, adverts, &end.offers)
}

/// The classes, the pool, the table and the adverts become those at the end of a job. What the end says of tags and rules is
/// given back.
pub fn commit_end<B: Blocks>(
    end: End,
    swap: Swap,
    classes: &mut ClassMap,
    pool: &mut Pool,
    switch: &mut B,
    adverts: &mut Adverts,
) -> Changes
    requires { CanEnd swap end classes.old pool.old (B.installed switch.old) adverts.old }
    ensures tag { classes.new.tag ≡ moved classes.old.tag swap.moves }
    ensures kept { classes.new.kept ≡ kept_without classes.old.kept end.dead.items }
    ensures pool { pool.new ≡ marked_all pool.old end.dead.items false }
    ensures table { (B.installed switch.new).table ≡ table_with (B.installed switch.old).table swap.built end.gone end.changed }
    ensures capacity { (B.installed switch.new).capacity ≡ (B.installed switch.old).capacity }
    ensures told { adverts.new.told ≡ adverts.old.told }
    ensures present { adverts.new.present ≡ offered_all adverts.old.present end.offers.items }
    ensures changes { result ≡ record { tags = end.tags; drops = end.drops; adds = end.adds } }
{
    let End {
        tags,
        gone,
        changed,
        drops,
        adds,
        dead,
        offers,
    } = end;
    let Swap { moves, built } = swap;
    classes.merge(moves);
    forget_all(classes, &dead);
    give_all(pool, &dead);
    remove_all(switch, gone.items());
    swap_all(switch, built, changed.items());
    offer_all(adverts, offers);
    Changes { tags, drops, adds }
}
