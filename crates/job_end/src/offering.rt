//! What becomes present of the prefixes that move: what is present of them, with their new tags.

ghost use Rattle.std.specs.Prelude.{◌≡◌, ◌++◌, length, IfOk, OnOk};
ghost use Rattle.advert_queue.specs.Advertised.{HasQueue};
ghost use Rattle.fast_path.specs.Offers.{declared_pids};
ghost use Rattle.job_end.specs.Offers.{offers_at, offers_of, offers_to};
ghost use Rattle.net_types.specs.Sets.{union_over};

use advert_queue::Adverts;
use events::Entry;
use fast_path::Advert;
use net_types::{Memory, Pid, Prefix, Tag, TryCopy};
use registry::Registry;
use std::alloc::Global;

/// Puts what a participant is offered of a moved prefix last. The offer is a further owner of the attributes.
fn offer(
    adverts: &Adverts,
    who: Pid,
    moved: (Prefix, Tag),
    offers: &mut Vec<Advert>,
) -> Result<(), Memory>
    requires { HasQueue adverts.now who }
    ensures { OnOk result (offers.new.items ≡ offers.old.items ++ offers_to adverts.now.present who moved) }
{
    let (prefix, tag) = moved;
    let Some(present) = adverts.present(who, prefix) else {
        return Ok(());
    };
    let attrs = present.attrs.copy()?;
    let entry = Some(Entry { attrs, tag });
    offers.push(Advert { who, prefix, entry })?;
    Ok(())
}

/// Puts what a participant is offered of the prefixes that move last, in their order.
fn offer_each(
    adverts: &Adverts,
    who: Pid,
    moves: &[(Prefix, Tag)],
    offers: &mut Vec<Advert>,
) -> Result<(), Memory>
    requires { HasQueue adverts.now who }
    ensures { OnOk result (offers.new.items ≡ offers.old.items ++ offers_at adverts.now.present moves.now who) }
{
    offers.reserve(moves.len())?;
    for &moved in moves {
        offer(adverts, who, moved, offers)?;
    }
    Ok(())
}

/// What the participants are offered of the prefixes that move, one after the other.
pub fn offers_of(
    alloc: Global,
    names: &Registry,
    adverts: &Adverts,
    moves: &[(Prefix, Tag)],
) -> Result<Vec<Advert>, Memory>
    requires { length names.now.participants ≡ length adverts.now.told }
    ensures { IfOk result (λ offers. offers.items ≡ offers_of adverts.now.present (declared_pids names.now) moves.now) }
{
    let count = names.participants().len() as u32;
    let mut offers = Vec::new(alloc);
    for number in 0..count {
        offer_each(adverts, Pid(number), moves, &mut offers)?;
    }
    Ok(offers)
}
