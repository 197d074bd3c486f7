//! The tags that go with what a participant was told.

ghost use Rattle.std.specs.Prelude.{◌≡◌, ◌<◌, ◌+◌, ◌^◌, None, IfOk, IsTrue, OnOk, map, filter, take};
ghost use Rattle.std.specs.FinMap.{get};
ghost use Rattle.std.specs.FinMap.Entries.{is_sorted};
ghost use Rattle.net_types.specs.Keys.{tag_cmp};
ghost use Rattle.net_types.specs.declared.address.Tag.{Tag as AnyTag};
ghost use Rattle.advert_queue.specs.Changes.{tag_in};
ghost use Rattle.advert_queue.specs.Counts.{AreCounts, AreUsed, IsRecounted, by_side, counted, entry_tag};
ghost use Rattle.advert_queue.specs.declared.counts.Side.TheVariants.{Told};
ghost use Rattle.advert_queue.specs.Leaving.{is_gone, left, none_present};

use crate::changes::News;
use crate::counts::{Counts, Recount, Side, Uses, one_use, uses_of};
use events::Entry;
use net_types::{Memory, Prefix, Tag};
use ordered_map::OrderedMap;
use prefix_map::PrefixMap;
use std::alloc::Global;

/// How many of some prefixes were told each tag.
pub(crate) type Leaving = OrderedMap<Tag, Uses>;

/// Counts the tag that a prefix was told, if any.
fn count_told(counts: &mut Leaving, told: &PrefixMap<Entry>, prefix: Prefix) -> Result<(), Memory>
    requires rising { IsTrue (is_sorted tag_cmp counts.old.items) }
    requires used { AreUsed counts.old.items }
    requires small { (tag : AnyTag) → counted Told counts.old.items tag + 1 < 2 ^ 64 }
    ensures { OnOk result (IsRecounted Told counts.old.items counts.new.items None (tag_in (get told.now.map prefix))) }
{
    let Some(entry) = told.get(prefix) else {
        return Ok(());
    };
    counts.reserve(1)?;
    counts.change_or_put(entry.tag, &Recount::More(Side::Told), one_use(Side::Told));
    Ok(())
}

/// How many of the first prefixes that are news, so many, were told each tag.
pub(crate) fn leaving(
    alloc: Global,
    told: &PrefixMap<Entry>,
    news: &News,
    count: usize,
) -> Result<Leaving, Memory>
    ensures { IfOk result (λ counts. AreCounts counts.items (by_side (left told.now.map (take count news.now.items)) none_present)) }
{
    let firsts = news.first_entries(count)?;
    let mut counts = Leaving::new(alloc);
    for (prefix, _) in firsts.as_slice() {
        count_told(&mut counts, told, **prefix)?;
    }
    Ok(counts)
}

/// Whether a tag that leaves so often is in use nowhere else.
fn is_gone(counts: &Counts, tag: Tag, leaving: Uses) -> bool
    ensures { result ≡ is_gone counts.now.items (tag, leaving) }
{
    let all = uses_of(counts, tag);
    all.told == leaving.told && all.present == 0
}

/// Those of the tags that are in use nowhere else.
pub(crate) fn gone(alloc: Global, leaving: &Leaving, counts: &Counts) -> Result<Vec<Tag>, Memory>
    ensures { IfOk result (λ tags. tags.items ≡ map entry_tag (filter (is_gone counts.now.items) leaving.now.items)) }
{
    let mut tags = Vec::new(alloc);
    for (tag, uses) in leaving.iter() {
        if is_gone(counts, *tag, *uses) {
            tags.push(*tag)?;
        }
    }
    Ok(tags)
}
