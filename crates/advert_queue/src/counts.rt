//! How many entries have each tag.

ghost use Rattle.std.specs.Prelude.{◌≡◌, ◌<◌, ◌+◌, ◌^◌, None, Some, IfOk, IfSome, IsTrue, is_some, map, filter};
ghost use Rattle.std.specs.FinMap.Entries.{find, is_sorted};
ghost use Rattle.net_types.specs.Keys.{tag_cmp};
ghost use Rattle.net_types.specs.declared.address.Tag.{Tag as AnyTag};
ghost use Rattle.advert_queue.specs.Counts.{AreUsed, IsRecounted, counted, entry_tag, is_told_tag, uses_in};
ghost use Rattle.advert_queue.specs.Recounted.{is_unused, one_use, recounted};

use net_types::{Memory, Tag};
use ordered_map::{Change, Lapse};
use std::alloc::Global;
use tag_table::TagTable;

/// Which entries are counted: those that were told, or those that are present.
#[derive(Clone, Copy)]
pub(crate) enum Side {
    Told,
    Present,
}

/// How many entries that were told have a tag, and how many that are present.
#[derive(Clone, Copy)]
pub(crate) struct Uses {
    pub(crate) told: usize,
    pub(crate) present: usize,
}

impl Lapse for Uses {
    ghost lapsed = { is_unused };

    fn has_lapsed(&self) -> bool {
        self.told == 0 && self.present == 0
    }
}

/// The tags that are in use, and how often each is.
pub(crate) type Counts = TagTable<Uses>;

/// One entry more with a tag, or one less.
#[derive(Clone, Copy)]
pub(crate) enum Recount {
    More(Side),
    Less(Side),
}

impl Change<Uses> for Recount {
    ghost changed = { recounted };

    fn change(&self, value: &mut Uses) {
        match self {
            Recount::More(Side::Told) => value.told = value.told.saturating_add(1),
            Recount::More(Side::Present) => value.present = value.present.saturating_add(1),
            Recount::Less(Side::Told) => value.told = value.told.saturating_sub(1),
            Recount::Less(Side::Present) => value.present = value.present.saturating_sub(1),
        }
    }
}

/// How often a tag is in use.
pub(crate) fn uses_of(counts: &Counts, tag: Tag) -> Uses
    ensures { result ≡ uses_in (find tag_cmp tag counts.now.items) }
{
    match counts.get(tag) {
        Some(uses) => *uses,
        None => Uses {
            told: 0,
            present: 0,
        },
    }
}

/// Whether a tag is in use.
pub(crate) fn is_used(counts: &Counts, tag: Tag) -> bool
    ensures { result ≡ is_some (find tag_cmp tag counts.now.items) }
{
    counts.get(tag).is_some()
}

/// One use alone.
pub(crate) fn one_use(side: Side) -> Uses
    ensures { result ≡ one_use side }
{
    match side {
        Side::Told => Uses {
            told: 1,
            present: 0,
        },
        Side::Present => Uses {
            told: 0,
            present: 1,
        },
    }
}

/// Counts a use of a tag more.
pub(crate) fn raise(counts: &mut Counts, side: Side, tag: Tag)
    requires used { AreUsed counts.old.items }
    requires room { find tag_cmp tag counts.old.items ≡ None → tag.0 < counts.old.room }
    requires small { counted side counts.old.items tag + 1 < 2 ^ 64 }
    ensures counts { IsRecounted side counts.old.items counts.new.items None (Some tag) }
    ensures room { counts.new.room ≡ counts.old.room }
{
    counts.change_or_put(tag, &Recount::More(side), one_use(side));
}

/// Counts a use of a tag less.
pub(crate) fn lower(counts: &mut Counts, side: Side, tag: Tag)
    requires used { AreUsed counts.old.items }
    requires some { 0 < counted side counts.old.items tag }
    ensures counts { IsRecounted side counts.old.items counts.new.items (Some tag) None }
    ensures room { counts.new.room ≡ counts.old.room }
{
    counts.change_or_remove(tag, &Recount::Less(side));
}

/// Counts what had one tag, or none, as what has another one, or none.
pub(crate) fn move_use(counts: &mut Counts, side: Side, before: Option<Tag>, after: Option<Tag>)
    requires rising { IsTrue (is_sorted tag_cmp counts.old.items) }
    requires used { AreUsed counts.old.items }
    requires some { IfSome before (λ (tag : AnyTag). 0 < counted side counts.old.items tag) }
    requires room { IfSome after (λ (tag : AnyTag). find tag_cmp tag counts.old.items ≡ None → tag.0 < counts.old.room) }
    requires small { IfSome after (λ (tag : AnyTag). counted side counts.old.items tag + 1 < 2 ^ 64) }
    ensures counts { IsRecounted side counts.old.items counts.new.items before after }
    ensures room { counts.new.room ≡ counts.old.room }
{
    if let Some(tag) = after {
        raise(counts, side, tag);
    }
    if let Some(tag) = before {
        lower(counts, side, tag);
    }
}

/// The tags of entries that were told, ascending.
pub(crate) fn told_tags(alloc: Global, counts: &Counts) -> Result<Vec<Tag>, Memory>
    ensures { IfOk result (λ tags. tags.items ≡ map entry_tag (filter is_told_tag counts.now.items)) }
{
    let mut tags = Vec::with_capacity(alloc, counts.len())?;
    for (tag, uses) in counts.iter() {
        if uses.told != 0 {
            tags.push(tag)?;
        }
    }
    Ok(tags)
}
