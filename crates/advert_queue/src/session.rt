//! What one participant was told, and what is news for it.

ghost use Rattle.std.specs.Prelude.{◌≡◌, ◌≤◌, ◌<◌, ◌+◌, ◌||◌, Some, IfOk, IfSome, OnOk, option_copied, IsOk};
ghost use Rattle.std.specs.FinMap as map;
ghost use Rattle.std.specs.Option.{option_map};
ghost use Rattle.events.specs.Pending.{with_news};
ghost use Rattle.events.specs.Tags.{tells};
ghost use Rattle.net_types.specs.Routes.{longest_of};
ghost use Rattle.net_types.specs.declared.prefix.Prefix.{Prefix as AnyPrefix};
ghost use Rattle.advert_queue.specs.Advertised.{first_pending, place_cost};
ghost use Rattle.advert_queue.specs.Taken.{gone_tags, news_of, told_then};
ghost use Rattle.advert_queue.specs.Telling.{adverts, is_pending, tags_of};

use crate::changes::{
    Entries, News, first_entries, first_messages, has_news, limited, note, present_entry, tag_of,
    tell,
};
use crate::counts::{Counts, Side, is_used, move_use, told_tags, uses_of};
use crate::leaving::{gone, leaving};
use events::{Entry, Messages};
use net_types::{Ip, Memory, Prefix, Tag};
use prefix_map::PrefixMap;
use std::alloc::Global;
use std::marker::Model;

/// What a participant was told of each prefix, and of each prefix of which something else is present, or nothing any more,
/// what that is.
#[derive(Drop)]
pub(crate) struct Session {
    told: PrefixMap<Entry>,
    news: News,
    // how many entries that were told have each tag, and how many of those that are present
    counts: Counts,
    // for how many offers of prefixes at which nothing is pending there is room
    places: usize,
}

impl Model for Session {
    ghost use Rattle.std.specs.Coded.{codes};
    ghost use Rattle.std.specs.FinMap as map;
    ghost use Rattle.advert_queue.specs.Changes.{changed};
    ghost use Rattle.advert_queue.specs.Kept.{IsKept, Queued};

    ghost Value = { Queued };

    ghost coded = { Prim.hlevel (codes, map.code) };

    ghost view = { λ a. record { told = a.told.map; present = changed a.told.map a.news.items; places = a.places; tags = a.counts.room } };

    ghost invariant = { λ a. IsKept a.told a.news a.counts a.places };
}

impl Session {
    /// Nothing was told, and nothing is present.
    pub(crate) fn new(alloc: Global) -> Session
        ensures told { result.told ≡ map.empty }
        ensures present { result.present ≡ map.empty }
        ensures places { result.places ≡ 0 }
        ensures tags { result.tags ≡ 0 }
    {
        Session {
            told: PrefixMap::new(alloc),
            news: News::new(alloc),
            counts: Counts::new(alloc),
            places: 0,
        }
    }

    /// Makes room for offers of so many prefixes at which nothing is pending, and changes nothing else.
    fn reserve_places(&mut self, places: usize) -> Result<(), Memory>
        ensures told { self.new.told ≡ self.old.told }
        ensures present { self.new.present ≡ self.old.present }
        ensures places { OnOk result (places ≤ self.new.places) }
        ensures tags { self.new.tags ≡ self.old.tags }
        ensures kept { self.old.places ≤ self.new.places }
        ensures enough { places ≤ self.old.places → IsOk result }
    {
        if places <= self.places {
            return Ok(());
        }
        let pending = self.news.len();
        if places >= usize::MAX - self.told.len() - pending {
            return Err(Memory);
        }
        self.told.reserve(places + pending)?;
        self.news.reserve(places)?;
        self.places = places;
        Ok(())
    }

    /// Makes room for offers of each tag below this number, and changes nothing else.
    fn reserve_tags(&mut self, tags: usize) -> Result<(), Memory>
        ensures told { self.new.told ≡ self.old.told }
        ensures present { self.new.present ≡ self.old.present }
        ensures places { self.new.places ≡ self.old.places }
        ensures tags { OnOk result (tags ≤ self.new.tags) }
        ensures kept { self.old.tags ≤ self.new.tags }
        ensures enough { tags ≤ self.old.tags → IsOk result }
    {
        self.counts.reserve(tags)?;
        Ok(())
    }

    /// Makes room for offers of so many prefixes at which nothing is pending, and of each tag below this number. It takes memory
    /// only where there is less.
    pub(crate) fn reserve(&mut self, places: usize, tags: usize) -> Result<(), Memory>
        ensures told { self.new.told ≡ self.old.told }
        ensures present { self.new.present ≡ self.old.present }
        ensures places { OnOk result (places ≤ self.new.places) }
        ensures tags { OnOk result (tags ≤ self.new.tags) }
        ensures places_kept { self.old.places ≤ self.new.places }
        ensures tags_kept { self.old.tags ≤ self.new.tags }
        ensures enough { places ≤ self.old.places → tags ≤ self.old.tags → IsOk result }
    {
        self.reserve_places(places)?;
        self.reserve_tags(tags)
    }

    /// Makes this entry present at a prefix, or none. It uses a place of the room only where nothing is pending at the prefix.
    pub(crate) fn offer(&mut self, prefix: Prefix, entry: Option<Entry>)
        requires place { place_cost self.old.told self.old.present prefix ≤ self.old.places }
        requires tag { IfSome entry (λ e. e.tag.0 < self.old.tags) }
        ensures told { self.new.told ≡ self.old.told }
        ensures present { self.new.present ≡ with_news self.old.present prefix entry }
        ensures places { self.old.places ≤ self.new.places + place_cost self.old.told self.old.present prefix }
        ensures tags { self.new.tags ≡ self.old.tags }
    {
        let after = tag_of(entry.as_ref());
        let pending = self.news.len();
        let before = note(&self.told, &mut self.news, prefix, entry);
        self.places -= self.news.len().saturating_sub(pending);
        move_use(&mut self.counts, Side::Present, before, after);
    }

    /// Whether something is pending at a prefix.
    pub(crate) fn is_pending(&self, prefix: Prefix) -> bool
        ensures { result ≡ is_pending self.now.told self.now.present prefix }
    {
        has_news(&self.news, prefix)
    }

    /// The first of what is pending, so many at most, by prefix.
    pub(crate) fn peek(&self, alloc: Global, count: usize) -> Result<Entries, Memory>
        ensures { IfOk result (λ entries. entries ≡ first_pending count self.now.told self.now.present) }
    {
        first_entries(alloc, &self.news, count)
    }

    /// The messages by which the first of what is pending is told, so many at most, or all.
    pub(crate) fn messages(
        &self,
        alloc: Global,
        base: Ip,
        limit: Option<u32>,
    ) -> Result<Messages, Memory>
        requires low { base.0 ≤ 3758096383 }
        requires small { (p : AnyPrefix) → IfSome (map.get self.now.present p) (λ e. e.tag.0 ≤ 65536) }
        ensures { IfOk result (λ messages. messages ≡ adverts base self.now.present (news_of limit self.now.told self.now.present)) }
    {
        let count = limited(limit, self.news.len());
        first_messages(alloc, base, &self.news, count)
    }

    /// The tags that were told, and that are neither told nor present once the first of what is pending is taken, so many
    /// at most, or all.
    pub(crate) fn gone(&self, alloc: Global, limit: Option<u32>) -> Result<Vec<Tag>, Memory>
        ensures { IfOk result (λ tags. tags.items ≡ gone_tags self.now.told (told_then limit self.now.told self.now.present) self.now.present) }
    {
        let count = limited(limit, self.news.len());
        let leaving = leaving(alloc, &self.told, &self.news, count)?;
        gone(alloc, &leaving, &self.counts)
    }

    /// Tells the first of what is pending, so many at most, or all.
    pub(crate) fn take(&mut self, limit: Option<u32>)
        ensures told { self.new.told ≡ told_then limit self.old.told self.old.present }
        ensures present { self.new.present ≡ self.old.present }
        ensures places { self.new.places ≡ self.old.places }
        ensures tags { self.new.tags ≡ self.old.tags }
    {
        let count = limited(limit, self.news.len());
        tell(&mut self.told, &mut self.news, &mut self.counts, count);
    }

    /// Whether some entry that was told, or that is present, has the tag.
    pub(crate) fn holds(&self, tag: Tag) -> bool
        ensures { result ≡ (tells self.now.told tag || tells self.now.present tag) }
    {
        is_used(&self.counts, tag)
    }

    /// Whether some entry that was told has the tag.
    pub(crate) fn tells(&self, tag: Tag) -> bool
        ensures { result ≡ tells self.now.told tag }
    {
        uses_of(&self.counts, tag).told != 0
    }

    /// What was told of a prefix, if anything.
    pub(crate) fn told(&self, prefix: Prefix) -> Option<&Entry>
        ensures { option_copied result ≡ map.get self.now.told prefix }
    {
        self.told.get(prefix)
    }

    /// What is present of a prefix, if anything.
    pub(crate) fn present(&self, prefix: Prefix) -> Option<&Entry>
        ensures { option_copied result ≡ map.get self.now.present prefix }
    {
        present_entry(&self.told, &self.news, prefix)
    }

    /// The longest prefix of which something was told that covers an address, with its entry; none where there is none.
    pub(crate) fn longest(&self, ip: Ip) -> Option<(Prefix, &Entry)>
        ensures key { option_map (λ entry. entry.0) result ≡ longest_of (map.keys self.now.told) ip }
        ensures value { IfSome result (λ entry. Some entry.1.now ≡ map.get self.now.told entry.0) }
    {
        self.told.longest(ip)
    }

    /// The different tags that were told, ascending.
    pub(crate) fn told_tags(&self, alloc: Global) -> Result<Vec<Tag>, Memory>
        ensures { IfOk result (λ tags. tags.items ≡ tags_of self.now.told) }
    {
        told_tags(alloc, &self.counts)
    }
}
