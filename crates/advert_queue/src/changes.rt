//! What is news for a participant: the prefixes at which what is present isn't what was told, each with what is present.

ghost use Rattle.std.specs.Prelude.{◌≡◌, ℕ, ◌≤◌, ◌<◌, ◌+◌, ◌-◌, None, IfOk, IfSome, IsTrue, is_some, length, take, drop, map, option_copied, if◌then◌else◌};
ghost use Rattle.std.specs.FinMap.{get};
ghost use Rattle.std.specs.FinMap.Entries.{find, is_sorted};
ghost use Rattle.std.specs.Option.{option_map};
ghost use Rattle.events.specs.Pending.{same_entry, with_news};
ghost use Rattle.events.specs.declared.Entry.{Entry as AnyEntry};
ghost use Rattle.net_types.specs.Attributes.{same_option};
ghost use Rattle.net_types.specs.Keys.{prefix_cmp};
ghost use Rattle.advert_queue.specs.Changes.{AreNews, AreSmall, changed, limited, message_of, noted, tag_in};
ghost use Rattle.advert_queue.specs.Kept.{IsTellable};

use crate::counts::{Counts, Side, move_use};
use crate::queue::advert;
use events::{Entry, Messages};
use net_types::{Ip, Items, Memory, Prefix, Tag, TryCopy, same_attrs};
use ordered_map::OrderedMap;
use prefix_map::PrefixMap;
use std::alloc::Global;

/// The prefixes that are news, each with the entry that is present, or none where there is none any more.
pub(crate) type News = OrderedMap<Prefix, Option<Entry>>;

/// A list of prefixes, each with an entry, or none for a withdrawal.
pub type Entries = Items<(Prefix, Option<Entry>)>;

/// How many of so many are taken where there is this limit.
pub(crate) fn limited(limit: Option<u32>, pending: usize) -> usize
    ensures { result ≡ limited limit pending }
{
    match limit {
        None => pending,
        Some(count) => (count as usize).min(pending),
    }
}

/// The tag of an entry, where there is one.
pub(crate) fn tag_of(entry: Option<&Entry>) -> Option<Tag>
    ensures { result ≡ tag_in (option_copied entry.entry) }
{
    match entry {
        None => None,
        Some(entry) => Some(entry.tag),
    }
}

/// The entry that is present at a prefix, where there is one.
pub(crate) fn present_entry<'a>(
    told: &'a PrefixMap<Entry>,
    news: &'a News,
    prefix: Prefix,
) -> Option<&'a Entry>
    requires rising { IsTrue (is_sorted prefix_cmp news.now.items) }
    ensures { option_copied result ≡ get (changed told.now.map news.now.items) prefix }
{
    match news.get(&prefix) {
        Some(now) => now.as_ref(),
        None => told.get(prefix),
    }
}

/// Whether there is news of a prefix.
pub(crate) fn has_news(news: &News, prefix: Prefix) -> bool
    ensures { result ≡ is_some (find prefix_cmp prefix news.now.items) }
{
    news.get(&prefix).is_some()
}

/// Whether both are absent, or both are there with the same tag and the same attributes.
fn is_same(one: Option<&Entry>, other: Option<&Entry>) -> bool
    ensures { result ≡ same_option same_entry (option_copied one.entry) (option_copied other.entry) }
{
    match (one, other) {
        (None, None) => true,
        (Some(one), Some(other)) => {
            let attrs = same_attrs(one.attrs.get(), other.attrs.get());
            one.tag.0 == other.tag.0 && attrs
        }
        _ => false,
    }
}

/// Puts an entry among the news, or takes the prefix out where it is what was told. It answers what was news there.
fn put_news(
    told: Option<&Entry>,
    news: &mut News,
    prefix: Prefix,
    entry: Option<Entry>,
) -> Option<Option<Entry>>
    requires rising { IsTrue (is_sorted prefix_cmp news.old.items) }
    requires room { find prefix_cmp prefix news.old.items ≡ None → 0 < news.old.room }
    ensures value { result ≡ find prefix_cmp prefix news.old.items }
    ensures rising { IsTrue (is_sorted prefix_cmp news.new.items) }
    ensures items { news.new.items ≡ noted (option_copied told.entry) prefix entry news.old.items }
    ensures few { length news.new.items ≤ length news.old.items + (if is_some (find prefix_cmp prefix news.old.items) then 0 else 1) }
    ensures room { news.old.room ≤ news.new.room + (length news.new.items - length news.old.items) }
{
    if is_same(told, entry.as_ref()) {
        news.remove(&prefix)
    } else {
        news.put(prefix, entry)
    }
}

/// Makes an entry present at a prefix, or none: it is news unless it is what was told. It answers the tag of the entry that
/// was present before.
pub(crate) fn note(
    told: &PrefixMap<Entry>,
    news: &mut News,
    prefix: Prefix,
    entry: Option<Entry>,
) -> Option<Tag>
    requires rising { IsTrue (is_sorted prefix_cmp news.old.items) }
    requires differ { AreNews told.now.map news.old.items }
    requires room { find prefix_cmp prefix news.old.items ≡ None → 0 < news.old.room }
    ensures before { result ≡ tag_in (get (changed told.now.map news.old.items) prefix) }
    ensures rising { IsTrue (is_sorted prefix_cmp news.new.items) }
    ensures differ { AreNews told.now.map news.new.items }
    ensures present { changed told.now.map news.new.items ≡ with_news (changed told.now.map news.old.items) prefix entry }
    ensures few { length news.new.items ≤ length news.old.items + (if is_some (find prefix_cmp prefix news.old.items) then 0 else 1) }
    ensures room { news.old.room ≤ news.new.room + (length news.new.items - length news.old.items) }
{
    let told = told.get(prefix);
    match put_news(told, news, prefix, entry) {
        Some(before) => tag_of(before.as_ref()),
        None => tag_of(told),
    }
}

/// Tells an entry at a prefix, or that there is none any more, and answers the one that was told.
fn tell_one(told: &mut PrefixMap<Entry>, prefix: Prefix, entry: Option<Entry>) -> Option<Entry>
    requires room { 0 < told.old.room }
    ensures value { result ≡ get told.old.map prefix }
    ensures map { told.new.map ≡ with_news told.old.map prefix entry }
    ensures room { told.old.room ≤ told.new.room + 1 }
{
    match entry {
        Some(entry) => told.put(prefix, entry),
        None => told.remove(prefix),
    }
}

/// Tells the first of what is news.
fn tell_first(told: &mut PrefixMap<Entry>, news: &mut News, counts: &mut Counts)
    requires some { 0 < length news.old.items }
    requires kept { IsTellable told.old news.old counts.old 0 }
    ensures told { told.new.map ≡ changed told.old.map (take 1 news.old.items) }
    ensures news { news.new.items ≡ drop 1 news.old.items }
    ensures room { news.old.room ≤ news.new.room }
    ensures counts_room { counts.new.room ≡ counts.old.room }
    ensures present { changed told.new.map news.new.items ≡ changed told.old.map news.old.items }
    ensures kept { (more : ℕ) → IsTellable told.old news.old counts.old more → IsTellable told.new news.new counts.new more }
{
    let Some((prefix, entry)) = news.take_first() else {
        return;
    };
    let after = tag_of(entry.as_ref());
    let before = tell_one(told, prefix, entry);
    move_use(counts, Side::Told, tag_of(before.as_ref()), after);
}

/// Tells the first of what is news, so many.
pub(crate) fn tell(told: &mut PrefixMap<Entry>, news: &mut News, counts: &mut Counts, count: usize)
    requires enough { count ≤ length news.old.items }
    requires kept { IsTellable told.old news.old counts.old 0 }
    ensures told { told.new.map ≡ changed told.old.map (take count news.old.items) }
    ensures news { news.new.items ≡ drop count news.old.items }
    ensures room { news.old.room ≤ news.new.room }
    ensures counts_room { counts.new.room ≡ counts.old.room }
    ensures present { changed told.new.map news.new.items ≡ changed told.old.map news.old.items }
    ensures kept { (more : ℕ) → IsTellable told.old news.old counts.old more → IsTellable told.new news.new counts.new more }
{
    for _done in 0..count {
        tell_first(told, news, counts);
    }
}

/// An entry with the same attributes and tag.
fn copied(entry: Option<&Entry>) -> Result<Option<Entry>, Memory>
    ensures { IfOk result (λ twin. twin ≡ option_copied entry.entry) }
{
    match entry {
        None => Ok(None),
        Some(entry) => {
            let attrs = entry.attrs.copy()?;
            Ok(Some(Entry {
                attrs,
                tag: entry.tag,
            }))
        }
    }
}

/// The first of what is news, so many at most.
pub(crate) fn first_entries(alloc: Global, news: &News, count: usize) -> Result<Entries, Memory>
    ensures { IfOk result (λ entries. entries ≡ take count news.now.items) }
{
    let firsts = news.first_entries(count)?;
    let mut entries = Items::from_vec(Vec::with_capacity(alloc, firsts.len())?);
    for (prefix, entry) in firsts.as_slice() {
        entries.push((**prefix, copied(entry.as_ref())?))?;
    }
    Ok(entries)
}

/// The messages by which the first of what is news is told, so many at most.
pub(crate) fn first_messages(
    alloc: Global,
    base: Ip,
    news: &News,
    count: usize,
) -> Result<Messages, Memory>
    requires low { base.0 ≤ 3758096383 }
    requires small { AreSmall news.now.items }
    ensures { IfOk result (λ messages. messages ≡ map (message_of base) (take count news.now.items)) }
{
    let firsts = news.first_entries(count)?;
    let mut messages = Items::from_vec(Vec::with_capacity(alloc, firsts.len())?);
    for (prefix, entry) in firsts.as_slice() {
        messages.push(advert(alloc, base, **prefix, entry.as_ref())?)?;
    }
    Ok(messages)
}
