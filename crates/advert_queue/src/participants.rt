//! What the participants were told, and what is present for them.

ghost use Rattle.std.specs.Prelude.{◌≡◌, ◌≤◌, ◌<◌, ◌+◌, ◌++◌, ◌∷◌, [], ◌||◌, Some, IfOk, IfSome, OnOk, OnErr, length, option_copied, slice_set, IsOk};
ghost use Rattle.std.specs.FinMap as map;
ghost use Rattle.std.specs.List.{list_any};
ghost use Rattle.std.specs.Option.{option_map};
ghost use Rattle.events.specs.Tags.{tells};
ghost use Rattle.net_types.specs.Routes.{longest_of};
ghost use Rattle.net_types.specs.declared.address.Pid.{Pid as AnyPid};
ghost use Rattle.net_types.specs.declared.prefix.Prefix.{Prefix as AnyPrefix};
ghost use Rattle.advert_queue.specs.Advertised.{HasQueue, first_pending, is_told, offered, place_cost, places_of, present_of, tags_of_room, told_of};
ghost use Rattle.advert_queue.specs.Kept.{Queued};
ghost use Rattle.advert_queue.specs.Taken.{gone_tags, news_of, told_then};
ghost use Rattle.advert_queue.specs.Telling.{adverts, is_pending, tags_of};

use crate::changes::Entries;
use crate::session::Session;
use events::{Entry, Messages};
use net_types::{Ip, Memory, Pid, Prefix, Tag};
use std::alloc::Global;
use std::marker::Model;

/// What each participant was told of each prefix, and what is present for it, in order of declaration. A prefix at which
/// these differ is pending. Beside this there is room for a number of offers to each participant.
#[derive(Drop)]
pub struct Adverts {
    alloc: Global,
    sessions: Vec<Session>,
}

impl Model for Adverts {
    ghost use Rattle.std.specs.Coded.{codes};
    ghost use Rattle.std.specs.FinMap as map;
    ghost use Rattle.advert_queue.specs.Advertised.{Advertised};
    ghost use Rattle.advert_queue.specs.Kept.{advertised_by};

    ghost Value = { Advertised };

    ghost coded = { Prim.hlevel (codes, map.code) };

    ghost view = { λ a. advertised_by a.sessions.items };
}

impl Adverts {
    /// There are no participants.
    pub fn new(alloc: Global) -> Adverts
        ensures told { result.told ≡ [] }
        ensures present { result.present ≡ [] }
        ensures places { result.places ≡ [] }
        ensures tags { result.tags ≡ [] }
    {
        Adverts {
            alloc,
            sessions: Vec::new(alloc),
        }
    }

    /// A further participant. It was told nothing, and nothing is present for it. Memory is the only refusal.
    pub fn push(&mut self) -> Result<(), Memory>
        ensures told { OnOk result (self.new.told ≡ self.old.told ++ map.empty ∷ []) }
        ensures present { OnOk result (self.new.present ≡ self.old.present ++ map.empty ∷ []) }
        ensures places { OnOk result (self.new.places ≡ self.old.places ++ 0 ∷ []) }
        ensures tags { OnOk result (self.new.tags ≡ self.old.tags ++ 0 ∷ []) }
        ensures unchanged { OnErr result (self.new ≡ self.old) }
    {
        self.sessions.push(Session::new(self.alloc))?;
        Ok(())
    }

    /// How many participants there are.
    pub fn len(&self) -> usize
        ensures told { result ≡ length self.now.told }
        ensures present { result ≡ length self.now.present }
        ensures places { result ≡ length self.now.places }
        ensures tags { result ≡ length self.now.tags }
    {
        self.sessions.len()
    }

    /// Makes room for offers to a participant of so many prefixes at which nothing is pending, and of each tag below this number.
    /// It takes memory only where there is less: for the tags a table with a place for each of them.
    pub fn reserve(&mut self, who: Pid, places: usize, tags: usize) -> Result<(), Memory>
        requires declared { HasQueue self.old who }
        ensures told { self.new.told ≡ self.old.told }
        ensures present { self.new.present ≡ self.old.present }
        ensures places { OnOk result (places ≤ places_of self.new who) }
        ensures tags { OnOk result (tags ≤ tags_of_room self.new who) }
        ensures places_kept { (other : AnyPid) → places_of self.old other ≤ places_of self.new other }
        ensures tags_kept { (other : AnyPid) → tags_of_room self.old other ≤ tags_of_room self.new other }
        ensures enough { places ≤ places_of self.old who → tags ≤ tags_of_room self.old who → IsOk result }
    {
        self.sessions[who.0 as usize].reserve(places, tags)
    }

    /// Makes this entry present for a participant at a prefix, or none. It uses one place of the participant's room where
    /// nothing is pending there, and takes no memory.
    pub fn offer(&mut self, who: Pid, prefix: Prefix, entry: Option<Entry>)
        requires declared { HasQueue self.old who }
        requires place { place_cost (told_of self.old who) (present_of self.old who) prefix ≤ places_of self.old who }
        requires tag { IfSome entry (λ e. e.tag.0 < tags_of_room self.old who) }
        ensures told { self.new.told ≡ self.old.told }
        ensures present { self.new.present ≡ offered self.old who prefix entry }
        ensures places { places_of self.old who ≤ places_of self.new who + place_cost (told_of self.old who) (present_of self.old who) prefix }
        ensures tags { self.new.tags ≡ self.old.tags }
        ensures other_places { (other : AnyPid) → ¬ other.0 ≡ who.0 → places_of self.new other ≡ places_of self.old other }
    {
        self.sessions[who.0 as usize].offer(prefix, entry);
    }

    /// Whether something is pending for a participant at a prefix: what it was told and what is present differ.
    pub fn is_pending(&self, who: Pid, prefix: Prefix) -> bool
        requires declared { HasQueue self.now who }
        ensures { result ≡ is_pending (told_of self.now who) (present_of self.now who) prefix }
    {
        self.session(who).is_pending(prefix)
    }

    /// The first of what is pending for a participant, so many at most, by prefix: each with the entry that is present, or
    /// none where there is none any more. Memory is the only refusal.
    pub fn peek(&self, who: Pid, count: usize) -> Result<Entries, Memory>
        requires declared { HasQueue self.now who }
        ensures { IfOk result (λ entries. entries ≡ first_pending count (told_of self.now who) (present_of self.now who)) }
    {
        self.session(who).peek(self.alloc, count)
    }

    /// The messages by which a participant is told the first of what is pending, so many at most, or all: a message each, by
    /// prefix. It is a withdrawal (RFC 4271 4.3) where nothing is present any more, and else an announcement of the entry
    /// with the address of its tag, above `base`, as NEXT_HOP. Memory is the only refusal.
    pub fn messages(&self, base: Ip, who: Pid, limit: Option<u32>) -> Result<Messages, Memory>
        requires declared { HasQueue self.now who }
        requires low { base.0 ≤ 3758096383 }
        requires small { (p : AnyPrefix) → IfSome (map.get (present_of self.now who) p) (λ e. e.tag.0 ≤ 65536) }
        ensures { IfOk result (λ messages. messages ≡ adverts base (present_of self.now who) (news_of limit (told_of self.now who) (present_of self.now who))) }
    {
        self.session(who).messages(self.alloc, base, limit)
    }

    /// The tags that a participant was told, and that are neither told nor present for it once it takes the first of what
    /// is pending, so many at most, or all. They ascend. Memory is the only refusal.
    pub fn gone(&self, who: Pid, limit: Option<u32>) -> Result<Vec<Tag>, Memory>
        requires declared { HasQueue self.now who }
        ensures { IfOk result (λ tags. tags.items ≡ gone_tags (told_of self.now who) (told_then limit (told_of self.now who) (present_of self.now who)) (present_of self.now who)) }
    {
        self.session(who).gone(self.alloc, limit)
    }

    /// A participant takes the first of what is pending, so many at most, or all: at these prefixes it was then told what is
    /// present. It takes no memory.
    pub fn take(&mut self, who: Pid, limit: Option<u32>)
        requires declared { HasQueue self.old who }
        ensures told { self.new.told ≡ slice_set self.old.told who.0 (told_then limit (told_of self.old who) (present_of self.old who)) }
        ensures present { self.new.present ≡ self.old.present }
        ensures places { self.new.places ≡ self.old.places }
        ensures tags { self.new.tags ≡ self.old.tags }
    {
        self.sessions[who.0 as usize].take(limit);
    }

    /// Whether some entry that a participant was told, or that is present for it, has the tag.
    pub fn holds(&self, who: Pid, tag: Tag) -> bool
        requires declared { HasQueue self.now who }
        ensures { result ≡ (tells (told_of self.now who) tag || tells (present_of self.now who) tag) }
    {
        self.session(who).holds(tag)
    }

    /// Whether some entry that a participant was told has the tag.
    pub fn tells(&self, who: Pid, tag: Tag) -> bool
        requires declared { HasQueue self.now who }
        ensures { result ≡ tells (told_of self.now who) tag }
    {
        self.session(who).tells(tag)
    }

    /// Whether anybody was told the tag.
    pub fn is_told(&self, tag: Tag) -> bool
        ensures { result ≡ is_told self.now.told tag }
    {
        some_tells(&self.sessions, tag)
    }

    /// What a participant was told of a prefix, if anything.
    pub fn told(&self, who: Pid, prefix: Prefix) -> Option<&Entry>
        requires declared { HasQueue self.now who }
        ensures { option_copied result ≡ map.get (told_of self.now who) prefix }
    {
        self.session(who).told(prefix)
    }

    /// What is present of a prefix for a participant, if anything.
    pub fn present(&self, who: Pid, prefix: Prefix) -> Option<&Entry>
        requires declared { HasQueue self.now who }
        ensures { option_copied result ≡ map.get (present_of self.now who) prefix }
    {
        self.session(who).present(prefix)
    }

    /// The longest prefix of which a participant was told something that covers an address, with its entry; none where
    /// there is none.
    pub fn longest(&self, who: Pid, ip: Ip) -> Option<(Prefix, &Entry)>
        requires declared { HasQueue self.now who }
        ensures key { option_map (λ entry. entry.0) result ≡ longest_of (map.keys (told_of self.now who)) ip }
        ensures value { IfSome result (λ entry. Some entry.1.now ≡ map.get (told_of self.now who) entry.0) }
    {
        self.session(who).longest(ip)
    }

    /// The different tags that a participant was told, ascending. Memory is the only refusal.
    pub fn told_tags(&self, who: Pid) -> Result<Vec<Tag>, Memory>
        requires declared { HasQueue self.now who }
        ensures { IfOk result (λ tags. tags.items ≡ tags_of (told_of self.now who)) }
    {
        self.session(who).told_tags(self.alloc)
    }

    // What is kept of a participant.
    fn session(&self, who: Pid) -> &Session
        requires declared { HasQueue self.now who }
        ensures told { result.now.told ≡ told_of self.now who }
        ensures present { result.now.present ≡ present_of self.now who }
    {
        &self.sessions[who.0 as usize]
    }
}

/// Whether one of them was told the tag.
fn some_tells(sessions: &[Session], tag: Tag) -> bool
    ensures { result ≡ list_any (λ (session : Queued). tells session.told tag) sessions.now }
{
    sessions.iter().any(|session| session.tells(tag))
}
