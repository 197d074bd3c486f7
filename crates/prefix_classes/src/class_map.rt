//! The classes of prefixes.

ghost use Rattle.std.specs.Prelude.{◌≡◌, ◌≤◌, ◌<◌, ◌+◌, None, Some, IfNone, IfOk, IfSome, IsTrue, OnOk, length, option_copied, is_some, IsOk};
ghost use Rattle.std.specs.FinMap as map;
ghost use Rattle.std.specs.Option.{option_map};
ghost use Rattle.net_types.specs.Signatures.{trimmed};
ghost use Rattle.net_types.specs.declared.address.Tag.{Tag as AnyTag};
ghost use Rattle.prefix_classes.specs.Classes.{AreUsedTags, HaveNoMembers, IsAbove, IsNextTag, forgotten, given, members, missing, new_ones};
ghost use Rattle.prefix_classes.specs.Merging.{IsFull, IsMergeOf, moved};

use crate::grouping::Grouping;
use crate::kept::KeptTable;
use crate::members::{Kept, lower, move_member, raise};
use crate::moves::{Moves, moves_by};
use net_types::{Memory, Pid, Prefix, Sig, Tag};
use prefix_map::PrefixMap;
use std::alloc::Global;
use std::marker::Model;

/// The tag of each prefix that has one, and the signature of each tag that is kept. The prefixes of a tag are its
/// members. Beside this there is room for a number of new prefixes, and for each tag below a number.
#[derive(Drop)]
pub struct ClassMap {
    alloc: Global,
    tags: PrefixMap<Tag>,
    kept: KeptTable,
}

impl Model for ClassMap {
    ghost use Rattle.std.specs.Coded.{codes};
    ghost use Rattle.std.specs.FinMap as map;
    ghost use Rattle.prefix_classes.specs.Classes.{Classes};
    ghost use Rattle.prefix_classes.specs.Counts.{IsCounted, classes_of};

    ghost Value = { Classes };

    ghost coded = { Prim.hlevel (codes, map.code) };

    ghost view = { λ a. classes_of a.tags a.kept.items a.kept.room };

    ghost invariant = { λ a. IsCounted a.tags.map a.kept.items };
}

impl ClassMap {
    /// No prefix has a tag, and no tag is kept.
    pub fn new(alloc: Global) -> ClassMap
        ensures tag { result.tag ≡ map.empty }
        ensures kept { result.kept ≡ map.empty }
    {
        ClassMap {
            alloc,
            tags: PrefixMap::new(alloc),
            kept: KeptTable::new(alloc),
        }
    }

    /// Makes room for so many new prefixes, and for each tag below a number: a table with a place for each of them, and places
    /// for signatures that tags share. Memory is wanting only where there is less room.
    pub fn reserve(&mut self, prefixes: usize, tags: usize) -> Result<(), Memory>
        ensures tag { self.new.tag ≡ self.old.tag }
        ensures kept { self.new.kept ≡ self.old.kept }
        ensures prefixes { OnOk result (prefixes ≤ self.new.prefixes) }
        ensures tags { OnOk result (tags ≤ self.new.tags) }
        ensures prefixes_stay { self.old.prefixes ≤ self.new.prefixes }
        ensures tags_stay { self.old.tags ≤ self.new.tags }
        ensures enough { (prefixes ≤ self.old.prefixes) × (tags ≤ self.old.tags) → IsOk result }
    {
        self.tags.reserve(prefixes)?;
        self.kept.reserve(tags)?;
        Ok(())
    }

    /// The tag of a prefix, where it has one. That tag is kept.
    pub fn tag_of(&self, prefix: Prefix) -> Option<Tag>
        ensures value { result ≡ map.get self.now.tag prefix }
        ensures kept { IfSome result (λ tag. IsTrue (is_some (map.get self.now.kept tag))) }
    {
        self.tags.get(prefix).copied()
    }

    /// The signature of a tag, where it is kept.
    pub fn sig_of(&self, tag: Tag) -> Option<&Sig>
        ensures { option_copied result ≡ map.get self.now.kept tag }
    {
        self.kept.sig_of(tag)
    }

    /// How many prefixes have the tag.
    pub fn members(&self, tag: Tag) -> usize
        ensures { result ≡ members self.now.tag tag }
    {
        self.kept.members(tag)
    }

    /// The least tag that has members, or the least such tag greater than this one. That tag is kept. It goes over the
    /// kept tags without members that lie between.
    pub fn next_tag(&self, after: Option<Tag>) -> Option<Tag>
        ensures next { IfSome result (IsNextTag self.now.tag after) }
        ensures none { IfNone result ((tag : AnyTag) → IsAbove after tag → members self.now.tag tag ≡ 0) }
        ensures kept { IfSome result (λ tag. IsTrue (is_some (map.get self.now.kept tag))) }
    {
        self.kept.first_used(after)
    }

    /// The tags that have members, ascending: all in one walk over the table of tags. Memory is the only refusal.
    pub fn used_tags(&self) -> Result<Vec<Tag>, Memory>
        ensures { IfOk result (λ tags. AreUsedTags self.now.tag tags.items) }
    {
        self.kept.used(self.alloc)
    }

    /// How many prefixes have a tag.
    pub fn carried(&self) -> usize
        ensures { result ≡ length (map.entries self.now.tag) }
    {
        self.tags.len()
    }

    /// How many tags are kept.
    pub fn tagged(&self) -> usize
        ensures { result ≡ length (map.entries self.now.kept) }
    {
        self.kept.len()
    }

    /// Keeps a tag with its signature, and gives it to each of the prefixes, whatever tag they had. A prefix that stands
    /// there twice takes the room of one. Nothing else gives prefixes a tag. It takes no memory.
    pub fn give(&mut self, tag: Tag, sig: Sig, members: &[Prefix])
        requires new { map.get self.old.kept tag ≡ None }
        requires tags { tag.0 < self.old.tags }
        requires prefixes { new_ones self.old.tag members.now ≤ self.old.prefixes }
        ensures tag { self.new.tag ≡ given tag members.now self.old.tag }
        ensures kept { self.new.kept ≡ map.insert self.old.kept tag sig }
        ensures tags { self.new.tags ≡ self.old.tags }
        ensures prefixes { self.old.prefixes ≤ self.new.prefixes + new_ones self.old.tag members.now }
    {
        self.keep(tag, sig);
        for &prefix in members {
            self.put(prefix, tag);
        }
    }

    /// Takes a prefix's tag away, where it has one. There is room for no fewer new prefixes than before.
    pub fn drop_prefix(&mut self, prefix: Prefix)
        ensures tag { self.new.tag ≡ map.remove self.old.tag prefix }
        ensures kept { self.new.kept ≡ self.old.kept }
        ensures prefixes { self.old.prefixes ≤ self.new.prefixes }
        ensures tags { self.new.tags ≡ self.old.tags }
    {
        match self.tags.remove(prefix) {
            Some(before) => lower(&mut self.kept, before),
            None => {}
        }
    }

    /// Forgets a tag without members, where it is kept.
    pub fn forget(&mut self, tag: Tag)
        requires { members self.old.tag tag ≡ 0 }
        ensures tag { self.new.tag ≡ self.old.tag }
        ensures kept { self.new.kept ≡ map.remove self.old.kept tag }
        ensures prefixes { self.new.prefixes ≡ self.old.prefixes }
        ensures tags { self.new.tags ≡ self.old.tags }
    {
        self.kept.remove(tag);
    }

    /// Forgets tags without members, where they are kept.
    pub fn forget_each(&mut self, tags: &[Tag])
        requires { HaveNoMembers self.old.tag tags.now }
        ensures tag { self.new.tag ≡ self.old.tag }
        ensures kept { self.new.kept ≡ forgotten self.old.kept tags.now }
        ensures prefixes { self.new.prefixes ≡ self.old.prefixes }
        ensures tags { self.new.tags ≡ self.old.tags }
    {
        self.kept.remove_each(tags);
    }

    /// Takes out of a sender's part in each kept signature the offers that are neither the best one's nor those of
    /// participants that its policy names. It takes no memory.
    pub fn trim(&mut self, who: Pid, named: &[Pid])
        ensures tag { self.new.tag ≡ self.old.tag }
        ensures kept { (tag : AnyTag) → map.get self.new.kept tag ≡ option_map (trimmed who named.now) (map.get self.old.kept tag) }
        ensures prefixes { self.new.prefixes ≡ self.old.prefixes }
        ensures tags { self.new.tags ≡ self.old.tags }
    {
        self.kept.trim(self.alloc, who, named);
    }

    /// The moves that leave one tag for each signature: each prefix whose tag isn't the least of those with members that
    /// have the same kept signature moves to that one. Memory is the only refusal. It needs a grouping of exactly the tags
    /// with members, each with its kept signature.
    pub fn merge_plan(&self, grouping: &Grouping) -> Result<Moves, Memory>
        requires { IsFull self.now.tag self.now.kept grouping.now }
        ensures { IfOk result (IsMergeOf self.now.tag self.now.kept) }
    {
        moves_by(self.alloc, &self.tags, grouping)
    }

    /// Makes the moves, which were planned for the tags and signatures as they are. It takes no memory and needs no room,
    /// since no prefix is new. The tags that have no members afterwards stay kept.
    pub fn merge(&mut self, moves: Moves)
        requires { IsMergeOf self.old.tag self.old.kept moves }
        ensures tag { self.new.tag ≡ moved self.old.tag moves }
        ensures kept { self.new.kept ≡ self.old.kept }
        ensures prefixes { self.old.prefixes ≤ self.new.prefixes }
        ensures tags { self.new.tags ≡ self.old.tags }
    {
        for &(member, least) in moves.list() {
            self.put(member, least);
        }
    }

    /// The signature of a tag with members.
    pub(crate) fn used_sig(&self, tag: Tag) -> &Sig
        requires { 0 < members self.now.tag tag }
        ensures { Some result.now ≡ map.get self.now.kept tag }
    {
        match self.kept.sig_of(tag) {
            Some(sig) => sig,
            None => unreachable!(),
        }
    }

    // Keeps a tag that no prefix has, with its signature.
    fn keep(&mut self, tag: Tag, sig: Sig)
        requires new { map.get self.old.kept tag ≡ None }
        requires room { tag.0 < self.old.tags }
        ensures tag { self.new.tag ≡ self.old.tag }
        ensures kept { self.new.kept ≡ map.insert self.old.kept tag sig }
        ensures tags { self.new.tags ≡ self.old.tags }
        ensures prefixes { self.new.prefixes ≡ self.old.prefixes }
    {
        self.kept.put(tag, Kept { sig, members: 0 });
    }

    // Gives a prefix a tag that is kept, in the place of the one it had.
    fn put(&mut self, prefix: Prefix, tag: Tag)
        requires kept { IsTrue (is_some (map.get self.old.kept tag)) }
        requires room { map.get self.old.tag prefix ≡ None → 0 < self.old.prefixes }
        ensures tag { self.new.tag ≡ map.insert self.old.tag prefix tag }
        ensures kept { self.new.kept ≡ self.old.kept }
        ensures prefixes { self.old.prefixes ≤ self.new.prefixes + missing (map.get self.old.tag prefix) }
        ensures tags { self.new.tags ≡ self.old.tags }
    {
        let before = self.tags.put(prefix, tag);
        // No tag has more members than there are prefixes.
        let _ = self.tags.len();
        match before {
            Some(before) => move_member(&mut self.kept, before, tag),
            None => raise(&mut self.kept, tag),
        }
    }
}
