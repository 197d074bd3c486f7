//! The pool of tags.

ghost use Rattle.std.specs.Prelude.{◌≡◌, ◌≢◌, [], ◌≤◌, ◌<◌, ◌+◌, Bool, true, false, None, IsTrue, IfOk, IfSome, IfNone, MatchOption, length, find, slice_get};
ghost use Rattle.net_types.specs.Frames.{address_of};
ghost use Rattle.net_types.specs.declared.address.Tag.{Tag};
ghost use Rattle.next_hop_pool.specs.Free.{free_tags, is_above, IsTag, is_taken, marked, all_free};

use crate::place::{RUN, first_free};
use net_types::{Ip, Memory, Tag};
use std::alloc::Global;
use std::marker::Model;

/// The tags from 1 up to a size, each free or taken. A tag's address lies that far above a base.
#[derive(Drop)]
pub struct Pool {
    base: u32,
    // Tag 1 stands at place 0.
    taken: Vec<bool>,
    // Where a run of places is marked, all of them are taken.
    full: Vec<bool>,
    // The tags of all places below are taken.
    least: usize,
    free: u32,
}

impl Model for Pool {
    ghost use Rattle.next_hop_pool.specs.Free.{Tags};
    ghost use Rattle.next_hop_pool.specs.Runs.{IsHeld};

    ghost Value = { Tags };

    ghost view = { λ a. record { base = record { 0 = a.base }; taken = a.taken.items } };

    ghost invariant = { λ a. IsHeld a.base a.taken.items a.full.items a.least a.free };
}

impl Pool {
    /// A pool without tags. It takes no memory.
    pub fn none(alloc: Global) -> Pool
        ensures { result ≡ record { base = record { 0 = 0 }; taken = [] } }
    {
        Pool {
            base: 0,
            taken: Vec::new(alloc),
            full: Vec::new(alloc),
            least: 0,
            free: 0,
        }
    }

    /// The pool of the tags from 1 to `size`, all free, with the addresses after `base`.
    pub fn new(alloc: Global, base: Ip, size: u32) -> Result<Pool, Memory>
        requires some { 0 < size }
        requires few { size ≤ 65536 }
        requires within { base.0 + size < 4294967296 }
        ensures { IfOk result (λ pool. pool ≡ all_free base size) }
    {
        let taken = vec![in alloc; false; size as usize]?;
        let full = vec![in alloc; false; size as usize / RUN + 1]?;
        Ok(Pool {
            base: base.0,
            taken,
            full,
            least: 0,
            free: size,
        })
    }

    /// Takes the least free tag; none where all are taken.
    pub fn take_least(&mut self) -> Option<Tag>
        ensures value { result ≡ slice_get (free_tags self.old) 0 }
        ensures within { IfSome result (IsTag self.old) }
        ensures after { MatchOption result (self.new ≡ self.old) (λ t. self.new ≡ marked self.old t true) }
    {
        let at = first_free(self.taken.as_slice(), self.full.as_slice(), self.least);
        if at < self.taken.len() {
            self.taken[at] = true;
            self.least = at + 1;
            self.free -= 1;
            self.mark_run(at);
            return Some(Tag(at as u32 + 1));
        }
        self.least = at;
        None
    }

    /// The least free tag that is greater than `after`, or the least of all; it stays free.
    pub fn next_free(&self, after: Option<Tag>) -> Option<Tag>
        ensures { result ≡ find (is_above after) (free_tags self.now) }
    {
        match after {
            None => self.free_above(0),
            Some(tag) => self.free_above(tag.0 as usize),
        }
    }

    /// Takes a free tag.
    pub fn take(&mut self, tag: Tag)
        requires within { IsTag self.old tag }
        requires free { is_taken self.old tag ≡ false }
        ensures { self.new ≡ marked self.old tag true }
    {
        let at = (tag.0 - 1) as usize;
        self.taken[at] = true;
        self.free -= 1;
        self.raise_least();
        self.mark_run(at);
    }

    /// Gives a taken tag back.
    pub fn give_back(&mut self, tag: Tag)
        requires within { IsTag self.old tag }
        requires taken { IsTrue (is_taken self.old tag) }
        ensures { self.new ≡ marked self.old tag false }
    {
        let at = (tag.0 - 1) as usize;
        self.taken[at] = false;
        self.full[at / RUN] = false;
        self.least = self.least.min(at);
        self.free += 1;
    }

    /// Whether a tag of the pool is taken.
    pub fn is_taken(&self, tag: Tag) -> bool
        requires { IsTag self.now tag }
        ensures { result ≡ is_taken self.now tag }
    {
        self.taken[(tag.0 - 1) as usize]
    }

    /// How many tags are free.
    pub fn free(&self) -> u32
        ensures { result ≡ length (free_tags self.now) }
    {
        self.free
    }

    /// The address of a tag of the pool.
    pub fn address(&self, tag: Tag) -> Ip
        requires { IsTag self.now tag }
        ensures { result ≡ address_of self.now.base tag }
    {
        Ip(self.base + tag.0)
    }

    /// The tag of the pool with an address, where there is one.
    pub fn tag_at(&self, ip: Ip) -> Option<Tag>
        ensures found { IfSome result (λ t. IsTag self.now t × (address_of self.now.base t ≡ ip)) }
        ensures absent { IfNone result ((t : Tag) → IsTag self.now t → address_of self.now.base t ≢ ip) }
    {
        if ip.0 <= self.base {
            return None;
        }
        let number = ip.0 - self.base;
        if number as usize <= self.taken.len() {
            return Some(Tag(number));
        }
        None
    }

    // Passes the tags that are taken, so that the next search begins behind them.
    fn raise_least(&mut self)
        ensures { self.new ≡ self.old }
    {
        self.least = first_free(self.taken.as_slice(), self.full.as_slice(), self.least);
    }

    // Marks the run of a place, where all its places are taken.
    fn mark_run(&mut self, at: usize)
        requires { at < length self.old.taken }
        ensures { self.new ≡ self.old }
    {
        let run = at / RUN;
        let from = self.least.max(run * RUN);
        if first_free(self.taken.as_slice(), self.full.as_slice(), from) >= run * RUN + RUN {
            self.full[run] = true;
        }
    }

    // The least free tag with a greater number.
    fn free_above(&self, number: usize) -> Option<Tag>
        ensures { (p : Tag → Bool) → ((t : Tag) → 0 < t.0 → t.0 ≤ number → p t ≡ false) → ((t : Tag) → number < t.0 → p t ≡ true) → result ≡ find p (free_tags self.now) }
    {
        let from = self.least.max(number);
        let at = first_free(self.taken.as_slice(), self.full.as_slice(), from);
        if at < self.taken.len() {
            return Some(Tag(at as u32 + 1));
        }
        None
    }
}
