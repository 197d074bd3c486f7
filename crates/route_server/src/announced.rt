//! For each participant the prefixes that it announced.

ghost use Rattle.std.specs.Prelude.{◌≡◌, ◌<◌, ◌≤◌, [], ℕ, length, take, map, is_some, true, IfSome};
ghost use Rattle.net_types.specs.Keys.{prefix_cmp};
ghost use Rattle.net_types.specs.Maps.{ordered};
ghost use Rattle.net_types.specs.Sets.{Member};
ghost use Rattle.net_types.specs.declared.address.Pid.{Pid as AnyPid};
ghost use Rattle.net_types.specs.declared.prefix.Prefix.{Prefix as AnyPrefix};
ghost use Rattle.route_server.specs.Listed.{list_at, Lists, StayListed};
ghost use Rattle.route_server.specs.Rows.{look};
ghost use Rattle.route_server.specs.declared.held.Held.{Held as AnyHeld};

use crate::held::Held;
use net_types::{Memory, Pid, Prefix};
use std::alloc::Global;

/// How many prefixes out of date a list may have however short it is.
const FEW: usize = 64;

/// The prefixes for which a participant has a route, and those for which it had one since the list was made.
#[derive(Drop)]
pub struct Listing {
    pub prefixes: Vec<Prefix>,
    /// How many of them are out of date.
    pub stale: usize,
}

/// A list for each participant, in order of declaration.
#[derive(Drop)]
pub struct Announced {
    pub lists: Vec<Listing>,
    /// Whether each route's prefix is in its participant's list.
    pub whole: bool,
}

/// Puts a prefix last, where there is room.
fn put_in_room(prefixes: &mut Vec<Prefix>, prefix: Prefix) -> bool
    ensures kept { (p : AnyPrefix) → Member p prefixes.old.items → Member p prefixes.new.items }
    ensures there { result ≡ true → Member prefix prefixes.new.items }
{
    prefixes.len() < prefixes.capacity() && prefixes.push(prefix).is_ok()
}

/// Puts a prefix into a participant's list, where there is one with room.
fn put_in_list(lists: &mut Vec<Listing>, from: Pid, prefix: Prefix) -> bool
    ensures kept { (n : ℕ) (p : AnyPrefix) → Member p (list_at lists.old.items n) → Member p (list_at lists.new.items n) }
    ensures there { result ≡ true → Member prefix (list_at lists.new.items from.0) }
{
    match lists.get_mut(from.0 as usize) {
        Some(list) => put_in_room(&mut list.prefixes, prefix),
        None => false,
    }
}

/// Whether the route at a place is a participant's.
fn is_at(row: &[Held], at: usize, from: Pid) -> bool
    ensures within { result ≡ true → at < length row.now }
    ensures there { result ≡ true → is_some (look row.now from.0) ≡ true }
{
    match row.get(at) {
        Some(held) => held.from.0 == from.0,
        None => false,
    }
}

/// Writes down the participants of a row, from the front on.
pub fn put_participants(pids: &mut [Pid], row: &[Held])
    requires { length row.now ≤ length pids.old }
    ensures { take (length row.now) pids.new ≡ map (λ (h : AnyHeld). h.from) row.now }
{
    for (place, held) in row.iter().enumerate() {
        pids[place] = held.from;
    }
}

impl Announced {
    /// No lists, and no routes that they miss.
    pub fn new(alloc: Global) -> Announced
        ensures lists { result.lists.items ≡ [] }
        ensures whole { result.whole ≡ true }
    {
        Announced {
            lists: Vec::new(alloc),
            whole: true,
        }
    }

    /// Makes one list more, where there are fewer than so many.
    pub fn declare(&mut self, alloc: Global, count: usize) -> Result<(), Memory>
        ensures { StayListed self.old self.new }
    {
        if self.lists.len() < count {
            let list = Listing {
                prefixes: Vec::new(alloc),
                stale: 0,
            };
            self.lists.push(list)?;
        }
        Ok(())
    }

    /// Makes room for so many more prefixes of a participant.
    pub fn reserve(&mut self, from: Pid, prefixes: usize) -> Result<(), Memory>
        ensures { StayListed self.old self.new }
    {
        match self.lists.get_mut(from.0 as usize) {
            Some(list) => list.prefixes.reserve(prefixes)?,
            None => {}
        }
        Ok(())
    }

    /// Puts a prefix into a participant's list. It takes no memory: where there is no room, the lists aren't whole any more.
    fn list(&mut self, from: Pid, prefix: Prefix)
        ensures kept { StayListed self.old self.new }
        ensures listed { Lists self.new from.0 prefix }
    {
        self.whole = self.whole && put_in_list(&mut self.lists, from, prefix);
    }

    /// Counts a prefix of a participant as out of date.
    fn outdate(&mut self, from: Pid)
        ensures { StayListed self.old self.new }
    {
        if let Some(list) = self.lists.get_mut(from.0 as usize) {
            list.stale = list.stale.saturating_add(1);
        }
    }

    /// Counts the prefix of a row as out of date for those whose routes stand in the row from a place on, up to a
    /// participant. The first place behind them.
    fn outdate_until(&mut self, row: &[Held], at: usize, end: u32) -> usize
        ensures { StayListed self.old self.new }
    {
        let mut next = at;
        while next < row.len() && row[next].from.0 < end {
            self.outdate(row[next].from);
            next += 1;
        }
        next
    }

    /// Takes down that a prefix has a row of these participants in place of another: it is put into the lists of those whose
    /// routes are new, and is out of date in the lists of those whose routes went. It takes no memory.
    pub fn note(&mut self, prefix: Prefix, old: &[Held], new: &[Pid])
        requires { (n : ℕ) → is_some (look old.now n) ≡ true → Lists self.old n prefix }
        ensures kept { StayListed self.old self.new }
        ensures listed { (from : AnyPid) → Member from new.now → Lists self.new from.0 prefix }
    {
        let mut at = 0;
        for from in new {
            at = self.outdate_until(old, at, from.0);
            if is_at(old, at, *from) {
                at += 1;
            } else {
                self.list(*from, prefix);
            }
        }
        self.outdate_until(old, at, u32::MAX);
    }

    /// Whether more than half of a participant's list is out of date, and more than a few prefixes. No promise rests on it.
    pub fn is_stale(&self, from: Pid) -> bool {
        match self.lists.get(from.0 as usize) {
            Some(list) => list.stale > FEW && list.stale > list.prefixes.len() / 2,
            None => false,
        }
    }

    /// Gives a participant another list, in which nothing is out of date.
    pub fn replace(&mut self, from: Pid, prefixes: Vec<Prefix>)
        ensures { (n : ℕ) (p : AnyPrefix) → Lists self.old n p → (n ≡ from.0 → Member p prefixes.items) → Lists self.new n p }
    {
        if let Some(list) = self.lists.get_mut(from.0 as usize) {
            *list = Listing { prefixes, stale: 0 };
        }
    }

    /// The prefix that was listed last of a participant. No promise rests on it.
    pub fn last(&self, from: Pid) -> Option<Prefix> {
        let list = self.lists.get(from.0 as usize)?;
        list.prefixes.last().copied()
    }

    /// What is listed of a participant, where no route is missing.
    pub fn listed(&self, from: Pid) -> Option<&[Prefix]>
        ensures { IfSome result (λ prefixes. (p : AnyPrefix) → Lists self.now from.0 p → Member p prefixes.now) }
    {
        if !self.whole {
            return None;
        }
        match self.lists.get(from.0 as usize) {
            Some(list) => Some(list.prefixes.as_slice()),
            None => Some(&[]),
        }
    }
}
