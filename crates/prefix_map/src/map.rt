//! The map: its parts, and boxes that wait for more prefixes.

ghost use Rattle.std.specs.Prelude.{◌≡◌, ◌≤◌, ◌<◌, ◌+◌, Some, None, IsTrue, IsOk, OnOk, OnErr, IfOk, IfSome, option_copied, is_some, length, if◌then◌else◌};
ghost use Rattle.std.specs.FinMap as map;
ghost use Rattle.std.specs.Option.{option_map};
ghost use Rattle.net_types.specs.Prefixes.{covers};
ghost use Rattle.net_types.specs.Routes.{longest_of};
ghost use Rattle.prefix_map.specs.Entries.{seen_entries};

use crate::iter::Iter;
use crate::parts::Parts;
use crate::spare::fill;
use crate::trie::{Node, Trie};
use net_types::{Ip, Memory, Prefix};
use std::alloc::Global;
use std::marker::Model;

/// The most boxes that are made beside those that are needed. Boxes that are made at once lie side by side, so that a
/// walk down the trie meets fewer pages of memory.
const MORE_BOXES: usize = 63;

/// How many prefixes there are at least, with those that there is room for, where they stand in a table. Its own memory is less than
/// that of so many boxes.
const MANY: usize = 32768;

/// A map from prefixes to values, and room for a number of new prefixes.
#[derive(Drop)]
pub struct PrefixMap<V> {
    alloc: Global,
    parts: Parts<V>,
    // one or more for each new prefix that there is room for
    spare: Vec<Box<Node<V>>>,
    room: usize,
    count: usize,
}

impl<V> Model for PrefixMap<V> {
    ghost use Rattle.std.specs.Vec.{vec_len};
    ghost use Rattle.std.specs.Coded.{codes};
    ghost use Rattle.std.specs.FinMap as map;
    ghost use Rattle.prefix_map.specs.Held.{Held};
    ghost use Rattle.prefix_map.specs.Parts.{entries_in};
    ghost use Rattle.prefix_map.specs.Kept.{IsKept};

    ghost Value = { Held V };

    ghost coded = { Prim.hlevel (codes, map.code, V.code) };

    ghost view = { λ a. record { map = map.from_sorted (entries_in a.parts); room = a.room } };

    ghost invariant = { λ a. IsKept a.parts (vec_len a.spare) a.room a.count };
}

impl<V> PrefixMap<V> {
    /// The empty map.
    pub fn new(alloc: Global) -> PrefixMap<V>
        ensures { result.map ≡ map.empty }
    {
        PrefixMap {
            alloc,
            parts: Parts::One(Trie::Empty),
            spare: Vec::new(alloc),
            room: 0,
            count: 0,
        }
    }

    /// The value of a prefix, where it has one.
    pub fn get(&self, key: Prefix) -> Option<&V>
        ensures { option_copied result ≡ map.get self.now.map key }
    {
        self.parts.value(key)
    }

    /// The longest prefix of the map that covers an address, with its value; none where no prefix of the map covers it.
    pub fn longest(&self, ip: Ip) -> Option<(Prefix, &V)>
        ensures key { option_map (λ entry. entry.0) result ≡ longest_of (map.keys self.now.map) ip }
        ensures value { IfSome result (λ entry. Some entry.1.now ≡ map.get self.now.map entry.0) }
    {
        self.parts.longest(ip)
    }

    /// How many prefixes have a value.
    pub fn len(&self) -> usize
        ensures { result ≡ length (map.entries self.now.map) }
    {
        self.count
    }

    /// The prefixes with their values, ascending by address, and then by length. It takes no memory.
    pub fn iter(&self) -> Iter<'_, V>
        ensures { result ≡ map.entries self.now.map }
    {
        Iter::new(&self.parts)
    }

    /// The prefixes with their values, ascending by address, and then by length: all in one walk, as a list.
    pub fn entries(&self) -> Result<Vec<(Prefix, &V)>, Memory>
        ensures { IfOk result (λ entries. seen_entries entries.items ≡ map.entries self.now.map) }
    {
        let mut entries = Vec::with_capacity(self.alloc, self.count)?;
        self.parts.gather(&mut entries)?;
        Ok(entries)
    }
}

impl<V: Drop> PrefixMap<V> {
    /// Makes room for so many new prefixes. It takes memory only where there is less, and may then take more than that needs.
    pub fn reserve(&mut self, entries: usize) -> Result<(), Memory>
        ensures map { self.new.map ≡ self.old.map }
        ensures room { OnOk result (entries ≤ self.new.room) }
        ensures kept { self.old.room ≤ self.new.room }
        ensures enough { entries ≤ self.old.room → IsOk result }
    {
        if entries <= self.room {
            return Ok(());
        }
        if entries > usize::MAX - self.count {
            return Err(Memory);
        }
        if self.count + entries >= MANY {
            self.parts
                .divide(self.alloc, &mut self.spare, self.room, self.count)?;
        }
        if self.spare.len() < entries {
            let more = (self.count / 4).min(MORE_BOXES);
            fill(self.alloc, &mut self.spare, entries.saturating_add(more))?;
        }
        self.room = entries;
        Ok(())
    }

    /// Gives a prefix a value, and answers the one before. It takes memory only for a new prefix without room, and
    /// after want of it the map is as it was.
    pub fn insert(&mut self, key: Prefix, value: V) -> Result<Option<V>, Memory>
        ensures value { IfOk result (λ before. before ≡ map.get self.old.map key) }
        ensures map { OnOk result (self.new.map ≡ map.insert self.old.map key value) }
        ensures unchanged { OnErr result (self.new.map ≡ self.old.map) }
        ensures room { self.old.room ≤ self.new.room + (if is_some (map.get self.old.map key) then 0 else 1) }
        ensures enough { (map.get self.old.map key ≡ None → 0 < self.old.room) → IsOk result }
    {
        if self.room == 0 && self.get(key).is_none() {
            self.reserve(1)?;
        }
        Ok(self.put(key, value))
    }

    /// Gives a prefix a value, and answers the one before. A new prefix needs room, and uses one place of it.
    pub fn put(&mut self, key: Prefix, value: V) -> Option<V>
        requires { map.get self.old.map key ≡ None → 0 < self.old.room }
        ensures value { result ≡ map.get self.old.map key }
        ensures map { self.new.map ≡ map.insert self.old.map key value }
        ensures room { self.old.room ≤ self.new.room + (if is_some result then 0 else 1) }
    {
        let before = self.parts.put(&mut self.spare, key, value);
        if before.is_none() {
            self.room -= 1;
            self.count += 1;
        }
        before
    }

    /// Takes a prefix out, and answers its value. There is room for no fewer new prefixes than before.
    pub fn remove(&mut self, key: Prefix) -> Option<V>
        ensures value { result ≡ map.get self.old.map key }
        ensures map { self.new.map ≡ map.remove self.old.map key }
        ensures room { self.old.room ≤ self.new.room }
    {
        let before = self.parts.take(&mut self.spare, key);
        if before.is_some() {
            self.count -= 1;
        }
        before
    }
}
