//! Where a map keeps its entries: in one trie while they are few, and in a table of tries once they are many.

ghost use Rattle.std.specs.Prelude.{◌≡◌, ◌≤◌, ◌<◌, ◌+◌, ◌^◌, ◌++◌, None, OnOk, is_some, option_copied, length, if◌then◌else◌};
ghost use Rattle.std.specs.Vec.{vec_len};
ghost use Rattle.std.specs.Option.{option_map};
ghost use Rattle.std.specs.FinMap.Entries.{find, put};
ghost use Rattle.net_types.specs.Keys.{prefix_cmp};
ghost use Rattle.net_types.specs.Routes.{first_of_list};
ghost use Rattle.prefix_map.specs.Entries.{above, without, seen_entry, seen_entries, longest_entry};
ghost use Rattle.prefix_map.specs.Parts.{entries_in, AreParts};

use crate::change::{put_in, take_from};
use crate::spare::fill;
use crate::table::{Table, spread};
use crate::trie::{Node, Trie, first, gather, longest_in, next_after, value_of};
use net_types::{Ip, Memory, Prefix};
use std::alloc::Global;
use std::mem;

#[derive(Drop)]
pub(crate) enum Parts<V> {
    One(Trie<V>),
    Many(Table<V>),
}

impl<V> Parts<V> {
    /// The value of a prefix, where it has one.
    pub(crate) fn value(&self, key: Prefix) -> Option<&V>
        requires { AreParts self.now }
        ensures { option_copied result ≡ find prefix_cmp key (entries_in self.now) }
    {
        match self {
            Parts::One(trie) => value_of(trie, key),
            Parts::Many(table) => table.value(key),
        }
    }

    /// The longest prefix that covers an address, with its value.
    pub(crate) fn longest(&self, ip: Ip) -> Option<(Prefix, &V)>
        requires { AreParts self.now }
        ensures { option_map seen_entry result ≡ longest_entry (entries_in self.now) ip }
    {
        match self {
            Parts::One(trie) => longest_in(trie, ip),
            Parts::Many(table) => table.longest(ip),
        }
    }

    /// The entry with the least prefix.
    pub(crate) fn first(&self) -> Option<(Prefix, &V)>
        ensures { option_map seen_entry result ≡ first_of_list (entries_in self.now) }
    {
        match self {
            Parts::One(trie) => first(trie),
            Parts::Many(table) => table.first(),
        }
    }

    /// The entry with the least prefix above a prefix.
    pub(crate) fn next_after(&self, key: Prefix) -> Option<(Prefix, &V)>
        requires { AreParts self.now }
        ensures { option_map seen_entry result ≡ first_of_list (above key (entries_in self.now)) }
    {
        match self {
            Parts::One(trie) => next_after(trie, key),
            Parts::Many(table) => table.next_after(key),
        }
    }

    /// Puts the entries last, in ascending order of their prefixes.
    pub(crate) fn gather<'a>(&'a self, entries: &mut Vec<(Prefix, &'a V)>) -> Result<(), Memory>
        ensures { OnOk result (seen_entries entries.new.items ≡ seen_entries entries.old.items ++ entries_in self.now) }
    {
        match self {
            Parts::One(trie) => gather(trie, entries),
            Parts::Many(table) => table.gather(entries),
        }
    }
}

impl<V: Drop> Parts<V> {
    /// Gives a prefix a value, and answers the one before. A new prefix takes one of the spare boxes at most.
    pub(crate) fn put(&mut self, spare: &mut Vec<Box<Node<V>>>, key: Prefix, value: V) -> Option<V>
        requires parts { AreParts self.old }
        requires room { find prefix_cmp key (entries_in self.old) ≡ None → 0 < vec_len spare.old }
        ensures value { result ≡ find prefix_cmp key (entries_in self.old) }
        ensures entries { entries_in self.new ≡ put prefix_cmp key value (entries_in self.old) }
        ensures parts { AreParts self.new }
        ensures room { vec_len spare.old ≤ vec_len spare.new + (if is_some result then 0 else 1) }
    {
        match self {
            Parts::One(trie) => put_in(trie, spare, key, value),
            Parts::Many(table) => table.put(spare, key, value),
        }
    }

    /// Takes a prefix out, and answers its value. Boxes that become free wait for other prefixes, or are freed.
    pub(crate) fn take(&mut self, spare: &mut Vec<Box<Node<V>>>, key: Prefix) -> Option<V>
        requires { AreParts self.old }
        ensures value { result ≡ find prefix_cmp key (entries_in self.old) }
        ensures entries { entries_in self.new ≡ without key (entries_in self.old) }
        ensures parts { AreParts self.new }
        ensures room { vec_len spare.old ≤ vec_len spare.new }
    {
        match self {
            Parts::One(trie) => take_from(trie, spare, key),
            Parts::Many(table) => table.take(spare, key),
        }
    }

    /// Moves the entries into a table where they stand in one trie. Each may take a spare box, so there must be as many beyond those
    /// that are to be left.
    pub(crate) fn divide(
        &mut self,
        alloc: Global,
        spare: &mut Vec<Box<Node<V>>>,
        left: usize,
        count: usize,
    ) -> Result<(), Memory>
        requires parts { AreParts self.old }
        requires count { count ≡ length (entries_in self.old) }
        requires left { left ≤ vec_len spare.old }
        requires fits { left + count < 2 ^ 64 }
        ensures entries { entries_in self.new ≡ entries_in self.old }
        ensures parts { AreParts self.new }
        ensures left { left ≤ vec_len spare.new }
    {
        if let Parts::One(trie) = self {
            let mut table = Table::new(alloc)?;
            fill(alloc, spare, left + count)?;
            spread(mem::replace(trie, Trie::Empty), &mut table, spare);
            *self = Parts::Many(table);
        }
        Ok(())
    }
}
