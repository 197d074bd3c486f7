//! A table of tries: one for each number that the first 16 bits of an address can be. A prefix stands in the part of its address,
//! also one that is shorter than that.

ghost use Rattle.std.specs.Prelude.{◌≡◌, ◌≤◌, ◌<◌, ◌+◌, ◌++◌, [], Some, None, OnOk, IfOk, IfSome, is_some, option_copied, length, if◌then◌else◌};
ghost use Rattle.std.specs.Vec.{vec_len};
ghost use Rattle.std.specs.Option.{option_map};
ghost use Rattle.std.specs.FinMap.Entries.{find, put};
ghost use Rattle.net_types.specs.Keys.{prefix_cmp};
ghost use Rattle.net_types.specs.Routes.{first_of_list};
ghost use Rattle.prefix_map.specs.Entries.{entries_of, above, without, seen_entry, seen_entries, longest_entry};
ghost use Rattle.prefix_map.specs.Tries.{AllKeys};
ghost use Rattle.prefix_map.specs.Tables.{all_entries, number_of, puts, IsTable, AreShort};

use crate::change::{put_in, take_from};
use crate::trie::{Node, Trie, first, gather, longest_in, next_after, value_of};
use net_types::{Ip, Memory, Prefix};
use std::alloc::{AllocError, Global};

/// How many parts there are.
const PARTS: usize = 65536;

/// How many first bits of an address say in which part it stands.
const FIRST_BITS: u8 = 16;

#[derive(Drop)]
pub(crate) struct Table<V> {
    parts: Vec<Trie<V>>,
    // which lengths the prefixes may have; a length stays marked when its last prefix goes
    lengths: [bool; 33],
}

/// The number of the part in which an address stands.
fn number_of(ip: Ip) -> usize
    ensures number { result ≡ number_of ip }
    ensures within { result < 65536 }
{
    (ip.0 >> 16) as usize
}

/// The entry with the least prefix of tries that follow one another.
fn first_of<V>(parts: &[Trie<V>]) -> Option<(Prefix, &V)>
    ensures { option_map seen_entry result ≡ first_of_list (all_entries parts.now) }
{
    for part in parts {
        if let Some(entry) = first(part) {
            return Some(entry);
        }
    }
    None
}

impl<V> Table<V> {
    /// The value of a prefix, where it has one.
    pub(crate) fn value(&self, key: Prefix) -> Option<&V>
        requires { IsTable self.now }
        ensures { option_copied result ≡ find prefix_cmp key (all_entries self.now.parts.items) }
    {
        value_of(&self.parts[number_of(key.address)], key)
    }

    /// The longest prefix that covers an address, with its value. One with as many bits as say the part stands in the address's own;
    /// shorter ones may stand in others.
    pub(crate) fn longest(&self, ip: Ip) -> Option<(Prefix, &V)>
        requires { IsTable self.now }
        ensures { option_map seen_entry result ≡ longest_entry (all_entries self.now.parts.items) ip }
    {
        match longest_in(&self.parts[number_of(ip)], ip) {
            Some((at, value)) if at.len >= FIRST_BITS => Some((at, value)),
            _ => self.longest_short(ip),
        }
    }

    /// The longest prefix that covers an address, where none does that has as many bits as say the part: each length that prefixes
    /// may have is looked for by itself.
    fn longest_short(&self, ip: Ip) -> Option<(Prefix, &V)>
        requires table { IsTable self.now }
        requires short { AreShort 16 ip (all_entries self.now.parts.items) }
        ensures { option_map seen_entry result ≡ longest_entry (all_entries self.now.parts.items) ip }
    {
        let mut len = FIRST_BITS;
        while len > 0 {
            len -= 1;
            if let Some(found) = self.covering(ip, len) {
                return Some(found);
            }
        }
        None
    }

    /// The prefix of so many bits that covers an address, with its value, where none does that is longer.
    fn covering(&self, ip: Ip, len: u8) -> Option<(Prefix, &V)>
        requires table { IsTable self.now }
        requires len { len < 16 }
        requires short { AreShort (len + 1) ip (all_entries self.now.parts.items) }
        ensures found { IfSome result (λ entry. Some (seen_entry entry) ≡ longest_entry (all_entries self.now.parts.items) ip) }
        ensures none { result ≡ None → AreShort len ip (all_entries self.now.parts.items) }
    {
        if !self.lengths[len as usize] {
            return None;
        }
        let Ok(at) = Prefix::new(ip, len) else {
            return None;
        };
        let value = self.value(at)?;
        Some((at, value))
    }

    /// The entry with the least prefix.
    pub(crate) fn first(&self) -> Option<(Prefix, &V)>
        ensures { option_map seen_entry result ≡ first_of_list (all_entries self.now.parts.items) }
    {
        first_of(&self.parts)
    }

    /// The entry with the least prefix above a prefix. Each part is asked once in a walk over all entries, beside those that have one.
    pub(crate) fn next_after(&self, key: Prefix) -> Option<(Prefix, &V)>
        requires { IsTable self.now }
        ensures { option_map seen_entry result ≡ first_of_list (above key (all_entries self.now.parts.items)) }
    {
        let number = number_of(key.address);
        match next_after(&self.parts[number], key) {
            Some(entry) => Some(entry),
            None => first_of(&self.parts[number + 1..]),
        }
    }

    /// Puts the entries last, in ascending order of their prefixes.
    pub(crate) fn gather<'a>(&'a self, entries: &mut Vec<(Prefix, &'a V)>) -> Result<(), Memory>
        ensures { OnOk result (seen_entries entries.new.items ≡ seen_entries entries.old.items ++ all_entries self.now.parts.items) }
    {
        for part in &self.parts {
            gather(part, entries)?;
        }
        Ok(())
    }
}

impl<V: Drop> Table<V> {
    /// The table without entries.
    pub(crate) fn new(alloc: Global) -> Result<Table<V>, AllocError>
        ensures table { IfOk result (λ table. IsTable table) }
        ensures empty { IfOk result (λ table. all_entries table.parts.items ≡ []) }
    {
        let mut parts = Vec::with_capacity(alloc, PARTS)?;
        for _ in 0..PARTS {
            parts.push(Trie::Empty)?;
        }
        Ok(Table {
            parts,
            lengths: [false; 33],
        })
    }

    /// Gives a prefix a value, and answers the one before. A new prefix takes one of the spare boxes at most.
    pub(crate) fn put(&mut self, spare: &mut Vec<Box<Node<V>>>, key: Prefix, value: V) -> Option<V>
        requires table { IsTable self.old }
        requires room { find prefix_cmp key (all_entries self.old.parts.items) ≡ None → 0 < vec_len spare.old }
        ensures value { result ≡ find prefix_cmp key (all_entries self.old.parts.items) }
        ensures entries { all_entries self.new.parts.items ≡ put prefix_cmp key value (all_entries self.old.parts.items) }
        ensures table { IsTable self.new }
        ensures room { vec_len spare.old ≤ vec_len spare.new + (if is_some result then 0 else 1) }
    {
        self.lengths[key.len as usize] = true;
        put_in(&mut self.parts[number_of(key.address)], spare, key, value)
    }

    /// Takes a prefix out, and answers its value. Boxes that become free wait for other prefixes, or are freed.
    pub(crate) fn take(&mut self, spare: &mut Vec<Box<Node<V>>>, key: Prefix) -> Option<V>
        requires { IsTable self.old }
        ensures value { result ≡ find prefix_cmp key (all_entries self.old.parts.items) }
        ensures entries { all_entries self.new.parts.items ≡ without key (all_entries self.old.parts.items) }
        ensures table { IsTable self.new }
        ensures room { vec_len spare.old ≤ vec_len spare.new }
    {
        take_from(&mut self.parts[number_of(key.address)], spare, key)
    }
}

/// Puts the entries of a trie into a table. Each takes one of the spare boxes at most.
pub(crate) fn spread<V: Drop>(trie: Trie<V>, table: &mut Table<V>, spare: &mut Vec<Box<Node<V>>>)
    requires table { IsTable table.old }
    requires room { length (entries_of trie) ≤ vec_len spare.old }
    ensures entries { all_entries table.new.parts.items ≡ puts (entries_of trie) (all_entries table.old.parts.items) }
    ensures table { IsTable table.new }
    ensures room { vec_len spare.old ≤ vec_len spare.new + length (entries_of trie) }
{
    match trie {
        Trie::Empty => {}
        Trie::Lone { at, value } => {
            table.put(spare, at, value);
        }
        Trie::Fork(node) => {
            let Node {
                at,
                low,
                high,
                held,
            } = Box::into_inner(node);
            if let Some(value) = held {
                table.put(spare, at, value);
            }
            spread(low, table, spare);
            spread(high, table, spare);
        }
    }
}
