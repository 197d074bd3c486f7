//! A binary trie: each node has a prefix, whose lower half holds the prefixes on one side of it, and whose upper half those
//! on the other.

ghost use Rattle.std.specs.Prelude.{◌≡◌, ◌++◌, [], OnOk, option_copied};
ghost use Rattle.std.specs.Bool.{OnTrue};
ghost use Rattle.std.specs.Option.{option_map};
ghost use Rattle.std.specs.FinMap.Entries.{find};
ghost use Rattle.net_types.specs.Keys.{prefix_cmp};
ghost use Rattle.prefix_map.specs.Entries.{entries_of, own, above, seen_entry, seen_entries, longest_entry, entry_or};
ghost use Rattle.net_types.specs.Routes.{first_of_list};
ghost use Rattle.prefix_map.specs.Tries.{IsTrie};

use crate::place::is_below;
use net_types::{Ip, Memory, Prefix};

#[cycle(trie)]
#[derive(Drop)]
pub(crate) enum Trie<V> {
    Empty,
    /// A prefix without others below it.
    Lone { at: Prefix, value: V },
    Fork(Box<Node<V>>),
}

/// A prefix, the prefixes in its two halves, and its value where it has one.
#[cycle(trie)]
#[derive(Drop)]
pub(crate) struct Node<V> {
    // the value stands last: a walk that looks at it beside the prefix, before it chooses a child, waits but once for a
    // node that lies on two lines of the cache
    pub(crate) at: Prefix,
    pub(crate) low: Trie<V>,
    pub(crate) high: Trie<V>,
    pub(crate) held: Option<V>,
}

impl<V> Trie<V> {
    pub(crate) fn is_empty(&self) -> bool
        ensures { OnTrue result (entries_of self.now ≡ []) }
    {
        match self {
            Trie::Empty => true,
            Trie::Lone { at: _, value: _ } => false,
            Trie::Fork(_) => false,
        }
    }
}

/// The value of a prefix, where it has one. Whether the prefix lies in a fork's isn't asked on the way down: where it doesn't, none
/// that is met is the same.
pub(crate) fn value_of<V>(trie: &Trie<V>, key: Prefix) -> Option<&V>
    requires halves { IsTrie trie.now }
    ensures { option_copied result ≡ find prefix_cmp key (entries_of trie.now) }
{
    let mut here = trie;
    loop {
        match here {
            Trie::Empty => return None,
            Trie::Lone { at, value } => {
                return if *at == key { Some(value) } else { None };
            }
            Trie::Fork(node) => {
                let node = &**node;
                if key.len <= node.at.len {
                    return if node.at == key {
                        node.held.as_ref()
                    } else {
                        None
                    };
                }
                here = if is_below(key.address, node.at) {
                    &node.low
                } else {
                    &node.high
                };
            }
        }
    }
}

/// The longest prefix that covers an address, with its value. Forks without a value aren't asked whether they cover it: where one
/// doesn't, none below it does.
pub(crate) fn longest_in<V>(trie: &Trie<V>, ip: Ip) -> Option<(Prefix, &V)>
    requires halves { IsTrie trie.now }
    ensures { option_map seen_entry result ≡ longest_entry (entries_of trie.now) ip }
{
    let mut best = None;
    let mut here = trie;
    loop {
        match here {
            Trie::Empty => return best,
            Trie::Lone { at, value } => {
                return if at.covers(ip) {
                    Some((*at, value))
                } else {
                    best
                };
            }
            Trie::Fork(node) => {
                let node = &**node;
                if let Some(value) = &node.held {
                    if !node.at.covers(ip) {
                        return best;
                    }
                    best = Some((node.at, value));
                }
                here = if is_below(ip, node.at) {
                    &node.low
                } else {
                    &node.high
                };
            }
        }
    }
}

/// The entry with the least prefix.
pub(crate) fn first<V>(trie: &Trie<V>) -> Option<(Prefix, &V)>
    ensures { option_map seen_entry result ≡ first_of_list (entries_of trie.now) }
{
    match trie {
        Trie::Empty => None,
        Trie::Lone { at, value } => Some((*at, value)),
        Trie::Fork(node) => match &node.held {
            Some(value) => Some((node.at, value)),
            None => match first(&node.low) {
                Some(entry) => Some(entry),
                None => first(&node.high),
            },
        },
    }
}

/// The entry with the least prefix above a prefix.
pub(crate) fn next_after<V>(trie: &Trie<V>, key: Prefix) -> Option<(Prefix, &V)>
    requires halves { IsTrie trie.now }
    ensures { option_map seen_entry result ≡ first_of_list (above key (entries_of trie.now)) }
{
    match trie {
        Trie::Empty => None,
        Trie::Lone { at, value } => {
            if key.cmp(at).is_lt() {
                Some((*at, value))
            } else {
                None
            }
        }
        Trie::Fork(node) => {
            let node = &**node;
            if key.cmp(&node.at).is_lt() {
                return first(trie);
            }
            if !is_below(key.address, node.at) {
                return next_after(&node.high, key);
            }
            match next_after(&node.low, key) {
                Some(entry) => Some(entry),
                None => first(&node.high),
            }
        }
    }
}

/// Puts the entries of a trie last, in ascending order of their prefixes.
pub(crate) fn gather<'a, V>(
    trie: &'a Trie<V>,
    entries: &mut Vec<(Prefix, &'a V)>,
) -> Result<(), Memory>
    ensures { OnOk result (seen_entries entries.new.items ≡ seen_entries entries.old.items ++ entries_of trie.now) }
{
    match trie {
        Trie::Empty => Ok(()),
        Trie::Lone { at, value } => {
            entries.push((*at, value))?;
            Ok(())
        }
        Trie::Fork(node) => {
            let node = &**node;
            push_own(node.at, &node.held, entries)?;
            gather(&node.low, entries)?;
            gather(&node.high, entries)
        }
    }
}

/// Puts a prefix last where it has a value.
fn push_own<'a, V>(
    at: Prefix,
    held: &'a Option<V>,
    entries: &mut Vec<(Prefix, &'a V)>,
) -> Result<(), Memory>
    ensures { OnOk result (seen_entries entries.new.items ≡ seen_entries entries.old.items ++ own at held.now) }
{
    if let Some(value) = held {
        entries.push((at, value))?;
    }
    Ok(())
}
