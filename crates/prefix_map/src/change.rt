//! How prefixes come into a trie and leave it.

ghost use Rattle.std.specs.Prelude.{◌≡◌, ◌≤◌, ◌<◌, ◌+◌, ◌∷◌, ◌++◌, [], None, IfSome, is_some, if◌then◌else◌};
ghost use Rattle.std.specs.Vec.{vec_len};
ghost use Rattle.std.specs.FinMap.Entries.{find, put};
ghost use Rattle.net_types.specs.Keys.{prefix_cmp};
ghost use Rattle.prefix_map.specs.Entries.{entries_of, node_entries, without};
ghost use Rattle.prefix_map.specs.Halves.{past, LiesIn, LiesLow, LiesHigh};
ghost use Rattle.prefix_map.specs.Tries.{IsTrie, IsNode, IsLone, AllKeys};
ghost use Rattle.prefix_map.specs.declared.trie.Trie.{Empty, Lone};

use crate::place::{Place, common, place_of};
use crate::spare::{boxed, give_back};
use crate::trie::{Node, Trie};
use net_types::Prefix;
use std::mem;

/// Gives a prefix a value, and answers the one before. A new prefix takes one of the spare boxes at most.
pub(crate) fn put_in<V: Drop>(
    trie: &mut Trie<V>,
    spare: &mut Vec<Box<Node<V>>>,
    key: Prefix,
    value: V,
) -> Option<V>
    requires halves { IsTrie trie.old }
    requires room { find prefix_cmp key (entries_of trie.old) ≡ None → 0 < vec_len spare.old }
    ensures value { result ≡ find prefix_cmp key (entries_of trie.old) }
    ensures entries { entries_of trie.new ≡ put prefix_cmp key value (entries_of trie.old) }
    ensures halves { IsTrie trie.new }
    ensures room { vec_len spare.old ≤ vec_len spare.new + (if is_some result then 0 else 1) }
{
    match trie {
        Trie::Empty => {
            *trie = Trie::Lone { at: key, value };
            None
        }
        Trie::Lone { at, value: held } => {
            if *at == key {
                return Some(mem::replace(held, value));
            }
            let (at, held) = take_lone(trie);
            *trie = Trie::Fork(boxed(spare, of_two(at, held, key, value)));
            None
        }
        Trie::Fork(node) => {
            let node = &mut **node;
            match place_of(node.at, key) {
                Place::Same => mem::replace(&mut node.held, Some(value)),
                Place::Low => put_in(&mut node.low, spare, key, value),
                Place::High => put_in(&mut node.high, spare, key, value),
                Place::OverLow => {
                    put_over_low(trie, spare, key, value);
                    None
                }
                Place::OverHigh => {
                    put_over_high(trie, spare, key, value);
                    None
                }
                Place::Before => {
                    let fork = common(key, node.at);
                    put_before(trie, spare, fork, key, value);
                    None
                }
                Place::After => {
                    let fork = common(node.at, key);
                    put_after(trie, spare, fork, key, value);
                    None
                }
            }
        }
    }
}

// Takes the prefix out of a trie that has no other one.
fn take_lone<V: Drop>(trie: &mut Trie<V>) -> (Prefix, V)
    requires { IsLone trie.old }
    ensures entry { trie.old ≡ Lone result.0 result.1 }
    ensures rest { trie.new ≡ Empty }
{
    match mem::replace(trie, Trie::Empty) {
        Trie::Lone { at, value } => (at, value),
        Trie::Empty => unreachable!(),
        Trie::Fork(_) => unreachable!(),
    }
}

// Two different prefixes.
fn of_two<V>(at: Prefix, held: V, key: Prefix, value: V) -> Node<V>
    requires { find prefix_cmp key ((at, held) ∷ []) ≡ None }
    ensures halves { IsNode result }
    ensures entries { node_entries result ≡ put prefix_cmp key value ((at, held) ∷ []) }
{
    match place_of(at, key) {
        Place::Same => unreachable!(),
        Place::Low => over_low(at, held, Trie::Lone { at: key, value }),
        Place::High => over_high(at, held, Trie::Lone { at: key, value }),
        Place::OverLow => over_low(key, value, Trie::Lone { at, value: held }),
        Place::OverHigh => over_high(key, value, Trie::Lone { at, value: held }),
        Place::Before => apart(
            common(key, at),
            Trie::Lone { at: key, value },
            Trie::Lone { at, value: held },
        ),
        Place::After => apart(
            common(at, key),
            Trie::Lone { at, value: held },
            Trie::Lone { at: key, value },
        ),
    }
}

// A prefix with its value, over a trie that lies in its lower half.
fn over_low<V>(at: Prefix, value: V, low: Trie<V>) -> Node<V>
    requires halves { IsTrie low }
    requires lie { AllKeys (LiesLow at) (entries_of low) }
    ensures halves { IsNode result }
    ensures entries { node_entries result ≡ (at, value) ∷ entries_of low }
{
    Node {
        at,
        low,
        high: Trie::Empty,
        held: Some(value),
    }
}

// A prefix with its value, over a trie that lies in its upper half.
fn over_high<V>(at: Prefix, value: V, high: Trie<V>) -> Node<V>
    requires halves { IsTrie high }
    requires lie { AllKeys (LiesHigh at) (entries_of high) }
    ensures halves { IsNode result }
    ensures entries { node_entries result ≡ (at, value) ∷ entries_of high }
{
    Node {
        at,
        low: Trie::Empty,
        high,
        held: Some(value),
    }
}

// A fork without a value, between two tries.
fn apart<V>(fork: Prefix, low: Trie<V>, high: Trie<V>) -> Node<V>
    requires low { IsTrie low }
    requires high { IsTrie high }
    requires lie_low { AllKeys (LiesLow fork) (entries_of low) }
    requires lie_high { AllKeys (LiesHigh fork) (entries_of high) }
    ensures halves { IsNode result }
    ensures entries { node_entries result ≡ entries_of low ++ entries_of high }
{
    Node {
        at: fork,
        low,
        high,
        held: None,
    }
}

// Puts a prefix with its value over a trie that lies in its lower half.
fn put_over_low<V: Drop>(trie: &mut Trie<V>, spare: &mut Vec<Box<Node<V>>>, key: Prefix, value: V)
    requires halves { IsTrie trie.old }
    requires lie { AllKeys (LiesLow key) (entries_of trie.old) }
    requires room { 0 < vec_len spare.old }
    ensures halves { IsTrie trie.new }
    ensures entries { entries_of trie.new ≡ (key, value) ∷ entries_of trie.old }
    ensures room { vec_len spare.old ≡ vec_len spare.new + 1 }
{
    let low = mem::replace(trie, Trie::Empty);
    *trie = Trie::Fork(boxed(spare, over_low(key, value, low)));
}

// Puts a prefix with its value over a trie that lies in its upper half.
fn put_over_high<V: Drop>(trie: &mut Trie<V>, spare: &mut Vec<Box<Node<V>>>, key: Prefix, value: V)
    requires halves { IsTrie trie.old }
    requires lie { AllKeys (LiesHigh key) (entries_of trie.old) }
    requires room { 0 < vec_len spare.old }
    ensures halves { IsTrie trie.new }
    ensures entries { entries_of trie.new ≡ (key, value) ∷ entries_of trie.old }
    ensures room { vec_len spare.old ≡ vec_len spare.new + 1 }
{
    let high = mem::replace(trie, Trie::Empty);
    *trie = Trie::Fork(boxed(spare, over_high(key, value, high)));
}

// A prefix in the lower half of a new fork, whose upper half is the trie.
fn put_before<V: Drop>(
    trie: &mut Trie<V>,
    spare: &mut Vec<Box<Node<V>>>,
    fork: Prefix,
    key: Prefix,
    value: V,
)
    requires halves { IsTrie trie.old }
    requires key { LiesLow fork key }
    requires lie { AllKeys (LiesHigh fork) (entries_of trie.old) }
    requires room { 0 < vec_len spare.old }
    ensures halves { IsTrie trie.new }
    ensures entries { entries_of trie.new ≡ (key, value) ∷ entries_of trie.old }
    ensures room { vec_len spare.old ≡ vec_len spare.new + 1 }
{
    let low = Trie::Lone { at: key, value };
    let high = mem::replace(trie, Trie::Empty);
    *trie = Trie::Fork(boxed(spare, apart(fork, low, high)));
}

// A prefix in the upper half of a new fork, whose lower half is the trie.
fn put_after<V: Drop>(
    trie: &mut Trie<V>,
    spare: &mut Vec<Box<Node<V>>>,
    fork: Prefix,
    key: Prefix,
    value: V,
)
    requires halves { IsTrie trie.old }
    requires key { LiesHigh fork key }
    requires lie { AllKeys (LiesLow fork) (entries_of trie.old) }
    requires room { 0 < vec_len spare.old }
    ensures halves { IsTrie trie.new }
    ensures entries { entries_of trie.new ≡ entries_of trie.old ++ (key, value) ∷ [] }
    ensures room { vec_len spare.old ≡ vec_len spare.new + 1 }
{
    let low = mem::replace(trie, Trie::Empty);
    let high = Trie::Lone { at: key, value };
    *trie = Trie::Fork(boxed(spare, apart(fork, low, high)));
}

/// Takes a prefix out, and answers its value. Boxes that become free wait for other prefixes, or are freed.
#[cycle(take)]
pub(crate) fn take_from<V: Drop>(
    trie: &mut Trie<V>,
    spare: &mut Vec<Box<Node<V>>>,
    key: Prefix,
) -> Option<V>
    requires halves { IsTrie trie.old }
    ensures value { result ≡ find prefix_cmp key (entries_of trie.old) }
    ensures entries { entries_of trie.new ≡ without key (entries_of trie.old) }
    ensures halves { IsTrie trie.new }
    ensures room { vec_len spare.old ≤ vec_len spare.new }
{
    let before = take_below(trie, spare, key);
    join_levels(trie, spare);
    before
}

// As `take_from`, but the node may be left with less than a fork needs.
#[cycle(take)]
fn take_below<V: Drop>(trie: &mut Trie<V>, spare: &mut Vec<Box<Node<V>>>, key: Prefix) -> Option<V>
    requires halves { IsTrie trie.old }
    ensures value { result ≡ find prefix_cmp key (entries_of trie.old) }
    ensures entries { entries_of trie.new ≡ without key (entries_of trie.old) }
    ensures halves { IsTrie trie.new }
    ensures room { vec_len spare.old ≤ vec_len spare.new }
{
    match trie {
        Trie::Empty => None,
        Trie::Lone { at, value: _ } => {
            if *at == key {
                Some(take_lone(trie).1)
            } else {
                None
            }
        }
        Trie::Fork(node) => {
            let node = &mut **node;
            match place_of(node.at, key) {
                Place::Same => mem::replace(&mut node.held, None),
                Place::Low => take_from(&mut node.low, spare, key),
                Place::High => take_from(&mut node.high, spare, key),
                Place::OverLow => None,
                Place::OverHigh => None,
                Place::Before => None,
                Place::After => None,
            }
        }
    }
}

// Puts what a fork has in its place where that is a value alone or a child alone.
fn join_levels<V: Drop>(trie: &mut Trie<V>, spare: &mut Vec<Box<Node<V>>>)
    requires halves { IsTrie trie.old }
    ensures entries { entries_of trie.new ≡ entries_of trie.old }
    ensures halves { IsTrie trie.new }
    ensures room { vec_len spare.old ≤ vec_len spare.new }
{
    let single = match trie {
        Trie::Empty => None,
        Trie::Lone { at: _, value: _ } => None,
        Trie::Fork(node) => take_single(node),
    };
    if let Some(single) = single {
        if let Trie::Fork(node) = mem::replace(trie, single) {
            give_back(spare, node);
        }
    }
}

// What a node has, taken out of it, where that is a value alone or a child alone.
fn take_single<V: Drop>(node: &mut Node<V>) -> Option<Trie<V>>
    requires halves { IsNode node.old }
    ensures halves { IfSome result (λ trie. IsTrie trie) }
    ensures entries { IfSome result (λ trie. entries_of trie ≡ node_entries node.old) }
    ensures kept { result ≡ None → node.new ≡ node.old }
{
    if node.low.is_empty() && node.high.is_empty() {
        if let Some(value) = mem::replace(&mut node.held, None) {
            return Some(Trie::Lone { at: node.at, value });
        }
    }
    if node.held.is_some() {
        return None;
    }
    if node.low.is_empty() {
        return Some(mem::replace(&mut node.high, Trie::Empty));
    }
    if node.high.is_empty() {
        return Some(mem::replace(&mut node.low, Trie::Empty));
    }
    None
}
