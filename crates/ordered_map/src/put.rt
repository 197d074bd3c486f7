//! How entries come into a tree.

ghost use Rattle.std.specs.Prelude.{◌≡◌, ◌≤◌, ◌<◌, ◌+◌, ◌++◌, ◌∷◌, [], None, IsTrue, is_some, length, if◌then◌else◌};
ghost use Rattle.std.specs.Bool.{OnTrue};
ghost use Rattle.std.specs.Vec.{vec_len};
ghost use Rattle.std.specs.FinMap.Entries.{find, is_sorted};
ghost use Rattle.ordered_map.specs.Changes.{changed_or_given};
ghost use Rattle.ordered_map.specs.Entries.{entries_of, put_given};
ghost use Rattle.ordered_map.specs.Puts.{IsChangedOrPut, IsPut};

use crate::balance::{Height, full, rebalance};
use crate::run::Run;
use crate::spare::{Spare, lone, taken};
use crate::tree::{Node, Tree};
use crate::values::{Change, exchange};
use std::cmp::Ordering;
use std::mem;

/// Gives a key the value that is handed in, and hands out the one before. A new key takes one of the spare boxes at most.
pub(crate) fn put_in<K: Ord + Drop, V: Drop>(
    tree: &mut Tree<K, V>,
    spare: &mut Vec<Spare<K, V>>,
    key: K,
    value: &mut Option<V>,
)
    requires rising { IsTrue (is_sorted K.cmp (entries_of tree.old)) }
    requires room { find K.cmp key (entries_of tree.old) ≡ None → 0 < vec_len spare.old }
    requires given { IsTrue (is_some value.old) }
    ensures value { value.new ≡ find K.cmp key (entries_of tree.old) }
    ensures entries { entries_of tree.new ≡ put_given K.cmp key value.old (entries_of tree.old) }
    ensures room { vec_len spare.old ≤ vec_len spare.new + (if is_some value.new then 0 else 1) }
{
    let mut back = None;
    put_within(tree, key, value, &mut back);
    if let Some(key) = back {
        put_box(tree, spare, key, value);
    }
}

/// Changes the value of a key, and gives it the one that is handed in where it has none: that is used up then, and the new
/// key takes one of the spare boxes at most.
pub(crate) fn change_or_put_in<K: Ord + Drop, V: Drop, C: Change<V>>(
    tree: &mut Tree<K, V>,
    spare: &mut Vec<Spare<K, V>>,
    key: K,
    change: &C,
    value: &mut Option<V>,
)
    requires rising { IsTrue (is_sorted K.cmp (entries_of tree.old)) }
    requires room { find K.cmp key (entries_of tree.old) ≡ None → 0 < vec_len spare.old }
    requires given { IsTrue (is_some value.old) }
    ensures used { is_some value.new ≡ is_some (find K.cmp key (entries_of tree.old)) }
    ensures entries { entries_of tree.new ≡ changed_or_given K.cmp key (C.changed change.now) value.old (entries_of tree.old) }
    ensures room { vec_len spare.old ≤ vec_len spare.new + (if is_some value.new then 0 else 1) }
{
    let mut back = None;
    change_or_put_within(tree, key, change, value, &mut back);
    if let Some(key) = back {
        put_box(tree, spare, key, value);
    }
}

// Gives a key the value that is handed in, and hands out the one before. Where a new key finds no room in its box, it comes back.
// No height changes by that, so that nothing is left to do on the way up.
fn put_within<K: Ord + Drop, V: Drop>(
    tree: &mut Tree<K, V>,
    key: K,
    value: &mut Option<V>,
    back: &mut Option<K>,
)
    requires rising { IsTrue (is_sorted K.cmp (entries_of tree.old)) }
    requires given { IsTrue (is_some value.old) }
    ensures { IsPut K.cmp key value.old (entries_of tree.old) back.new value.new (entries_of tree.new) }
{
    match tree {
        Tree::Empty => *back = Some(key),
        Tree::Fork(node) => match &mut **node {
            Node::Blank => *back = Some(key),
            Node::Full {
                height: _,
                key: held,
                left,
                right,
                value: old,
                others,
            } => match key.cmp(held) {
                Ordering::Less => {
                    if is_open(left, others) {
                        put_least(held, old, others, key, value);
                        *back = None;
                    } else {
                        put_within(left, key, value, back);
                    }
                }
                Ordering::Equal => {
                    exchange(value, old);
                    *back = None;
                }
                Ordering::Greater => put_beside(others, right, key, value, back),
            },
        },
    }
}

// The same in a run and in the tree right of it.
fn put_beside<K: Ord + Drop, V: Drop>(
    run: &mut Run<K, V>,
    tree: &mut Tree<K, V>,
    key: K,
    value: &mut Option<V>,
    back: &mut Option<K>,
)
    requires rising { IsTrue (is_sorted K.cmp (run.old ++ entries_of tree.old)) }
    requires given { IsTrue (is_some value.old) }
    ensures { IsPut K.cmp key value.old (run.old ++ entries_of tree.old) back.new value.new (run.new ++ entries_of tree.new) }
{
    match tree {
        Tree::Empty => *back = run.put(key, value),
        Tree::Fork(node) => match &mut **node {
            Node::Blank => *back = run.put(key, value),
            Node::Full {
                height: _,
                key: held,
                left,
                right,
                value: old,
                others,
            } => match key.cmp(held) {
                Ordering::Less => put_beside(run, left, key, value, back),
                Ordering::Equal => {
                    exchange(value, old);
                    *back = None;
                }
                Ordering::Greater => put_beside(others, right, key, value, back),
            },
        },
    }
}

// Changes the value of a key, and gives it the one that is handed in where it has none: that is used up then. Where a new key
// finds no room in its box, it comes back.
fn change_or_put_within<K: Ord + Drop, V: Drop, C: Change<V>>(
    tree: &mut Tree<K, V>,
    key: K,
    change: &C,
    value: &mut Option<V>,
    back: &mut Option<K>,
)
    requires rising { IsTrue (is_sorted K.cmp (entries_of tree.old)) }
    requires given { IsTrue (is_some value.old) }
    ensures { IsChangedOrPut K.cmp key (C.changed change.now) value.old (entries_of tree.old) back.new value.new (entries_of tree.new) }
{
    match tree {
        Tree::Empty => *back = Some(key),
        Tree::Fork(node) => match &mut **node {
            Node::Blank => *back = Some(key),
            Node::Full {
                height: _,
                key: held,
                left,
                right,
                value: old,
                others,
            } => match key.cmp(held) {
                Ordering::Less => {
                    if is_open(left, others) {
                        put_least(held, old, others, key, value);
                        *back = None;
                    } else {
                        change_or_put_within(left, key, change, value, back);
                    }
                }
                Ordering::Equal => {
                    change.change(old);
                    *back = None;
                }
                Ordering::Greater => change_or_put_beside(others, right, key, change, value, back),
            },
        },
    }
}

// The same in a run and in the tree right of it.
fn change_or_put_beside<K: Ord + Drop, V: Drop, C: Change<V>>(
    run: &mut Run<K, V>,
    tree: &mut Tree<K, V>,
    key: K,
    change: &C,
    value: &mut Option<V>,
    back: &mut Option<K>,
)
    requires rising { IsTrue (is_sorted K.cmp (run.old ++ entries_of tree.old)) }
    requires given { IsTrue (is_some value.old) }
    ensures { IsChangedOrPut K.cmp key (C.changed change.now) value.old (run.old ++ entries_of tree.old) back.new value.new (run.new ++ entries_of tree.new) }
{
    match tree {
        Tree::Empty => *back = run.change_or_put(key, change, value),
        Tree::Fork(node) => match &mut **node {
            Node::Blank => *back = run.change_or_put(key, change, value),
            Node::Full {
                height: _,
                key: held,
                left,
                right,
                value: old,
                others,
            } => match key.cmp(held) {
                Ordering::Less => change_or_put_beside(run, left, key, change, value, back),
                Ordering::Equal => {
                    change.change(old);
                    *back = None;
                }
                Ordering::Greater => change_or_put_beside(others, right, key, change, value, back),
            },
        },
    }
}

// Whether a key that is less than the least one of a node may take its place.
fn is_open<K, V>(left: &Tree<K, V>, others: &Run<K, V>) -> bool
    ensures first { OnTrue result (entries_of left.now ≡ []) }
    ensures room { OnTrue result (length others.now < 15) }
{
    left.is_empty() && !others.is_full()
}

// Puts a new entry into a tree by one more box.
fn put_box<K: Ord + Drop, V: Drop>(
    tree: &mut Tree<K, V>,
    spare: &mut Vec<Spare<K, V>>,
    key: K,
    value: &mut Option<V>,
) -> Height
    requires rising { IsTrue (is_sorted K.cmp (entries_of tree.old)) }
    requires absent { find K.cmp key (entries_of tree.old) ≡ None }
    requires room { 0 < vec_len spare.old }
    requires given { IsTrue (is_some value.old) }
    ensures value { value.new ≡ None }
    ensures entries { entries_of tree.new ≡ put_given K.cmp key value.old (entries_of tree.old) }
    ensures room { vec_len spare.old ≡ vec_len spare.new + 1 }
{
    match tree {
        Tree::Empty => put_alone(tree, spare, key, value),
        Tree::Fork(node) => match &mut **node {
            Node::Blank => put_alone(tree, spare, key, value),
            Node::Full {
                height: _,
                key: held,
                left,
                right,
                value: _,
                others,
            } => {
                if key.cmp(held).is_lt() {
                    let side = put_box(left, spare, key, value);
                    rebalance(tree, side)
                } else {
                    let side = put_box_beside(others, right, spare, key, value);
                    rebalance(tree, side)
                }
            }
        },
    }
}

// The same into a run and the tree right of it.
fn put_box_beside<K: Ord + Drop, V: Drop>(
    run: &mut Run<K, V>,
    tree: &mut Tree<K, V>,
    spare: &mut Vec<Spare<K, V>>,
    key: K,
    value: &mut Option<V>,
) -> Height
    requires rising { IsTrue (is_sorted K.cmp (run.old ++ entries_of tree.old)) }
    requires absent { find K.cmp key (run.old ++ entries_of tree.old) ≡ None }
    requires room { 0 < vec_len spare.old }
    requires given { IsTrue (is_some value.old) }
    ensures value { value.new ≡ None }
    ensures entries { run.new ++ entries_of tree.new ≡ put_given K.cmp key value.old (run.old ++ entries_of tree.old) }
    ensures room { vec_len spare.old ≡ vec_len spare.new + 1 }
{
    match tree {
        Tree::Empty => put_past(run, tree, spare, key, value),
        Tree::Fork(node) => match &mut **node {
            Node::Blank => put_past(run, tree, spare, key, value),
            Node::Full {
                height: _,
                key: held,
                left,
                right,
                value: _,
                others,
            } => {
                if key.cmp(held).is_lt() {
                    let side = put_box_beside(run, left, spare, key, value);
                    rebalance(tree, side)
                } else {
                    let side = put_box_beside(others, right, spare, key, value);
                    rebalance(tree, side)
                }
            }
        },
    }
}

// The entry takes the place of a tree without entries.
fn put_alone<K: Ord + Drop, V: Drop>(
    tree: &mut Tree<K, V>,
    spare: &mut Vec<Spare<K, V>>,
    key: K,
    value: &mut Option<V>,
) -> Height
    requires room { 0 < vec_len spare.old }
    requires given { IsTrue (is_some value.old) }
    ensures value { value.new ≡ None }
    ensures entries { entries_of tree.new ≡ put_given K.cmp key value.old [] }
    ensures room { vec_len spare.old ≡ vec_len spare.new + 1 }
{
    match value.take() {
        Some(value) => {
            *tree = Tree::Fork(lone(spare, key, value));
            Height::Changed
        }
        None => unreachable!(),
    }
}

// The entry becomes the least of a node, and the one before the first of the others.
fn put_least<K: Ord + Drop, V: Drop>(
    held: &mut K,
    old: &mut V,
    others: &mut Run<K, V>,
    key: K,
    value: &mut Option<V>,
)
    requires less { K.cmp key held.old ≡ Ordering.Less }
    requires room { length others.old < 15 }
    requires given { IsTrue (is_some value.old) }
    ensures value { value.new ≡ None }
    ensures entries { (held.new, old.new) ∷ others.new ≡ put_given K.cmp key value.old ((held.old, old.old) ∷ others.old) }
{
    match value.take() {
        Some(value) => {
            let next = mem::replace(held, key);
            others.put_first(next, mem::replace(old, value));
        }
        None => unreachable!(),
    }
}

// Puts a new entry beside a run, into a box that takes the place of a tree without entries: alone where it is greater than all of
// the run, so that boxes are filled to their ends where keys rise. Else the upper half of the run goes into that box.
fn put_past<K: Ord + Drop, V: Drop>(
    run: &mut Run<K, V>,
    tree: &mut Tree<K, V>,
    spare: &mut Vec<Spare<K, V>>,
    key: K,
    value: &mut Option<V>,
) -> Height
    requires rising { IsTrue (is_sorted K.cmp run.old) }
    requires absent { find K.cmp key run.old ≡ None }
    requires room { 0 < vec_len spare.old }
    requires given { IsTrue (is_some value.old) }
    ensures value { value.new ≡ None }
    ensures entries { run.new ++ entries_of tree.new ≡ put_given K.cmp key value.old run.old }
    ensures room { vec_len spare.old ≡ vec_len spare.new + 1 }
{
    if run.is_below(&key) {
        return put_alone(tree, spare, key, value);
    }
    let (mut node, mut upper) = taken(spare);
    run.halve(&mut upper);
    match upper.take_first() {
        None => unreachable!(),
        Some((least, first)) => {
            if key.cmp(&least).is_lt() {
                put_among(run, key, value);
            } else {
                put_among(&mut upper, key, value);
            }
            *node = full(least, first, upper);
            *tree = Tree::Fork(node);
            Height::Changed
        }
    }
}

// Puts a new entry among a few, where there is room for it.
fn put_among<K: Ord + Drop, V: Drop>(others: &mut Run<K, V>, key: K, value: &mut Option<V>)
    requires rising { IsTrue (is_sorted K.cmp others.old) }
    requires absent { find K.cmp key others.old ≡ None }
    requires room { length others.old < 15 }
    requires given { IsTrue (is_some value.old) }
    ensures value { value.new ≡ None }
    ensures entries { others.new ≡ put_given K.cmp key value.old others.old }
{
    if others.put(key, value).is_some() {
        unreachable!()
    }
}
