//! How entries leave a tree.

ghost use Rattle.std.specs.Prelude.{◌≡◌, ◌≤◌, ◌++◌, ◌∷◌, [], None, IsTrue, IfSome, IfNone, OnSome, drop};
ghost use Rattle.std.specs.Vec.{vec_len};
ghost use Rattle.std.specs.FinMap.Entries.{find, is_sorted};
ghost use Rattle.std.specs.Option.{option_map};
ghost use Rattle.ordered_map.specs.Lapsed.{changed_or_without, lapsing};
ghost use Rattle.ordered_map.specs.Entries.{entries_of, node_entries, own_entries, others_of, left_entries, root_others, root_left, value_here, beside, is_full, without, root_value, beside_root, head_of};

use crate::balance::{Height, between, height_of, height_since, level, rebalance};
use crate::spare::{Spare, give_back};
use crate::tree::{Node, Tree};
use crate::values::{Change, Lapse};
use std::cmp::Ordering;
use std::mem;

/// Takes a key out, and hands out its value. A box that becomes empty waits for other entries, or is freed.
pub(crate) fn take_from<K: Ord + Drop, V: Drop>(
    tree: &mut Tree<K, V>,
    spare: &mut Vec<Spare<K, V>>,
    key: &K,
    taken: &mut Option<V>,
) -> Height
    requires rising { IsTrue (is_sorted K.cmp (entries_of tree.old)) }
    ensures value { taken.new ≡ find K.cmp key.now (entries_of tree.old) }
    ensures entries { entries_of tree.new ≡ without K.cmp key.now (entries_of tree.old) }
    ensures room { vec_len spare.old ≤ vec_len spare.new }
{
    match tree {
        Tree::Empty => {
            *taken = None;
            Height::Same
        }
        Tree::Fork(node) => match &mut **node {
            Node::Blank => {
                *taken = None;
                Height::Same
            }
            Node::Full {
                height: _,
                key: held,
                left,
                right,
                value: _,
                others,
            } => match key.cmp(held) {
                Ordering::Less => {
                    let side = take_from(left, spare, key, taken);
                    rebalance(tree, side)
                }
                Ordering::Equal => take_root(tree, spare, taken),
                Ordering::Greater => {
                    if others.is_below(key) {
                        let side = take_from(right, spare, key, taken);
                        return rebalance(tree, side);
                    }
                    *taken = others.take(key);
                    Height::Same
                }
            },
        },
    }
}

/// Changes the value of a key, where it has one, and takes the key out where the value has lapsed then: that is handed out.
/// A box that becomes empty waits for other entries, or is freed.
pub(crate) fn change_or_take<K: Ord + Drop, V: Lapse + Drop, C: Change<V>>(
    tree: &mut Tree<K, V>,
    spare: &mut Vec<Spare<K, V>>,
    key: &K,
    change: &C,
    taken: &mut Option<V>,
) -> Height
    requires rising { IsTrue (is_sorted K.cmp (entries_of tree.old)) }
    ensures value { taken.new ≡ lapsing V.lapsed (option_map (C.changed change.now) (find K.cmp key.now (entries_of tree.old))) }
    ensures entries { entries_of tree.new ≡ changed_or_without K.cmp key.now (C.changed change.now) V.lapsed (entries_of tree.old) }
    ensures room { vec_len spare.old ≤ vec_len spare.new }
{
    match tree {
        Tree::Empty => {
            *taken = None;
            Height::Same
        }
        Tree::Fork(node) => match &mut **node {
            Node::Blank => {
                *taken = None;
                Height::Same
            }
            Node::Full {
                height: _,
                key: held,
                left,
                right,
                value,
                others,
            } => match key.cmp(held) {
                Ordering::Less => {
                    let side = change_or_take(left, spare, key, change, taken);
                    rebalance(tree, side)
                }
                Ordering::Equal => {
                    change.change(value);
                    if value.has_lapsed() {
                        return take_root(tree, spare, taken);
                    }
                    *taken = None;
                    Height::Same
                }
                Ordering::Greater => {
                    if others.is_below(key) {
                        let side = change_or_take(right, spare, key, change, taken);
                        return rebalance(tree, side);
                    }
                    *taken = others.change_or_take(key, change);
                    Height::Same
                }
            },
        },
    }
}

/// Takes the least entry of the root out, and hands out its value. A box that becomes empty waits for other entries, or is
/// freed.
pub(crate) fn take_root<K: Drop, V: Drop>(
    tree: &mut Tree<K, V>,
    spare: &mut Vec<Spare<K, V>>,
    taken: &mut Option<V>,
) -> Height
    ensures value { taken.new ≡ root_value tree.old }
    ensures entries { entries_of tree.new ≡ beside_root tree.old }
    ensures room { vec_len spare.old ≤ vec_len spare.new }
{
    match tree {
        Tree::Empty => {}
        Tree::Fork(node) => {
            if let Some(least) = take_own(node) {
                *taken = Some(least.1);
                return Height::Same;
            }
        }
    }
    drop_root_box(tree, spare, taken)
}

// Takes the least entry of a node out, where there are others in its box.
fn take_own<K: Drop, V: Drop>(node: &mut Node<K, V>) -> Option<(K, V)>
    ensures value { IfSome result (λ least. value_here node.old ≡ Some least.1) }
    ensures own { IfSome result (λ least. own_entries node.old ≡ least ∷ own_entries node.new) }
    ensures rest { OnSome result (node_entries node.new ≡ beside node.old) }
    ensures left { OnSome result (left_entries node.new ≡ left_entries node.old) }
    ensures kept { IfNone result (node.new ≡ node.old) }
    ensures alone { IfNone result (others_of node.old ≡ []) }
{
    match node {
        Node::Blank => None,
        Node::Full {
            height: _,
            key,
            left: _,
            right: _,
            value,
            others,
        } => {
            let (next, other) = others.take_first()?;
            Some((mem::replace(key, next), mem::replace(value, other)))
        }
    }
}

// Takes the only entry of the root's box out, and hands out its value.
fn drop_root_box<K: Drop, V: Drop>(
    tree: &mut Tree<K, V>,
    spare: &mut Vec<Spare<K, V>>,
    taken: &mut Option<V>,
) -> Height
    requires alone { root_others tree.old ≡ [] }
    ensures value { taken.new ≡ root_value tree.old }
    ensures entries { entries_of tree.new ≡ beside_root tree.old }
    ensures room { vec_len spare.old ≤ vec_len spare.new }
{
    *taken = None;
    let mut node = match mem::replace(tree, Tree::Empty) {
        Tree::Empty => return Height::Same,
        Tree::Fork(node) => node,
    };
    match mem::replace(&mut *node, Node::Blank) {
        Node::Blank => Height::Same,
        Node::Full {
            height,
            key: _,
            left,
            right,
            value,
            others,
        } => {
            *tree = joined(left, right);
            give_back(spare, node, others);
            *taken = Some(value);
            height_since(tree, height)
        }
    }
}

// Two trees as one. The first entries on the right stand between them.
fn joined<K: Drop, V: Drop>(left: Tree<K, V>, mut right: Tree<K, V>) -> Tree<K, V>
    ensures { entries_of result ≡ entries_of left ++ entries_of right }
{
    match take_box(&mut right) {
        None => left,
        Some(first) => {
            let mut tree = between(left, first, right);
            level(&mut tree);
            tree
        }
    }
}

// Takes the box of the first entries out.
fn take_box<K: Drop, V: Drop>(tree: &mut Tree<K, V>) -> Option<Box<Node<K, V>>>
    ensures first { IfSome result (λ first. entries_of tree.old ≡ own_entries first.value ++ entries_of tree.new) }
    ensures full { IfSome result (λ first. IsTrue (is_full first.value)) }
    ensures none { IfNone result (entries_of tree.old ≡ []) }
    ensures left { IfNone result (entries_of tree.new ≡ []) }
{
    let mut node = match mem::replace(tree, Tree::Empty) {
        Tree::Empty => return None,
        Tree::Fork(node) => node,
    };
    match &mut *node {
        Node::Blank => None,
        Node::Full {
            height: _,
            key: _,
            left,
            right,
            value: _,
            others: _,
        } => {
            let before = height_of(left);
            match take_box(left) {
                None => {
                    *tree = mem::replace(right, Tree::Empty);
                    Some(node)
                }
                Some(first) => {
                    let side = height_since(left, before);
                    *tree = Tree::Fork(node);
                    rebalance(tree, side);
                    Some(first)
                }
            }
        }
    }
}

/// Takes the first entry out, and leaves the heights above it as they are: no path gets longer by that, and what is taken
/// from the front is mostly taken to its end. A box that becomes empty waits for other entries, or is freed.
pub(crate) fn take_least<K: Drop, V: Drop>(
    tree: &mut Tree<K, V>,
    spare: &mut Vec<Spare<K, V>>,
) -> Option<(K, V)>
    ensures first { result ≡ head_of (entries_of tree.old) }
    ensures entries { entries_of tree.new ≡ drop 1 (entries_of tree.old) }
    ensures room { vec_len spare.old ≤ vec_len spare.new }
{
    match tree {
        Tree::Empty => None,
        Tree::Fork(node) => match &mut **node {
            Node::Blank => None,
            Node::Full {
                height: _,
                key: _,
                left,
                right: _,
                value: _,
                others: _,
            } => {
                if let Some(first) = take_least(left, spare) {
                    return Some(first);
                }
                if let Some(first) = take_own(node) {
                    return Some(first);
                }
                take_first_box(tree, spare)
            }
        },
    }
}

// Takes the only entry of the root's box out, where there is none left of it.
fn take_first_box<K: Drop, V: Drop>(
    tree: &mut Tree<K, V>,
    spare: &mut Vec<Spare<K, V>>,
) -> Option<(K, V)>
    requires alone { root_others tree.old ≡ [] }
    requires first { root_left tree.old ≡ [] }
    ensures first { result ≡ head_of (entries_of tree.old) }
    ensures entries { entries_of tree.new ≡ drop 1 (entries_of tree.old) }
    ensures room { vec_len spare.old ≤ vec_len spare.new }
{
    let mut node = match mem::replace(tree, Tree::Empty) {
        Tree::Empty => return None,
        Tree::Fork(node) => node,
    };
    match mem::replace(&mut *node, Node::Blank) {
        Node::Blank => None,
        Node::Full {
            height: _,
            key,
            left: _,
            right,
            value,
            others,
        } => {
            *tree = right;
            give_back(spare, node, others);
            Some((key, value))
        }
    }
}
