//! Heights, and the rotations that keep the two sides of a node about as high as one another.

ghost use Rattle.std.specs.Prelude.{◌≡◌, ◌++◌, ◌∷◌, [], IsTrue};
ghost use Rattle.ordered_map.specs.Entries.{entries_of, is_full, node_entries, own_entries};

use crate::run::Run;
use crate::tree::{Node, Tree};
use std::mem;

pub(crate) fn height_of<K, V>(tree: &Tree<K, V>) -> u8 {
    match tree {
        Tree::Empty => 0,
        Tree::Fork(node) => match &**node {
            Node::Blank => 0,
            Node::Full {
                height,
                key: _,
                left: _,
                right: _,
                value: _,
                others: _,
            } => *height,
        },
    }
}

/// What became of a tree's height.
#[derive(Drop)]
pub(crate) enum Height {
    Same,
    Changed,
}

/// What became of a height that was so many levels.
pub(crate) fn height_since<K, V>(tree: &Tree<K, V>, levels: u8) -> Height {
    if height_of(tree) == levels {
        Height::Same
    } else {
        Height::Changed
    }
}

fn height_above<K, V>(left: &Tree<K, V>, right: &Tree<K, V>) -> u8 {
    height_of(left).max(height_of(right)).saturating_add(1)
}

/// The node of an entry and some greater ones, without trees beside it.
pub(crate) fn full<K, V>(key: K, value: V, others: Run<K, V>) -> Node<K, V>
    ensures entries { node_entries result ≡ (key, value) ∷ others }
    ensures own { own_entries result ≡ (key, value) ∷ others }
    ensures full { IsTrue (is_full result) }
{
    Node::Full {
        height: 1,
        key,
        left: Tree::Empty,
        right: Tree::Empty,
        value,
        others,
    }
}

/// The tree of the entries in a box between two trees.
pub(crate) fn between<K: Drop, V: Drop>(
    low: Tree<K, V>,
    mut node: Box<Node<K, V>>,
    high: Tree<K, V>,
) -> Tree<K, V>
    requires { IsTrue (is_full node.value) }
    ensures { entries_of result ≡ entries_of low ++ own_entries node.value ++ entries_of high }
{
    match &mut *node {
        Node::Blank => unreachable!(),
        Node::Full {
            height,
            key: _,
            left,
            right,
            value: _,
            others: _,
        } => {
            *height = height_above(&low, &high);
            *left = low;
            *right = high;
        }
    }
    Tree::Fork(node)
}

/// Balances a tree after the height of one of its sides may have changed.
pub(crate) fn rebalance<K: Drop, V: Drop>(tree: &mut Tree<K, V>, side: Height) -> Height
    ensures { entries_of tree.new ≡ entries_of tree.old }
{
    match side {
        Height::Same => Height::Same,
        Height::Changed => level(tree),
    }
}

/// Turns a tree of which one side may be too high, so that where it was by two levels they differ by one level at most.
pub(crate) fn level<K: Drop, V: Drop>(tree: &mut Tree<K, V>) -> Height
    ensures { entries_of tree.new ≡ entries_of tree.old }
{
    match settle(tree) {
        Stand::Level(height) => height,
        Stand::Left => {
            let before = height_of(tree);
            lift_left(tree);
            height_since(tree, before)
        }
        Stand::Right => {
            let before = height_of(tree);
            lift_right(tree);
            height_since(tree, before)
        }
    }
}

/// What became of a tree's height, or which of its sides is higher than the other by two levels or more.
enum Stand {
    Left,
    Level(Height),
    Right,
}

/// Marks the height of a tree whose sides differ by one level at most.
fn settle<K, V>(tree: &mut Tree<K, V>) -> Stand
    ensures { entries_of tree.new ≡ entries_of tree.old }
{
    match tree {
        Tree::Empty => Stand::Level(Height::Same),
        Tree::Fork(node) => match &mut **node {
            Node::Blank => Stand::Level(Height::Same),
            Node::Full {
                height,
                key: _,
                left,
                right,
                value: _,
                others: _,
            } => settle_at(height, height_of(left), height_of(right)),
        },
    }
}

fn settle_at(height: &mut u8, left: u8, right: u8) -> Stand {
    if left.saturating_sub(right) > 1 {
        return Stand::Left;
    }
    if right.saturating_sub(left) > 1 {
        return Stand::Right;
    }
    let levels = left.max(right).saturating_add(1);
    if *height == levels {
        return Stand::Level(Height::Same);
    }
    *height = levels;
    Stand::Level(Height::Changed)
}

/// Which side of a tree is higher.
enum Lean {
    Left,
    Even,
    Right,
}

fn lean_of<K, V>(tree: &Tree<K, V>) -> Lean {
    match tree {
        Tree::Empty => Lean::Even,
        Tree::Fork(node) => match &**node {
            Node::Blank => Lean::Even,
            Node::Full {
                height: _,
                key: _,
                left,
                right,
                value: _,
                others: _,
            } => lean_between(height_of(left), height_of(right)),
        },
    }
}

fn lean_between(left: u8, right: u8) -> Lean {
    if left > right {
        return Lean::Left;
    }
    if left < right {
        return Lean::Right;
    }
    Lean::Even
}

fn mark_height<K, V>(tree: &mut Tree<K, V>)
    ensures { entries_of tree.new ≡ entries_of tree.old }
{
    match tree {
        Tree::Empty => {}
        Tree::Fork(node) => match &mut **node {
            Node::Blank => {}
            Node::Full {
                height,
                key: _,
                left,
                right,
                value: _,
                others: _,
            } => *height = height_above(left, right),
        },
    }
}

/// The left side comes up. Where its own right side is the higher one, that comes up first.
fn lift_left<K: Drop, V: Drop>(tree: &mut Tree<K, V>)
    ensures { entries_of tree.new ≡ entries_of tree.old }
{
    match tree {
        Tree::Empty => return,
        Tree::Fork(node) => match &mut **node {
            Node::Blank => return,
            Node::Full {
                height: _,
                key: _,
                left,
                right: _,
                value: _,
                others: _,
            } => straighten_left(left),
        },
    }
    turn_right(tree);
}

fn straighten_left<K: Drop, V: Drop>(tree: &mut Tree<K, V>)
    ensures { entries_of tree.new ≡ entries_of tree.old }
{
    match lean_of(tree) {
        Lean::Right => turn_left(tree),
        Lean::Left | Lean::Even => {}
    }
}

/// The right side comes up. Where its own left side is the higher one, that comes up first.
fn lift_right<K: Drop, V: Drop>(tree: &mut Tree<K, V>)
    ensures { entries_of tree.new ≡ entries_of tree.old }
{
    match tree {
        Tree::Empty => return,
        Tree::Fork(node) => match &mut **node {
            Node::Blank => return,
            Node::Full {
                height: _,
                key: _,
                left: _,
                right,
                value: _,
                others: _,
            } => straighten_right(right),
        },
    }
    turn_left(tree);
}

fn straighten_right<K: Drop, V: Drop>(tree: &mut Tree<K, V>)
    ensures { entries_of tree.new ≡ entries_of tree.old }
{
    match lean_of(tree) {
        Lean::Left => turn_right(tree),
        Lean::Right | Lean::Even => {}
    }
}

// The left child takes the place of the node, and the node becomes its right child.
fn turn_right<K: Drop, V: Drop>(tree: &mut Tree<K, V>)
    ensures { entries_of tree.new ≡ entries_of tree.old }
{
    let mut top = match mem::replace(tree, Tree::Empty) {
        Tree::Empty => return,
        Tree::Fork(top) => top,
    };
    match &mut *top {
        Node::Blank => {}
        Node::Full {
            height,
            key: _,
            left,
            right,
            value: _,
            others: _,
        } => match mem::replace(left, Tree::Empty) {
            Tree::Empty => *tree = Tree::Fork(top),
            Tree::Fork(mut below) => match &mut *below {
                Node::Blank => *tree = Tree::Fork(top),
                Node::Full {
                    height: _,
                    key: _,
                    left: _,
                    right: middle,
                    value: _,
                    others: _,
                } => {
                    *left = mem::replace(middle, Tree::Empty);
                    *height = height_above(left, right);
                    *middle = Tree::Fork(top);
                    *tree = Tree::Fork(below);
                    mark_height(tree);
                }
            },
        },
    }
}

// The right child takes the place of the node, and the node becomes its left child.
fn turn_left<K: Drop, V: Drop>(tree: &mut Tree<K, V>)
    ensures { entries_of tree.new ≡ entries_of tree.old }
{
    let mut top = match mem::replace(tree, Tree::Empty) {
        Tree::Empty => return,
        Tree::Fork(top) => top,
    };
    match &mut *top {
        Node::Blank => {}
        Node::Full {
            height,
            key: _,
            left,
            right,
            value: _,
            others: _,
        } => match mem::replace(right, Tree::Empty) {
            Tree::Empty => *tree = Tree::Fork(top),
            Tree::Fork(mut below) => match &mut *below {
                Node::Blank => *tree = Tree::Fork(top),
                Node::Full {
                    height: _,
                    key: _,
                    left: middle,
                    right: _,
                    value: _,
                    others: _,
                } => {
                    *right = mem::replace(middle, Tree::Empty);
                    *height = height_above(left, right);
                    *middle = Tree::Fork(top);
                    *tree = Tree::Fork(below);
                    mark_height(tree);
                }
            },
        },
    }
}
