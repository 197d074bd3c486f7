//! How many keys leave a tree at once.

ghost use Rattle.std.specs.Prelude.{◌≡◌, ◌≤◌, ◌<◌, ◌+◌, ◌^◌, ◌++◌, ℕ, List, IsTrue, length};
ghost use Rattle.std.specs.Vec.{vec_len};
ghost use Rattle.std.specs.FinMap.Entries.{is_sorted};
ghost use Rattle.ordered_map.specs.Entries.{beside_root, entries_of, without, without_each};
ghost use Rattle.ordered_map.specs.Parted.{keyed};
ghost use Rattle.ordered_map.specs.Weights.{weigh};

use crate::balance::level;
use crate::change::{take_from, take_root};
use crate::keys::part;
use crate::run::Run;
use crate::spare::Spare;
use crate::tree::{Node, Tree};

/// A sum over the values that leave a map.
pub trait Tally<V> {
    /// What a value counts.
    ghost weight: { V → ℕ };

    /// The sum so far.
    ghost total: { Self → ℕ };

    /// Counts a value.
    fn count(&mut self, value: &V)
        requires { total self.old + weight value.now < 2 ^ 64 }
        ensures { total self.new ≡ total self.old + weight value.now };
}

/// The sum of nothing.
#[derive(Drop)]
pub(crate) struct Untold;

impl<V> Tally<V> for Untold {
    ghost weight = { λ v. 0 };

    ghost total = { λ s. 0 };

    fn count(&mut self, _value: &V) {}
}

/// Takes these keys out, which rise, and counts their values. It goes down the tree but once: the lesser keys leave on the
/// left of a node, and the greater ones in its box and on its right. Each node is levelled once, so that the tree gets no
/// higher; where one side loses more levels than the other, their heights may differ by more than one.
pub(crate) fn take_each<K: Ord + Drop, V: Drop, T: Tally<V>>(
    tree: &mut Tree<K, V>,
    spare: &mut Vec<Spare<K, V>>,
    keys: &[K],
    count: &mut usize,
    tally: &mut T,
)
    requires rising { IsTrue (is_sorted K.cmp (entries_of tree.old)) }
    requires keys { IsTrue (is_sorted K.cmp (keyed keys.now)) }
    requires count { length (entries_of tree.old) ≤ count.old }
    requires few { T.total tally.old + weigh T.weight (entries_of tree.old) < 2 ^ 64 }
    ensures entries { entries_of tree.new ≡ without_each K.cmp keys.now (entries_of tree.old) }
    ensures count { count.new + length (entries_of tree.old) ≡ count.old + length (entries_of tree.new) }
    ensures tally { T.total tally.new + weigh T.weight (entries_of tree.new) ≡ T.total tally.old + weigh T.weight (entries_of tree.old) }
    ensures room { vec_len spare.old ≤ vec_len spare.new }
{
    if keys.is_empty() {
        return;
    }
    match tree {
        Tree::Empty => {}
        Tree::Fork(node) => match &mut **node {
            Node::Blank => {}
            Node::Full {
                height: _,
                key: held,
                left,
                right,
                value: _,
                others,
            } => {
                let parted = part(keys, held);
                take_each(left, spare, parted.lesser, count, tally);
                let beyond = take_among(others, parted.greater, count, tally);
                take_each(right, spare, beyond, count, tally);
                if parted.among {
                    drop_root(tree, spare, count, tally);
                } else {
                    level(tree);
                }
            }
        },
    }
}

// Takes these keys out of a run, as far as they aren't greater than all of its entries', and answers the others.
fn take_among<'a, K: Ord + Drop, V: Drop, T: Tally<V>>(
    others: &mut Run<K, V>,
    keys: &'a [K],
    count: &mut usize,
    tally: &mut T,
) -> &'a [K]
    requires rising { IsTrue (is_sorted K.cmp others.old) }
    requires keys { IsTrue (is_sorted K.cmp (keyed keys.now)) }
    requires count { length others.old ≤ count.old }
    requires few { T.total tally.old + weigh T.weight others.old < 2 ^ 64 }
    ensures entries { others.new ≡ without_each K.cmp keys.now others.old }
    ensures beyond { (right : List (K × V)) → IsTrue (is_sorted K.cmp (others.old ++ right)) → without_each K.cmp keys.now right ≡ without_each K.cmp result.now right }
    ensures keys { IsTrue (is_sorted K.cmp (keyed result.now)) }
    ensures count { count.new + length others.old ≡ count.old + length others.new }
    ensures tally { T.total tally.new + weigh T.weight others.new ≡ T.total tally.old + weigh T.weight others.old }
{
    let mut rest = keys;
    while let [key, later @ ..] = rest {
        if others.is_below(key) {
            return rest;
        }
        if let Some(value) = others.take(key) {
            *count -= 1;
            tally.count(&value);
        }
        rest = later;
    }
    rest
}

// Takes the entry of the root out, and counts its value.
fn drop_root<K: Drop, V: Drop, T: Tally<V>>(
    tree: &mut Tree<K, V>,
    spare: &mut Vec<Spare<K, V>>,
    count: &mut usize,
    tally: &mut T,
)
    requires count { length (entries_of tree.old) ≤ count.old }
    requires few { T.total tally.old + weigh T.weight (entries_of tree.old) < 2 ^ 64 }
    ensures entries { entries_of tree.new ≡ beside_root tree.old }
    ensures count { count.new + length (entries_of tree.old) ≡ count.old + length (entries_of tree.new) }
    ensures tally { T.total tally.new + weigh T.weight (entries_of tree.new) ≡ T.total tally.old + weigh T.weight (entries_of tree.old) }
    ensures room { vec_len spare.old ≤ vec_len spare.new }
{
    let mut taken = None;
    take_root(tree, spare, &mut taken);
    if let Some(value) = taken {
        *count -= 1;
        tally.count(&value);
    }
}

/// Takes these keys out, one after the other, and counts their values.
pub(crate) fn take_in_turn<K: Ord + Drop, V: Drop, T: Tally<V>>(
    tree: &mut Tree<K, V>,
    spare: &mut Vec<Spare<K, V>>,
    keys: &[K],
    count: &mut usize,
    tally: &mut T,
)
    requires rising { IsTrue (is_sorted K.cmp (entries_of tree.old)) }
    requires count { length (entries_of tree.old) ≤ count.old }
    requires few { T.total tally.old + weigh T.weight (entries_of tree.old) < 2 ^ 64 }
    ensures entries { entries_of tree.new ≡ without_each K.cmp keys.now (entries_of tree.old) }
    ensures count { count.new + length (entries_of tree.old) ≡ count.old + length (entries_of tree.new) }
    ensures tally { T.total tally.new + weigh T.weight (entries_of tree.new) ≡ T.total tally.old + weigh T.weight (entries_of tree.old) }
    ensures room { vec_len spare.old ≤ vec_len spare.new }
{
    for key in keys {
        take_one(tree, spare, key, count, tally);
    }
}

// Takes a key out, and counts its value.
fn take_one<K: Ord + Drop, V: Drop, T: Tally<V>>(
    tree: &mut Tree<K, V>,
    spare: &mut Vec<Spare<K, V>>,
    key: &K,
    count: &mut usize,
    tally: &mut T,
)
    requires rising { IsTrue (is_sorted K.cmp (entries_of tree.old)) }
    requires count { length (entries_of tree.old) ≤ count.old }
    requires few { T.total tally.old + weigh T.weight (entries_of tree.old) < 2 ^ 64 }
    ensures entries { entries_of tree.new ≡ without K.cmp key.now (entries_of tree.old) }
    ensures rising { IsTrue (is_sorted K.cmp (entries_of tree.new)) }
    ensures count { count.new + length (entries_of tree.old) ≡ count.old + length (entries_of tree.new) }
    ensures tally { T.total tally.new + weigh T.weight (entries_of tree.new) ≡ T.total tally.old + weigh T.weight (entries_of tree.old) }
    ensures room { vec_len spare.old ≤ vec_len spare.new }
{
    let mut taken = None;
    take_from(tree, spare, key, &mut taken);
    if let Some(value) = taken {
        *count -= 1;
        tally.count(&value);
    }
}
