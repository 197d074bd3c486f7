//! Values that change where they stand.

ghost use Rattle.std.specs.Prelude.{◌≡◌, ◌++◌, Bool, Some, IsTrue, is_some};
ghost use Rattle.std.specs.FinMap.Entries.{is_sorted};
ghost use Rattle.ordered_map.specs.Changes.{changed_all, changed_at};
ghost use Rattle.ordered_map.specs.Entries.{entries_of};

use crate::run::Run;
use crate::tree::{Node, Tree};
use std::cmp::Ordering;
use std::mem;

/// What becomes of a value that changes.
pub trait Change<V> {
    /// The value afterwards.
    ghost changed: { Self → V → V };

    /// Changes a value.
    fn change(&self, value: &mut V)
        ensures { value.new ≡ changed self.now value.old };
}

/// A value that may lapse, so that its key needs none any more.
pub trait Lapse {
    /// Whether it has lapsed.
    ghost lapsed: { Self → Bool };

    /// Whether it has lapsed.
    fn has_lapsed(&self) -> bool
        ensures { result ≡ lapsed self.now };
}

/// The value that is handed in takes the place of one that is held.
pub(crate) fn exchange<V>(value: &mut Option<V>, held: &mut V)
    requires { IsTrue (is_some value.old) }
    ensures given { value.old ≡ Some held.new }
    ensures before { value.new ≡ Some held.old }
{
    match value {
        Some(given) => mem::swap(given, held),
        None => unreachable!(),
    }
}

/// Changes the value of a key, where it has one.
pub(crate) fn change_at<K: Ord, V, C: Change<V>>(tree: &mut Tree<K, V>, key: &K, change: &C)
    requires rising { IsTrue (is_sorted K.cmp (entries_of tree.old)) }
    ensures { entries_of tree.new ≡ changed_at K.cmp key.now (C.changed change.now) (entries_of tree.old) }
{
    match tree {
        Tree::Empty => {}
        Tree::Fork(node) => match &mut **node {
            Node::Blank => {}
            Node::Full {
                height: _,
                key: held,
                left,
                right,
                value,
                others,
            } => match key.cmp(held) {
                Ordering::Less => change_at(left, key, change),
                Ordering::Equal => change.change(value),
                Ordering::Greater => change_beside(others, right, key, change),
            },
        },
    }
}

// Changes the value of a key, where it has one, in a run or in the tree right of it.
fn change_beside<K: Ord, V, C: Change<V>>(
    run: &mut Run<K, V>,
    tree: &mut Tree<K, V>,
    key: &K,
    change: &C,
)
    requires rising { IsTrue (is_sorted K.cmp (run.old ++ entries_of tree.old)) }
    ensures { run.new ++ entries_of tree.new ≡ changed_at K.cmp key.now (C.changed change.now) (run.old ++ entries_of tree.old) }
{
    match tree {
        Tree::Empty => run.change_at(key, change),
        Tree::Fork(node) => match &mut **node {
            Node::Blank => run.change_at(key, change),
            Node::Full {
                height: _,
                key: held,
                left,
                right,
                value,
                others,
            } => match key.cmp(held) {
                Ordering::Less => change_beside(run, left, key, change),
                Ordering::Equal => change.change(value),
                Ordering::Greater => change_beside(others, right, key, change),
            },
        },
    }
}

/// Changes each value.
pub(crate) fn change_all<K, V, C: Change<V>>(tree: &mut Tree<K, V>, change: &C)
    ensures { entries_of tree.new ≡ changed_all (C.changed change.now) (entries_of tree.old) }
{
    match tree {
        Tree::Empty => {}
        Tree::Fork(node) => match &mut **node {
            Node::Blank => {}
            Node::Full {
                height: _,
                key: _,
                left,
                right,
                value,
                others,
            } => {
                change_all(left, change);
                change.change(value);
                others.change_all(change);
                change_all(right, change);
            }
        },
    }
}
