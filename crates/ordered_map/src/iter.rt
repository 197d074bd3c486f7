//! The iterator over a map's entries.

ghost use Rattle.std.specs.Prelude.{◌≡◌, IsTrue, length};
ghost use Rattle.std.specs.Iterator.{at_most};
ghost use Rattle.std.specs.Option.{option_map};
ghost use Rattle.std.specs.Map.Iter.{TakesFirst, deref_pair};
ghost use Rattle.std.specs.FinMap.Entries.{is_sorted};
ghost use Rattle.ordered_map.specs.Entries.{above, entries_of, head_of};

use crate::tree::{Tree, first, next_after};
use std::marker::Model;

/// The entries that are left, in the order of their keys.
#[derive(Drop)]
pub struct Iter<'a, K: Ord, V> {
    tree: &'a Tree<K, V>,
    last: Option<&'a K>,
}

impl<'a, K: Ord, V> Model for Iter<'a, K, V> {
    ghost use Rattle.std.specs.Prelude.{◌≡◌, IsTrue, List};
    ghost use Rattle.std.specs.FinMap.Entries.{is_sorted};

    ghost Value = { List (K × V) };

    ghost use Rattle.ordered_map.specs.Entries.{entries_of, left_after};

    ghost view = { λ a. left_after K.cmp a.last (entries_of a.tree.now) };

    ghost invariant = { λ a. IsTrue (is_sorted K.cmp (entries_of a.tree.now)) };
}

impl<'a, K: Ord, V> Iter<'a, K, V> {
    pub(crate) fn new(tree: &'a Tree<K, V>) -> Iter<'a, K, V>
        requires rising { IsTrue (is_sorted K.cmp (entries_of tree.now)) }
        ensures { result ≡ entries_of tree.now }
    {
        Iter { tree, last: None }
    }

    pub(crate) fn after(tree: &'a Tree<K, V>, key: &'a K) -> Iter<'a, K, V>
        requires rising { IsTrue (is_sorted K.cmp (entries_of tree.now)) }
        ensures { result ≡ above K.cmp key.now (entries_of tree.now) }
    {
        Iter {
            tree,
            last: Some(key),
        }
    }

    fn ahead(&self) -> Option<(&'a K, &'a V)>
        ensures { option_map deref_pair result ≡ head_of self.now }
    {
        match self.last {
            None => first(self.tree),
            Some(last) => next_after(self.tree, last),
        }
    }
}

impl<'a, K: Ord, V> Iterator for Iter<'a, K, V> {
    type Item = (&'a K, &'a V);

    ghost next_gives = { TakesFirst deref_pair };

    ghost remaining = { λ left. at_most (length left) };

    fn next(&mut self) -> Option<(&'a K, &'a V)> {
        let (key, value) = self.ahead()?;
        self.last = Some(key);
        Some((key, value))
    }
}
