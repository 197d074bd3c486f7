//! A tree of entries whose keys rise from left to right, some in each box.

ghost use Rattle.std.specs.Prelude.{◌≡◌, ◌≤◌, ◌++◌, [], IsTrue, OnOk, map, option_copied, take};
ghost use Rattle.std.specs.Bool.{OnTrue};
ghost use Rattle.std.specs.Vec.{vec_len};
ghost use Rattle.std.specs.Option.{option_map};
ghost use Rattle.std.specs.Map.Iter.{deref_pair};
ghost use Rattle.std.specs.FinMap.Entries.{find, is_sorted};
ghost use Rattle.ordered_map.specs.Entries.{entries_of, above, first_or, head_of};
ghost use Rattle.ordered_map.specs.Runs.{run_entries};

use crate::run::Run;
use std::alloc::AllocError;
use std::cmp::Ordering;

#[cycle(tree)]
#[derive(Drop)]
pub(crate) enum Tree<K, V> {
    Empty,
    Fork(Box<Node<K, V>>),
}

/// An entry and some greater ones between two trees, or nothing in a box that waits for an entry.
#[cycle(tree)]
#[derive(Drop)]
pub(crate) enum Node<K, V> {
    Blank,
    // A walk reads what stands first. Fields lie in this order, with the least unused octets between them.
    Full {
        height: u8,
        key: K,
        left: Tree<K, V>,
        right: Tree<K, V>,
        value: V,
        others: Run<K, V>,
    },
}

impl<K, V> Tree<K, V> {
    pub(crate) fn is_empty(&self) -> bool
        ensures { OnTrue result (entries_of self.now ≡ []) }
    {
        match self {
            Tree::Empty => true,
            Tree::Fork(_) => false,
        }
    }
}

/// The value of a key, where it has one.
pub(crate) fn value_of<'a, K: Ord, V>(tree: &'a Tree<K, V>, key: &K) -> Option<&'a V>
    requires rising { IsTrue (is_sorted K.cmp (entries_of tree.now)) }
    ensures { option_copied result ≡ find K.cmp key.now (entries_of tree.now) }
{
    let mut run = None;
    let mut here = tree;
    while let Tree::Fork(node) = here {
        match &**node {
            Node::Blank => return value_in(run, key),
            Node::Full {
                height: _,
                key: held,
                left,
                right,
                value,
                others,
            } => match key.cmp(held) {
                Ordering::Less => here = left,
                Ordering::Equal => return Some(value),
                Ordering::Greater => {
                    run = Some(others);
                    here = right;
                }
            },
        }
    }
    value_in(run, key)
}

// The value of a key in a run, where there is one.
fn value_in<'a, K: Ord, V>(run: Option<&'a Run<K, V>>, key: &K) -> Option<&'a V>
    requires { IsTrue (is_sorted K.cmp (run_entries run)) }
    ensures { option_copied result ≡ find K.cmp key.now (run_entries run.entry) }
{
    match run {
        Some(run) => run.get(key),
        None => None,
    }
}

/// The entry with the least key.
pub(crate) fn first<K, V>(tree: &Tree<K, V>) -> Option<(&K, &V)>
    ensures { option_map deref_pair result ≡ head_of (entries_of tree.now) }
{
    let mut best = None;
    let mut here = tree;
    while let Tree::Fork(node) = here {
        match &**node {
            Node::Blank => return best,
            Node::Full {
                height: _,
                key,
                left,
                right: _,
                value,
                others: _,
            } => {
                best = Some((key, value));
                here = left;
            }
        }
    }
    best
}

/// The entry with the least key above a key.
pub(crate) fn next_after<'a, K: Ord, V>(tree: &'a Tree<K, V>, key: &K) -> Option<(&'a K, &'a V)>
    requires rising { IsTrue (is_sorted K.cmp (entries_of tree.now)) }
    ensures { option_map deref_pair result ≡ head_of (above K.cmp key.now (entries_of tree.now)) }
{
    let mut best = None;
    let mut run = None;
    let mut here = tree;
    while let Tree::Fork(node) = here {
        match &**node {
            Node::Blank => return next_in(run, key, best),
            Node::Full {
                height: _,
                key: held,
                left,
                right,
                value,
                others,
            } => {
                if key.cmp(held).is_lt() {
                    best = Some((held, value));
                    here = left;
                } else {
                    run = Some(others);
                    here = right;
                }
            }
        }
    }
    next_in(run, key, best)
}

// The entry with the least key above a key in a run, where there is one, and else the best one after that.
fn next_in<'a, K: Ord, V>(
    run: Option<&'a Run<K, V>>,
    key: &K,
    best: Option<(&'a K, &'a V)>,
) -> Option<(&'a K, &'a V)>
    requires { IsTrue (is_sorted K.cmp (run_entries run)) }
    ensures { option_map deref_pair result ≡ first_or (head_of (above K.cmp key.now (run_entries run.entry))) (option_map deref_pair best.entry) }
{
    match run {
        Some(run) => match run.next_after(key) {
            Some(next) => Some(next),
            None => best,
        },
        None => best,
    }
}

/// Puts the entries of a tree last, in the order of their keys, until there are so many.
pub(crate) fn gather<'a, K, V>(
    tree: &'a Tree<K, V>,
    count: usize,
    entries: &mut Vec<(&'a K, &'a V)>,
) -> Result<(), AllocError>
    requires { vec_len entries.old ≤ count }
    ensures entries { OnOk result (map deref_pair entries.new.items ≡ take count (map deref_pair entries.old.items ++ entries_of tree.now)) }
    ensures few { OnOk result (vec_len entries.new ≤ count) }
{
    match tree {
        Tree::Empty => Ok(()),
        Tree::Fork(node) => match &**node {
            Node::Blank => Ok(()),
            Node::Full {
                height: _,
                key,
                left,
                right,
                value,
                others,
            } => {
                gather(left, count, entries)?;
                if entries.len() == count {
                    return Ok(());
                }
                entries.push((key, value))?;
                gather_run(others.entries(), count, entries)?;
                gather(right, count, entries)
            }
        },
    }
}

// Puts entries last until there are so many.
fn gather_run<'a, K, V>(
    others: &'a [(K, V)],
    count: usize,
    entries: &mut Vec<(&'a K, &'a V)>,
) -> Result<(), AllocError>
    requires { vec_len entries.old ≤ count }
    ensures entries { OnOk result (map deref_pair entries.new.items ≡ take count (map deref_pair entries.old.items ++ others.now)) }
    ensures few { OnOk result (vec_len entries.new ≤ count) }
{
    for (key, value) in others {
        if entries.len() == count {
            return Ok(());
        }
        entries.push((key, value))?;
    }
    Ok(())
}
