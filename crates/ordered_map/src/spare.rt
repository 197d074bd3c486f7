//! Boxes that wait for entries.

ghost use Rattle.std.specs.Prelude.{◌≡◌, ◌≤◌, ◌<◌, ◌+◌, ◌∷◌, [], OnOk, IsOk, IsTrue};
ghost use Rattle.std.specs.Vec.{vec_len};
ghost use Rattle.ordered_map.specs.Entries.{is_full, node_entries, own_entries};

use crate::balance::full;
use crate::run::Run;
use crate::tree::Node;
use std::alloc::{AllocError, Global};

/// A box for a node, and memory for the entries beside its least one.
#[derive(Drop)]
pub(crate) struct Spare<K, V> {
    node: Box<Node<K, V>>,
    run: Run<K, V>,
}

/// Makes boxes until there are so many.
pub(crate) fn fill<K: Drop, V: Drop>(
    alloc: Global,
    spare: &mut Vec<Spare<K, V>>,
    boxes: usize,
) -> Result<(), AllocError>
    ensures filled { OnOk result (boxes ≤ vec_len spare.new) }
    ensures kept { vec_len spare.old ≤ vec_len spare.new }
    ensures enough { boxes ≤ vec_len spare.old → IsOk result }
{
    while spare.len() < boxes {
        let run = Run::new(alloc)?;
        let node = Box::new(alloc, Node::Blank)?;
        spare.push(Spare { node, run })?;
    }
    Ok(())
}

/// Takes a box out, and a run without entries.
pub(crate) fn taken<K: Drop, V: Drop>(spare: &mut Vec<Spare<K, V>>) -> (Box<Node<K, V>>, Run<K, V>)
    requires { 0 < vec_len spare.old }
    ensures run { result.1 ≡ [] }
    ensures room { vec_len spare.new + 1 ≡ vec_len spare.old }
{
    match spare.pop() {
        Some(Spare { node, mut run }) => {
            run.clear();
            (node, run)
        }
        None => unreachable!(),
    }
}

/// A box with an entry alone.
pub(crate) fn lone<K: Drop, V: Drop>(
    spare: &mut Vec<Spare<K, V>>,
    key: K,
    value: V,
) -> Box<Node<K, V>>
    requires { 0 < vec_len spare.old }
    ensures entry { node_entries result.value ≡ (key, value) ∷ [] }
    ensures room { vec_len spare.new + 1 ≡ vec_len spare.old }
{
    let (mut node, run) = taken(spare);
    *node = full(key, value, run);
    node
}

/// Keeps a box where there is a place for it, and frees it else.
pub(crate) fn give_back<K: Drop, V: Drop>(
    spare: &mut Vec<Spare<K, V>>,
    node: Box<Node<K, V>>,
    run: Run<K, V>,
)
    ensures { vec_len spare.old ≤ vec_len spare.new }
{
    if spare.len() < spare.capacity() {
        spare.push_reserved(Spare { node, run });
    }
}
