//! Boxes that wait for prefixes.

ghost use Rattle.std.specs.Prelude.{◌≡◌, ◌≤◌, ◌<◌, ◌+◌, OnOk, IsOk};
ghost use Rattle.std.specs.Vec.{vec_len};

use crate::trie::{Node, Trie};
use net_types::Prefix;
use std::alloc::{AllocError, Global};

// What a box holds that waits for a prefix.
fn blank<V>() -> Node<V> {
    Node {
        at: Prefix::any(),
        low: Trie::Empty,
        high: Trie::Empty,
        held: None,
    }
}

/// Makes boxes until there are so many.
pub(crate) fn fill<V: Drop>(
    alloc: Global,
    spare: &mut Vec<Box<Node<V>>>,
    boxes: usize,
) -> Result<(), AllocError>
    ensures filled { OnOk result (boxes ≤ vec_len spare.new) }
    ensures kept { vec_len spare.old ≤ vec_len spare.new }
{
    while spare.len() < boxes {
        let waiting = Box::new(alloc, blank())?;
        spare.push(waiting)?;
    }
    Ok(())
}

/// A node in one of the boxes.
pub(crate) fn boxed<V: Drop>(spare: &mut Vec<Box<Node<V>>>, node: Node<V>) -> Box<Node<V>>
    requires { 0 < vec_len spare.old }
    ensures node { result.value ≡ node }
    ensures room { vec_len spare.new + 1 ≡ vec_len spare.old }
{
    match spare.pop() {
        Some(mut taken) => {
            *taken = node;
            taken
        }
        None => unreachable!(),
    }
}

/// Keeps a box where there is a place for it, and frees it else.
pub(crate) fn give_back<V: Drop>(spare: &mut Vec<Box<Node<V>>>, node: Box<Node<V>>)
    ensures { vec_len spare.old ≤ vec_len spare.new }
{
    if spare.len() < spare.capacity() {
        spare.push_reserved(node);
    }
}
