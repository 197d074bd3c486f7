//! Whom an outbound policy names.

ghost use Rattle.std.specs.Prelude.{◌≡◌, ◌++◌, IfOk, OnOk};
ghost use Rattle.net_types.specs.Keys.{pid_cmp};
ghost use Rattle.net_types.specs.Maps.{ordered};
ghost use Rattle.net_types.specs.Naming.{forwards, named_in, target_names};
ghost use Rattle.policy_syntax.specs.Nodes.{node_of};
ghost use Rattle.policy_syntax.specs.Views.{policy_of, target_of};

use crate::names::Names;
use net_types::{Items, Memory, Pid, Pids, ascending};
use policy_syntax::{Node, Target, Tree};
use std::alloc::Global;

/// Adds the participant that a target names.
fn add_target<N: Names>(named: &mut Vec<Pid>, names: &N, target: Target<'_>) -> Result<(), Memory>
    ensures { OnOk result (named.new.items ≡ named.old.items ++ target_names (N.pid_of names.now) (target_of target.entry)) }
{
    match target {
        Target::Number(_) => Ok(()),
        Target::Name(name) => match names.find(name) {
            Some(who) => Ok(named.push(who)?),
            None => Ok(()),
        },
    }
}

/// Adds those that a node names, in the order of the text.
#[cycle(named)]
fn add_node<N: Names>(named: &mut Vec<Pid>, names: &N, node: Node<'_, '_>) -> Result<(), Memory>
    ensures { OnOk result (named.new.items ≡ named.old.items ++ forwards (N.pid_of names.now) (node_of node.entry)) }
{
    match node {
        Node::Drop => Ok(()),
        Node::Pass => Ok(()),
        Node::Block => Ok(()),
        Node::Fwd(target, _) => add_target(named, names, target),
        Node::Test(_) => Ok(()),
        Node::Set(_, _) => Ok(()),
        Node::Both(first, second) => {
            add_tree(named, names, first)?;
            add_tree(named, names, second)
        }
        Node::Then(first, second) => {
            add_tree(named, names, first)?;
            add_tree(named, names, second)
        }
    }
}

/// Adds those that a policy names, in the order of its text.
#[cycle(named)]
fn add_tree<N: Names>(named: &mut Vec<Pid>, names: &N, tree: &Tree<'_>) -> Result<(), Memory>
    ensures { OnOk result (named.new.items ≡ named.old.items ++ forwards (N.pid_of names.now) (policy_of tree.now)) }
{
    add_node(named, names, tree.node())
}

/// The participants that a policy names in its forwards, in order of declaration, each once: for
/// `fwd(C) + fwd(B) >> fwd(C)` these are B and C. A name that isn't declared counts for nothing, and `check_out` refuses
/// it. Memory is the only refusal.
pub fn named<N: Names>(alloc: Global, tree: &Tree<'_>, names: &N) -> Result<Pids, Memory>
    ensures { IfOk result (λ pids. pids ≡ named_in (N.pid_of names.now) (policy_of tree.now)) }
{
    let mut named = Vec::new(alloc);
    add_tree(&mut named, names, tree)?;
    Ok(Items::from_vec(ascending(named)))
}
