//! The atoms of policies.

ghost use Rattle.std.specs.Prelude.{◌≡◌, ◌∷◌, [], ◌++◌, IfOk, OnOk};
ghost use Rattle.std.specs.Option.{option_to_list};
ghost use Rattle.net_types.specs.Meets.{behind};
ghost use Rattle.net_types.specs.Sets.{SameMembers};
ghost use Rattle.net_types.specs.Policies.{mods, atoms, pred_atoms, part_atoms};
ghost use Rattle.classifier.specs.Seen.{cube_eq};
ghost use Rattle.policy_syntax.specs.Views.{pred_of, policy_of};
ghost use Rattle.policy_compile.specs.Sets.{adds};

use crate::preds::{cube_of_test, plain_cube};
use crate::sets::{push_all, push_behind};
use indexmap::IndexSet;
use net_types::{Assign, Cube, Memory};
use policy_syntax::{Node, Pred, Tree};
use std::alloc::Global;

/// Puts a cube last that was found and isn't there.
fn push_found(cubes: &mut IndexSet<Cube>, found: Option<Cube>) -> Result<(), Memory>
    ensures { OnOk result (cubes.new.keys ≡ adds cube_eq cubes.old.keys (option_to_list found)) }
{
    if let Some(cube) = found {
        cubes.insert(cube)?;
    }
    Ok(())
}

/// Puts the atoms of a predicate last, each by itself where it is a part of a conjunction.
#[cycle(tests)]
#[tactic(auto, using(crate::proofs::SetsLemmas::adds_append))]
fn push_parts(cubes: &mut IndexSet<Cube>, pred: &Pred<'_>) -> Result<(), Memory>
    ensures { OnOk result (cubes.new.keys ≡ adds cube_eq cubes.old.keys (part_atoms (pred_of pred.now))) }
{
    match pred {
        Pred::Yes => Ok(()),
        Pred::Is(test, _) => push_found(cubes, Some(cube_of_test(test))),
        Pred::Not(inner) => push_atoms(cubes, inner),
        Pred::And(first, second) => {
            push_parts(cubes, first)?;
            push_atoms(cubes, second)
        }
        Pred::Or(first, second) => {
            push_atoms(cubes, first)?;
            push_atoms(cubes, second)
        }
    }
}

/// Puts the atoms of a predicate last: one for a conjunction of plain tests, and each other test.
#[cycle(tests)]
pub fn push_atoms(cubes: &mut IndexSet<Cube>, pred: &Pred<'_>) -> Result<(), Memory>
    ensures { OnOk result (cubes.new.keys ≡ adds cube_eq cubes.old.keys (pred_atoms (pred_of pred.now))) }
{
    match plain_cube(pred) {
        Some(found) => push_found(cubes, found),
        None => push_parts(cubes, pred),
    }
}

/// The cubes behind one assignment.
fn behind_set(alloc: Global, set: &Assign, cubes: &[Cube]) -> Result<IndexSet<Cube>, Memory>
    ensures { IfOk result (λ s. SameMembers s.keys (behind (set.now ∷ []) cubes.now)) }
{
    let mut found = IndexSet::new(alloc);
    push_behind(&mut found, set, cubes)?;
    Ok(found)
}

/// The cubes behind the paths of a policy. Takes a set for each part of the policy, and no list of its assignments.
pub fn behind_paths(
    alloc: Global,
    tree: &Tree<'_>,
    cubes: &[Cube],
) -> Result<IndexSet<Cube>, Memory>
    ensures { IfOk result (λ s. SameMembers s.keys (behind (mods (policy_of tree.now)) cubes.now)) }
{
    match tree.node() {
        Node::Drop => behind_set(alloc, &Assign::none(), cubes),
        Node::Pass => behind_set(alloc, &Assign::none(), cubes),
        Node::Block => behind_set(alloc, &Assign::none(), cubes),
        Node::Fwd(_, _) => behind_set(alloc, &Assign::none(), cubes),
        Node::Test(_) => behind_set(alloc, &Assign::none(), cubes),
        Node::Set(set, _) => behind_set(alloc, &set, cubes),
        Node::Both(first, second) => {
            let mut either = behind_paths(alloc, first, cubes)?;
            let others = behind_paths(alloc, second, cubes)?;
            push_all(&mut either, others.as_slice())?;
            Ok(either)
        }
        Node::Then(first, second) => {
            let near = behind_paths(alloc, second, cubes)?;
            let far = behind_paths(alloc, first, near.as_slice())?;
            Ok(far)
        }
    }
}

/// The atoms of a sum.
pub fn sum_of(first: IndexSet<Cube>, second: &IndexSet<Cube>) -> Result<IndexSet<Cube>, Memory>
    ensures { IfOk result (λ s. SameMembers s.keys (first.keys ++ second.now.keys)) }
{
    let mut both = first;
    push_all(&mut both, second.as_slice())?;
    Ok(both)
}

/// The atoms of a chain: those of the second part stand behind the paths of the first.
pub fn chain_of(
    alloc: Global,
    tree: &Tree<'_>,
    first: IndexSet<Cube>,
    second: &IndexSet<Cube>,
) -> Result<IndexSet<Cube>, Memory>
    ensures { IfOk result (λ s. SameMembers s.keys (first.keys ++ behind (mods (policy_of tree.now)) second.now.keys)) }
{
    let behind = behind_paths(alloc, tree, second.as_slice())?;
    let whole = sum_of(first, &behind)?;
    Ok(whole)
}

/// The atoms of a policy, each once.
pub fn atoms_of(alloc: Global, tree: &Tree<'_>) -> Result<IndexSet<Cube>, Memory>
    ensures { IfOk result (λ s. SameMembers s.keys (atoms (policy_of tree.now))) }
{
    match tree.node() {
        Node::Drop => Ok(IndexSet::new(alloc)),
        Node::Pass => Ok(IndexSet::new(alloc)),
        Node::Block => Ok(IndexSet::new(alloc)),
        Node::Fwd(_, _) => Ok(IndexSet::new(alloc)),
        Node::Set(_, _) => Ok(IndexSet::new(alloc)),
        Node::Test(pred) => {
            let mut tested = IndexSet::new(alloc);
            push_atoms(&mut tested, pred)?;
            Ok(tested)
        }
        Node::Both(first, second) => {
            let left = atoms_of(alloc, first)?;
            let right = atoms_of(alloc, second)?;
            let both = sum_of(left, &right)?;
            Ok(both)
        }
        Node::Then(first, second) => {
            let left = atoms_of(alloc, first)?;
            let right = atoms_of(alloc, second)?;
            let whole = chain_of(alloc, first, left, &right)?;
            Ok(whole)
        }
    }
}
