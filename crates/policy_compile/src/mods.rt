//! The assignments of policies.

ghost use Rattle.std.specs.Prelude.{◌≡◌, ◌∷◌, [], ◌++◌, map, IfOk, OnOk, MatchOption};
ghost use Rattle.net_types.specs.Widths.{HasMoreThan, parts};
ghost use Rattle.policy_syntax.specs.Views.{policy_of};
ghost use Rattle.policy_compile.specs.Sets.{adds, same_fields, fields_of, assigns_of, after, followed};
ghost use Rattle.policy_compile.specs.Narrow.{IsModsOf, IsFewOf};
ghost use Rattle.net_types.specs.Policies.{Policy, Both, Then, mods};

use crate::fields::Fields;
use crate::sets::push_all;
use indexmap::IndexSet;
use net_types::{Assign, Memory};
use policy_syntax::{Node, Tree};
use std::alloc::Global;

/// How many assignments a part of a policy may have.
const MOST: usize = 1024;

/// The one assignment.
fn one(alloc: Global, set: Assign) -> Result<IndexSet<Fields>, Memory>
    ensures { IfOk result (λ s. s.keys ≡ fields_of set ∷ []) }
{
    let mut sets = IndexSet::new(alloc);
    sets.insert(Fields::of(&set))?;
    Ok(sets)
}

/// The assignments, unless there are too many.
fn few(sets: IndexSet<Fields>) -> Option<IndexSet<Fields>>
    ensures { MatchOption result
        (HasMoreThan 1024 (assigns_of sets.keys))
        (λ s. (s.keys ≡ sets.keys) × (HasMoreThan 1024 (assigns_of sets.keys) → ⊥)) }
{
    if sets.len() > MOST { None } else { Some(sets) }
}

/// Those of both.
fn joined(
    first: IndexSet<Fields>,
    second: &IndexSet<Fields>,
) -> Result<Option<IndexSet<Fields>>, Memory>
    ensures { IfOk result (IsFewOf (assigns_of first.keys ++ assigns_of second.now.keys)) }
{
    let mut both = first;
    push_all(&mut both, second.as_slice())?;
    Ok(few(both))
}

/// Puts an assignment followed by each of the others last, where it isn't there.
fn push_followed(
    sets: &mut IndexSet<Fields>,
    first: &Fields,
    nexts: &[Fields],
) -> Result<(), Memory>
    ensures { OnOk result (sets.new.keys ≡ adds same_fields sets.old.keys (map (after first.now) nexts.now)) }
{
    for next in nexts {
        sets.insert(first.followed_by(next))?;
    }
    Ok(())
}

/// Those of a chain: each of the first followed by each of the second.
fn chained(
    alloc: Global,
    firsts: &[Fields],
    nexts: &[Fields],
) -> Result<Option<IndexSet<Fields>>, Memory>
    ensures { IfOk result (IsFewOf (assigns_of (followed firsts.now nexts.now))) }
{
    let mut sets = IndexSet::new(alloc);
    for first in firsts {
        push_followed(&mut sets, first, nexts)?;
        if sets.len() > MOST {
            return Ok(None);
        }
    }
    Ok(few(sets))
}

/// Those of a sum, where each part has few enough.
fn either(
    first: Option<IndexSet<Fields>>,
    second: Option<IndexSet<Fields>>,
) -> Result<Option<IndexSet<Fields>>, Memory>
    ensures { IfOk result (λ found. (p q : Policy) → IsModsOf p first → IsModsOf q second → IsModsOf (Both p q) found) }
{
    match first {
        None => Ok(None),
        Some(first) => match second {
            None => Ok(None),
            Some(second) => {
                let found = joined(first, &second)?;
                Ok(found)
            }
        },
    }
}

/// Those of a chain, where each part has few enough.
fn behind(
    alloc: Global,
    first: Option<IndexSet<Fields>>,
    second: Option<IndexSet<Fields>>,
) -> Result<Option<IndexSet<Fields>>, Memory>
    ensures { IfOk result (λ found. (p q : Policy) → IsModsOf p first → IsModsOf q second → IsModsOf (Then p q) found) }
{
    match first {
        None => Ok(None),
        Some(first) => match second {
            None => Ok(None),
            Some(second) => {
                let found = chained(alloc, first.as_slice(), second.as_slice())?;
                Ok(found)
            }
        },
    }
}

/// The assignment of a policy that has one path and no parts.
fn only(alloc: Global, set: Assign) -> Result<Option<IndexSet<Fields>>, Memory>
    ensures { IfOk result (λ found. (p : Policy) → mods p ≡ set ∷ [] → parts p ≡ p ∷ [] → IsModsOf p found) }
{
    let sets = one(alloc, set)?;
    Ok(Some(sets))
}

/// The assignments of a policy; none where some part has too many.
pub fn mods_of(alloc: Global, tree: &Tree<'_>) -> Result<Option<IndexSet<Fields>>, Memory>
    ensures { IfOk result (λ found. IsModsOf (policy_of tree.now) found) }
{
    match tree.node() {
        Node::Drop => only(alloc, Assign::none()),
        Node::Pass => only(alloc, Assign::none()),
        Node::Block => only(alloc, Assign::none()),
        Node::Fwd(_, _) => only(alloc, Assign::none()),
        Node::Test(_) => only(alloc, Assign::none()),
        Node::Set(set, _) => only(alloc, set),
        Node::Both(first, second) => either(mods_of(alloc, first)?, mods_of(alloc, second)?),
        Node::Then(first, second) => behind(alloc, mods_of(alloc, first)?, mods_of(alloc, second)?),
    }
}
