//! How wide policies are.

ghost use Rattle.std.specs.Prelude.{◌≡◌, ◌↔◌, ◌<◌, ◌≤◌, ◌^◌, ◌+◌, IsTrue, length, IfOk};
ghost use Rattle.net_types.specs.Meets.{meets};
ghost use Rattle.net_types.specs.Policies.{atoms};
ghost use Rattle.net_types.specs.Widths.{IsTooWide, is_too_wide, WidthIsTested};
ghost use Rattle.policy_syntax.specs.Views.{policy_of};
ghost use Rattle.policy_compile.specs.Narrow.{HasWideMods, HasWideMeets};
ghost use Rattle.policy_compile.specs.Apart.{IsNarrowed};

use crate::apart::{has_some_many, push_apart};
use crate::atoms::{atoms_of, chain_of, sum_of};
use crate::meets::{count_of, no_meets};
use crate::mods::mods_of;
use indexmap::IndexSet;
use net_types::{Cube, Memory};
use policy_syntax::{Node, Tree};
use std::alloc::Global;

/// The atoms of a policy. Of its parts only the second one of a chain can have more meets than the whole; such parts are noted.
fn narrow(
    alloc: Global,
    tree: &Tree<'_>,
    apart: &mut Vec<IndexSet<Cube>>,
) -> Result<IndexSet<Cube>, Memory>
    ensures { IfOk result (λ s. IsNarrowed (policy_of tree.now) apart.old.items apart.new.items s.keys) }
{
    match tree.node() {
        Node::Drop => atoms_of(alloc, tree),
        Node::Pass => atoms_of(alloc, tree),
        Node::Block => atoms_of(alloc, tree),
        Node::Fwd(_, _) => atoms_of(alloc, tree),
        Node::Set(_, _) => atoms_of(alloc, tree),
        Node::Test(_) => atoms_of(alloc, tree),
        Node::Both(first, second) => {
            let left = narrow(alloc, first, apart)?;
            let right = narrow(alloc, second, apart)?;
            let both = sum_of(left, &right)?;
            Ok(both)
        }
        Node::Then(first, second) => {
            let left = narrow(alloc, first, apart)?;
            let right = narrow(alloc, second, apart)?;
            let whole = chain_of(alloc, first, left, &right)?;
            push_apart(apart, &whole, right)?;
            Ok(whole)
        }
    }
}

/// A count that goes no further than one above a limit.
fn capped(count: usize, limit: usize) -> usize
    requires { limit < 2 ^ 32 }
    ensures few { count ≤ limit → result ≡ count }
    ensures many { limit < count → result ≡ limit + 1 }
{
    if count > limit { limit + 1 } else { count }
}

/// How many meets the atoms of a policy have; one more than `limit` where there are more. Stops at the limit.
pub fn count_meets(alloc: Global, tree: &Tree<'_>, limit: usize) -> Result<usize, Memory>
    requires { limit < 2 ^ 32 }
    ensures few { IfOk result (λ count. length (meets (atoms (policy_of tree.now))) ≤ limit
        → count ≡ length (meets (atoms (policy_of tree.now)))) }
    ensures many { IfOk result (λ count. limit < length (meets (atoms (policy_of tree.now))) → count ≡ limit + 1) }
{
    let cubes = atoms_of(alloc, tree)?;
    let count = count_of(alloc, cubes.as_slice(), limit)?;
    Ok(capped(count, limit))
}

/// Whether some part of a policy has too many assignments.
fn has_wide_mods(alloc: Global, tree: &Tree<'_>) -> Result<bool, Memory>
    ensures { IfOk result (λ wide. IsTrue wide ↔ HasWideMods (policy_of tree.now)) }
{
    let found = mods_of(alloc, tree)?;
    Ok(found.is_none())
}

/// Whether some part of a policy has too many meets.
fn has_wide_meets(alloc: Global, tree: &Tree<'_>) -> Result<bool, Memory>
    ensures { IfOk result (λ wide. IsTrue wide ↔ HasWideMeets (policy_of tree.now)) }
{
    let mut sets = Vec::new(alloc);
    let whole = narrow(alloc, tree, &mut sets)?;
    sets.push(whole)?;
    let nothing = no_meets(alloc)?;
    let wide = has_some_many(alloc, &nothing, &sets)?;
    Ok(wide)
}

/// Whether some part of a policy has more than 65536 meets or more than 1024 different assignments.
pub fn too_wide(alloc: Global, tree: &Tree<'_>) -> Result<bool, Memory>
    ensures wide { IfOk result (λ wide. IsTrue wide ↔ IsTooWide (policy_of tree.now)) }
    ensures tested { IfOk result (λ wide. wide ≡ is_too_wide (policy_of tree.now)) }
{
    let by_mods = has_wide_mods(alloc, tree)?;
    if by_mods {
        return Ok(true);
    }
    let by_meets = has_wide_meets(alloc, tree)?;
    Ok(by_meets)
}

/// The test of width that the definitions have says what the relation says.
pub fn width_is_tested()
    ensures { WidthIsTested }
{}
