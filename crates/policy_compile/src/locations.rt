//! The locations to which a policy sends packets.

ghost use Rattle.std.specs.Prelude.{◌≡◌, ℕ, List, Some, IfOk, OnOk};
ghost use Rattle.std.specs.List.{slice_get};
ghost use Rattle.net_types.specs.declared.headers.Loc.TheVariants.{Stay};
ghost use Rattle.net_types.specs.Sets.{Member};
ghost use Rattle.policy_syntax.specs.Views.{policy_of, target_of};
ghost use Rattle.policy_compile.specs.Covered.{Covers, IsCovered, KeepAll};

use crate::ways::place_of;
use net_types::{Loc, Memory};
use policy_isolate::Names;
use policy_syntax::{Node, Target, Tree};
use std::alloc::Global;

/// Puts a location last that isn't there.
fn push_location(locations: &mut Vec<Loc>, loc: Loc) -> Result<(), Memory>
    ensures there { OnOk result (Member loc locations.new.items) }
    ensures kept { KeepAll locations.old.items locations.new.items }
{
    match place_of(locations, loc) {
        Some(_) => Ok(()),
        None => {
            locations.push(loc)?;
            Ok(())
        }
    }
}

/// Puts the location of a target last, where that isn't a name that is nobody's.
fn push_target<N: Names>(
    locations: &mut Vec<Loc>,
    target: Target<'_>,
    names: &N,
) -> Result<(), Memory>
    ensures there { OnOk result (IsCovered (N.pid_of names.now) (target_of target.entry) locations.new.items) }
    ensures kept { KeepAll locations.old.items locations.new.items }
{
    match target {
        Target::Number(port) => push_location(locations, Loc::Out(port)),
        Target::Name(name) => match names.find(name) {
            Some(who) => push_location(locations, Loc::To(who)),
            None => Ok(()),
        },
    }
}

/// Puts the locations of a policy last that aren't there.
fn push_locations<N: Names>(
    locations: &mut Vec<Loc>,
    tree: &Tree<'_>,
    names: &N,
) -> Result<(), Memory>
    ensures there { OnOk result (Covers (N.pid_of names.now) (policy_of tree.now) locations.new.items) }
    ensures kept { KeepAll locations.old.items locations.new.items }
{
    match tree.node() {
        Node::Block => push_location(locations, Loc::Nowhere),
        Node::Fwd(target, _) => push_target(locations, target, names),
        Node::Both(first, second) => {
            push_locations(locations, first, names)?;
            push_locations(locations, second, names)?;
            Ok(())
        }
        Node::Then(first, second) => {
            push_locations(locations, first, names)?;
            push_locations(locations, second, names)?;
            Ok(())
        }
        _ => Ok(()),
    }
}

/// First that at which a packet is, and then those to which the policy sends any.
pub fn locations_of<N: Names>(alloc: Global, tree: &Tree<'_>, names: &N) -> Result<Vec<Loc>, Memory>
    ensures covers { IfOk result (λ v. Covers (N.pid_of names.now) (policy_of tree.now) v.items) }
    ensures first { IfOk result (λ v. slice_get v.items 0 ≡ Some Stay) }
{
    let mut locations = Vec::new(alloc);
    locations.push(Loc::Stay)?;
    push_locations(&mut locations, tree, names)?;
    Ok(locations)
}
