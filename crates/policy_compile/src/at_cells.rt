//! Policies compiled by the meets of their atoms.

ghost use Rattle.std.specs.Prelude.{◌≡◌, [], Some, IfOk};
ghost use Rattle.std.specs.List.{slice_get};
ghost use Rattle.net_types.specs.declared.headers.Loc.TheVariants.{Stay};
ghost use Rattle.policy_syntax.specs.Views.{policy_of};
ghost use Rattle.net_types.specs.Cubes.{everything};
ghost use Rattle.classifier.specs.Classifiers.{lines_of};
ghost use Rattle.classifier.specs.Lines.{add_lines};
ghost use Rattle.net_types.specs.Sets.{Member};
ghost use Rattle.classifier.specs.Meaning.{cubes_of};
ghost use Rattle.classifier.specs.Compiled.{IsCompiled};
ghost use Rattle.policy_compile.specs.Covered.{Covers};
ghost use Rattle.policy_compile.specs.Paths.{AreAt};

use crate::atoms::atoms_of;
use crate::locations::locations_of;
use crate::outcomes::Within;
use crate::rows::rows_of;
use crate::singles::one_by_one;
use crate::stages::{begun, made_of};
use cells::cells_of;
use classifier::{Classifier, Line, push_lines};
use net_types::{Cube, Items, Loc, Memory};
use policy_isolate::Names;
use policy_syntax::Tree;
use std::alloc::Global;
use std::collections::HashSet;

/// The rule of each cube, by the locations that the policy has.
fn lines_by<N: Names>(
    alloc: Global,
    tree: &Tree<'_>,
    names: &N,
    cubes: &[Cube],
    locations: &[Loc],
) -> Result<Vec<Line>, Memory>
    requires covers { Covers (N.pid_of names.now) (policy_of tree.now) locations.now }
    requires first { slice_get locations.now 0 ≡ Some Stay }
    ensures { IfOk result (λ v. AreAt (N.pid_of names.now) (policy_of tree.now) cubes.now v.items) }
{
    let mut within = Within::new(alloc, cubes)?;
    let start = begun(alloc, &within, locations)?;
    let made = made_of(alloc, &mut within, locations, tree, names, &start)?;
    let columns = one_by_one(alloc, locations, &made)?;
    let lines = rows_of(alloc, cubes, locations, &columns)?;
    Ok(lines)
}

/// The rule of each cube.
fn lines_at<N: Names>(
    alloc: Global,
    tree: &Tree<'_>,
    names: &N,
    cubes: &[Cube],
) -> Result<Vec<Line>, Memory>
    ensures { IfOk result (λ v. AreAt (N.pid_of names.now) (policy_of tree.now) cubes.now v.items) }
{
    let locations = locations_of(alloc, tree, names)?;
    let lines = lines_by(alloc, tree, names, cubes, &locations)?;
    Ok(lines)
}

/// The classifier of these rules, of which one has all headers, without those that can't be reached.
fn classifier_of(alloc: Global, lines: Vec<Line>) -> Result<Classifier, Memory>
    requires { Member everything (cubes_of lines.items) }
    ensures { IfOk result (λ c. lines_of c ≡ add_lines [] lines.items) }
{
    let mut reached = Vec::new(alloc);
    let mut seen = HashSet::new(alloc);
    push_lines(&mut reached, &mut seen, lines)?;
    Ok(Classifier::from_lines(Items::from_vec(reached)))
}

/// What `compile` does, cube by cube: the meets of the policy's atoms, each with what the policy makes in it.
pub fn compiled_at_cells<N: Names>(
    alloc: Global,
    tree: &Tree<'_>,
    names: &N,
) -> Result<Classifier, Memory>
    ensures { IfOk result (λ c. IsCompiled (N.pid_of names.now) (policy_of tree.now) c) }
{
    let atoms = atoms_of(alloc, tree)?;
    let mut cubes = cells_of(alloc, atoms.as_slice())?;
    cubes.push(Cube::everything())?;
    let lines = lines_at(alloc, tree, names, &cubes)?;
    let made = classifier_of(alloc, lines)?;
    Ok(made)
}
