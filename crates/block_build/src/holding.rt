//! The first of a receiver's rules whose cube holds another.

ghost use Rattle.std.specs.Prelude.{◌≡◌, option_copied};
ghost use Rattle.classifier.specs.Runs.{lines_in};
ghost use Rattle.block_build.specs.Closed.{first_holding};
ghost use Rattle.block_build.specs.Groups.{lines_within};

use crate::group::Group;
use classifier::{Line, Run};
use cube::within;
use net_types::Cube;

/// The first of some rules whose cube holds this one.
fn first_of<'v>(ys: &'v [Line], cube: &Cube) -> Option<&'v Line>
    ensures { option_copied result ≡ first_holding cube.now ys.now }
{
    for y in ys {
        if within(cube, &y.cube) {
            return Some(y);
        }
    }
    None
}

/// The first of a run. None does where the cube that holds them doesn't.
fn first_of_run<'v>(run: &Run<'v>, cube: &Cube) -> Option<&'v Line>
    ensures { option_copied result ≡ first_holding cube.now run.now.lines.now }
{
    if !within(cube, &run.hull) {
        return None;
    }
    first_of(run.lines, cube)
}

/// The first of the runs.
fn first_of_runs<'v>(runs: &[Run<'v>], cube: &Cube) -> Option<&'v Line>
    ensures { option_copied result ≡ first_holding cube.now (lines_in runs.now) }
{
    for run in runs {
        if let Some(y) = first_of_run(run, cube) {
            return Some(y);
        }
    }
    None
}

/// The first of a group.
fn first_of_group<'v>(group: &Group<'v>, cube: &Cube) -> Option<&'v Line>
    ensures { option_copied result ≡ first_holding cube.now (lines_in group.now.runs.items) }
{
    if !within(cube, &group.hull) {
        return None;
    }
    first_of_runs(&group.runs, cube)
}

/// The first of the groups.
pub(crate) fn first_holding<'v>(groups: &[Group<'v>], cube: &Cube) -> Option<&'v Line>
    ensures { option_copied result ≡ first_holding cube.now (lines_within groups.now) }
{
    for group in groups {
        if let Some(y) = first_of_group(group, cube) {
            return Some(y);
        }
    }
    None
}
