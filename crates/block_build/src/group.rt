//! Rules that stand one after another, in runs.

ghost use Rattle.std.specs.Prelude.{◌≡◌, IfOk, IsTrue};
ghost use Rattle.classifier.specs.Hulls.{holds_each};
ghost use Rattle.classifier.specs.Runs.{lines_in};

use classifier::{Line, Run, runs_by};
use net_types::{Cube, Memory};
use std::alloc::Global;

/// How many rules a run has.
const RUN: usize = 16;

/// Runs that stand one after another, and a cube that holds the cube of each of their rules: it tells at once where none of
/// these matters.
#[derive(Drop)]
pub struct Group<'v> {
    pub hull: Cube,
    pub runs: Vec<Run<'v>>,
    ghost held: { IsTrue (holds_each hull (lines_in runs.items)) },
}

impl<'v> Group<'v> {
    /// The group of these rules.
    pub(crate) fn new(alloc: Global, lines: &'v [Line]) -> Result<Group<'v>, Memory>
        ensures { IfOk result (λ group. lines_in group.runs.items ≡ lines.now) }
    {
        let runs = runs_by(alloc, lines, RUN)?;
        let whole = Run::new(lines);
        let hull = whole.hull;
        Ok(Group { hull, runs })
    }
}
