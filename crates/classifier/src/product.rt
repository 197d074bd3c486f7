//! Each rule of one list joined with each of another.

ghost use Rattle.std.specs.Prelude.{◌≡◌, [], IfOk, OnOk};
ghost use Rattle.classifier.specs.Fronts.{IsFront};
ghost use Rattle.classifier.specs.Lines.{add_lines, row, product};
ghost use Rattle.classifier.specs.Runs.{lines_in};
ghost use Rattle.classifier.specs.Seen.{Agrees};

use crate::join::Join;
use crate::line::Line;
use crate::run::Run;
use crate::runs::runs_of;
use crate::seen::push_joined;
use crate::unions::Unions;
use net_types::{Cube, Memory};
use std::alloc::Global;
use std::collections::HashSet;

/// Adds a rule joined with each of a list.
fn push_row(
    unions: &mut Unions,
    lines: &mut Vec<Line>,
    seen: &mut HashSet<Cube>,
    join: Join,
    x: &Line,
    ys: &[Line],
) -> Result<(), Memory>
    requires { Agrees lines.old.items seen.old }
    ensures lines { OnOk result (lines.new.items ≡ add_lines lines.old.items (row join x.now ys.now)) }
    ensures agrees { OnOk result (Agrees lines.new.items seen.new) }
{
    for y in ys {
        if let Some(cube) = cube::meet(&x.cube, &y.cube) {
            push_joined(unions, lines, seen, cube, join, x, y)?;
        }
    }
    Ok(())
}

/// Adds a rule joined with each of the runs. A run is passed over where its cube tells that none of its rules has headers in
/// common with this one.
fn push_rows(
    unions: &mut Unions,
    lines: &mut Vec<Line>,
    seen: &mut HashSet<Cube>,
    join: Join,
    x: &Line,
    runs: &[Run<'_>],
) -> Result<(), Memory>
    requires { Agrees lines.old.items seen.old }
    ensures lines { OnOk result (lines.new.items ≡ add_lines lines.old.items (row join x.now (lines_in runs.now))) }
    ensures agrees { OnOk result (Agrees lines.new.items seen.new) }
{
    for run in runs {
        if cube::meet(&x.cube, &run.hull).is_some() {
            push_row(unions, lines, seen, join, x, run.lines)?;
        }
    }
    Ok(())
}

/// The rules of both lists, joined, without those that can't be reached.
pub fn product_of(alloc: Global, join: Join, xs: &[Line], ys: &[Line]) -> Result<Vec<Line>, Memory>
    ensures { IfOk result (λ v. v.items ≡ add_lines [] (product join xs.now ys.now)) }
{
    let runs = runs_of(alloc, ys)?;
    let mut unions = Unions::new(alloc);
    let mut lines = Vec::new(alloc);
    let mut seen = HashSet::new(alloc);
    for x in xs {
        push_rows(&mut unions, &mut lines, &mut seen, join, x, &runs)?;
    }
    Ok(lines)
}

/// The same, stopped as soon as there are more rules than the limit: then it has those of the first rules of the first list.
pub fn product_within(
    alloc: Global,
    join: Join,
    xs: &[Line],
    ys: &[Line],
    limit: usize,
) -> Result<Vec<Line>, Memory>
    ensures { IfOk result (λ v. IsFront limit join xs.now ys.now v.items) }
{
    let runs = runs_of(alloc, ys)?;
    let mut unions = Unions::new(alloc);
    let mut lines = Vec::new(alloc);
    let mut seen = HashSet::new(alloc);
    for x in xs {
        push_rows(&mut unions, &mut lines, &mut seen, join, x, &runs)?;
        if lines.len() > limit {
            return Ok(lines);
        }
    }
    Ok(lines)
}
