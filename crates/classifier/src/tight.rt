//! Rules without those whose cube lies within an earlier one's.

ghost use Rattle.std.specs.Prelude.{◌≡◌, ◌∷◌, ◌++◌, IfOk, OnOk, []};
ghost use Rattle.classifier.specs.Lines.{is_within_some, tightened};
ghost use Rattle.classifier.specs.Runs.{lines_in};

use crate::line::Line;
use crate::run::Run;
use crate::runs::runs_of;
use net_types::{Memory, TryCopy};
use std::alloc::Global;

/// Whether a rule's cube lies within one of these.
fn is_inside(lines: &[Line], next: &Line) -> bool
    ensures { result ≡ is_within_some lines.now next.now }
{
    for earlier in lines {
        if cube::within(&next.cube, &earlier.cube) {
            return true;
        }
    }
    false
}

/// Whether a rule's cube lies within one of a run's. None does where it doesn't lie within the cube that holds them.
fn is_inside_run(run: &Run<'_>, next: &Line) -> bool
    ensures { result ≡ is_within_some run.now.lines.now next.now }
{
    cube::within(&next.cube, &run.hull) && is_inside(run.lines, next)
}

/// Whether a rule's cube lies within one of the runs'.
fn is_inside_runs(runs: &[Run<'_>], next: &Line) -> bool
    ensures { result ≡ is_within_some (lines_in runs.now) next.now }
{
    for run in runs {
        if is_inside_run(run, next) {
            return true;
        }
    }
    false
}

/// Puts an equal rule last, unless its cube lies within one of those before it.
fn push_outside(
    lines: &mut Vec<Line>,
    runs: &[Run<'_>],
    run: &[Line],
    next: &Line,
) -> Result<(), Memory>
    requires { lines.old.items ≡ tightened [] (lines_in runs.now ++ run.now) }
    ensures { OnOk result (lines.new.items ≡ tightened [] (lines_in runs.now ++ run.now ++ next.now ∷ [])) }
{
    if !is_inside_runs(runs, next) && !is_inside(run, next) {
        lines.push(next.copy()?)?;
    }
    Ok(())
}

/// Puts the rules of a run last whose cubes don't lie within an earlier one's.
fn push_run(lines: &mut Vec<Line>, runs: &[Run<'_>], run: &[Line]) -> Result<(), Memory>
    requires { lines.old.items ≡ tightened [] (lines_in runs.now) }
    ensures { OnOk result (lines.new.items ≡ tightened [] (lines_in runs.now ++ run.now)) }
{
    for place in 0..run.len() {
        push_outside(lines, runs, &run[..place], &run[place])?;
    }
    Ok(())
}

/// The rules whose cubes don't lie within an earlier one's.
pub fn tight_lines(alloc: Global, xs: &[Line]) -> Result<Vec<Line>, Memory>
    ensures { IfOk result (λ v. v.items ≡ tightened [] xs.now) }
{
    let runs = runs_of(alloc, xs)?;
    let mut lines = Vec::new(alloc);
    for place in 0..runs.len() {
        push_run(&mut lines, &runs[..place], runs[place].lines)?;
    }
    Ok(lines)
}
