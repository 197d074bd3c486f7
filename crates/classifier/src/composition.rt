//! One list of rules after another.

ghost use Rattle.std.specs.Prelude.{◌≡◌, IfOk, OnOk, [], ◌∷◌};
ghost use Rattle.classifier.specs.Behind.{meet_behind};
ghost use Rattle.classifier.specs.Lines.{add_line, add_lines, joined, row, product, pulled, block, composed, after_all, line};
ghost use Rattle.classifier.specs.Runs.{lines_in};
ghost use Rattle.classifier.specs.Seen.{Agrees};

use crate::afters::Afters;
use crate::join::Join;
use crate::line::Line;
use crate::results::Results;
use crate::run::Run;
use crate::runs::runs_of;
use crate::seen::{is_hidden, push_line, push_reached};
use net_types::{Assign, Cube, Loc, Memory};
use std::alloc::Global;
use std::collections::HashSet;

/// The cube of the headers that lie in one cube and that an assignment takes into another; none where none do.
fn meet_behind(a: &Cube, b: &Cube, set: &Assign) -> Option<Cube>
    ensures { result ≡ meet_behind a.now b.now set.now }
{
    let before = cube::pull(b, set)?;
    cube::meet(a, &before)
}

/// Puts the rule of a cube that joins a rule with one behind an assignment last, where it can be reached.
fn push_behind(
    afters: &mut Afters,
    lines: &mut Vec<Line>,
    seen: &mut HashSet<Cube>,
    cube: Cube,
    x: &Line,
    first: (Assign, Loc),
    next: &Results,
) -> Result<(), Memory>
    requires { Agrees lines.old.items seen.old }
    ensures lines { OnOk result (lines.new.items ≡ add_line lines.old.items (line (joined Join.Union x.now.results (after_all first next.now)) cube)) }
    ensures agrees { OnOk result (Agrees lines.new.items seen.new) }
{
    if !is_hidden(lines, seen, &cube) {
        let results = afters.join_behind(&x.results, first, next)?;
        push_reached(lines, seen, Line { cube, results })?;
    }
    Ok(())
}

/// Adds a rule joined with each of a run behind an assignment.
fn push_row_behind(
    afters: &mut Afters,
    lines: &mut Vec<Line>,
    seen: &mut HashSet<Cube>,
    x: &Line,
    first: (Assign, Loc),
    ys: &[Line],
) -> Result<(), Memory>
    requires { Agrees lines.old.items seen.old }
    ensures lines { OnOk result (lines.new.items ≡ add_lines lines.old.items (row Join.Union x.now (pulled first ys.now))) }
    ensures agrees { OnOk result (Agrees lines.new.items seen.new) }
{
    for y in ys {
        if let Some(cube) = meet_behind(&x.cube, &y.cube, &first.0) {
            push_behind(afters, lines, seen, cube, x, first, &y.results)?;
        }
    }
    Ok(())
}

/// Adds a rule joined with each of the runs behind an assignment. A run is passed over where its cube tells that none of its
/// rules has headers in common with this one.
fn push_rows_behind(
    afters: &mut Afters,
    lines: &mut Vec<Line>,
    seen: &mut HashSet<Cube>,
    x: &Line,
    first: (Assign, Loc),
    runs: &[Run<'_>],
) -> Result<(), Memory>
    requires { Agrees lines.old.items seen.old }
    ensures lines { OnOk result (lines.new.items ≡ add_lines lines.old.items (row Join.Union x.now (pulled first (lines_in runs.now)))) }
    ensures agrees { OnOk result (Agrees lines.new.items seen.new) }
{
    for run in runs {
        if meet_behind(&x.cube, &run.hull, &first.0).is_some() {
            push_row_behind(afters, lines, seen, x, first, run.lines)?;
        }
    }
    Ok(())
}

/// Adds each of some rules joined with each of the runs behind an assignment.
fn push_product_behind(
    afters: &mut Afters,
    lines: &mut Vec<Line>,
    seen: &mut HashSet<Cube>,
    xs: &[Line],
    first: (Assign, Loc),
    runs: &[Run<'_>],
) -> Result<(), Memory>
    requires { Agrees lines.old.items seen.old }
    ensures lines { OnOk result (lines.new.items ≡ add_lines lines.old.items (product Join.Union xs.now (pulled first (lines_in runs.now)))) }
    ensures agrees { OnOk result (Agrees lines.new.items seen.new) }
{
    for x in xs {
        push_rows_behind(afters, lines, seen, x, first, runs)?;
    }
    Ok(())
}

/// The rules within a cube: what a list gives after each of the results.
fn block_of(
    alloc: Global,
    afters: &mut Afters,
    cube: Cube,
    results: &[(Assign, Loc)],
    runs: &[Run<'_>],
) -> Result<Vec<Line>, Memory>
    ensures { IfOk result (λ v. v.items ≡ block (line [] cube ∷ []) results.now (lines_in runs.now)) }
{
    let nothing = Results::new(alloc);
    let mut lines = vec![in alloc;
        Line {
            cube,
            results: nothing
        },
    ]?;
    for pair in results {
        let mut joined = Vec::new(alloc);
        let mut seen = HashSet::new(alloc);
        push_product_behind(afters, &mut joined, &mut seen, &lines, *pair, runs)?;
        lines = joined;
    }
    Ok(lines)
}

/// Adds what a list gives after each of a rule's results. What it gives after the last is put straight to the rest, so that
/// no results are made for a cube that was seen.
fn push_block(
    alloc: Global,
    afters: &mut Afters,
    lines: &mut Vec<Line>,
    seen: &mut HashSet<Cube>,
    x: &Line,
    runs: &[Run<'_>],
) -> Result<(), Memory>
    requires { Agrees lines.old.items seen.old }
    ensures lines { OnOk result (lines.new.items ≡ add_lines lines.old.items (block (line [] x.now.cube ∷ []) x.now.results (lines_in runs.now))) }
    ensures agrees { OnOk result (Agrees lines.new.items seen.new) }
{
    match x.results.items().split_last() {
        None => {
            let results = Results::new(alloc);
            push_line(
                lines,
                seen,
                Line {
                    cube: x.cube,
                    results,
                },
            )
        }
        Some((last, others)) => {
            let within = block_of(alloc, afters, x.cube, others, runs)?;
            push_product_behind(afters, lines, seen, &within, *last, runs)
        }
    }
}

/// The rules of the second list after those of the first.
pub fn composition_of(alloc: Global, xs: &[Line], ys: &[Line]) -> Result<Vec<Line>, Memory>
    ensures { IfOk result (λ v. v.items ≡ add_lines [] (composed xs.now ys.now)) }
{
    let runs = runs_of(alloc, ys)?;
    let mut afters = Afters::new(alloc);
    let mut lines = Vec::new(alloc);
    let mut seen = HashSet::new(alloc);
    for x in xs {
        push_block(alloc, &mut afters, &mut lines, &mut seen, x, &runs)?;
    }
    Ok(lines)
}
