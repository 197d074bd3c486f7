//! Classifiers whose results have numbers. Rules that give the same mostly have the same number, so that a sum of two joins each
//! two lists once.

ghost use Rattle.std.specs.Prelude.{◌≡◌, ◌<◌, ◌++◌, ◌∷◌, [], Some, length, IfOk, OnOk};
ghost use Rattle.std.specs.List.{slice_get};
ghost use Rattle.net_types.specs.declared.cube.Cube.{Cube as AnyCube};
ghost use Rattle.net_types.specs.declared.headers.Headers.{Headers as AnyHeaders};
ghost use Rattle.net_types.specs.declared.headers.Loc.{Loc as AnyLoc};
ghost use Rattle.net_types.specs.declared.headers.Assign.{Assign as AnyAssign};
ghost use Rattle.net_types.specs.Meets.{IsMeet};
ghost use Rattle.net_types.specs.Sets.{Member, SameMembers};
ghost use Rattle.classifier.specs.Classifiers.{lines_of, meaning, cubes_of, assigns_of};
ghost use Rattle.classifier.specs.Items.{add_all};
ghost use Rattle.classifier.specs.Lines.{add_line, add_lines, aligned, line, row, product};
ghost use Rattle.classifier.specs.Numbered.{AreNumbered, list_at};
ghost use Rattle.classifier.specs.Seen.{Agrees};

use crate::aligned::are_aligned;
use crate::classifier::Classifier;
use crate::join::Join;
use crate::joins::Joins;
use crate::line::Line;
use crate::list_table::ListTable;
use crate::seen::{is_hidden, push_reached};
use net_types::{Cube, Memory, TryCopy};
use std::alloc::Global;
use std::collections::HashSet;

/// A classifier, and the number of each rule's results.
#[derive(Drop)]
pub struct Numbered {
    pub whole: Classifier,
    numbers: Vec<usize>,
    table: ListTable,
    ghost numbered: { AreNumbered table.lists.items (lines_of whole) numbers.items },
}

/// Puts the rule of a cube that joins two lists last, where it can be reached.
fn push_union(
    joins: &mut Joins<'_>,
    lines: &mut Vec<Line>,
    numbers: &mut Vec<usize>,
    seen: &mut HashSet<Cube>,
    cube: Cube,
    first: usize,
    second: usize,
) -> Result<(), Memory>
    requires first { first < length joins.old.firsts.now }
    requires second { second < length joins.old.seconds.now }
    requires numbered { AreNumbered joins.old.table.lists.items lines.old.items numbers.old.items }
    requires agrees { Agrees lines.old.items seen.old }
    ensures lines { OnOk result (lines.new.items ≡ add_line lines.old.items
        (line (add_all (list_at joins.old.firsts.now first) (list_at joins.old.seconds.now second)) cube)) }
    ensures numbered { OnOk result (AreNumbered joins.new.table.lists.items lines.new.items numbers.new.items) }
    ensures agrees { OnOk result (Agrees lines.new.items seen.new) }
    ensures firsts { joins.new.firsts.now ≡ joins.old.firsts.now }
    ensures seconds { joins.new.seconds.now ≡ joins.old.seconds.now }
{
    if !is_hidden(lines, seen, &cube) {
        let number = joins.number_of(first, second)?;
        let results = joins.table.lists[number].copy()?;
        push_reached(lines, seen, Line { cube, results })?;
        numbers.push(number)?;
    }
    Ok(())
}

/// Adds a rule joined with each of a list.
fn push_unions(
    joins: &mut Joins<'_>,
    lines: &mut Vec<Line>,
    numbers: &mut Vec<usize>,
    seen: &mut HashSet<Cube>,
    x: &Line,
    first: usize,
    ys: &[Line],
    seconds: &[usize],
) -> Result<(), Memory>
    requires x { slice_get joins.old.firsts.now first ≡ Some x.now.results }
    requires ys { AreNumbered joins.old.seconds.now ys.now seconds.now }
    requires numbered { AreNumbered joins.old.table.lists.items lines.old.items numbers.old.items }
    requires agrees { Agrees lines.old.items seen.old }
    ensures lines { OnOk result (lines.new.items ≡ add_lines lines.old.items (row Join.Union x.now ys.now)) }
    ensures numbered { OnOk result (AreNumbered joins.new.table.lists.items lines.new.items numbers.new.items) }
    ensures agrees { OnOk result (Agrees lines.new.items seen.new) }
    ensures firsts { joins.new.firsts.now ≡ joins.old.firsts.now }
    ensures seconds { joins.new.seconds.now ≡ joins.old.seconds.now }
{
    for j in 0..ys.len() {
        if let Some(cube) = cube::meet(&x.cube, &ys[j].cube) {
            push_union(joins, lines, numbers, seen, cube, first, seconds[j])?;
        }
    }
    Ok(())
}

/// Puts the rule of a cube that joins two lists last.
fn push_joined(
    joins: &mut Joins<'_>,
    lines: &mut Vec<Line>,
    numbers: &mut Vec<usize>,
    cube: Cube,
    first: usize,
    second: usize,
) -> Result<(), Memory>
    requires first { first < length joins.old.firsts.now }
    requires second { second < length joins.old.seconds.now }
    requires numbered { AreNumbered joins.old.table.lists.items lines.old.items numbers.old.items }
    ensures lines { OnOk result (lines.new.items ≡ lines.old.items ++
        line (add_all (list_at joins.old.firsts.now first) (list_at joins.old.seconds.now second)) cube ∷ []) }
    ensures numbered { OnOk result (AreNumbered joins.new.table.lists.items lines.new.items numbers.new.items) }
    ensures firsts { joins.new.firsts.now ≡ joins.old.firsts.now }
    ensures seconds { joins.new.seconds.now ≡ joins.old.seconds.now }
{
    let number = joins.number_of(first, second)?;
    let results = joins.table.lists[number].copy()?;
    lines.push(Line { cube, results })?;
    numbers.push(number)?;
    Ok(())
}

impl Numbered {
    /// The rules of a classifier, numbered.
    pub fn new(alloc: Global, whole: Classifier) -> Result<Numbered, Memory>
        ensures { IfOk result (λ n. n.whole ≡ whole) }
    {
        let mut table = ListTable::new(alloc);
        let mut numbers = Vec::new(alloc);
        for line in whole.lines() {
            let number = table.put(line.results.copy()?)?;
            numbers.push(number)?;
        }
        Ok(Numbered {
            whole,
            numbers,
            table,
        })
    }

    /// The rules of both, joined.
    fn join(alloc: Global, a: &Numbered, b: &Numbered) -> Result<Numbered, Memory>
        ensures { IfOk result (λ n. lines_of n.whole ≡ add_lines [] (product Join.Union (lines_of a.now.whole) (lines_of b.now.whole))) }
    {
        let mut joins = Joins::new(alloc, &a.table.lists, &b.table.lists);
        let mut lines = Vec::new(alloc);
        let mut numbers = Vec::new(alloc);
        let mut seen = HashSet::new(alloc);
        let xs = a.whole.lines();
        for i in 0..xs.len() {
            push_unions(
                &mut joins,
                &mut lines,
                &mut numbers,
                &mut seen,
                &xs[i],
                a.numbers[i],
                b.whole.lines(),
                &b.numbers,
            )?;
        }
        let Joins { table, .. } = joins;
        Ok(Numbered {
            whole: Classifier::from_vec(lines),
            numbers,
            table,
        })
    }

    /// The rules of both, whose cubes are the same in the same order, each with the results of both.
    fn aligned(alloc: Global, a: &Numbered, b: &Numbered) -> Result<Numbered, Memory>
        requires { cubes_of a.now.whole ≡ cubes_of b.now.whole }
        ensures { IfOk result (λ n. lines_of n.whole ≡ aligned (lines_of a.now.whole) (lines_of b.now.whole)) }
    {
        let mut joins = Joins::new(alloc, &a.table.lists, &b.table.lists);
        let mut lines = Vec::new(alloc);
        let mut numbers = Vec::new(alloc);
        let xs = a.whole.lines();
        for i in 0..xs.len() {
            push_joined(
                &mut joins,
                &mut lines,
                &mut numbers,
                xs[i].cube,
                a.numbers[i],
                b.numbers[i],
            )?;
        }
        let Joins { table, .. } = joins;
        Ok(Numbered {
            whole: Classifier::from_vec(lines),
            numbers,
            table,
        })
    }

    /// What either gives. Where the cubes of both are the same in the same order, each rule is joined with one alone.
    pub fn parallel(alloc: Global, a: &Numbered, b: &Numbered) -> Result<Numbered, Memory>
        ensures union { IfOk result (λ n. (h : AnyHeaders) (l : AnyLoc) →
            SameMembers (meaning n.whole h l) (meaning a.now.whole h l ++ meaning b.now.whole h l)) }
        ensures cubes { IfOk result (λ n. (x : AnyCube) → Member x (cubes_of n.whole) →
            IsMeet (cubes_of a.now.whole ++ cubes_of b.now.whole) x) }
        ensures assigns { IfOk result (λ n. (m : AnyAssign) → Member m (assigns_of n.whole) →
            Member m (assigns_of a.now.whole ++ assigns_of b.now.whole)) }
    {
        if are_aligned(a.whole.lines(), b.whole.lines()) {
            let aligned = Numbered::aligned(alloc, a, b)?;
            return Ok(aligned);
        }
        let both = Numbered::join(alloc, a, b)?;
        Ok(both)
    }
}
