//! The results of each cube.

ghost use Rattle.std.specs.Prelude.{◌≡◌, ◌<◌, ◌-◌, ◌/◌, ◌==◌, ◌++◌, ℕ, length, true, false, [], if◌then◌else◌, Some, IfOk, IfSome, OnOk};
ghost use Rattle.std.specs.List.{filter, slice_get};
ghost use Rattle.net_types.specs.Sets.{HasNoRepeats, Member, SameMembers, union_over};
ghost use Rattle.classifier.specs.declared.line.Line.{Line as AnyLine};
ghost use Rattle.classifier.specs.Items.{add_all};
ghost use Rattle.classifier.specs.Meaning.{cubes_of};
ghost use Rattle.place_sets.specs.Places.{has_place};
ghost use Rattle.policy_compile.specs.Columns.{given, set_at};
ghost use Rattle.policy_compile.specs.Groups.{alone, result_of};
ghost use Rattle.policy_compile.specs.Rows.{AreLists, AreNear, joined, list_at};

use crate::by_print::ByPrint;
use crate::columns::{Column, Columns};
use classifier::{Gathering, Line, Results};
use net_types::{Assign, Cube, Items, Loc, Memory, TryCopy};
use place_sets::PlaceSet;
use std::alloc::Global;
use std::marker::Model;

// an odd number without a pattern
const MARK: u64 = 0xD6E8_FEB8_6659_FD93;

/// So many results are copied, which is no more work than to share them.
const FEW: usize = 16;

/// So many places have their bits in one word.
const BITS: usize = 64;

/// Numbers of lists, and the results that stand in them.
#[derive(Drop)]
pub struct Row {
    pub numbers: Vec<usize>,
    pub results: Results,
}

/// Of each set the list of the results of the columns that have it, and rows that were made of these lists. Contracts see the lists.
#[derive(Drop)]
pub struct Rows {
    alloc: Global,
    lists: Vec<Items<(Assign, Loc)>>,
    // whether no result stands in the lists twice
    is_distinct: bool,
    rows: Vec<Row>,
    found: ByPrint,
}

impl Model for Rows {
    ghost use Rattle.std.specs.Prelude.{List};
    ghost use Rattle.classifier.specs.Items.{Item};
    ghost use Rattle.policy_compile.specs.Rows.{AreRows};

    ghost Value = { List (List Item) };

    ghost view = { λ r. r.lists.items };

    ghost invariant = { λ r. AreRows r.lists.items r.is_distinct r.rows.items };
}

/// A number by which most lists of numbers differ.
fn print_of(numbers: &[usize]) -> u64 {
    let mut print = 0u64;
    for number in numbers {
        print = (print ^ *number as u64).wrapping_mul(MARK);
        print ^= print >> 32;
    }
    print
}

/// So many empty lists.
fn empty_lists(alloc: Global, count: usize) -> Result<Vec<Items<(Assign, Loc)>>, Memory>
    ensures empty { IfOk result (λ v. (n : ℕ) → list_at v.items n ≡ []) }
    ensures long { IfOk result (λ v. length v.items ≡ count) }
{
    let mut lists = Vec::with_capacity(alloc, count)?;
    for _list in 0..count {
        lists.push(Items::new(alloc))?;
    }
    Ok(lists)
}

/// Puts the result of a column last in the list of its set.
fn push_result(
    lists: &mut Vec<Items<(Assign, Loc)>>,
    locations: &[Loc],
    column: &Column,
) -> Result<(), Memory>
    requires { column.now.set < length lists.old.items }
    ensures put { OnOk result ((n : ℕ) → list_at lists.new.items n ≡ list_at lists.old.items n ++ (if column.now.set == n then result_of locations.now column.now.key else [])) }
    ensures long { OnOk result (length lists.new.items ≡ length lists.old.items) }
{
    if let Some(loc) = locations.get(column.key.number) {
        lists[column.set].push((column.key.set, *loc))?;
    }
    Ok(())
}

/// Of each set the results of the columns that have it.
fn by_sets(
    alloc: Global,
    locations: &[Loc],
    columns: &Columns,
) -> Result<Vec<Items<(Assign, Loc)>>, Memory>
    ensures lists { IfOk result (λ v. AreLists locations.now columns.now.columns.items v.items) }
    ensures long { IfOk result (λ v. length v.items ≡ length columns.now.sets.sets.items) }
{
    let mut lists = empty_lists(alloc, columns.sets.sets.len())?;
    for column in columns.columns.iter() {
        push_result(&mut lists, locations, column)?;
    }
    Ok(lists)
}

/// Puts each result of a list last, unless it is there.
fn push_each(all: &mut Gathering, list: &[(Assign, Loc)]) -> Result<(), Memory>
    ensures { OnOk result (all.new ≡ add_all all.old list.now) }
{
    for item in list {
        all.push(*item)?;
    }
    Ok(())
}

/// Whether no result stands in the lists twice.
fn are_distinct(alloc: Global, lists: &[Items<(Assign, Loc)>]) -> Result<bool, Memory>
    ensures { IfOk result (λ b. b ≡ true → HasNoRepeats (union_over (λ l. l) lists.now)) }
{
    let mut all = Gathering::new(alloc);
    for list in lists {
        let before = all.items().len();
        push_each(&mut all, list.items())?;
        if all.items().len() - before != list.len() {
            return Ok(false);
        }
    }
    all.into_results().known();
    Ok(true)
}

/// Whether a list has results, and a set places in a word.
fn is_near(list: &Items<(Assign, Loc)>, set: &PlaceSet, word: usize) -> bool
    ensures { result ≡ false → (k : ℕ) → k / 64 ≡ word → has_place set.now k ≡ true → list.now ≡ [] }
{
    !list.is_empty() && !set.is_empty_at(word)
}

/// The numbers of the sets that have results, and places in a word.
fn near(
    alloc: Global,
    sets: &[PlaceSet],
    lists: &[Items<(Assign, Loc)>],
    word: usize,
) -> Result<Vec<usize>, Memory>
    requires { length lists.now ≡ length sets.now }
    ensures { IfOk result (λ v. AreNear sets.now lists.now word (length sets.now) v.items) }
{
    let mut numbers = Vec::new(alloc);
    for number in 0..sets.len() {
        if is_near(&lists[number], &sets[number], word) {
            numbers.push(number)?;
        }
    }
    Ok(numbers)
}

/// Whether the set of a number has a place.
fn is_in(sets: &[PlaceSet], number: usize, place: usize) -> bool
    requires { number < length sets.now }
    ensures { result ≡ set_at sets.now number place }
{
    sets[number].has(place)
}

/// Those of some sets that have a place.
fn having(
    alloc: Global,
    sets: &[PlaceSet],
    numbers: &[usize],
    place: usize,
) -> Result<Vec<usize>, Memory>
    requires { (n : ℕ) → Member n numbers.now → n < length sets.now }
    ensures { IfOk result (λ v. v.items ≡ filter (λ n. set_at sets.now n place) numbers.now) }
{
    let mut those = Vec::with_capacity(alloc, numbers.len())?;
    for number in numbers {
        if is_in(sets, *number, place) {
            those.push(*number)?;
        }
    }
    Ok(those)
}

/// The list of a number.
fn list_of<'a>(lists: &'a [Items<(Assign, Loc)>], number: usize) -> &'a [(Assign, Loc)]
    requires { number < length lists.now }
    ensures { result.now ≡ list_at lists.now number }
{
    lists[number].items()
}

/// How many results some lists have together, as far as that can be counted.
fn count_of(lists: &[Items<(Assign, Loc)>], numbers: &[usize]) -> usize
    requires { (n : ℕ) → Member n numbers.now → n < length lists.now }
{
    let mut count = 0usize;
    for number in numbers {
        count = count.saturating_add(list_of(lists, *number).len());
    }
    count
}

/// The results of some lists, where none stands in two.
fn joined_of(
    alloc: Global,
    lists: &[Items<(Assign, Loc)>],
    numbers: &[usize],
) -> Result<Results, Memory>
    requires inside { (n : ℕ) → Member n numbers.now → n < length lists.now }
    requires once { HasNoRepeats (joined lists.now numbers.now) }
    ensures { IfOk result (λ r. r ≡ joined lists.now numbers.now) }
{
    let mut all = Vec::with_capacity(alloc, count_of(lists, numbers))?;
    for number in numbers {
        all.extend_from_slice(list_of(lists, *number))?;
    }
    Ok(Results::from_vec(all))
}

/// The results of some lists.
fn gathered_of(
    alloc: Global,
    lists: &[Items<(Assign, Loc)>],
    numbers: &[usize],
) -> Result<Results, Memory>
    requires { (n : ℕ) → Member n numbers.now → n < length lists.now }
    ensures { IfOk result (λ r. SameMembers r (joined lists.now numbers.now)) }
{
    let mut all = Gathering::new(alloc);
    for number in numbers {
        push_each(&mut all, list_of(lists, *number))?;
    }
    Ok(all.into_results())
}

impl Rows {
    /// No rows, with the results of the columns.
    fn new(alloc: Global, locations: &[Loc], columns: &Columns) -> Result<Rows, Memory>
        ensures lists { IfOk result (λ rows. AreLists locations.now columns.now.columns.items rows) }
        ensures long { IfOk result (λ rows. length rows ≡ length columns.now.sets.sets.items) }
    {
        let lists = by_sets(alloc, locations, columns)?;
        let is_distinct = are_distinct(alloc, &lists)?;
        Ok(Rows {
            alloc,
            lists,
            is_distinct,
            rows: Vec::new(alloc),
            found: ByPrint::new(alloc),
        })
    }

    /// The numbers of near sets for the word of a place, where those for the place before it are known.
    fn near_next(
        &self,
        sets: &[PlaceSet],
        before: Vec<usize>,
        place: usize,
    ) -> Result<Vec<usize>, Memory>
        requires long { length self.now ≡ length sets.now }
        requires before { 0 < place → AreNear sets.now self.now ((place - 1) / 64) (length sets.now) before.items }
        ensures { IfOk result (λ v. AreNear sets.now self.now (place / 64) (length sets.now) v.items) }
    {
        if place % BITS == 0 {
            return near(self.alloc, sets, &self.lists, place / BITS);
        }
        Ok(before)
    }

    /// The results of some lists, where a row has them.
    fn find(&self, print: u64, numbers: &[usize]) -> Option<&Results>
        ensures { IfSome result (λ r. SameMembers r.now (joined self.now numbers.now)) }
    {
        let mut next = self.found.last(print);
        for _row in 0..self.rows.len() {
            let place = next?;
            let row = self.rows.get(place)?;
            if row.numbers.as_slice() == numbers {
                return Some(&row.results);
            }
            next = self.found.before(place);
        }
        None
    }

    /// The results of some lists.
    fn made(&self, numbers: &[usize]) -> Result<Results, Memory>
        requires inside { (n : ℕ) → Member n numbers.now → n < length self.now }
        requires once { HasNoRepeats numbers.now }
        ensures { IfOk result (λ r. SameMembers r (joined self.now numbers.now)) }
    {
        let results = if self.is_distinct {
            joined_of(self.alloc, &self.lists, numbers)?
        } else {
            gathered_of(self.alloc, &self.lists, numbers)?
        };
        if results.len() > FEW {
            return results.shared();
        }
        Ok(results)
    }

    /// The results of some lists. They are made once for the same numbers.
    fn results_of(&mut self, numbers: Vec<usize>) -> Result<Results, Memory>
        requires inside { (n : ℕ) → Member n numbers.items → n < length self.old }
        requires once { HasNoRepeats numbers.items }
        ensures results { IfOk result (λ r. SameMembers r (joined self.old numbers.items)) }
        ensures lists { OnOk result (self.new ≡ self.old) }
    {
        let print = print_of(&numbers);
        if let Some(known) = self.find(print, &numbers) {
            return known.copy();
        }
        let results = self.made(&numbers)?;
        let kept = results.copy()?;
        self.found.push(print)?;
        self.rows.push(Row {
            numbers,
            results: kept,
        })?;
        Ok(results)
    }
}

/// The rule of each cube.
pub fn rows_of(
    alloc: Global,
    cubes: &[Cube],
    locations: &[Loc],
    columns: &Columns,
) -> Result<Vec<Line>, Memory>
    ensures cubes { IfOk result (λ v. cubes_of v.items ≡ cubes.now) }
    ensures gives { IfOk result (λ v. (k : ℕ) (x : AnyLine) → slice_get v.items k ≡ Some x → SameMembers x.results (alone locations.now (given columns.now.sets.sets.items columns.now.columns.items k))) }
{
    let mut rows = Rows::new(alloc, locations, columns)?;
    let mut lines = Vec::with_capacity(alloc, cubes.len())?;
    let mut nears = Vec::new(alloc);
    for place in 0..cubes.len() {
        nears = rows.near_next(&columns.sets.sets, nears, place)?;
        let numbers = having(alloc, &columns.sets.sets, &nears, place)?;
        let results = rows.results_of(numbers)?;
        lines.push(Line {
            cube: cubes[place],
            results,
        })?;
    }
    Ok(lines)
}
