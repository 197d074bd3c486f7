//! Cells of which many give the same: of each the number of the list of its results.

ghost use Rattle.std.specs.Prelude.{◌≡◌, ◌<◌, ◌+◌, IfOk, IfSome, List, Some, length};
ghost use Rattle.std.specs.List.{slice_get};
ghost use Rattle.cells.specs.Firsts.{first_place, firsts};
ghost use Rattle.classifier.specs.Items.{Item, add_all};
ghost use Rattle.classifier.specs.Meaning.{cubes_of};
ghost use Rattle.classifier.specs.Numbered.{AreNumbered, KeepNumbers, list_at};
ghost use Rattle.classifier.specs.declared.line.Line.{Line as AnyLine};
ghost use Rattle.net_types.specs.declared.cube.Cube.{Cube as AnyCube};
ghost use Rattle.block_build.specs.ByCells.{beside_first, dropping, made_at};
ghost use Rattle.block_build.specs.Few.{IsUnion};
ghost use Rattle.block_build.specs.declared.receive.Receiver.{Receiver as AnyReceiver};

use crate::exits::{Exits, items_at};
use crate::given::Given;
use crate::offers::goes_to;
use crate::received::Received;
use crate::sending::Sending;
use classifier::{Joins, Line, ListTable, Results};
use net_types::{Cube, Memory, TryCopy};
use std::alloc::Global;

/// With so many results in all cells, each cell isn't given a list of its own.
const MOST: usize = 16777216;

/// A list that so many cells have is worth being made anew with each receiver.
const SHARED: usize = 64;

/// So many results for each cell are no work to make anew.
const SHORT: usize = 16;

/// Of each of some cells the number of the list of its results.
#[derive(Drop)]
pub struct Few {
    pub numbers: Vec<usize>,
    pub table: ListTable,
}

/// Two lists that were joined, and the number of their union.
#[derive(Clone, Copy)]
pub struct Last {
    pub first: usize,
    pub second: usize,
    pub number: usize,
}

/// What a receiver makes in a cell, as the number of a list: the places are known of the sender's rule that holds the cell, and
/// of the receiver's.
fn second_at(
    sending: &Sending<'_>,
    receiver: &Exits<'_>,
    given: &Given,
    own: Option<usize>,
    place: Option<usize>,
) -> usize
    requires { AreNumbered given.now.table.lists.items receiver.now.lines given.now.numbers.items }
    ensures { (c : AnyCube) → own ≡ first_place c (cubes_of sending.now.rules.now) → place ≡ first_place c (cubes_of receiver.now.lines)
        → slice_get given.now.table.lists.items result ≡ Some (made_at sending.now.best sending.now.offers.now sending.now.rules.now receiver.now c) }
{
    let items = items_at(sending.rules, own);
    let left = sending.left_at(own);
    if goes_to(left, sending.best, items, receiver.who(), receiver.place()) {
        given.number_at(place)
    } else {
        given.none()
    }
}

/// The union of two lists, which are often those joined last.
fn joined(
    joins: &mut Joins<'_>,
    last: Option<Last>,
    first: usize,
    second: usize,
) -> Result<Last, Memory>
    requires first { first < length joins.old.firsts.now }
    requires second { second < length joins.old.seconds.now }
    requires last { IfSome last (IsUnion joins.old.firsts.now joins.old.seconds.now joins.old.table.lists.items) }
    ensures first { IfOk result (λ l. l.first ≡ first) }
    ensures second { IfOk result (λ l. l.second ≡ second) }
    ensures union { IfOk result (IsUnion joins.old.firsts.now joins.old.seconds.now joins.new.table.lists.items) }
    ensures kept { KeepNumbers joins.old.table.lists.items joins.new.table.lists.items }
    ensures firsts { joins.new.firsts.now ≡ joins.old.firsts.now }
    ensures seconds { joins.new.seconds.now ≡ joins.old.seconds.now }
{
    if let Some(last) = last {
        if last.first == first && last.second == second {
            return Ok(last);
        }
    }
    let number = joins.number_of(first, second)?;
    Ok(Last {
        first,
        second,
        number,
    })
}

/// Cells that give nothing.
pub(crate) fn nothing(alloc: Global, cells: &[Cube]) -> Result<Few, Memory>
    ensures { IfOk result (λ few. AreNumbered few.table.lists.items (dropping cells.now) few.numbers.items) }
{
    let mut table = ListTable::new(alloc);
    let number = table.put(Results::new(alloc))?;
    let mut numbers = Vec::with_capacity(alloc, cells.len())?;
    for _cell in cells {
        numbers.push(number)?;
    }
    Ok(Few { numbers, table })
}

/// How many results a list has, none where there is no such list.
fn length_at(lists: &[Results], number: usize) -> usize {
    if number < lists.len() {
        lists[number].len()
    } else {
        0
    }
}

/// How many results the lists with these numbers have together.
fn results_in(lists: &[Results], numbers: &[usize]) -> usize {
    let mut results: usize = 0;
    for number in numbers {
        results = results.saturating_add(length_at(lists, *number));
    }
    results
}

/// How many results lists have together.
fn results_of(lists: &[Results]) -> usize {
    let mut results: usize = 0;
    for list in lists {
        results = results.saturating_add(list.len());
    }
    results
}

/// Whether it is less work to join lists for many cells than to have a list grow in each cell. Nothing rests on it but how soon
/// the rules are built.
pub(crate) fn are_shared(few: &Few) -> bool {
    let lists = &few.table.lists;
    let cells = few.numbers.len();
    let made = results_of(lists);
    let had = results_in(lists, &few.numbers);
    let few_lists = lists.len() <= cells / 4 + 1 && made <= cells.saturating_mul(SHORT);
    few_lists || had > made.saturating_mul(SHARED) || had > MOST
}

/// The cells beside what the next receiver makes in them.
pub(crate) fn beside_next(
    received: &mut Received,
    sending: &Sending<'_>,
    receivers: &[Exits<'_>],
    n: usize,
    cells: &[Cube],
    few: &Few,
    own: &[Option<usize>],
    places: &[Option<usize>],
) -> Result<Few, Memory>
    requires next { n < length receivers.now }
    requires few { AreNumbered few.now.table.lists.items (beside_first sending.now.best sending.now.offers.now sending.now.rules.now cells.now receivers.now n) few.now.numbers.items }
    requires own { own.now ≡ firsts (cubes_of sending.now.rules.now) cells.now }
    requires places { (r : AnyReceiver) → slice_get receivers.now n ≡ Some r → places.now ≡ firsts (cubes_of r.lines) cells.now }
    ensures { IfOk result (λ more. AreNumbered more.table.lists.items (beside_first sending.now.best sending.now.offers.now sending.now.rules.now cells.now receivers.now (n + 1)) more.numbers.items) }
{
    let receiver = &receivers[n];
    let given = receiver.given(received)?;
    let mut joins = Joins::new(received.alloc(), &few.table.lists, &given.table.lists);
    let mut numbers = Vec::with_capacity(received.alloc(), cells.len())?;
    let mut last = None;
    for i in 0..cells.len() {
        let second = second_at(sending, receiver, &given, own[i], places[i]);
        let next = joined(&mut joins, last, few.numbers[i], second)?;
        numbers.push(next.number)?;
        last = Some(next);
    }
    let Joins { table, .. } = joins;
    Ok(Few { numbers, table })
}

/// The list with a number.
fn list_of(alloc: Global, lists: &[Results], number: usize) -> Result<Results, Memory>
    ensures { IfOk result (λ r. (items : List Item) → slice_get lists.now number ≡ Some items → r ≡ items) }
{
    if number < lists.len() {
        lists[number].copy()
    } else {
        Ok(Results::new(alloc))
    }
}

/// The results of a cell.
fn results_at(alloc: Global, few: &Few, cell: usize) -> Result<Results, Memory>
    ensures { IfOk result (λ r. (zs : List AnyLine) (z : AnyLine) → AreNumbered few.now.table.lists.items zs few.now.numbers.items → slice_get zs cell ≡ Some z → r ≡ z.results) }
{
    if cell < few.numbers.len() {
        list_of(alloc, &few.table.lists, few.numbers[cell])
    } else {
        Ok(Results::new(alloc))
    }
}

/// The rules of the cells.
pub(crate) fn lines_of(alloc: Global, cells: &[Cube], few: &Few) -> Result<Vec<Line>, Memory>
    ensures { IfOk result (λ v. (zs : List AnyLine) → cubes_of zs ≡ cells.now → AreNumbered few.now.table.lists.items zs few.now.numbers.items → v.items ≡ zs) }
{
    let mut lines = Vec::with_capacity(alloc, cells.len())?;
    for i in 0..cells.len() {
        lines.push(Line {
            cube: cells[i],
            results: results_at(alloc, few, i)?,
        })?;
    }
    Ok(lines)
}
