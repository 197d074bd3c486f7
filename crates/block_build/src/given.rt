//! What a receiver's rules give, with numbers.

ghost use Rattle.std.specs.Prelude.{◌≡◌, ◌∷◌, [], IfOk, List, Some};
ghost use Rattle.std.specs.List.{slice_get};
ghost use Rattle.cells.specs.Firsts.{first_place};
ghost use Rattle.classifier.specs.Lines.{line};
ghost use Rattle.classifier.specs.Meaning.{cubes_of};
ghost use Rattle.classifier.specs.Numbered.{AreNumbered, KeepNumbers};
ghost use Rattle.classifier.specs.declared.line.Line.{Line as AnyLine};
ghost use Rattle.net_types.specs.Cubes.{everything};
ghost use Rattle.net_types.specs.declared.cube.Cube.{Cube as AnyCube};
ghost use Rattle.block_build.specs.ByCells.{held_by};
ghost use Rattle.block_build.specs.Receivers.{received_items, received_lines};

use crate::received::Received;
use classifier::{Line, ListTable, Results};
use net_types::{Memory, PortNo, TryCopy};
use std::alloc::Global;

/// What rules give, as lists with numbers: of each rule the number of its list, and that of the list of no results.
#[derive(Drop)]
pub struct Given {
    pub numbers: Vec<usize>,
    pub table: ListTable,
    none: usize,
    ghost is: { slice_get table.lists.items none ≡ Some [] },
}

/// Results, and the number of how they leave.
#[derive(Drop)]
pub struct Leaving {
    pub results: Results,
    pub number: usize,
}

/// The number of how results leave.
fn number_of(
    received: &mut Received,
    table: &mut ListTable,
    hop: PortNo,
    results: &Results,
) -> Result<usize, Memory>
    ensures number { IfOk result (λ n. slice_get table.new.lists.items n ≡ Some (received_items hop results.now)) }
    ensures kept { KeepNumbers table.old.lists.items table.new.lists.items }
{
    let exits = received.exits(hop, results)?;
    table.put(exits)
}

/// The same of the next results, which often are those before.
fn left_next(
    received: &mut Received,
    table: &mut ListTable,
    hop: PortNo,
    results: &Results,
    last: Leaving,
) -> Result<Leaving, Memory>
    requires { slice_get table.old.lists.items last.number ≡ Some (received_items hop last.results) }
    ensures results { IfOk result (λ l. l.results ≡ results.now) }
    ensures number { IfOk result (λ l. slice_get table.new.lists.items l.number ≡ Some (received_items hop l.results)) }
    ensures kept { KeepNumbers table.old.lists.items table.new.lists.items }
{
    if results.equals(&last.results) {
        return Ok(last);
    }
    let number = number_of(received, table, hop, results)?;
    let results = results.copy()?;
    Ok(Leaving { results, number })
}

/// How the results of rules leave, with numbers.
pub(crate) fn given_by(
    received: &mut Received,
    hop: PortNo,
    lines: &[Line],
) -> Result<Given, Memory>
    ensures { IfOk result (λ g. AreNumbered g.table.lists.items (received_lines hop lines.now) g.numbers.items) }
{
    let alloc = received.alloc();
    let mut table = ListTable::new(alloc);
    let none = table.put(Results::new(alloc))?;
    let mut numbers = Vec::with_capacity(alloc, lines.len())?;
    let results = Results::new(alloc);
    let number = number_of(received, &mut table, hop, &results)?;
    let mut last = Leaving { results, number };
    for y in lines {
        last = left_next(received, &mut table, hop, &y.results, last)?;
        numbers.push(last.number)?;
    }
    Ok(Given {
        numbers,
        table,
        none,
    })
}

/// What one rule for all headers gives.
pub(crate) fn given_alone(alloc: Global, results: &Results) -> Result<Given, Memory>
    ensures { IfOk result (λ g. AreNumbered g.table.lists.items (line results.now everything ∷ []) g.numbers.items) }
{
    let mut table = ListTable::new(alloc);
    let none = table.put(Results::new(alloc))?;
    let number = table.put(results.copy()?)?;
    let numbers = vec![in alloc; number]?;
    Ok(Given {
        numbers,
        table,
        none,
    })
}

impl Given {
    /// The number of the list of no results.
    pub(crate) fn none(&self) -> usize
        ensures { slice_get self.now.table.lists.items result ≡ Some [] }
    {
        self.none
    }

    /// The number of what the rule at a place gives.
    fn number_of(&self, place: usize) -> usize
        ensures { (ys : List AnyLine) (y : AnyLine) → AreNumbered self.now.table.lists.items ys self.now.numbers.items → slice_get ys place ≡ Some y
            → slice_get self.now.table.lists.items result ≡ Some y.results }
    {
        if place < self.numbers.len() {
            self.numbers[place]
        } else {
            self.none
        }
    }

    /// The number of what the first rule gives that holds a cell, whose place is known.
    pub(crate) fn number_at(&self, place: Option<usize>) -> usize
        ensures { (ys : List AnyLine) (c : AnyCube) → AreNumbered self.now.table.lists.items ys self.now.numbers.items → place ≡ first_place c (cubes_of ys)
            → slice_get self.now.table.lists.items result ≡ Some (held_by c ys) }
    {
        match place {
            Some(place) => self.number_of(place),
            None => self.none,
        }
    }
}
