//! Of each cell the first of some cubes that it lies within, kept for receivers with the same cubes.

ghost use Rattle.std.specs.Prelude.{◌≡◌, IfOk, IfSome, IsTrue, List};
ghost use Rattle.cells.specs.Cells.{IsClosed};
ghost use Rattle.net_types.specs.Sets.{Member};
ghost use Rattle.net_types.specs.declared.cube.Cube.{Cube as AnyCube};
ghost use Rattle.block_build.specs.Tables.{AreTables, IsAt, IsTable};

use crate::tested::is_same;
use cells::{Cells, Inside, firsts_of};
use net_types::{Cube, Memory};
use std::alloc::Global;
use std::rc::Rc;

/// So many places stand in all tables but the last one.
pub(crate) const MOST: usize = 4_194_304;

/// Of each of some cells the first of some cubes that it lies within.
#[derive(Drop)]
pub struct Table {
    pub cubes: Vec<Cube>,
    pub firsts: Rc<Vec<Option<usize>>>,
}

/// Tables of the same cells.
#[derive(Drop)]
pub struct Tables {
    pub all: Vec<Table>,
    // how many places stand in them
    places: usize,
}

/// Cells, and tables of these, kept for the next pairs with the same cells.
#[derive(Drop)]
pub struct Workshop {
    pub cells: Cells,
    pub tables: Tables,
    ghost are: { AreTables cells tables.all.items },
}

/// Whether these are the same cubes.
fn are_same(one: &[Cube], other: &[Cube]) -> bool
    ensures { IsTrue result → one.now ≡ other.now }
{
    if one.len() != other.len() {
        return false;
    }
    for i in 0..one.len() {
        if !is_same(&one[i], &other[i]) {
            return false;
        }
    }
    true
}

impl Tables {
    /// No tables.
    fn new(alloc: Global) -> Tables
        ensures { (cells : List AnyCube) → AreTables cells result.all.items }
    {
        Tables {
            all: Vec::new(alloc),
            places: 0,
        }
    }

    /// The number of the table of some cubes, where there is one.
    fn find(&self, cubes: &[Cube]) -> Option<usize>
        ensures { IfSome result (IsAt self.now.all.items cubes.now) }
    {
        for number in 0..self.all.len() {
            if are_same(&self.all[number].cubes, cubes) {
                return Some(number);
            }
        }
        None
    }

    /// Puts a table last. Where they have too many places the earlier ones go.
    fn put(&mut self, table: Table) -> Result<usize, Memory>
        ensures number { IfOk result (IsAt self.new.all.items table.cubes.items) }
        ensures tables { (cells : List AnyCube) → AreTables cells self.old.all.items → IsTable cells table → AreTables cells self.new.all.items }
    {
        if self.places > MOST {
            self.all.clear();
            self.places = 0;
        }
        self.places = self.places.saturating_add(table.firsts.as_ref().len());
        let number = self.all.len();
        self.all.push(table)?;
        Ok(number)
    }

    /// The number of the table of some cubes.
    pub(crate) fn number_of(
        &mut self,
        alloc: Global,
        inside: &mut Inside<'_>,
        cubes: Vec<Cube>,
    ) -> Result<usize, Memory>
        requires { AreTables inside.old.cells.now self.old.all.items }
        ensures number { IfOk result (IsAt self.new.all.items cubes.items) }
        ensures tables { AreTables inside.old.cells.now self.new.all.items }
        ensures cells { inside.new.cells.now ≡ inside.old.cells.now }
    {
        if let Some(number) = self.find(&cubes) {
            return Ok(number);
        }
        let firsts = Rc::new(alloc, firsts_of(alloc, inside, &cubes)?)?;
        self.put(Table { cubes, firsts })
    }
}

/// Whether the cubes are among some cells.
fn are_among(cubes: &[Cube], cells: &Cells) -> bool
    ensures { IsTrue result → (c : AnyCube) → Member c cubes.now → Member c cells.now }
{
    for cube in cubes {
        if !cells.has(cube) {
            return false;
        }
    }
    true
}

impl Workshop {
    /// No cells.
    pub fn new(alloc: Global) -> Workshop {
        Workshop {
            cells: Cells::new(alloc),
            tables: Tables::new(alloc),
        }
    }

    /// The cells become these. Where they are the same, if in another order, they stay, and so do the tables.
    pub(crate) fn turn_to(&mut self, alloc: Global, cells: Cells)
        ensures closed { IsClosed self.new.cells }
        ensures all { (c : AnyCube) → Member c cells → Member c self.new.cells }
        ensures no_more { (c : AnyCube) → Member c self.new.cells → Member c cells }
    {
        if are_among(cells.cubes(), &self.cells) && are_among(self.cells.cubes(), &cells) {
            return;
        }
        let tables = Tables::new(alloc);
        *self = Workshop { cells, tables };
    }
}
