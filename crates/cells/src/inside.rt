//! Which cells may lie within a cube.

ghost use Rattle.std.specs.Prelude.{◌≡◌, IfOk, IfSome, unwrap_or};
ghost use Rattle.cells.specs.Blocks.{IsInner, KeepsInner, KnowInner};
ghost use Rattle.cells.specs.Listed.{AreListed, IsListed};

use crate::blocks::{blocks_of, blocks_within};
use crate::fields::single_fields;
use crate::listed::{Listed, listed_in};
use net_types::{Cube, Memory};
use place_sets::PlaceSet;
use std::alloc::Global;
use std::collections::HashMap;

/// So many places stand in all lists.
const MOST: usize = 4_194_304;

/// A cube, and the blocks of 64 cells of which one lies within it.
#[derive(Drop)]
pub struct Inner {
    pub cube: Cube,
    pub blocks: PlaceSet,
}

/// Cells, with what was found of cubes that test one field, and lists of those within cubes that were asked for again.
#[derive(Drop)]
pub struct Inside<'c> {
    alloc: Global,
    /// The cells.
    pub cells: &'c [Cube],
    known: Vec<Inner>,
    // the number of what is known of a cube
    found: HashMap<Cube, usize>,
    pub lists: Vec<Listed>,
    // of each cube that was asked for the number of its list, none where it was asked for once
    numbers: HashMap<Cube, Option<usize>>,
    // for so many places there is room in lists
    room: usize,
    ghost are: { KnowInner cells.now known.items },
    ghost listed: { AreListed cells.now lists.items },
}

impl<'c> Inside<'c> {
    /// Nothing was asked for yet.
    pub fn new(alloc: Global, cells: &'c [Cube]) -> Inside<'c>
        ensures { result.cells.now ≡ cells.now }
    {
        Inside {
            alloc,
            cells,
            known: Vec::new(alloc),
            found: HashMap::new(alloc),
            lists: Vec::new(alloc),
            numbers: HashMap::new(alloc),
            room: MOST,
        }
    }

    /// The number of what is known of a cube.
    fn find(&self, outer: &Cube) -> Option<usize>
        ensures { IfSome result (IsInner self.now.cells.now self.now.known.items outer.now) }
    {
        let number = *self.found.get(outer)?;
        let inner = self.known.get(number)?;
        if inner.cube == *outer {
            Some(number)
        } else {
            None
        }
    }

    /// The same, where it is looked for if it isn't known.
    fn number_of(&mut self, outer: &Cube) -> Result<usize, Memory>
        ensures number { IfOk result (IsInner self.new.cells.now self.new.known.items outer.now) }
        ensures cells { self.new.cells.now ≡ self.old.cells.now }
    {
        if let Some(number) = self.find(outer) {
            return Ok(number);
        }
        let blocks = blocks_within(self.alloc, self.cells, outer)?;
        let number = self.known.len();
        self.known.push(Inner {
            cube: *outer,
            blocks,
        })?;
        self.found.insert(*outer, number)?;
        Ok(number)
    }

    /// Those of some blocks that may have cells within a cube, of which something is kept. The blocks are `narrow`, or `all` where
    /// nothing was narrowed yet.
    fn narrowed(
        &mut self,
        all: &PlaceSet,
        narrow: Option<PlaceSet>,
        outer: &Cube,
    ) -> Result<Option<PlaceSet>, Memory>
        ensures keeps { IfOk result (λ n. KeepsInner self.old.cells.now outer.now (unwrap_or narrow all.now) (unwrap_or n all.now)) }
        ensures cells { self.new.cells.now ≡ self.old.cells.now }
    {
        if *outer == Cube::everything() {
            return Ok(narrow);
        }
        let number = self.number_of(outer)?;
        let inner = &self.known[number].blocks;
        let both = match &narrow {
            Some(blocks) => blocks.both(self.alloc, inner)?,
            None => all.both(self.alloc, inner)?,
        };
        Ok(Some(both))
    }

    /// Those of some blocks of 64 cells that may have cells within a cube: the others have none.
    pub fn among(&mut self, blocks: &PlaceSet, cube: &Cube) -> Result<PlaceSet, Memory>
        ensures keeps { IfOk result (KeepsInner self.old.cells.now cube.now blocks.now) }
        ensures cells { self.new.cells.now ≡ self.old.cells.now }
    {
        let mut narrow = None;
        for outer in &single_fields(cube) {
            narrow = self.narrowed(blocks, narrow, outer)?;
        }
        match narrow {
            Some(left) => Ok(left),
            None => blocks.copy(self.alloc),
        }
    }

    /// The number of the list of the cells within a cube.
    fn find_list(&self, cube: &Cube) -> Option<usize>
        ensures { IfSome result (IsListed self.now.cells.now self.now.lists.items cube.now) }
    {
        let number = (*self.numbers.get(cube)?)?;
        let list = self.lists.get(number)?;
        if list.cube == *cube {
            Some(number)
        } else {
            None
        }
    }

    /// Lists the cells within a cube. Where there is no room for them nothing is listed any more.
    fn list(&mut self, cube: &Cube) -> Result<Option<usize>, Memory>
        ensures number { IfOk result (λ o. IfSome o (IsListed self.new.cells.now self.new.lists.items cube.now)) }
        ensures cells { self.new.cells.now ≡ self.old.cells.now }
    {
        let all = PlaceSet::first(self.alloc, blocks_of(self.cells.len()))?;
        let blocks = self.among(&all, cube)?;
        let Some(places) = listed_in(self.alloc, self.cells, cube, &blocks, self.room)? else {
            self.room = 0;
            return Ok(None);
        };
        self.room = self.room.saturating_sub(places.len());
        let number = self.lists.len();
        self.lists.push(Listed {
            cube: *cube,
            places,
        })?;
        self.numbers.insert(*cube, Some(number))?;
        Ok(Some(number))
    }

    /// The number of the list of the cells within a cube, once it was asked for before and where there is room for it.
    pub fn list_of(&mut self, cube: &Cube) -> Result<Option<usize>, Memory>
        ensures number { IfOk result (λ o. IfSome o (IsListed self.new.cells.now self.new.lists.items cube.now)) }
        ensures cells { self.new.cells.now ≡ self.old.cells.now }
    {
        if let Some(number) = self.find_list(cube) {
            return Ok(Some(number));
        }
        if self.room == 0 {
            return Ok(None);
        }
        if self.numbers.contains_key(cube) {
            return self.list(cube);
        }
        self.numbers.insert(*cube, None)?;
        Ok(None)
    }
}
