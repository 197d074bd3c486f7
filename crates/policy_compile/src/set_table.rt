//! Sets of places with numbers.

ghost use Rattle.std.specs.Prelude.{◌≡◌, ◌<◌, ℕ, Some, length, IfOk, IfSome, OnOk};
ghost use Rattle.std.specs.List.{slice_get};
ghost use Rattle.policy_compile.specs.Columns.{AreCarried, IsCarried, KeepSets};

use crate::by_print::ByPrint;
use crate::memo::Memo;
use net_types::Memory;
use place_sets::PlaceSet;
use std::alloc::Global;

/// Sets of places, none of which is put in twice. The number of a set is its place in the list.
#[derive(Drop)]
pub struct SetTable {
    pub sets: Vec<PlaceSet>,
    found: ByPrint,
}

impl SetTable {
    /// No sets.
    pub fn new(alloc: Global) -> SetTable {
        SetTable {
            sets: Vec::new(alloc),
            found: ByPrint::new(alloc),
        }
    }

    /// The number of an equal set, where one is found.
    fn find(&self, print: u64, set: &PlaceSet) -> Option<usize>
        ensures { IfSome result (λ n. slice_get self.now.sets.items n ≡ Some set.now) }
    {
        let mut next = self.found.last(print);
        for _ in 0..self.sets.len() {
            let number = next?;
            let one = self.sets.get(number)?;
            if one.equals(set) {
                return Some(number);
            }
            next = self.found.before(number);
        }
        None
    }

    /// The number of a set, which is put last where no equal one is found.
    pub fn put(&mut self, set: PlaceSet) -> Result<usize, Memory>
        ensures number { IfOk result (λ n. slice_get self.new.sets.items n ≡ Some set) }
        ensures kept { KeepSets self.old.sets.items self.new.sets.items }
    {
        let print = set.print();
        if let Some(number) = self.find(print, &set) {
            return Ok(number);
        }
        let number = self.sets.len();
        self.found.push(print)?;
        self.sets.push(set)?;
        Ok(number)
    }

    /// The same sets with the same numbers.
    pub fn twin(&self, alloc: Global) -> Result<SetTable, Memory>
        ensures { IfOk result (λ t. t.sets.items ≡ self.now.sets.items) }
    {
        let mut sets = Vec::with_capacity(alloc, self.sets.len())?;
        let mut found = ByPrint::new(alloc);
        for set in self.sets.iter() {
            found.push(set.print())?;
            sets.push(set.copy(alloc)?)?;
        }
        Ok(SetTable { sets, found })
    }

    /// The number of a set of another table, which is put in where it wasn't asked for before.
    pub fn carry(
        &mut self,
        alloc: Global,
        asked: &mut Memo<usize, usize>,
        sets: &[PlaceSet],
        number: usize,
    ) -> Result<usize, Memory>
        requires inside { number < length sets.now }
        requires asked { AreCarried sets.now self.old.sets.items asked.old.noted.items }
        ensures number { IfOk result (IsCarried sets.now self.new.sets.items number) }
        ensures asked { OnOk result (AreCarried sets.now self.new.sets.items asked.new.noted.items) }
        ensures kept { KeepSets self.old.sets.items self.new.sets.items }
    {
        if let Some(known) = asked.find(&number) {
            return Ok(known);
        }
        let carried = self.put(sets[number].copy(alloc)?)?;
        asked.note(number, carried)?;
        Ok(carried)
    }
}
