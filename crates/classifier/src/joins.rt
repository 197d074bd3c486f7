//! Unions of the lists of two classifiers, each made once.

ghost use Rattle.std.specs.Prelude.{◌≡◌, ◌<◌, Some, length, IfOk};
ghost use Rattle.std.specs.List.{slice_get};
ghost use Rattle.classifier.specs.Items.{add_all};
ghost use Rattle.classifier.specs.Numbered.{AreUnions, KeepNumbers, list_at};

use crate::list_table::ListTable;
use crate::results::Results;
use crate::unions::Unions;
use net_types::Memory;
use std::alloc::Global;
use std::collections::HashMap;

/// The numbers of a list of the first classifier and of one of the second.
#[derive(Clone, Copy, Debug, PartialEq, Eq, Hash)]
pub struct Pair {
    pub first: usize,
    pub second: usize,
}

/// The lists of two classifiers, and their unions with numbers of their own.
#[derive(Drop)]
pub struct Joins<'a> {
    pub firsts: &'a [Results],
    pub seconds: &'a [Results],
    pub table: ListTable,
    unions: Unions,
    made: HashMap<Pair, usize>,
    ghost are: { AreUnions firsts.now seconds.now made table.lists.items },
}

impl<'a> Joins<'a> {
    /// No unions yet.
    pub fn new(alloc: Global, firsts: &'a [Results], seconds: &'a [Results]) -> Joins<'a>
        ensures firsts { result.firsts.now ≡ firsts.now }
        ensures seconds { result.seconds.now ≡ seconds.now }
    {
        Joins {
            firsts,
            seconds,
            table: ListTable::new(alloc),
            unions: Unions::new(alloc),
            made: HashMap::new(alloc),
        }
    }

    /// The number of the union of two lists.
    pub fn number_of(&mut self, first: usize, second: usize) -> Result<usize, Memory>
        requires first { first < length self.old.firsts.now }
        requires second { second < length self.old.seconds.now }
        ensures number { IfOk result (λ n. slice_get self.new.table.lists.items n
            ≡ Some (add_all (list_at self.old.firsts.now first) (list_at self.old.seconds.now second))) }
        ensures kept { KeepNumbers self.old.table.lists.items self.new.table.lists.items }
        ensures firsts { self.new.firsts.now ≡ self.old.firsts.now }
        ensures seconds { self.new.seconds.now ≡ self.old.seconds.now }
    {
        let pair = Pair { first, second };
        if let Some(number) = self.made.get(&pair) {
            return Ok(*number);
        }
        let firsts = self.firsts;
        let seconds = self.seconds;
        let both = self.unions.union(&firsts[first], &seconds[second])?;
        let number = self.table.put(both)?;
        self.made.insert(pair, number)?;
        Ok(number)
    }
}
