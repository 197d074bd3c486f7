//! Lists of results with numbers, by which they are told apart without being compared.

ghost use Rattle.std.specs.Prelude.{◌≡◌, Some, IfOk, IfSome};
ghost use Rattle.std.specs.List.{slice_get};
ghost use Rattle.classifier.specs.Numbered.{KeepNumbers};

use crate::results::Results;
use net_types::Memory;
use std::alloc::Global;
use std::collections::HashMap;

/// Lists of results, of which most stand once. The number of a list is its place.
#[derive(Drop)]
pub struct ListTable {
    pub lists: Vec<Results>,
    // the number of a list that has this print
    found: HashMap<u64, usize>,
}

impl ListTable {
    /// No lists.
    pub fn new(alloc: Global) -> ListTable {
        ListTable {
            lists: Vec::new(alloc),
            found: HashMap::new(alloc),
        }
    }

    /// The number of an equal list, where one is found.
    fn find(&self, print: u64, list: &Results) -> Option<usize>
        ensures { IfSome result (λ n. slice_get self.now.lists.items n ≡ Some list.now) }
    {
        let number = *self.found.get(&print)?;
        let one = self.lists.get(number)?;
        if one.equals(list) { Some(number) } else { None }
    }

    /// The number of a list, which is put last where no equal one is found.
    pub fn put(&mut self, list: Results) -> Result<usize, Memory>
        ensures number { IfOk result (λ n. slice_get self.new.lists.items n ≡ Some list) }
        ensures kept { KeepNumbers self.old.lists.items self.new.lists.items }
    {
        let print = list.print();
        if let Some(number) = self.find(print, &list) {
            return Ok(number);
        }
        let number = self.lists.len();
        self.found.insert(print, number)?;
        self.lists.push(list)?;
        Ok(number)
    }
}
