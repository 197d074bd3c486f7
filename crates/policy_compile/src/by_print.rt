//! Places of a list, found by numbers in which most of what stands there differs.

use net_types::Memory;
use std::alloc::Global;
use std::collections::HashMap;

/// Places by prints. What stands at places with the same print is looked at one after the other, so that it is found however
/// prints agree. Nothing else rests on them.
#[derive(Drop)]
pub struct ByPrint {
    // the last place that has a print
    last: HashMap<u64, usize>,
    // of each place the one before it that has the same print
    before: Vec<Option<usize>>,
}

impl ByPrint {
    /// No places.
    pub fn new(alloc: Global) -> ByPrint {
        ByPrint {
            last: HashMap::new(alloc),
            before: Vec::new(alloc),
        }
    }

    /// The last place that has a print.
    pub fn last(&self, print: u64) -> Option<usize> {
        self.last.get(&print).copied()
    }

    /// The one before a place that has the same print.
    pub fn before(&self, place: usize) -> Option<usize> {
        *self.before.get(place)?
    }

    /// Adds the next place, with a print.
    pub fn push(&mut self, print: u64) -> Result<(), Memory> {
        let place = self.before.len();
        let before = self.last(print);
        self.last.insert(print, place)?;
        self.before.push(before)?;
        Ok(())
    }
}
