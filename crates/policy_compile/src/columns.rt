//! Assignments with numbers, each with the set of the places at which it is given.

ghost use Rattle.std.specs.Prelude.{◌≡◌, ◌<◌, ◌||◌, ◌++◌, ◌∷◌, [], ℕ, length, if◌then◌else◌, IfOk, OnOk};
ghost use Rattle.net_types.specs.Sets.{SameMembers};
ghost use Rattle.policy_compile.specs.Columns.{AreBelow, AreColumns, IsUnion, KeepSets, given, set_at};
ghost use Rattle.policy_compile.specs.Exact.{key_exact, pair_exact};

use crate::memo::{Asked, Memo};
use crate::set_table::SetTable;
use classifier::print_of_pair;
use net_types::{Assign, Loc, Memory};
use std::alloc::Global;

// an odd number without a pattern
const FIRST: u64 = 0xA24B_AED4_963E_E407;

const NUMBER: u64 = 0xD6E8_FEB8_6659_FD93;

/// The numbers of two sets.
#[derive(Clone, Copy, Debug, PartialEq, Eq)]
pub struct Pair {
    pub first: usize,
    pub second: usize,
}

impl Asked for Pair {
    ghost exact = { pair_exact };

    fn print(&self) -> u64 {
        (self.first as u64)
            .wrapping_mul(FIRST)
            .wrapping_add(self.second as u64)
    }
}

/// An assignment and a number.
#[derive(Clone, Copy, Debug, PartialEq, Eq)]
pub struct Key {
    pub set: Assign,
    pub number: usize,
}

impl Asked for Key {
    ghost exact = { key_exact };

    fn print(&self) -> u64 {
        (self.number as u64)
            .wrapping_mul(NUMBER)
            .wrapping_add(print_of_pair(&(self.set, Loc::Stay)))
    }
}

/// A key, and the number of the set of places that it has.
#[derive(Drop)]
pub struct Column {
    pub key: Key,
    pub set: usize,
}

/// Keys, with the sets of the places at which they are given. A key has one column.
#[derive(Drop)]
pub struct Columns {
    alloc: Global,
    pub sets: SetTable,
    pub columns: Vec<Column>,
    unions: Memo<Pair, usize>,
    places: Memo<Key, usize>,
    ghost are: { AreColumns sets.sets.items columns.items unions.noted.items places.noted.items },
}

impl Columns {
    /// No keys.
    pub fn new(alloc: Global) -> Columns
        ensures none { result.columns.items ≡ [] }
        ensures given { (k : ℕ) → given result.sets.sets.items result.columns.items k ≡ [] }
    {
        Columns {
            alloc,
            sets: SetTable::new(alloc),
            columns: Vec::new(alloc),
            unions: Memo::new(alloc),
            places: Memo::new(alloc),
        }
    }

    /// The number of the union of two sets.
    fn union(&mut self, first: usize, second: usize) -> Result<usize, Memory>
        requires first { first < length self.old.sets.sets.items }
        requires second { second < length self.old.sets.sets.items }
        ensures union { IfOk result (IsUnion self.new.sets.sets.items (record { first = first; second = second })) }
        ensures kept { KeepSets self.old.sets.sets.items self.new.sets.sets.items }
        ensures columns { self.new.columns.items ≡ self.old.columns.items }
    {
        if first == second {
            return Ok(first);
        }
        let pair = Pair { first, second };
        if let Some(number) = self.unions.find(&pair) {
            return Ok(number);
        }
        let both = self.sets.sets[first].either(self.alloc, &self.sets.sets[second])?;
        let number = self.sets.put(both)?;
        self.unions.note(pair, number)?;
        Ok(number)
    }

    /// Puts a key last, with the number of its set.
    pub fn push(&mut self, key: Key, set: usize) -> Result<(), Memory>
        requires { set < length self.old.sets.sets.items }
        ensures given { OnOk result ((k : ℕ) → given self.new.sets.sets.items self.new.columns.items k ≡ given self.old.sets.sets.items self.old.columns.items k ++ (if set_at self.old.sets.sets.items set k then key ∷ [] else [])) }
        ensures columns { OnOk result (self.new.columns.items ≡ self.old.columns.items ++ record { key = key; set = set } ∷ []) }
        ensures sets { self.new.sets ≡ self.old.sets }
        ensures below { (n : ℕ) → AreBelow n self.old.columns.items → key.number < n → AreBelow n self.new.columns.items }
    {
        self.columns.push(Column { key, set })?;
        Ok(())
    }

    /// Puts a key last, with the number of its set, and notes where it stands.
    fn push_noted(&mut self, key: Key, set: usize) -> Result<(), Memory>
        requires { set < length self.old.sets.sets.items }
        ensures given { OnOk result ((k : ℕ) → given self.new.sets.sets.items self.new.columns.items k ≡ given self.old.sets.sets.items self.old.columns.items k ++ (if set_at self.old.sets.sets.items set k then key ∷ [] else [])) }
        ensures sets { self.new.sets ≡ self.old.sets }
        ensures below { (n : ℕ) → AreBelow n self.old.columns.items → key.number < n → AreBelow n self.new.columns.items }
    {
        let place = self.columns.len();
        self.push(key, set)?;
        self.places.note(key, place)?;
        Ok(())
    }

    /// Adds a key with the number of its set: to the column that it has, or in a new one.
    pub fn add(&mut self, key: Key, set: usize) -> Result<(), Memory>
        requires { set < length self.old.sets.sets.items }
        ensures given { OnOk result ((k : ℕ) → SameMembers (given self.new.sets.sets.items self.new.columns.items k) (given self.old.sets.sets.items self.old.columns.items k ++ (if set_at self.old.sets.sets.items set k then key ∷ [] else []))) }
        ensures kept { KeepSets self.old.sets.sets.items self.new.sets.sets.items }
        ensures below { (n : ℕ) → AreBelow n self.old.columns.items → key.number < n → AreBelow n self.new.columns.items }
    {
        match self.places.find(&key) {
            Some(place) => {
                let known = self.columns[place].set;
                let both = self.union(known, set)?;
                self.columns[place].set = both;
                Ok(())
            }
            None => {
                self.push_noted(key, set)?;
                Ok(())
            }
        }
    }

    /// The same keys at the same places, over a table that has their sets alone.
    fn renewed(&self) -> Result<Columns, Memory>
        ensures given { IfOk result (λ made. (k : ℕ) → given made.sets.sets.items made.columns.items k ≡ given self.now.sets.sets.items self.now.columns.items k) }
        ensures below { IfOk result (λ made. (n : ℕ) → AreBelow n self.now.columns.items → AreBelow n made.columns.items) }
    {
        let mut made = Columns::new(self.alloc);
        let mut asked = Memo::new(self.alloc);
        for column in self.columns.iter() {
            let set = made
                .sets
                .carry(self.alloc, &mut asked, &self.sets.sets, column.set)?;
            made.push_noted(column.key, set)?;
        }
        Ok(made)
    }

    /// Leaves behind the sets that no column has any more, once there are more than twice as many sets as columns.
    pub fn lighten(&mut self) -> Result<(), Memory>
        ensures given { OnOk result ((k : ℕ) → given self.new.sets.sets.items self.new.columns.items k ≡ given self.old.sets.sets.items self.old.columns.items k) }
        ensures below { (n : ℕ) → AreBelow n self.old.columns.items → AreBelow n self.new.columns.items }
    {
        if self.sets.sets.len() / 2 > self.columns.len() {
            *self = self.renewed()?;
        }
        Ok(())
    }
}
