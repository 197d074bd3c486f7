//! Sets of places.

ghost use Rattle.std.specs.Prelude.{◌≡◌, ◌≤◌, ◌/◌, ◌==◌, ◌&&◌, ◌||◌, not, ℕ, nat_lt, true, false, length, bit_or, IfOk, OnOk, OnErr, slice_index};
ghost use Rattle.place_sets.specs.Places.{has_place};

use net_types::Memory;
use std::alloc::Global;
use std::marker::Model;

/// So many places have their bits in one word.
const BITS: usize = 64;

/// An odd number with many bits.
const SPREAD: u64 = 0xD6E8_FEB8_6659_FD93;

/// A set of places. The bit of a place stands in the word `place / 64`; words that are wanting have none.
#[derive(Drop)]
pub struct PlaceSet {
    words: Vec<u64>,
}

impl Model for PlaceSet {
    ghost use Rattle.std.specs.Prelude.{ℕ, List};

    ghost Value = { List ℕ };

    ghost view = { λ s. s.words.items };
}

impl PlaceSet {
    /// The set without places. It takes no memory.
    pub fn none(alloc: Global) -> PlaceSet
        ensures { (k : ℕ) → has_place result k ≡ false }
    {
        PlaceSet {
            words: Vec::new(alloc),
        }
    }

    /// The places below `count`.
    pub fn first(alloc: Global, count: usize) -> Result<PlaceSet, Memory>
        ensures { IfOk result (λ s. (k : ℕ) → has_place s k ≡ nat_lt k count) }
    {
        let full = count / BITS;
        let mut words = Vec::with_capacity(alloc, full + 1)?;
        for _word in 0..full {
            words.push(u64::MAX)?;
        }
        words.push((1u64 << (count % BITS)) - 1)?;
        Ok(PlaceSet { words })
    }

    /// Puts a place into the set. After want of memory the set is unchanged.
    pub fn put(&mut self, place: usize) -> Result<(), Memory>
        ensures put { OnOk result ((k : ℕ) → has_place self.new k ≡ (has_place self.old k || (k == place))) }
        ensures unchanged { OnErr result ((k : ℕ) → has_place self.new k ≡ has_place self.old k) }
    {
        let word = place / BITS;
        while self.words.len() <= word {
            self.words.push(0)?;
        }
        self.words[word] |= 1 << (place % BITS);
        Ok(())
    }

    /// Whether the place is in the set.
    pub fn has(&self, place: usize) -> bool
        ensures { result ≡ has_place self.now place }
    {
        match self.words.get(place / BITS) {
            Some(word) => (*word >> (place % BITS)) & 1 == 1,
            None => false,
        }
    }

    /// The places that are in both sets.
    pub fn both(&self, alloc: Global, other: &PlaceSet) -> Result<PlaceSet, Memory>
        ensures { IfOk result (λ s. (k : ℕ) → has_place s k ≡ (has_place self.now k && has_place other.now k)) }
    {
        let count = self.words.len().min(other.words.len());
        let mut words = Vec::with_capacity(alloc, count)?;
        for i in 0..count {
            words.push(self.words[i] & other.words[i])?;
        }
        Ok(PlaceSet { words })
    }

    /// The places that are in one of the sets.
    pub fn either(&self, alloc: Global, other: &PlaceSet) -> Result<PlaceSet, Memory>
        ensures { IfOk result (λ s. (k : ℕ) → has_place s k ≡ (has_place self.now k || has_place other.now k)) }
    {
        let words = if self.words.len() < other.words.len() {
            joined(alloc, &other.words, &self.words)?
        } else {
            joined(alloc, &self.words, &other.words)?
        };
        Ok(PlaceSet { words })
    }

    /// The places of this set that are not in the other.
    pub fn without(&self, alloc: Global, other: &PlaceSet) -> Result<PlaceSet, Memory>
        ensures { IfOk result (λ s. (k : ℕ) → has_place s k ≡ (has_place self.now k && not (has_place other.now k))) }
    {
        let common = self.words.len().min(other.words.len());
        let mut words = Vec::with_capacity(alloc, self.words.len())?;
        for i in 0..common {
            let word = self.words[i];
            words.push(word ^ (word & other.words[i]))?;
        }
        words.extend_from_slice(&self.words[common..])?;
        Ok(PlaceSet { words })
    }

    /// The same set once more.
    pub fn copy(&self, alloc: Global) -> Result<PlaceSet, Memory>
        ensures { IfOk result (λ s. s ≡ self.now) }
    {
        let mut words = Vec::with_capacity(alloc, self.words.len())?;
        words.extend_from_slice(&self.words)?;
        Ok(PlaceSet { words })
    }

    /// Whether the set has no place.
    pub fn is_empty(&self) -> bool
        ensures { result ≡ true → (k : ℕ) → has_place self.now k ≡ false }
    {
        are_zero_from(&self.words, 0)
    }

    /// Whether two sets have the same words. Of two with the same places, of which one ends with words that are 0, it says no.
    pub fn equals(&self, other: &PlaceSet) -> bool
        ensures { result ≡ true → self.now ≡ other.now }
    {
        self.words == other.words
    }

    /// A number that most other sets don't have. Words that are 0 make no difference to it. Nothing rests on it.
    pub fn print(&self) -> u64 {
        let mut print = 0u64;
        for (i, word) in self.words.iter().enumerate() {
            if *word != 0 {
                print = (print ^ *word ^ i as u64).wrapping_mul(SPREAD);
                print ^= print >> 32;
            }
        }
        print
    }

    /// Whether none of the 64 places of a word is in the set.
    pub fn is_empty_at(&self, word: usize) -> bool
        ensures { result ≡ true → (k : ℕ) → k / 64 ≡ word → has_place self.now k ≡ false }
    {
        match self.words.get(word) {
            Some(bits) => *bits == 0,
            None => true,
        }
    }
}

/// Whether each word from a place on is 0.
fn are_zero_from(words: &[u64], from: usize) -> bool
    ensures { result ≡ true → (j : ℕ) → from ≤ j → slice_index words.now j ≡ 0 }
{
    for i in from..words.len() {
        if words[i] != 0 {
            return false;
        }
    }
    true
}

/// The words that have the bits of both lists.
fn joined(alloc: Global, longer: &[u64], shorter: &[u64]) -> Result<Vec<u64>, Memory>
    requires { length shorter.now ≤ length longer.now }
    ensures { IfOk result (λ v. (j : ℕ) → slice_index v.items j ≡ bit_or (slice_index longer.now j) (slice_index shorter.now j)) }
{
    let mut words = Vec::with_capacity(alloc, longer.len())?;
    for i in 0..shorter.len() {
        words.push(longer[i] | shorter[i])?;
    }
    words.extend_from_slice(&longer[shorter.len()..])?;
    Ok(words)
}
