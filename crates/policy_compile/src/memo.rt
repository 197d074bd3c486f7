//! Answers that were noted, each by what was asked.

ghost use Rattle.std.specs.Prelude.{◌≡◌, ◌⊎◌, [], IfSome, true};
ghost use Rattle.policy_compile.specs.declared.memo.Noted.{Noted};
ghost use Rattle.net_types.specs.Sets.{Member};
ghost use Rattle.policy_compile.specs.Exact.{number_exact};

use crate::by_print::ByPrint;
use net_types::Memory;
use std::alloc::Global;

/// What can be asked: values that are equal are one.
pub trait Asked: Copy + Eq + Drop {
    /// A number by which most questions differ. Nothing rests on it but how soon an answer is found.
    fn print(&self) -> u64;

    /// The test of equality is exact.
    ghost exact: { (a b : Self) → Self.eq a b ≡ true → a ≡ b };
}

// an odd number without a pattern
const SPREAD: u64 = 0x9E37_79B9_7F4A_7C15;

impl Asked for usize {
    ghost exact = { number_exact };

    fn print(&self) -> u64 {
        (*self as u64).wrapping_mul(SPREAD)
    }
}

/// What was asked, and the answer.
#[derive(Clone, Copy, Debug, PartialEq, Eq)]
pub struct Noted<K, V> {
    pub key: K,
    pub value: V,
}

/// Answers that were noted.
#[derive(Drop)]
pub struct Memo<K, V> {
    pub noted: Vec<Noted<K, V>>,
    places: ByPrint,
}

impl<K: Asked, V: Copy + Drop> Memo<K, V> {
    /// Nothing is noted.
    pub fn new(alloc: Global) -> Memo<K, V>
        ensures { result.noted.items ≡ [] }
    {
        Memo {
            noted: Vec::new(alloc),
            places: ByPrint::new(alloc),
        }
    }

    /// The answer that was noted.
    pub fn find(&self, key: &K) -> Option<V>
        ensures { IfSome result (λ value. Member (record { key = key.now; value = value }) self.now.noted.items) }
    {
        let mut next = self.places.last(key.print());
        for _ in 0..self.noted.len() {
            let place = next?;
            let noted = self.noted.get(place)?;
            if noted.key == *key {
                return Some(noted.value);
            }
            next = self.places.before(place);
        }
        None
    }

    /// How many answers are noted.
    pub fn len(&self) -> usize {
        self.noted.len()
    }

    /// Notes an answer.
    pub fn note(&mut self, key: K, value: V) -> Result<(), Memory>
        ensures { (e : Noted K V) → Member e self.new.noted.items → Member e self.old.noted.items ⊎ (e ≡ record { key = key; value = value }) }
    {
        self.noted.push(Noted { key, value })?;
        self.places.push(key.print())?;
        Ok(())
    }
}
