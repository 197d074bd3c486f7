//! The entries that a node has beside its least one: so many at most, whose keys rise, in memory that is there.

ghost use Rattle.std.specs.Prelude.{◌≡◌, ◌≤◌, ◌<◌, ◌++◌, ◌∷◌, [], List, None, IsTrue, IfOk, IfSome, IfNone, OnSome, option_copied, is_some, length, drop, insert, slice_get};
ghost use Rattle.std.specs.Bool.{OnTrue, OnFalse};
ghost use Rattle.std.specs.Option.{option_map};
ghost use Rattle.std.specs.Map.Iter.{deref_pair};
ghost use Rattle.std.specs.FinMap.Entries.{find, is_sorted, below_all};
ghost use Rattle.ordered_map.specs.Changes.{changed_all, changed_at, changed_or_given};
ghost use Rattle.ordered_map.specs.Lapsed.{changed_or_without, lapsing};
ghost use Rattle.ordered_map.specs.Entries.{above, head_of, put_given, without};
ghost use Rattle.ordered_map.specs.Puts.{IsChangedOrPut, IsPut};
ghost use Rattle.std.specs.Vec.{vec_len, vec_capacity};
ghost use Rattle.ordered_map.specs.Runs.{IsPast, IsLess, IsPlaced, IsChanged, IsExchanged};

use crate::values::{Change, Lapse, exchange};
use std::alloc::{AllocError, Global};
use std::cmp::Ordering;
use std::marker::Model;

/// So many entries stand in a run at most.
const MOST: usize = 15;

/// A few entries whose keys rise, and memory for as many as a run has at most.
#[derive(Drop)]
pub(crate) struct Run<K, V> {
    entries: Vec<(K, V)>,
}

impl<K, V> Model for Run<K, V> {
    ghost use Rattle.std.specs.Prelude.{List, length};
    ghost use Rattle.std.specs.Vec.{vec_capacity};
    ghost use Rattle.std.specs.Coded.{codes};
    ghost use Rattle.ordered_map.specs.Runs.{IsRun};

    ghost Value = { List (K × V) };

    ghost coded = { Prim.hlevel (codes, K.code, V.code) };

    ghost view = { λ a. a.entries.items };

    ghost invariant = { λ a. IsRun (length a.entries.items) (vec_capacity a.entries) };
}

/// Where a key stands among entries, or belongs.
#[derive(Drop)]
pub(crate) enum Place {
    /// At this place.
    Held(usize),
    /// Before the entry at this place.
    Free(usize),
    /// After them all.
    Beyond,
}

/// Where a key stands among entries, or belongs: after them all in one comparison, since keys often rise, and else by halves.
fn place_of<K: Ord, V>(entries: &[(K, V)], key: &K) -> Place
    requires rising { IsTrue (is_sorted K.cmp entries.now) }
    requires few { length entries.now ≤ 15 }
    ensures { IsPlaced K.cmp key.now entries.now result }
{
    let [lesser @ .., last] = entries else {
        return Place::Beyond;
    };
    match key.cmp(&last.0) {
        Ordering::Less => place_before(entries, lesser.len(), key),
        Ordering::Equal => Place::Held(lesser.len()),
        Ordering::Greater => Place::Beyond,
    }
}

// Where a key stands among entries, or belongs, before a greater one.
fn place_before<K: Ord, V>(entries: &[(K, V)], greater: usize, key: &K) -> Place
    requires rising { IsTrue (is_sorted K.cmp entries.now) }
    requires few { length entries.now ≤ 15 }
    requires within { greater < length entries.now }
    requires less { IsLess K.cmp key.now entries.now greater }
    ensures { IsPlaced K.cmp key.now entries.now result }
{
    let mut from = 0;
    let mut to = greater;
    while from < to {
        let middle = (from + to) / 2;
        match key.cmp(&entries[middle].0) {
            Ordering::Less => to = middle,
            Ordering::Equal => return Place::Held(middle),
            Ordering::Greater => from = middle + 1,
        }
    }
    Place::Free(to)
}

impl<K, V> Run<K, V> {
    /// A run without entries.
    pub(crate) fn new(alloc: Global) -> Result<Run<K, V>, AllocError>
        ensures { IfOk result (λ run. run ≡ []) }
    {
        let entries = Vec::with_capacity(alloc, MOST)?;
        Ok(Run { entries })
    }

    /// Its entries.
    pub(crate) fn entries(&self) -> &[(K, V)]
        ensures { result.now ≡ self.now }
    {
        self.entries.as_ref()
    }

    // The entry at a place, where there is one.
    fn entry_at(&self, place: usize) -> Option<(&K, &V)>
        ensures { option_map deref_pair result ≡ slice_get self.now place }
    {
        match self.entries.get(place) {
            Some((key, value)) => Some((key, value)),
            None => None,
        }
    }

    /// Whether it has as many as it may have.
    pub(crate) fn is_full(&self) -> bool
        ensures { OnFalse result (length self.now < 15) }
    {
        self.entries.len() >= MOST
    }
}

impl<K: Drop, V: Drop> Run<K, V> {
    /// Takes the first entry out.
    pub(crate) fn take_first(&mut self) -> Option<(K, V)>
        ensures first { result ≡ head_of self.old }
        ensures rest { self.new ≡ drop 1 self.old }
    {
        if self.entries.is_empty() {
            return None;
        }
        Some(self.entries.remove(0))
    }

    /// Puts an entry first.
    pub(crate) fn put_first(&mut self, key: K, value: V)
        requires { length self.old < 15 }
        ensures { self.new ≡ (key, value) ∷ self.old }
    {
        if self.entries.insert(0, (key, value)).is_err() {
            unreachable!()
        }
    }

    /// Takes all entries out.
    pub(crate) fn clear(&mut self)
        ensures { self.new ≡ [] }
    {
        self.entries.clear();
    }

    /// Moves the upper half of its entries to a run without any.
    pub(crate) fn halve(&mut self, upper: &mut Run<K, V>)
        requires some { 0 < length self.old }
        requires none { upper.old ≡ [] }
        ensures whole { self.new ++ upper.new ≡ self.old }
        ensures fewer { length self.new < 15 }
        ensures some { 0 < length upper.new }
        ensures room { length upper.new < 15 }
    {
        let half = self.entries.len() / 2;
        while self.entries.len() > half {
            match self.entries.pop() {
                Some((key, value)) => upper.put_first(key, value),
                None => unreachable!(),
            }
        }
    }
}

// Changes the value at a place.
fn change_value<K, V, C: Change<V>>(entries: &mut Vec<(K, V)>, place: usize, change: &C)
    requires { place < vec_len entries.old }
    ensures entries { IsChanged (C.changed change.now) entries.old.items place entries.new.items }
    ensures len { vec_len entries.new ≡ vec_len entries.old }
    ensures capacity { vec_capacity entries.new ≡ vec_capacity entries.old }
{
    change.change(&mut entries[place].1);
}

impl<K, V> Run<K, V> {
    /// Changes each value.
    pub(crate) fn change_all<C: Change<V>>(&mut self, change: &C)
        ensures { self.new ≡ changed_all (C.changed change.now) self.old }
    {
        let mut place = 0;
        while place < self.entries.len() {
            change_value(&mut self.entries, place, change);
            place += 1;
        }
    }
}

impl<K: Ord, V> Run<K, V> {
    // Where a key stands, or belongs.
    fn place(&self, key: &K) -> Place
        requires { IsTrue (is_sorted K.cmp self.now) }
        ensures placed { IsPlaced K.cmp key.now self.now result }
        ensures few { length self.now ≤ 15 }
    {
        place_of(&self.entries, key)
    }

    /// Whether a key is greater than all of its entries'.
    pub(crate) fn is_below(&self, key: &K) -> bool
        requires rising { IsTrue (is_sorted K.cmp self.now) }
        ensures past { OnTrue result (IsPast K.cmp key.now self.now) }
        ensures some { OnFalse result (0 < length self.now) }
        ensures within { OnFalse result ((right : List (K × V)) → IsTrue (is_sorted K.cmp (self.now ++ right)) → IsTrue (below_all K.cmp key.now right)) }
    {
        match self.entries.last() {
            Some((last, _)) => key.cmp(last).is_gt(),
            None => true,
        }
    }

    /// The value of a key, where it has one.
    pub(crate) fn get(&self, key: &K) -> Option<&V>
        requires rising { IsTrue (is_sorted K.cmp self.now) }
        ensures { option_copied result ≡ find K.cmp key.now self.now }
    {
        match self.place(key) {
            Place::Held(place) => Some(&self.entries[place].1),
            Place::Free(_) => None,
            Place::Beyond => None,
        }
    }

    /// The entry with the least key above a key.
    pub(crate) fn next_after(&self, key: &K) -> Option<(&K, &V)>
        requires rising { IsTrue (is_sorted K.cmp self.now) }
        ensures { option_map deref_pair result ≡ head_of (above K.cmp key.now self.now) }
    {
        match self.place(key) {
            Place::Held(place) => self.entry_at(place + 1),
            Place::Free(place) => self.entry_at(place),
            Place::Beyond => None,
        }
    }

    /// Changes the value of a key, where it has one.
    pub(crate) fn change_at<C: Change<V>>(&mut self, key: &K, change: &C)
        requires rising { IsTrue (is_sorted K.cmp self.old) }
        ensures { self.new ≡ changed_at K.cmp key.now (C.changed change.now) self.old }
    {
        match self.place(key) {
            Place::Held(place) => change_value(&mut self.entries, place, change),
            Place::Free(_) => {}
            Place::Beyond => {}
        }
    }
}

impl<K: Ord + Drop, V: Drop> Run<K, V> {
    /// Gives a key the value that is handed in, and hands out the one before. Where a new key finds no room, it comes back.
    pub(crate) fn put(&mut self, key: K, value: &mut Option<V>) -> Option<K>
        requires rising { IsTrue (is_sorted K.cmp self.old) }
        requires given { IsTrue (is_some value.old) }
        ensures put { IsPut K.cmp key value.old self.old result value.new self.new }
        ensures full { OnSome result (length self.old ≡ 15) }
    {
        match self.place(&key) {
            Place::Held(place) => {
                exchange_value(&mut self.entries, place, value);
                None
            }
            Place::Free(place) => self.put_at(place, key, value),
            Place::Beyond => {
                let place = self.entries.len();
                self.put_at(place, key, value)
            }
        }
    }

    /// Changes the value of a key, and gives it the one that is handed in where it has none: that is used up then. Where a
    /// new key finds no room, it comes back.
    pub(crate) fn change_or_put<C: Change<V>>(
        &mut self,
        key: K,
        change: &C,
        value: &mut Option<V>,
    ) -> Option<K>
        requires rising { IsTrue (is_sorted K.cmp self.old) }
        requires given { IsTrue (is_some value.old) }
        ensures { IsChangedOrPut K.cmp key (C.changed change.now) value.old self.old result value.new self.new }
    {
        match self.place(&key) {
            Place::Held(place) => {
                change_value(&mut self.entries, place, change);
                None
            }
            Place::Free(place) => self.put_at(place, key, value),
            Place::Beyond => {
                let place = self.entries.len();
                self.put_at(place, key, value)
            }
        }
    }

    // Puts an entry at a place. Where there is no room, its key comes back.
    fn put_at(&mut self, place: usize, key: K, value: &mut Option<V>) -> Option<K>
        requires within { place ≤ length self.old }
        requires given { IsTrue (is_some value.old) }
        ensures used { IfNone result (value.new ≡ None) }
        ensures entries { IfNone result (IfSome value.old (λ v. self.new ≡ insert self.old place (key, v))) }
        ensures key { IfSome result (λ k. k ≡ key) }
        ensures kept { OnSome result (self.new ≡ self.old) }
        ensures same { OnSome result (value.new ≡ value.old) }
        ensures full { OnSome result (length self.old ≡ 15) }
    {
        if self.entries.len() >= MOST {
            return Some(key);
        }
        match value.take() {
            Some(value) => {
                if self.entries.insert(place, (key, value)).is_err() {
                    unreachable!()
                }
                None
            }
            None => unreachable!(),
        }
    }

    /// Takes a key out, and answers its value.
    pub(crate) fn take(&mut self, key: &K) -> Option<V>
        requires rising { IsTrue (is_sorted K.cmp self.old) }
        ensures value { result ≡ find K.cmp key.now self.old }
        ensures entries { self.new ≡ without K.cmp key.now self.old }
    {
        match self.place(key) {
            Place::Held(place) => Some(self.entries.remove(place).1),
            Place::Free(_) => None,
            Place::Beyond => None,
        }
    }
}

impl<K: Ord + Drop, V: Lapse + Drop> Run<K, V> {
    /// Changes the value of a key, where it has one, and takes the key out where the value has lapsed then: that is answered.
    pub(crate) fn change_or_take<C: Change<V>>(&mut self, key: &K, change: &C) -> Option<V>
        requires rising { IsTrue (is_sorted K.cmp self.old) }
        ensures value { result ≡ lapsing V.lapsed (option_map (C.changed change.now) (find K.cmp key.now self.old)) }
        ensures entries { self.new ≡ changed_or_without K.cmp key.now (C.changed change.now) V.lapsed self.old }
    {
        match self.place(key) {
            Place::Held(place) => {
                change_value(&mut self.entries, place, change);
                if self.entries[place].1.has_lapsed() {
                    return Some(self.entries.remove(place).1);
                }
                None
            }
            Place::Free(_) => None,
            Place::Beyond => None,
        }
    }
}

// The value that is handed in takes the place of the one at a place.
fn exchange_value<K, V>(entries: &mut Vec<(K, V)>, place: usize, given: &mut Option<V>)
    requires within { place < vec_len entries.old }
    requires given { IsTrue (is_some given.old) }
    ensures entries { IsExchanged entries.old.items place given.old given.new entries.new.items }
    ensures len { vec_len entries.new ≡ vec_len entries.old }
    ensures capacity { vec_capacity entries.new ≡ vec_capacity entries.old }
{
    exchange(given, &mut entries[place].1);
}
