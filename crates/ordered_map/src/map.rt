//! The map: a tree of entries, and boxes that wait for more.

ghost use Rattle.std.specs.Prelude.{◌≡◌, ◌≤◌, ◌<◌, ◌+◌, ◌^◌, [], None, IsTrue, IsOk, OnOk, OnErr, IfOk, option_copied, is_some, length, drop, map, take, if◌then◌else◌};
ghost use Rattle.std.specs.Option.{option_map};
ghost use Rattle.std.specs.Map.Iter.{deref_pair};
ghost use Rattle.std.specs.FinMap.Entries.{find, put, is_sorted};
ghost use Rattle.ordered_map.specs.Changes.{changed_all, changed_at, changed_or_put};
ghost use Rattle.ordered_map.specs.Lapsed.{changed_or_without};
ghost use Rattle.ordered_map.specs.Entries.{without, without_each, above, head_of};
ghost use Rattle.ordered_map.specs.Weights.{weigh};

use crate::change::{change_or_take, take_from, take_least};
use crate::iter::Iter;
use crate::keys::rise;
use crate::leaving::{Tally, Untold, take_each, take_in_turn};
use crate::put::{change_or_put_in, put_in};
use crate::spare::{Spare, fill};
use crate::tree::{Tree, first, gather, next_after, value_of};
use crate::values::{Change, Lapse, change_all, change_at};
use std::alloc::{AllocError, Global};
use std::marker::Model;

/// A map from keys to values, and room for a number of new keys.
#[derive(Drop)]
pub struct OrderedMap<K: Ord, V> {
    alloc: Global,
    tree: Tree<K, V>,
    spare: Vec<Spare<K, V>>,
    room: usize,
    count: usize,
}

impl<K: Ord, V> Model for OrderedMap<K, V> {
    ghost use Rattle.std.specs.Vec.{vec_len};
    ghost use Rattle.std.specs.Coded.{codes};
    ghost use Rattle.ordered_map.specs.Held.{Held};

    ghost Value = { Held K V };

    ghost coded = { Prim.hlevel (codes, K.code, V.code) };

    ghost use Rattle.ordered_map.specs.Entries.{entries_of};
    ghost use Rattle.ordered_map.specs.Kept.{IsKept};

    ghost view = { λ a. record { items = entries_of a.tree; room = a.room } };

    ghost invariant = { λ a. IsKept K.cmp (entries_of a.tree) (vec_len a.spare) a.room a.count };
}

impl<K: Ord, V> OrderedMap<K, V> {
    /// The empty map.
    pub fn new(alloc: Global) -> OrderedMap<K, V>
        ensures items { result.items ≡ [] }
        ensures rising { IsTrue (is_sorted K.cmp result.items) }
    {
        OrderedMap {
            alloc,
            tree: Tree::Empty,
            spare: Vec::new(alloc),
            room: 0,
            count: 0,
        }
    }

    /// The value of a key, where it has one.
    pub fn get(&self, key: &K) -> Option<&V>
        ensures { option_copied result ≡ find K.cmp key.now self.now.items }
    {
        value_of(&self.tree, key)
    }

    /// How many keys have a value.
    pub fn len(&self) -> usize
        ensures { result ≡ length self.now.items }
    {
        self.count
    }

    /// The entry with the least key.
    pub fn first(&self) -> Option<(&K, &V)>
        ensures { option_map deref_pair result ≡ head_of self.now.items }
    {
        first(&self.tree)
    }

    /// The entry with the least key above this one. The key itself need not have a value.
    pub fn next_after(&self, key: &K) -> Option<(&K, &V)>
        ensures { option_map deref_pair result ≡ head_of (above K.cmp key.now self.now.items) }
    {
        next_after(&self.tree, key)
    }

    /// The entries in the order of their keys. It takes no memory, and each step walks down the tree once.
    pub fn iter(&self) -> Iter<'_, K, V>
        ensures { result ≡ self.now.items }
    {
        Iter::new(&self.tree)
    }

    /// The first entries in the order of their keys, so many at most: all in one walk over these.
    pub fn first_entries(&self, count: usize) -> Result<Vec<(&K, &V)>, AllocError>
        ensures { IfOk result (λ entries. map deref_pair entries.items ≡ take count self.now.items) }
    {
        let mut entries = Vec::with_capacity(self.alloc, count.min(self.count))?;
        gather(&self.tree, count, &mut entries)?;
        Ok(entries)
    }

    /// The entries with keys above this one, in their order. The key itself need not have a value.
    pub fn iter_after<'a>(&'a self, key: &'a K) -> Iter<'a, K, V>
        ensures { result ≡ above K.cmp key.now self.now.items }
    {
        Iter::after(&self.tree, key)
    }

    /// Changes the value of a key in its place, where it has one.
    pub fn change<C: Change<V>>(&mut self, key: &K, change: &C)
        ensures items { self.new.items ≡ changed_at K.cmp key.now (C.changed change.now) self.old.items }
        ensures rising { IsTrue (is_sorted K.cmp self.new.items) }
        ensures room { self.new.room ≡ self.old.room }
    {
        change_at(&mut self.tree, key, change);
    }

    /// Changes each value in its place.
    pub fn change_all<C: Change<V>>(&mut self, change: &C)
        ensures items { self.new.items ≡ changed_all (C.changed change.now) self.old.items }
        ensures rising { IsTrue (is_sorted K.cmp self.new.items) }
        ensures room { self.new.room ≡ self.old.room }
    {
        change_all(&mut self.tree, change);
    }
}

impl<K: Ord + Drop, V: Drop> OrderedMap<K, V> {
    /// Makes room for so many new keys. It takes memory only where there is less.
    pub fn reserve(&mut self, keys: usize) -> Result<(), AllocError>
        ensures items { self.new.items ≡ self.old.items }
        ensures rising { IsTrue (is_sorted K.cmp self.new.items) }
        ensures room { OnOk result (keys ≤ self.new.room) }
        ensures kept { self.old.room ≤ self.new.room }
        ensures enough { keys ≤ self.old.room → IsOk result }
    {
        if keys <= self.room {
            return Ok(());
        }
        if keys > usize::MAX - self.count {
            return Err(AllocError);
        }
        fill(self.alloc, &mut self.spare, keys)?;
        self.room = keys;
        Ok(())
    }

    /// Gives a key a value, and answers the one before. It takes memory only for a new key without room, and after
    /// want of it the map is as it was.
    pub fn insert(&mut self, key: K, value: V) -> Result<Option<V>, AllocError>
        ensures value { IfOk result (λ before. before ≡ find K.cmp key self.old.items) }
        ensures items { OnOk result (self.new.items ≡ put K.cmp key value self.old.items) }
        ensures unchanged { OnErr result (self.new.items ≡ self.old.items) }
        ensures rising { IsTrue (is_sorted K.cmp self.new.items) }
        ensures room { self.old.room ≤ self.new.room + (if is_some (find K.cmp key self.old.items) then 0 else 1) }
        ensures enough { (find K.cmp key self.old.items ≡ None → 0 < self.old.room) → IsOk result }
    {
        if self.get(&key).is_none() {
            self.reserve(1)?;
        }
        Ok(self.put(key, value))
    }

    /// Gives a key a value, and answers the one before. A new key needs room, and uses one place of it.
    pub fn put(&mut self, key: K, value: V) -> Option<V>
        requires room { find K.cmp key self.old.items ≡ None → 0 < self.old.room }
        ensures value { result ≡ find K.cmp key self.old.items }
        ensures items { self.new.items ≡ put K.cmp key value self.old.items }
        ensures rising { IsTrue (is_sorted K.cmp self.new.items) }
        ensures room { self.old.room ≤ self.new.room + (if is_some result then 0 else 1) }
    {
        let mut before = Some(value);
        put_in(&mut self.tree, &mut self.spare, key, &mut before);
        if before.is_none() {
            self.room -= 1;
            self.count += 1;
        }
        before
    }

    /// Changes the value of a key in its place, and gives it this one where it has none. A new key needs room, and uses one
    /// place of it.
    pub fn change_or_put<C: Change<V>>(&mut self, key: K, change: &C, value: V)
        requires room { find K.cmp key self.old.items ≡ None → 0 < self.old.room }
        ensures items { self.new.items ≡ changed_or_put K.cmp key (C.changed change.now) value self.old.items }
        ensures rising { IsTrue (is_sorted K.cmp self.new.items) }
        ensures room { self.old.room ≤ self.new.room + (if is_some (find K.cmp key self.old.items) then 0 else 1) }
    {
        let mut given = Some(value);
        change_or_put_in(&mut self.tree, &mut self.spare, key, change, &mut given);
        if given.is_none() {
            self.room -= 1;
            self.count += 1;
        }
    }

    /// Takes a key out, and answers its value. It takes no memory.
    pub fn remove(&mut self, key: &K) -> Option<V>
        ensures value { result ≡ find K.cmp key.now self.old.items }
        ensures items { self.new.items ≡ without K.cmp key.now self.old.items }
        ensures rising { IsTrue (is_sorted K.cmp self.new.items) }
        ensures room { self.old.room ≤ self.new.room }
    {
        let mut before = None;
        take_from(&mut self.tree, &mut self.spare, key, &mut before);
        if before.is_some() {
            self.count -= 1;
        }
        before
    }

    /// Takes these keys out: where they rise, in one walk. It takes no memory.
    pub fn remove_each(&mut self, keys: &[K])
        ensures items { self.new.items ≡ without_each K.cmp keys.now self.old.items }
        ensures rising { IsTrue (is_sorted K.cmp self.new.items) }
        ensures room { self.old.room ≤ self.new.room }
    {
        self.remove_counted(keys, &mut Untold);
    }

    /// Takes these keys out, and counts their values: where they rise, in one walk. It takes no memory.
    pub fn remove_counted<T: Tally<V>>(&mut self, keys: &[K], tally: &mut T)
        requires few { T.total tally.old + weigh T.weight self.old.items < 2 ^ 64 }
        ensures items { self.new.items ≡ without_each K.cmp keys.now self.old.items }
        ensures rising { IsTrue (is_sorted K.cmp self.new.items) }
        ensures tally { T.total tally.new + weigh T.weight self.new.items ≡ T.total tally.old + weigh T.weight self.old.items }
        ensures room { self.old.room ≤ self.new.room }
    {
        let (tree, spare) = (&mut self.tree, &mut self.spare);
        if rise(keys) {
            take_each(tree, spare, keys, &mut self.count, tally);
        } else {
            take_in_turn(tree, spare, keys, &mut self.count, tally);
        }
    }

    /// Takes the entry with the least key out. It takes no memory.
    pub fn take_first(&mut self) -> Option<(K, V)>
        ensures first { result ≡ head_of self.old.items }
        ensures items { self.new.items ≡ drop 1 self.old.items }
        ensures rising { IsTrue (is_sorted K.cmp self.new.items) }
        ensures room { self.old.room ≤ self.new.room }
    {
        let first = take_least(&mut self.tree, &mut self.spare);
        if first.is_some() {
            self.count -= 1;
        }
        first
    }
}

impl<K: Ord + Drop, V: Lapse + Drop> OrderedMap<K, V> {
    /// Changes the value of a key in its place, where it has one, and takes the key out where the value has lapsed then. It
    /// takes no memory.
    pub fn change_or_remove<C: Change<V>>(&mut self, key: &K, change: &C)
        ensures items { self.new.items ≡ changed_or_without K.cmp key.now (C.changed change.now) V.lapsed self.old.items }
        ensures rising { IsTrue (is_sorted K.cmp self.new.items) }
        ensures room { self.old.room ≤ self.new.room }
    {
        let mut taken = None;
        change_or_take(&mut self.tree, &mut self.spare, key, change, &mut taken);
        if taken.is_some() {
            self.count -= 1;
        }
    }
}
