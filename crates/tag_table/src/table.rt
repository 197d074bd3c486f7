//! The table: a place for each number.

ghost use Rattle.std.specs.Prelude.{◌≡◌, ◌≤◌, ◌<◌, [], None, IsTrue, IsOk, OnOk, option_copied, length};
ghost use Rattle.std.specs.FinMap.Entries.{find, put, is_sorted};
ghost use Rattle.net_types.specs.Keys.{tag_cmp};
ghost use Rattle.ordered_map.specs.Changes.{changed_all, changed_at, changed_or_put};
ghost use Rattle.ordered_map.specs.Lapsed.{changed_or_without};
ghost use Rattle.ordered_map.specs.Entries.{without, without_each, above};

use crate::iter::Iter;
use crate::places::{
    change_all, change_at, change_or_put_at, change_or_take_at, fill, put_at, take_counted,
    value_at,
};
use net_types::Tag;
use ordered_map::{Change, Lapse};
use std::alloc::{AllocError, Global};
use std::marker::Model;

/// So many places a table has at most, so that each number is one of a tag.
const MOST: usize = u32::MAX as usize;

/// A map from tags to values, as a table with a place for each number up to the greatest for which there was made room.
#[derive(Drop)]
pub struct TagTable<V> {
    places: Vec<Option<V>>,
    count: usize,
}

impl<V> Model for TagTable<V> {
    ghost use Rattle.std.specs.Prelude.{length};
    ghost use Rattle.std.specs.Coded.{codes};
    ghost use Rattle.tag_table.specs.Held.{Held};

    ghost Value = { Held V };

    ghost coded = { Prim.hlevel (codes, V.code) };

    ghost use Rattle.tag_table.specs.Entries.{entries_of, IsTable};

    ghost view = { λ a. record { items = entries_of a.places.items; room = length a.places.items } };

    ghost invariant = { λ a. IsTable a.places.items a.count };
}

impl<V> TagTable<V> {
    /// The empty table.
    pub fn new(alloc: Global) -> TagTable<V>
        ensures items { result.items ≡ [] }
        ensures rising { IsTrue (is_sorted tag_cmp result.items) }
        ensures room { result.room ≡ 0 }
    {
        TagTable {
            places: Vec::new(alloc),
            count: 0,
        }
    }

    /// The value of a tag, where it has one.
    pub fn get(&self, tag: Tag) -> Option<&V>
        ensures { option_copied result ≡ find tag_cmp tag self.now.items }
    {
        value_at(&self.places, tag.0 as usize)
    }

    /// How many tags have a value.
    pub fn len(&self) -> usize
        ensures { result ≡ length self.now.items }
    {
        self.count
    }

    /// The entries in the order of their tags. It takes no memory, and walks over each place once.
    pub fn iter(&self) -> Iter<'_, V>
        ensures { result ≡ self.now.items }
    {
        Iter::new(0, &self.places)
    }

    /// The entries with tags above this one, in their order. The tag itself need not have a value.
    pub fn iter_after(&self, tag: Tag) -> Iter<'_, V>
        ensures { result ≡ above tag_cmp tag self.now.items }
    {
        let place = tag.0 as usize;
        if place < self.places.len() {
            Iter::new(tag.0 + 1, &self.places[place + 1..])
        } else {
            Iter::new(0, &[])
        }
    }

    /// Changes the value of a tag in its place, where it has one.
    pub fn change<C: Change<V>>(&mut self, tag: Tag, change: &C)
        ensures items { self.new.items ≡ changed_at tag_cmp tag (C.changed change.now) self.old.items }
        ensures rising { IsTrue (is_sorted tag_cmp self.new.items) }
        ensures room { self.new.room ≡ self.old.room }
    {
        change_at(&mut self.places, tag.0 as usize, change);
    }

    /// Changes each value in its place.
    pub fn change_all<C: Change<V>>(&mut self, change: &C)
        ensures items { self.new.items ≡ changed_all (C.changed change.now) self.old.items }
        ensures rising { IsTrue (is_sorted tag_cmp self.new.items) }
        ensures room { self.new.room ≡ self.old.room }
    {
        change_all(&mut self.places, change);
    }
}

impl<V: Drop> TagTable<V> {
    /// Makes room for the tags whose numbers are less than this one. It takes memory only where there is less.
    pub fn reserve(&mut self, tags: usize) -> Result<(), AllocError>
        ensures items { self.new.items ≡ self.old.items }
        ensures rising { IsTrue (is_sorted tag_cmp self.new.items) }
        ensures room { OnOk result (tags ≤ self.new.room) }
        ensures kept { self.old.room ≤ self.new.room }
        ensures enough { tags ≤ self.old.room → IsOk result }
    {
        if tags <= self.places.len() {
            return Ok(());
        }
        if tags > MOST {
            return Err(AllocError);
        }
        fill(&mut self.places, tags)
    }

    /// Gives a tag a value, and answers the one before. A new tag needs room: its number is less than that.
    pub fn put(&mut self, tag: Tag, value: V) -> Option<V>
        requires room { find tag_cmp tag self.old.items ≡ None → tag.0 < self.old.room }
        ensures value { result ≡ find tag_cmp tag self.old.items }
        ensures items { self.new.items ≡ put tag_cmp tag value self.old.items }
        ensures rising { IsTrue (is_sorted tag_cmp self.new.items) }
        ensures room { self.new.room ≡ self.old.room }
    {
        let before = put_at(&mut self.places, tag.0 as usize, value);
        if before.is_none() {
            self.count += 1;
        }
        before
    }

    /// Changes the value of a tag in its place, and gives it this one where it has none. A new tag needs room: its number is
    /// less than that.
    pub fn change_or_put<C: Change<V>>(&mut self, tag: Tag, change: &C, value: V)
        requires room { find tag_cmp tag self.old.items ≡ None → tag.0 < self.old.room }
        ensures items { self.new.items ≡ changed_or_put tag_cmp tag (C.changed change.now) value self.old.items }
        ensures rising { IsTrue (is_sorted tag_cmp self.new.items) }
        ensures room { self.new.room ≡ self.old.room }
    {
        if change_or_put_at(&mut self.places, tag.0 as usize, change, value) {
            self.count += 1;
        }
    }

    /// Takes a tag out, and answers its value.
    pub fn remove(&mut self, tag: Tag) -> Option<V>
        ensures value { result ≡ find tag_cmp tag self.old.items }
        ensures items { self.new.items ≡ without tag_cmp tag self.old.items }
        ensures rising { IsTrue (is_sorted tag_cmp self.new.items) }
        ensures room { self.new.room ≡ self.old.room }
    {
        take_counted(&mut self.places, &mut self.count, tag)
    }

    /// Takes these tags out.
    pub fn remove_each(&mut self, tags: &[Tag])
        ensures items { self.new.items ≡ without_each tag_cmp tags.now self.old.items }
        ensures rising { IsTrue (is_sorted tag_cmp self.new.items) }
        ensures room { self.new.room ≡ self.old.room }
    {
        for tag in tags {
            take_counted(&mut self.places, &mut self.count, *tag);
        }
    }
}

impl<V: Lapse + Drop> TagTable<V> {
    /// Changes the value of a tag in its place, where it has one, and takes the tag out where the value has lapsed then.
    pub fn change_or_remove<C: Change<V>>(&mut self, tag: Tag, change: &C)
        ensures items { self.new.items ≡ changed_or_without tag_cmp tag (C.changed change.now) V.lapsed self.old.items }
        ensures rising { IsTrue (is_sorted tag_cmp self.new.items) }
        ensures room { self.new.room ≡ self.old.room }
    {
        if change_or_take_at(&mut self.places, tag.0 as usize, change) {
            self.count -= 1;
        }
    }
}
