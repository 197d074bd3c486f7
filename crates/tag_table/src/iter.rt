//! The iterator over a table's entries.

ghost use Rattle.std.specs.Prelude.{◌≡◌, ◌+◌, ◌^◌, ◌<◌, length};
ghost use Rattle.std.specs.Iterator.{at_most};
ghost use Rattle.std.specs.Map.Iter.{TakesFirst};
ghost use Rattle.tag_table.specs.Entries.{deref_value, entries_from};

use crate::places::first_from;
use net_types::Tag;
use std::marker::Model;

/// The entries that are left, in the order of their tags.
#[derive(Drop)]
pub struct Iter<'a, V> {
    number: u32,
    places: &'a [Option<V>],
}

impl<'a, V> Model for Iter<'a, V> {
    ghost use Rattle.std.specs.Prelude.{◌+◌, ◌^◌, ◌<◌, List, length};
    ghost use Rattle.net_types.specs.declared.address.Tag.{Tag};

    ghost Value = { List (Tag × V) };

    ghost use Rattle.tag_table.specs.Entries.{entries_from};

    ghost view = { λ a. entries_from a.number a.places.now };

    ghost invariant = { λ a. a.number + length a.places.now < 2 ^ 32 };
}

impl<'a, V> Iter<'a, V> {
    pub(crate) fn new(number: u32, places: &'a [Option<V>]) -> Iter<'a, V>
        requires { number + length places.now < 2 ^ 32 }
        ensures { result ≡ entries_from number places.now }
    {
        Iter { number, places }
    }
}

impl<'a, V> Iterator for Iter<'a, V> {
    type Item = (Tag, &'a V);

    ghost next_gives = { TakesFirst deref_value };

    ghost remaining = { λ left. at_most (length left) };

    fn next(&mut self) -> Option<(Tag, &'a V)> {
        let first = first_from(self.places, self.number)?;
        self.places = first.rest;
        self.number = first.number + 1;
        Some((Tag(first.number), first.value))
    }
}
