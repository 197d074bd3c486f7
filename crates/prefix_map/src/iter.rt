//! The iterator over a map's entries.

ghost use Rattle.std.specs.Prelude.{◌≡◌, length};
ghost use Rattle.std.specs.Iterator.{at_most};
ghost use Rattle.std.specs.Option.{option_map};
ghost use Rattle.std.specs.Map.Iter.{TakesFirst};
ghost use Rattle.prefix_map.specs.Entries.{seen_entry};
ghost use Rattle.net_types.specs.Routes.{first_of_list};
ghost use Rattle.prefix_map.specs.Parts.{entries_in, AreParts};

use crate::parts::Parts;
use net_types::Prefix;
use std::marker::Model;

/// The entries that are left, in ascending order of their prefixes.
#[derive(Drop)]
pub struct Iter<'a, V> {
    parts: &'a Parts<V>,
    last: Option<Prefix>,
}

impl<'a, V> Model for Iter<'a, V> {
    ghost use Rattle.std.specs.Prelude.{List};
    ghost use Rattle.net_types.specs.declared.prefix.Prefix.{Prefix};
    ghost use Rattle.prefix_map.specs.Entries.{left_after};
    ghost use Rattle.prefix_map.specs.Parts.{entries_in, AreParts};

    ghost Value = { List (Prefix × V) };

    ghost view = { λ a. left_after a.last (entries_in a.parts.now) };

    ghost invariant = { λ a. AreParts a.parts.now };
}

impl<'a, V> Iter<'a, V> {
    pub(crate) fn new(parts: &'a Parts<V>) -> Iter<'a, V>
        requires parts { AreParts parts.now }
        ensures { result ≡ entries_in parts.now }
    {
        Iter { parts, last: None }
    }

    fn ahead(&self) -> Option<(Prefix, &'a V)>
        ensures { option_map seen_entry result ≡ first_of_list self.now }
    {
        match self.last {
            None => self.parts.first(),
            Some(last) => self.parts.next_after(last),
        }
    }
}

impl<'a, V> Iterator for Iter<'a, V> {
    type Item = (Prefix, &'a V);

    ghost next_gives = { TakesFirst (λ entry. (entry.0, entry.1.now)) };

    ghost remaining = { λ left. at_most (length left) };

    fn next(&mut self) -> Option<(Prefix, &'a V)> {
        let (key, value) = self.ahead()?;
        self.last = Some(key);
        Some((key, value))
    }
}
