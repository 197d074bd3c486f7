//! The iterator over a table's blocks of rules.

ghost use Rattle.std.specs.Prelude.{◌≡◌, length};
ghost use Rattle.std.specs.Iterator.{at_most};
ghost use Rattle.std.specs.Map.Iter.{TakesFirst};

use block_build::Block;
use net_types::{Pair, Rule};
use std::marker::Model;

/// The pairs that are left with their rules, ascending by port, and then by tag.
#[derive(Drop)]
pub struct Iter<'a> {
    entries: ordered_map::Iter<'a, Pair, Block>,
}

impl<'a> Model for Iter<'a> {
    ghost use Rattle.std.specs.Prelude.{List};
    ghost use Rattle.net_types.specs.declared.rule.Pair.{Pair};
    ghost use Rattle.net_types.specs.declared.rule.Rule.{Rule};

    ghost Value = { List (Pair × List Rule) };

    ghost view = { λ a. a.entries };
}

impl<'a> Iter<'a> {
    pub(crate) fn new(entries: ordered_map::Iter<'a, Pair, Block>) -> Iter<'a>
        ensures { result ≡ entries.entry }
    {
        Iter { entries }
    }
}

impl<'a> Iterator for Iter<'a> {
    type Item = (Pair, &'a [Rule]);

    ghost next_gives = { TakesFirst (λ entry. (entry.0, entry.1.now)) };

    ghost remaining = { λ left. at_most (length left) };

    fn next(&mut self) -> Option<(Pair, &'a [Rule])> {
        let (pair, block) = self.entries.next()?;
        Some((*pair, block.rules()))
    }
}
