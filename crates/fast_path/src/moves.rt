//! The prefixes whose tag becomes another.

ghost use Rattle.std.specs.Prelude.{◌≡◌, ◌++◌, ◌∷◌, [], List, IfOk, OnOk, option_to_list};
ghost use Rattle.events.specs.declared.TagChange.{TagChange as AnyChange};
ghost use Rattle.fast_path.specs.Emptied.{old_tags};
ghost use Rattle.fast_path.specs.Grouping.{Known};
ghost use Rattle.fast_path.specs.Newly.{newly_tagged};
ghost use Rattle.fast_path.specs.Offers.{others};

use crate::grouping::same_tags;
use crate::known::KnownClasses;
use events::{TagChange, TagChanges};
use net_types::{Items, Memory, Tag};
use std::alloc::Global;

/// The prefixes whose tag becomes another.
#[derive(Drop)]
pub struct Moves {
    /// The prefixes, each with the tag that it gets, in order.
    pub changes: TagChanges,
    /// The tags that they had, in the same order; none for a prefix that had none.
    pub left: Vec<Tag>,
}

impl Moves {
    /// Puts a change last, with the tag that its prefix had. Memory is the only refusal.
    fn push(&mut self, change: TagChange, before: Option<Tag>) -> Result<(), Memory>
        ensures changes { OnOk result (self.new.changes ≡ self.old.changes ++ change ∷ []) }
        ensures left { OnOk result (self.new.left.items ≡ self.old.left.items ++ option_to_list before) }
    {
        self.changes.push(change)?;
        if let Some(tag) = before {
            self.left.push(tag)?;
        }
        Ok(())
    }

    /// How many of the prefixes get a tag and had none: all but those that had one.
    pub fn newly(&self) -> u64
        ensures { (k : Known) (cs : List AnyChange) → self.now.changes ≡ others k cs → self.now.left.items ≡ old_tags k.tag self.now.changes → result ≡ newly_tagged k.tag self.now.changes }
    {
        self.changes.len().saturating_sub(self.left.len()) as u64
    }
}

/// Those of the prefixes whose tag becomes another, in order. Memory is the only refusal.
pub fn moves_of(
    alloc: Global,
    known: &KnownClasses<'_>,
    tagged: &[TagChange],
) -> Result<Moves, Memory>
    ensures changes { IfOk result (λ moves. moves.changes ≡ others known.now tagged.now) }
    ensures left { IfOk result (λ moves. moves.left.items ≡ old_tags known.now.tag moves.changes) }
{
    let mut moves = Moves {
        changes: Items::new(alloc),
        left: Vec::new(alloc),
    };
    for &change in tagged {
        let before = known.tag_of(change.prefix);
        if !same_tags(before, change.tag) {
            moves.push(change, before)?;
        }
    }
    Ok(moves)
}
