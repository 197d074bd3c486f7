//! The prefixes that move to other tags when classes are merged.

ghost use Rattle.std.specs.Prelude.{◌≡◌, IfOk, IsTrue, Some, is_some};
ghost use Rattle.std.specs.FinMap as map;
ghost use Rattle.net_types.specs.declared.address.Tag.{Tag as AnyTag};
ghost use Rattle.net_types.specs.declared.prefix.Prefix.{Prefix as AnyPrefix};
ghost use Rattle.prefix_classes.specs.Moving.{AreMoves};

use crate::grouping::Grouping;
use net_types::{Memory, Prefix, Tag};
use prefix_map::PrefixMap;
use std::alloc::Global;
use std::marker::Model;

/// Prefixes, each with the tag that it moves to, in order of prefix. Only `ClassMap::merge_plan` makes them.
#[derive(Drop)]
pub struct Moves {
    moves: Vec<(Prefix, Tag)>,
}

impl Model for Moves {
    ghost use Rattle.std.specs.Prelude.{List};
    ghost use Rattle.net_types.specs.declared.address.Tag.{Tag};
    ghost use Rattle.net_types.specs.declared.prefix.Prefix.{Prefix};

    ghost Value = { List (Prefix × Tag) };

    ghost view = { λ a. a.moves.items };
}

impl Moves {
    /// The prefixes that move, ascending, each with its new tag.
    pub fn list(&self) -> &[(Prefix, Tag)]
        ensures { result.now ≡ self.now }
    {
        &self.moves
    }
}

/// The prefixes whose tags aren't the least ones of their signatures.
pub(crate) fn moves_by(
    alloc: Global,
    tags: &PrefixMap<Tag>,
    grouping: &Grouping,
) -> Result<Moves, Memory>
    requires { (p : AnyPrefix) (t : AnyTag) → map.get tags.now.map p ≡ Some t → IsTrue (is_some (map.get grouping.now t)) }
    ensures { IfOk result (AreMoves grouping.now (map.entries tags.now.map)) }
{
    let firsts = grouping.firsts()?;
    let mut moves = Vec::new(alloc);
    for (prefix, &tag) in tags.entries()? {
        let least = grouping.least_beside(&firsts, tag);
        if least != tag {
            moves.push((prefix, least))?;
        }
    }
    Ok(Moves { moves })
}
