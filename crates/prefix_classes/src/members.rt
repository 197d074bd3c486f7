//! What is kept of a tag: its signature, and how many members it has.

ghost use Rattle.std.specs.Prelude.{◌≡◌, ◌<◌, ◌+◌, ◌^◌, None, Some, IsTrue, is_some};
ghost use Rattle.std.specs.FinMap.Entries.{find, is_sorted};
ghost use Rattle.net_types.specs.Keys.{tag_cmp};
ghost use Rattle.prefix_classes.specs.Classes.{is_tag};
ghost use Rattle.prefix_classes.specs.Counts.{counted, IsRecounted};

use crate::kept::KeptTable;
use net_types::{Sig, Tag};

#[derive(Drop)]
pub(crate) struct Kept {
    pub(crate) sig: Sig,
    pub(crate) members: usize,
}

/// One member more, or one less.
#[derive(Clone, Copy)]
pub(crate) enum Recount {
    More,
    Less,
}

/// Counts one member more.
pub(crate) fn raise(kept: &mut KeptTable, tag: Tag)
    requires rising { IsTrue (is_sorted tag_cmp kept.old.items) }
    requires there { IsTrue (is_some (find tag_cmp tag kept.old.items)) }
    requires small { counted kept.old.items tag + 1 < 2 ^ 64 }
    ensures counts { IsRecounted kept.old.items kept.new.items None (Some tag) }
    ensures room { kept.new.room ≡ kept.old.room }
{
    kept.recount(tag, Recount::More);
}

/// Counts one member less.
pub(crate) fn lower(kept: &mut KeptTable, tag: Tag)
    requires rising { IsTrue (is_sorted tag_cmp kept.old.items) }
    requires some { 0 < counted kept.old.items tag }
    ensures counts { IsRecounted kept.old.items kept.new.items (Some tag) None }
    ensures room { kept.new.room ≡ kept.old.room }
{
    kept.recount(tag, Recount::Less);
}

/// Counts a member of one tag as one of another, or of the same.
pub(crate) fn move_member(kept: &mut KeptTable, from: Tag, to: Tag)
    requires rising { IsTrue (is_sorted tag_cmp kept.old.items) }
    requires some { 0 < counted kept.old.items from }
    requires there { IsTrue (is_some (find tag_cmp to kept.old.items)) }
    requires small { counted kept.old.items to + 1 < 2 ^ 64 + is_tag to from }
    ensures counts { IsRecounted kept.old.items kept.new.items (Some from) (Some to) }
    ensures room { kept.new.room ≡ kept.old.room }
{
    lower(kept, from);
    raise(kept, to);
}
