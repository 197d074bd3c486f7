//! What becomes of tags and pairs, before rules are built.

use crate::planned::{Advert, Class};
use events::TagChanges;
use net_types::{Pairs, Tag};

/// What becomes of tags and pairs.
#[derive(Drop)]
pub struct Draft {
    /// The prefixes whose tag becomes another, with that tag.
    pub tags: TagChanges,
    /// The pairs whose rules are taken out.
    pub drops: Pairs,
    /// The pairs whose rules are built.
    pub built: Pairs,
    /// The fresh tags, with their signatures and the prefixes that get them.
    pub fresh: Vec<Class>,
    /// The tags that lose their last prefix, ascending.
    pub emptied: Vec<Tag>,
    /// Those of them that are live no more.
    pub dead: Vec<Tag>,
    /// How many prefixes get a tag that had none.
    pub newly: u64,
    /// What becomes present for the participants of the touched prefixes.
    pub offers: Vec<Advert>,
}
