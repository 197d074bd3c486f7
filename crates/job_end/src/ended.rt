//! What the end of a job does.

use events::{Flows, TagChanges};
use fast_path::Advert;
use net_types::{Pairs, Tag};

/// What the end of a job does to tags and rules, beside the moves and the rules that were built. It changes nothing until it
/// is committed.
#[derive(Drop)]
pub struct End {
    /// The prefixes that move, with their new tags.
    pub tags: TagChanges,
    /// The pairs that go.
    pub gone: Pairs,
    /// The pairs that stay and get other rules.
    pub changed: Pairs,
    /// Both: the pairs whose rules are taken out.
    pub drops: Pairs,
    /// The rules that are put in.
    pub adds: Flows,
    /// The tags that are live no more.
    pub dead: Vec<Tag>,
    /// What becomes present for the participants of the prefixes that move.
    pub offers: Vec<Advert>,
}
