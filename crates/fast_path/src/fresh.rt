//! Groups of prefixes.

use net_types::{Sig, Tag};

/// What the prefixes of a group have in common: their tag before, if any, and their signature after.
#[derive(Drop)]
pub struct Fresh {
    pub before: Option<Tag>,
    pub sig: Sig,
}
