//! What a router keeps of an UPDATE message.

use net_types::{Ip, Prefixes};

/// Prefixes that are withdrawn, prefixes that are announced, and the next hop of the announced ones.
#[derive(Drop)]
pub struct News {
    pub withdrawn: Prefixes,
    pub announced: Prefixes,
    pub next_hop: Option<Ip>,
}
