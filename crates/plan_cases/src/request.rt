//! What a line asks for.

use crate::policies::Texts;
use net_types::Pair;
use route_server::Proposal;

/// What becomes of the routes and of the policies, and which pairs of the table are built anew.
#[derive(Drop)]
pub struct Request {
    pub proposal: Proposal,
    /// Ascending by port, and then by tag.
    pub rebuild: Vec<Pair>,
    /// The policies of all participants afterwards.
    pub texts: Vec<Texts>,
}
