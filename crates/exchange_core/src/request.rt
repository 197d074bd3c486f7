//! What a line that builds rules asks for.

ghost use Rattle.std.specs.Prelude.{◌≡◌, []};
ghost use Rattle.exchange_core.specs.declared.programs.PolicyChange.TheVariants.{Stay};

use crate::programs::PolicyChange;
use net_types::Pair;
use route_server::Proposal;
use std::alloc::Global;

/// What a line that builds rules asks for: what it does to the routes and to the policies, and which pairs of the table are
/// built anew.
#[derive(Drop)]
pub struct Request {
    pub proposal: Proposal,
    /// Ascending by port, and then by tag.
    pub rebuild: Vec<Pair>,
    pub change: PolicyChange,
}

/// A change of the routes alone.
pub fn rerouting(alloc: Global, proposal: Proposal) -> Request
    ensures proposal { result.proposal ≡ proposal }
    ensures rebuild { result.rebuild.items ≡ [] }
    ensures change { result.change ≡ Stay }
{
    Request {
        proposal,
        rebuild: Vec::new(alloc),
        change: PolicyChange::Stay,
    }
}
