//! The rows without a participant's routes.

ghost use Rattle.std.specs.Prelude.{◌≡◌, None, is_some, IfOk};
ghost use Rattle.net_types.specs.Changes.{without_routes};
ghost use Rattle.route_server.specs.Effects.{routing_after};
ghost use Rattle.route_server.specs.Proposed.{IsProposal};
ghost use Rattle.route_server.specs.Rows.{look};
ghost use Rattle.route_server.specs.Served.{routing, AreDeclared, Carries};

use crate::held::Held;
use crate::proposal::Proposal;
use crate::server::RouteServer;
use crate::update::withdrawals;
use net_types::{Memory, Pid, Prefix};
use registry::Registry;

/// Whether a participant's route stands in a row.
pub fn has(row: &[Held], from: Pid) -> bool
    ensures { result ≡ is_some (look row.now from.0) }
{
    for held in row {
        if held.from.0 == from.0 {
            return true;
        }
    }
    false
}

/// The prefixes for which a participant has a route, in ascending order. It looks at those that are listed of it.
pub fn prefixes_from(server: &RouteServer, from: Pid) -> Result<Vec<Prefix>, Memory>
    ensures { IfOk result (λ prefixes. Carries server.now.routes from prefixes.items) }
{
    let mut prefixes = Vec::new(server.allocator());
    let listed = server.listed(from)?;
    for prefix in listed.as_slice() {
        if has(server.row(*prefix), from) {
            prefixes.push(*prefix)?;
        }
    }
    Ok(prefixes)
}

impl RouteServer {
    /// What it does that all of a participant's routes go.
    pub fn propose_down(&self, names: &Registry, from: Pid) -> Result<Proposal, Memory>
        requires { AreDeclared names.now self.now.routes }
        ensures rules { IfOk result (λ p. p.rules ≡ None) }
        ensures named { IfOk result (λ p. p.named ≡ None) }
        ensures proposal { IfOk result (λ p. IsProposal (routing names.now self.now) (routing_after names.now self.now.rules self.now.named (without_routes from self.now.routes)) p) }
        ensures declared { AreDeclared names.now (without_routes from self.now.routes) }
    {
        let prefixes = prefixes_from(self, from)?;
        let changes = withdrawals(self, from, prefixes.as_slice())?;
        let proposal = Proposal::of(self, names, changes, None)?;
        Ok(proposal.with_list(from, 0))
    }
}
