//! What lines do to the routes: proposals, and their commit.

ghost use Rattle.std.specs.Prelude.{◌≡◌, ◌<◌, ◌≤◌, ◌↔◌, length, None, Some, IfOk, OnOk, unwrap_or};
ghost use Rattle.std.specs.FinMap.{FinMap};
ghost use Rattle.net_types.specs.Changes.{updated};
ghost use Rattle.net_types.specs.Exports.{Routing};
ghost use Rattle.net_types.specs.Keys.{route_cmp};
ghost use Rattle.net_types.specs.SoundUpdates.{IsSoundUpdate};
ghost use Rattle.net_types.specs.declared.route.Attrs.{Attrs};
ghost use Rattle.route_server.specs.Admission.{refusal};
ghost use Rattle.route_server.specs.Effects.{routing_after};
ghost use Rattle.route_server.specs.Proposed.{IsProposal, named_with};
ghost use Rattle.route_server.specs.Served.{routing, AreDeclared, AreOwned, Reaches};

use crate::admission::refusal;
use crate::down::prefixes_from;
use crate::fault::RouteFault;
use crate::proposal::Proposal;
use crate::server::RouteServer;
use crate::update::update_changes;
use net_types::{Memory, Pid, Update};
use registry::Registry;

/// What an update does that is taken.
fn proposed_update(
    server: &RouteServer,
    names: &Registry,
    from: Pid,
    update: &Update,
) -> Result<Proposal, Memory>
    requires known { from.0 < length names.now.participants }
    requires sound { IsSoundUpdate update.now }
    requires declared { AreDeclared names.now server.now.routes }
    requires taken { refusal names.now from update.now ≡ None }
    ensures rules { IfOk result (λ p. p.rules ≡ None) }
    ensures named { IfOk result (λ p. p.named ≡ None) }
    ensures proposal { IfOk result (λ p. IsProposal (routing names.now server.now) (routing_after names.now server.now.rules server.now.named (updated from update.now server.now.routes)) p) }
{
    // At most 256 are declared.
    let _declared = names.participants();
    let changes = update_changes(server, from, update)?;
    let proposal = Proposal::of(server, names, changes, None)?;
    Ok(proposal.with_list(from, update.announced.len()))
}

/// Makes a participant's list of prefixes anew where more than half of it is out of date.
fn tidy(server: &mut RouteServer, from: Pid) -> Result<(), Memory>
    ensures { server.new ≡ server.old }
{
    if server.is_stale(from) {
        let prefixes = prefixes_from(server, from)?;
        server.relist(from, prefixes);
    }
    Ok(())
}

/// Makes room in the list of prefixes that a proposal changes.
fn reserve_list(server: &mut RouteServer, proposal: &Proposal) -> Result<(), Memory>
    ensures { server.new ≡ server.old }
{
    match proposal.list() {
        Some((from, new)) => {
            tidy(server, from)?;
            server.reserve_list(from, new)
        }
        None => Ok(()),
    }
}

impl RouteServer {
    /// What an update of a participant does. Refused is one that announces where its path doesn't begin with the
    /// participant's AS, else where its NEXT_HOP is the address of none of the participant's ports, and else where an
    /// announced prefix takes more than 4096 octets with its attributes.
    pub fn propose_update(
        &self,
        names: &Registry,
        from: Pid,
        update: &Update,
    ) -> Result<Proposal, RouteFault>
        requires known { from.0 < length names.now.participants }
        requires sound { IsSoundUpdate update.now }
        requires declared { AreDeclared names.now self.now.routes }
        ensures first_as { (result ≡ Err RouteFault.FirstAs) ↔ (refusal names.now from update.now ≡ Some RouteFault.FirstAs) }
        ensures next_hop { (result ≡ Err RouteFault.NextHop) ↔ (refusal names.now from update.now ≡ Some RouteFault.NextHop) }
        ensures oversize { (result ≡ Err RouteFault.Oversize) ↔ (refusal names.now from update.now ≡ Some RouteFault.Oversize) }
        ensures rules { IfOk result (λ p. p.rules ≡ None) }
        ensures named { IfOk result (λ p. p.named ≡ None) }
        ensures proposal { IfOk result (λ p. IsProposal (routing names.now self.now) (routing_after names.now self.now.rules self.now.named (updated from update.now self.now.routes)) p) }
        ensures declared { AreDeclared names.now (updated from update.now self.now.routes) }
    {
        match refusal(names, from, update) {
            Some(fault) => Err(fault),
            None => match proposed_update(self, names, from, update) {
                Ok(proposal) => Ok(proposal),
                Err(_) => Err(RouteFault::Memory),
            },
        }
    }

    /// Makes room for the commit of a proposal. It changes nothing else.
    pub fn reserve(&mut self, proposal: &Proposal) -> Result<(), Memory>
        ensures room { OnOk result (length proposal.now.changes ≤ self.new.room) }
        ensures routes { self.new.routes ≡ self.old.routes }
        ensures rules { self.new.rules ≡ self.old.rules }
        ensures named { self.new.named ≡ self.old.named }
    {
        reserve_list(self, proposal)?;
        self.reserve_rows(proposal.rows())
    }

    /// Changes the routes, rules and names as proposed, where nothing was committed since. It takes no memory.
    pub fn commit(&mut self, proposal: Proposal)
        requires room { length proposal.changes ≤ self.old.room }
        ensures routes { (m : FinMap route_cmp Attrs) → Reaches proposal.changes self.old.routes m → self.new.routes ≡ m }
        ensures rules { self.new.rules ≡ unwrap_or proposal.rules self.old.rules }
        ensures named { self.new.named ≡ named_with proposal.named self.old.named }
        // Every route's participant owns the port of its next hop where it was so when the proposal was made.
        ensures owned { (r s : Routing) → r.routes ≡ self.old.routes → IsProposal r s proposal → AreOwned r → AreOwned (record s { routes = self.new.routes }) }
        // After a proposal for the routes, rules and names as they are, these are those that were proposed.
        ensures reached { (r s : Routing) → r.routes ≡ self.old.routes → r.rules ≡ self.old.rules → r.named ≡ self.old.named → IsProposal r s proposal → (self.new.routes ≡ s.routes) × (self.new.rules ≡ s.rules) × (self.new.named ≡ s.named) }
    {
        let (changes, rules, named) = proposal.open();
        self.set(changes, rules, named);
    }
}
