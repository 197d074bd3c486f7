//! The lines that change the routes.

ghost use Rattle.std.specs.Prelude.{◌≡◌, ◌<◌, List, ℕ, IsTrue, length};
ghost use Rattle.events.specs.Fits.{none_rebuilt};
ghost use Rattle.events.specs.Lines.{is_utf8};
ghost use Rattle.events.specs.declared.Event.{Event};
ghost use Rattle.events.specs.declared.Event.TheVariants as lines;
ghost use Rattle.net_types.specs.Exports.{Routing};
ghost use Rattle.exchange_core.specs.Building.{Asks, Leads};
ghost use Rattle.exchange_core.specs.Changing.{IsSender, Reroutes, rules_or_refusal};
ghost use Rattle.exchange_core.specs.Stops.{Gives};

use super::Core;
use crate::request::{Request, rerouting};
use crate::stop::Stop;
use bgp_update::decode;
use exchange_laws::{reroutings_are_edits, steady_states_are_bases};
use export_rules::{Bound, parse_rules};
use net_types::{Bytes, Pid, Text};
use route_server::Proposal;

impl Core {
    /// What an UPDATE of a participant's session asks for.
    pub(super) fn update(&self, who: Pid, bytes: &Bytes) -> Result<Request, Stop>
        requires { who.0 < length self.now.routing.participants }
        ensures { (name : List ℕ) → IsSender self.now name who → Asks self.now (lines.Update name bytes.now) result }
    {
        let update = decode(self.alloc, bytes.items())?;
        let proposal = self.server.propose_update(&self.registry, who, &update)?;
        Ok(self.rerouted(proposal))
    }

    /// What it asks for that all routes of a participant go.
    pub(super) fn down(&self, who: Pid) -> Result<Request, Stop>
        ensures { (name : List ℕ) → IsSender self.now name who → Asks self.now (lines.Down name) result }
    {
        let proposal = self.server.propose_down(&self.registry, who)?;
        Ok(self.rerouted(proposal))
    }

    /// What it asks for that the export rules of a participant become those of the text.
    pub(super) fn export(&self, who: Pid, text: &Text) -> Result<Request, Stop>
        requires { IsTrue (is_utf8 text.now) }
        ensures { (name : List ℕ) → IsSender self.now name who → Asks self.now (lines.Export name text.now) result }
    {
        let rules = self.bound_rules(text)?;
        let proposal = self.server.propose_rules(&self.registry, who, rules)?;
        Ok(self.rerouted(proposal))
    }

    /// The rules of a text among the declared participants.
    fn bound_rules(&self, text: &Text) -> Result<Bound, Stop>
        requires { IsTrue (is_utf8 text.now) }
        ensures { Gives (rules_or_refusal self.now.routing text.now) result }
    {
        let Ok(text) = std::str::from_utf8(text.items()) else {
            unreachable!()
        };
        let named = parse_rules(self.alloc, text)?;
        let bound = named.bind(&self.registry)?;
        Ok(bound)
    }

    /// What a change of the routes asks for.
    fn rerouted(&self, proposal: Proposal) -> Request
        ensures { (e : Event) (r : Routing) → Reroutes self.now e r proposal → Leads self.now e r none_rebuilt result }
    {
        steady_states_are_bases();
        reroutings_are_edits();
        let _phase = self.phase;
        rerouting(self.alloc, proposal)
    }
}
