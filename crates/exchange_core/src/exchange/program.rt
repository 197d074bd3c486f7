//! The lines that say a participant's policies.

ghost use Rattle.std.specs.Prelude.{◌≡◌, ◌<◌, List, ℕ, Ok, None, IfOk, IsTrue, MatchResult, length};
ghost use Rattle.events.specs.Lines.{is_utf8};
ghost use Rattle.events.specs.Refusals.{policy_refusal};
ghost use Rattle.events.specs.State.{owner_of};
ghost use Rattle.events.specs.declared.Event.TheVariants as lines;
ghost use Rattle.net_types.specs.Exports.{pid_of};
ghost use Rattle.net_types.specs.Isolation.{in_faults, out_faults};
ghost use Rattle.net_types.specs.PolicyReading.{policy_of_text};
ghost use Rattle.policy_syntax.specs.Views.{policy_of};
ghost use Rattle.exchange_core.specs.Building.{Asks, IsReceiving, IsSending};
ghost use Rattle.exchange_core.specs.Changing.{IsSender};
ghost use Rattle.exchange_core.specs.Stops.{IsFirst};

use super::Core;
use crate::policy_text::{compiled, narrow, read_policy};
use crate::programs::PolicyChange;
use crate::rebuilt::{pairs_from, pairs_to};
use crate::request::Request;
use crate::stop::Stop;
use bumpalo::Bump;
use exchange_laws::{edits_are_changes, inbounds_are_edits, outbounds_are_edits};
use net_types::{Memory, Pid, Text};
use policy_isolate::{check_in, check_out, named};
use policy_syntax::Tree;
use route_server::Proposal;

impl Core {
    /// What it asks for that the outbound policy of a participant becomes that of the text, which is parsed into an arena of
    /// the line's own.
    pub(super) fn outbound(&self, who: Pid, text: &Text) -> Result<Request, Stop>
        requires known { who.0 < length self.now.routing.participants }
        requires utf8 { IsTrue (is_utf8 text.now) }
        ensures { (name : List ℕ) → IsSender self.now name who → Asks self.now (lines.Outbound name text.now) result }
    {
        let arena = Bump::new(self.alloc);
        let tree = read_policy(self.alloc, &arena, text)?;
        outbounds_are_edits();
        self.may_send(who, &tree)?;
        let request = self.sending(who, text, &tree)?;
        Ok(request)
    }

    /// What it asks for that the inbound policy becomes that of the text.
    pub(super) fn inbound(&self, who: Pid, text: &Text) -> Result<Request, Stop>
        requires { IsTrue (is_utf8 text.now) }
        ensures { (name : List ℕ) → IsSender self.now name who → Asks self.now (lines.Inbound name text.now) result }
    {
        let arena = Bump::new(self.alloc);
        let tree = read_policy(self.alloc, &arena, text)?;
        inbounds_are_edits();
        edits_are_changes();
        self.may_receive(who, &tree)?;
        let request = self.receiving(who, text, &tree)?;
        Ok(request)
    }

    /// A participant may have a policy as its outbound one, or is refused.
    fn may_send(&self, who: Pid, tree: &Tree<'_>) -> Result<(), Stop>
        ensures { let first = policy_refusal (out_faults (pid_of self.now.routing) (owner_of self.now) who (policy_of tree.now)) (policy_of tree.now) in MatchResult result (λ _. first ≡ None) (IsFirst first) }
    {
        check_out(tree, &self.registry, who)?;
        narrow(self.alloc, tree)
    }

    /// A participant may have a policy as its inbound one, or is refused.
    fn may_receive(&self, who: Pid, tree: &Tree<'_>) -> Result<(), Stop>
        ensures { let first = policy_refusal (in_faults (owner_of self.now) who (policy_of tree.now)) (policy_of tree.now) in MatchResult result (λ _. first ≡ None) (IsFirst first) }
    {
        check_in(tree, &self.registry, who)?;
        narrow(self.alloc, tree)
    }

    /// What another outbound policy asks for, by its text and as it was read.
    fn sending(&self, who: Pid, text: &Text, tree: &Tree<'_>) -> Result<Request, Memory>
        requires known { who.0 < length self.now.routing.participants }
        requires read { policy_of_text text.now ≡ Ok (policy_of tree.now) }
        ensures { IfOk result (IsSending self.now who text.now (policy_of tree.now)) }
    {
        let program = compiled(self.alloc, &self.registry, text, tree)?;
        let rebuild = pairs_from(self.alloc, &self.registry, &self.switch, who)?;
        let named = named(self.alloc, tree, &self.registry)?;
        let proposal = self.server.propose_named(&self.registry, who, named)?;
        Ok(Request {
            proposal,
            rebuild,
            change: PolicyChange::Outbound { who, program },
        })
    }

    /// What another inbound policy asks for, by its text and as it was read.
    fn receiving(&self, who: Pid, text: &Text, tree: &Tree<'_>) -> Result<Request, Memory>
        requires { policy_of_text text.now ≡ Ok (policy_of tree.now) }
        ensures { IfOk result (IsReceiving self.now who text.now) }
    {
        let program = compiled(self.alloc, &self.registry, text, tree)?;
        let rebuild = pairs_to(self.alloc, &self.registry, &self.classes, &self.switch, who)?;
        Ok(Request {
            proposal: Proposal::empty(self.alloc),
            rebuild,
            change: PolicyChange::Inbound { who, program },
        })
    }
}
