//! What a line does to the routes and rules, before it is done.

ghost use Rattle.std.specs.Prelude.{◌≡◌, ◌<◌, [], length, map, None, Some, slice_get, unwrap_or, IfOk};
ghost use Rattle.std.specs.FinMap.{FinMap, get};
ghost use Rattle.std.specs.Option.{option_copied, option_and_then, option_map, option_map_or};
ghost use Rattle.net_types.specs.Changes.{Differs};
ghost use Rattle.net_types.specs.Keys.{RouteKey, route_cmp};
ghost use Rattle.net_types.specs.Sets.{Member, IsRising};
ghost use Rattle.net_types.specs.UpdateSpelling.{is_before};
ghost use Rattle.net_types.specs.declared.prefix.Prefix.{Prefix};
ghost use Rattle.net_types.specs.declared.route.Attrs.{Attrs};
ghost use Rattle.route_server.specs.Edits.{prefixes_of};
ghost use Rattle.route_server.specs.Effects.{AreRowsOf, effect_bests, routing_after};
ghost use Rattle.route_server.specs.Proposed.{Proposed, IsProposal};
ghost use Rattle.route_server.specs.Served.{routing, AreDeclared, AreOwned};
ghost use Rattle.route_server.specs.declared.effect.Effect.{Effect};

use crate::change::Change;
use crate::choices::place_of;
use crate::effect::Effect;
use crate::effects::effects_of;
use crate::server::RouteServer;
use crate::terms::Terms;
use net_types::{Attrs, ExportRules, Memory, Pid, Pids, Prefix, SharedAttrs, Sig};
use registry::Registry;
use std::alloc::{AllocError, Global};
use std::marker::Model;

/// The rows, rules and names afterwards, and what is another then. It changes nothing until it is committed.
#[derive(Drop)]
pub struct Proposal {
    /// Whose list of prefixes it is made from or changes, and how many may come into the list.
    list: Option<(Pid, usize)>,
    changes: Vec<Change>,
    rules: Option<Vec<ExportRules>>,
    named: Option<(Pid, Pids)>,
    touched: Vec<Prefix>,
    effects: Vec<Effect>,
}

impl Model for Proposal {
    ghost use Rattle.std.specs.Prelude.{◌≡◌, map};
    ghost use Rattle.std.specs.Coded.{codes};
    ghost use Rattle.std.specs.Option.{option_map};
    ghost use Rattle.route_server.specs.contracts.change.Change as change;
    ghost use Rattle.route_server.specs.Effects.{effect_bests};
    ghost use Rattle.route_server.specs.Proposed.{Proposed};
    ghost use Rattle.route_server.specs.declared.effect.Effect.{Effect};

    ghost Value = { Proposed };

    ghost coded = { Prim.hlevel (codes, change.the_row.coded) };

    ghost view = { λ a. record { changes = a.changes.items; rules = option_map (λ r. r.items) a.rules; named = a.named; touched = a.touched.items; sigs = map (λ (e : Effect). e.sig.value) a.effects.items; bests = map (effect_bests a.changes.items) a.effects.items } };

    ghost invariant = { λ a. a.touched.items ≡ map (λ (e : Effect). e.prefix) a.effects.items };
}

/// The prefixes of effects.
fn touched_by(alloc: Global, effects: &[Effect]) -> Result<Vec<Prefix>, AllocError>
    ensures { IfOk result (λ touched. touched.items ≡ map (λ (e : Effect). e.prefix) effects.now) }
{
    effects.iter().map(|effect| effect.prefix).collect(alloc)
}

/// The rules afterwards.
fn rules_after<'a>(
    server: &'a RouteServer,
    rules: &'a Option<Vec<ExportRules>>,
) -> &'a [ExportRules]
    ensures { result.now ≡ option_map_or (λ r. r.items) rules.now server.now.rules }
{
    match rules {
        Some(rules) => rules.as_slice(),
        None => server.rules(),
    }
}

impl Proposal {
    /// Touches nothing.
    pub fn empty(alloc: Global) -> Proposal
        ensures { result ≡ record { changes = []; rules = None; named = None; touched = []; sigs = []; bests = [] } }
    {
        Proposal {
            list: None,
            changes: Vec::new(alloc),
            rules: None,
            named: None,
            touched: Vec::new(alloc),
            effects: Vec::new(alloc),
        }
    }

    /// What these effects say, with what makes the routes, rules and names afterwards.
    pub(crate) fn made(
        alloc: Global,
        changes: Vec<Change>,
        rules: Option<Vec<ExportRules>>,
        named: Option<(Pid, Pids)>,
        effects: Vec<Effect>,
    ) -> Result<Proposal, Memory>
        ensures { IfOk result (λ p. p ≡ record { changes = changes.items; rules = option_map (λ r. r.items) rules; named = named; touched = map (λ (e : Effect). e.prefix) effects.items; sigs = map (λ (e : Effect). e.sig.value) effects.items; bests = map (effect_bests changes.items) effects.items }) }
    {
        let touched = touched_by(alloc, effects.as_slice())?;
        Ok(Proposal {
            list: None,
            changes,
            rules,
            named,
            touched,
            effects,
        })
    }

    /// What these changes do, where the rules become others or stay.
    pub(crate) fn of(
        server: &RouteServer,
        names: &Registry,
        changes: Vec<Change>,
        rules: Option<Vec<ExportRules>>,
    ) -> Result<Proposal, Memory>
        requires declared { AreDeclared names.now server.now.routes }
        ensures changes { IfOk result (λ p. p.changes ≡ changes.items) }
        ensures rules { IfOk result (λ p. p.rules ≡ option_map (λ r. r.items) rules) }
        ensures named { IfOk result (λ p. p.named ≡ None) }
        ensures effects { IfOk result (λ p. (m : FinMap route_cmp Attrs) → let after = routing_after names.now (option_map_or (λ r. r.items) rules server.now.rules) server.now.named m in AreDeclared names.now m → AreRowsOf changes.items m → IsRising is_before (prefixes_of changes.items)
            → ((q : RouteKey) → (Member q.prefix (prefixes_of changes.items) → ⊥) → get m q ≡ get server.now.routes q)
            → ((q : Prefix) → (Member q (prefixes_of changes.items) → ⊥) → Differs (routing names.now server.now) after q → ⊥) → (AreOwned (routing names.now server.now) → AreOwned after) → IsProposal (routing names.now server.now) after p) }
    {
        let before = server.terms(names);
        let after = Terms {
            names,
            rules: rules_after(server, &rules),
            named: before.named,
        };
        let effects = effects_of(server, before, after, changes.as_slice())?;
        let proposal = Proposal::made(server.allocator(), changes, rules, None, effects)?;
        Ok(proposal)
    }

    /// The prefixes whose signature, or some participant's best attributes, are others afterwards, in ascending order.
    pub fn touched(&self) -> &[Prefix]
        ensures { result.now ≡ self.now.touched }
    {
        self.touched.as_slice()
    }

    /// The signature of a touched prefix afterwards.
    pub fn sig(&self, at: usize) -> &Sig
        requires { at < length self.now.touched }
        ensures { slice_get self.now.sigs at ≡ Some result.now }
    {
        self.effects[at].sig.as_ref()
    }

    /// A participant's best attributes for a touched prefix afterwards; none where it has no best route for it.
    pub fn best(&self, at: usize, who: Pid) -> Option<&Attrs>
        requires { at < length self.now.touched }
        ensures { option_copied result ≡ option_and_then (λ o. o) (slice_get (unwrap_or (slice_get self.now.bests at) []) who.0) }
    {
        let shared = self.best_shared(at, who)?;
        Some(shared.get())
    }

    /// The same attributes, of which further owners can be made.
    pub fn best_shared(&self, at: usize, who: Pid) -> Option<&SharedAttrs>
        requires { at < length self.now.touched }
        ensures { option_copied result ≡ option_and_then (λ o. o) (slice_get (unwrap_or (slice_get self.now.bests at) []) who.0) }
    {
        let effect = &self.effects[at];
        let place = place_of(effect.bests.as_slice(), who)?;
        let change = self.changes.get(effect.at)?;
        let held = change.row.items().get(place)?;
        Some(&held.attrs)
    }

    /// Whom the outbound policy of a participant names from now on in a forward; none where that stays for all.
    pub fn named(&self) -> Option<(Pid, &[Pid])>
        ensures { option_map (λ e. (e.0, e.1.now)) result ≡ self.now.named }
    {
        match &self.named {
            Some((who, named)) => Some((*who, named.items())),
            None => None,
        }
    }

    /// The same, made from or changing a participant's list of prefixes, into which so many may come.
    pub(crate) fn with_list(self, from: Pid, new: usize) -> Proposal
        ensures { result ≡ self }
    {
        let mut proposal = self;
        proposal.list = Some((from, new));
        proposal
    }

    /// Whose list of prefixes it is made from or changes, and how many may come into the list.
    pub(crate) fn list(&self) -> Option<(Pid, usize)> {
        self.list
    }

    /// The changes, the rules and the names.
    pub(crate) fn open(self) -> (Vec<Change>, Option<Vec<ExportRules>>, Option<(Pid, Pids)>)
        ensures changes { result.0.items ≡ self.changes }
        ensures rules { option_map (λ r. r.items) result.1 ≡ self.rules }
        ensures named { result.2 ≡ self.named }
    {
        (self.changes, self.rules, self.named)
    }

    /// How many rows it changes.
    pub(crate) fn rows(&self) -> usize
        ensures { result ≡ length self.now.changes }
    {
        self.changes.len()
    }
}
