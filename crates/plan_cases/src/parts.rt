//! The parts of an exchange, and the plans that are made of them.

ghost use Rattle.std.specs.Prelude.{◌≡◌, ◌≤◌, ◌<◌, [], IfOk, length};
ghost use Rattle.advert_queue.specs.Telling.{tags_of};
ghost use Rattle.events.specs.State.{told_to};
ghost use Rattle.net_types.specs.Exports.{pid_of};
ghost use Rattle.plan_cases.specs.Parts.{AreAsked, ArePlanned, Reroutes};
ghost use Rattle.plan_cases.specs.Policies.{AreCompiled};

use crate::declared::{no_routes, nothing_told, three};
use crate::policies::{Texts, all_dropping, same, with_inbound, with_outbound};
use crate::programs::{Programs, all_compiled, lent, read};
use crate::rebuilt::{pairs_from, pairs_to};
use crate::request::Request;
use crate::told::{installed, told};
use crate::wrong::Wrong;
use advert_queue::Adverts;
use bgp_update::{UpdateFault, decode};
use bumpalo::Bump;
use fast_path::{FastFault, Plan, commit, plan, plans_are_committed, reserve};
use match_switch::Switch;
use net_types::{Ip, Memory, Pid, Steps, Tag};
use next_hop_pool::Pool;
use policy_isolate::named;
use prefix_classes::ClassMap;
use registry::Registry;
use route_server::{Proposal, RouteFault, RouteServer};
use std::alloc::Global;
use std::marker::Model;
use std::sync::ledger::Ledger;

/// The address below those of the tags.
const BASE: Ip = Ip(0xAC100000);

/// The parts that plans are made of.
#[derive(Drop)]
pub struct Parts {
    registry: Registry,
    server: RouteServer,
    classes: ClassMap,
    pool: Pool,
    adverts: Adverts,
    switch: Switch,
    policies: Vec<Texts>,
}

impl Model for Parts {
    ghost use Rattle.events.specs.State.{State};

    ghost Value = { State };

    ghost use Rattle.std.specs.Coded.{codes};
    ghost use Rattle.std.specs.FinMap as map;

    ghost coded = { Prim.hlevel (codes, map.code) };

    ghost use Rattle.plan_cases.specs.Parts.{state_of, IsKept};

    ghost view = { λ a. state_of a.registry a.server a.classes a.pool a.adverts.told a.switch a.policies.items };

    ghost invariant = { λ a. IsKept (state_of a.registry a.server a.classes a.pool a.adverts.told a.switch a.policies.items) a.pool a.adverts.present };
}

impl Parts {
    /// Three participants whose policies drop, none of which announced anything, so many tags, and room for so many rules.
    pub fn new(alloc: Global, size: u32, capacity: usize) -> Result<Parts, Wrong>
        requires some { 0 < size }
        requires few { size ≤ 65536 }
        requires room { capacity ≤ 1000000 }
    {
        let registry = three(alloc)?;
        let there = registry.participants().len();
        let server = no_routes(alloc, there)?;
        let adverts = nothing_told(alloc, there)?;
        let pool = Pool::new(alloc, BASE, size)?;
        let policies = all_dropping(alloc, &registry)?;
        Ok(Parts {
            registry,
            server,
            classes: ClassMap::new(alloc),
            pool,
            adverts,
            switch: Switch::new(alloc, capacity),
            policies,
        })
    }

    /// The plan of what a line asks for, by what the policies are compiled to.
    fn planned<L: Ledger>(
        &self,
        alloc: Global,
        request: &Request,
        programs: &[Programs],
        steps: &mut Steps<L>,
    ) -> Result<Plan, FastFault>
        requires asked { AreAsked self.now request.now }
        requires compiled { AreCompiled (pid_of self.now.routing) request.now.texts.items programs.now }
        ensures { IfOk result (ArePlanned self.now request.now) }
    {
        let views = lent(alloc, programs)?;
        plan(
            alloc,
            &self.registry,
            &self.classes,
            &self.pool,
            &self.adverts,
            &self.switch,
            &views,
            &request.proposal,
            &request.rebuild,
            steps,
        )
    }

    /// Commits a plan. All memory is taken before anything changes.
    fn carry(&mut self, alloc: Global, request: Request, plan: Plan) -> Result<(), Memory>
        requires { ArePlanned self.old request plan }
    {
        plans_are_committed();
        self.server.reserve(&request.proposal)?;
        reserve(
            alloc,
            &self.registry,
            &plan,
            &mut self.classes,
            &mut self.adverts,
        )?;
        self.switch.reserve(plan.pair_count())?;
        self.server.commit(request.proposal);
        let _changes = commit(
            plan,
            &mut self.classes,
            &mut self.pool,
            &mut self.switch,
            &mut self.adverts,
        );
        self.policies = request.texts;
        Ok(())
    }

    /// What the plan of a participant's UPDATE says, or why there is none.
    pub fn update<L: Ledger>(
        &mut self,
        alloc: Global,
        who: Pid,
        octets: &[u8],
        steps: &mut Steps<L>,
    ) -> Result<String, Wrong> {
        let update = match decode(alloc, octets) {
            Ok(update) => update,
            Err(UpdateFault::Bad(_)) => return Ok(String::from_str(alloc, "bad update")?),
            Err(UpdateFault::Memory) => return Err(Wrong::Memory),
        };
        if who.0 as usize >= self.registry.participants().len() {
            return Err(Wrong::Row);
        }
        let proposal = match self.server.propose_update(&self.registry, who, &update) {
            Ok(proposal) => proposal,
            Err(RouteFault::Memory) => return Err(Wrong::Memory),
            Err(_) => return Ok(String::from_str(alloc, "refused")?),
        };
        let request = self.rerouting(alloc, proposal)?;
        self.told(alloc, request, steps)
    }

    /// What the plan says by which the outbound policy of a participant becomes that of a text, or why there is none.
    pub fn send<L: Ledger>(
        &mut self,
        alloc: Global,
        who: Pid,
        text: &str,
        steps: &mut Steps<L>,
    ) -> Result<String, Wrong> {
        if who.0 as usize >= self.policies.len() {
            return Err(Wrong::Row);
        }
        let request = self.sending(alloc, who, text)?;
        self.told(alloc, request, steps)
    }

    /// What the plan says by which the inbound policy becomes that of the text, or why there is none.
    pub fn receive<L: Ledger>(
        &mut self,
        alloc: Global,
        who: Pid,
        text: &str,
        steps: &mut Steps<L>,
    ) -> Result<String, Wrong> {
        if who.0 as usize >= self.policies.len() {
            return Err(Wrong::Row);
        }
        let request = self.receiving(alloc, who, text)?;
        self.told(alloc, request, steps)
    }

    /// A participant that was told nothing takes all that is pending for it; what it was told then.
    pub fn take(&mut self, who: Pid) -> Result<Vec<Tag>, Wrong> {
        if who.0 as usize >= self.adverts.len() {
            return Err(Wrong::Row);
        }
        let told = self.adverts.told_tags(who)?;
        if !told.is_empty() {
            return Err(Wrong::Row);
        }
        self.tell(who);
        let tags = self.adverts.told_tags(who)?;
        Ok(tags)
    }

    /// What rules are in the table, and how many.
    pub fn table(&self, alloc: Global) -> Result<String, Memory> {
        installed(alloc, &self.switch)
    }

    /// A participant that was told nothing takes all that is pending for it, by which nothing goes.
    fn tell(&mut self, who: Pid)
        requires declared { who.0 < length self.old.told }
        requires nothing { tags_of (told_to self.old who) ≡ [] }
        ensures { length self.new.told ≡ length self.old.told }
    {
        self.adverts.take(who, None);
    }

    /// What a change of the routes asks for.
    fn rerouting(&self, alloc: Global, proposal: Proposal) -> Result<Request, Memory>
        requires { Reroutes self.now proposal }
        ensures { IfOk result (AreAsked self.now) }
    {
        let texts = same(alloc, &self.policies)?;
        Ok(Request {
            proposal,
            rebuild: Vec::new(alloc),
            texts,
        })
    }

    /// What it asks for that the outbound policy of a participant becomes that of a text.
    fn sending(&self, alloc: Global, who: Pid, text: &str) -> Result<Request, Wrong>
        requires { who.0 < length self.now.outbound }
        ensures { IfOk result (AreAsked self.now) }
    {
        let arena = Bump::new(alloc);
        let tree = read(alloc, &arena, text)?;
        let named = named(alloc, &tree, &self.registry)?;
        let proposal = self.server.propose_named(&self.registry, who, named)?;
        let rebuild = pairs_from(alloc, &self.registry, &self.switch, who)?;
        let texts = with_outbound(alloc, &self.policies, who, text)?;
        Ok(Request {
            proposal,
            rebuild,
            texts,
        })
    }

    /// What it asks for that the inbound policy of a participant becomes that of a text.
    fn receiving(&self, alloc: Global, who: Pid, text: &str) -> Result<Request, Wrong>
        requires { who.0 < length self.now.inbound }
        ensures { IfOk result (AreAsked self.now) }
    {
        let arena = Bump::new(alloc);
        let _tree = read(alloc, &arena, text)?;
        let rebuild = pairs_to(alloc, &self.registry, &self.classes, &self.switch, who)?;
        let texts = with_inbound(alloc, &self.policies, who, text)?;
        Ok(Request {
            proposal: Proposal::empty(alloc),
            rebuild,
            texts,
        })
    }

    /// What the plan says of what a line asks for, which is committed then, or why there is none.
    fn told<L: Ledger>(
        &mut self,
        alloc: Global,
        request: Request,
        steps: &mut Steps<L>,
    ) -> Result<String, Wrong>
        requires { AreAsked self.old request }
    {
        let programs = all_compiled(alloc, &self.registry, &request.texts)?;
        match self.planned(alloc, &request, &programs, steps) {
            Ok(plan) => {
                let text = told(alloc, &plan)?;
                self.carry(alloc, request, plan)?;
                Ok(text)
            }
            Err(FastFault::NoNextHop { need, free }) => {
                Ok(format!(in alloc; "no-next-hop {need} {free}")?)
            }
            Err(FastFault::TableFull { rules, capacity }) => {
                Ok(format!(in alloc; "table-full {rules} {capacity}")?)
            }
            Err(FastFault::Memory) => Err(Wrong::Memory),
        }
    }
}
