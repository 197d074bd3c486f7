//! What a line that builds rules asks for is carried out where there are tags and room enough.

ghost use Rattle.std.specs.Prelude.{◌≡◌, Bool, IfErr, IfOk, OnErr, MatchResult};
ghost use Rattle.net_types.specs.Exports.{Routing};
ghost use Rattle.net_types.specs.declared.rule.Pair.{Pair};
ghost use Rattle.events.specs.Forms.{IsWellFormed};
ghost use Rattle.events.specs.Fits.{IsStep};
ghost use Rattle.events.specs.declared.Event.{Event};
ghost use Rattle.fast_path.specs.Plans.{IsFault, IsPlan, IsWithinSteps};
ghost use Rattle.exchange_core.specs.Building.{Leads, base_of};
ghost use Rattle.exchange_core.specs.Jobs.{KeepsJob};
ghost use Rattle.exchange_core.specs.Stops.{IsStop};

use super::Core;
use crate::programs::{carry_out, lend_changed};
use crate::replies::changes_reply;
use crate::request::Request;
use crate::stop::Stop;
use crate::telling::tell_job;
use events::{Head, Phase, Reply};
use fast_path::{FastFault, Plan, commit, plan, plans_are_committed, reserve};
use job_upkeep::{added_are_few, no_jobs_start, policies_keep_jobs, reroutings_keep_jobs};
use net_types::Steps;
use recompile::Job;
use std::sync::ledger::Ledger;

impl Core {
    /// Carries out a request, where there are tags and room enough. All memory is taken before anything changes.
    pub(super) fn build<L: Ledger>(
        &mut self,
        request: Request,
        job: &mut Option<Job>,
        steps: &mut Steps<L>,
    ) -> Result<Reply, Stop>
        requires { (e : Event) × IsWellFormed e × (r : Routing) × (is_rebuilt : Pair → Bool) × Leads self.old e r is_rebuilt request }
        ensures step { IfOk result (λ reply. (e : Event) (r : Routing) (is_rebuilt : Pair → Bool) → IsWellFormed e → Leads self.old e r is_rebuilt request → IsStep self.old e reply self.new) }
        ensures stop { IfErr result (λ stop. (e : Event) (r : Routing) (is_rebuilt : Pair → Bool) → Leads self.old e r is_rebuilt request → IsStop self.old e stop) }
        ensures unchanged { OnErr result (self.new ≡ self.old) }
        ensures job { IfOk result (λ reply. (e : Event) (r : Routing) (is_rebuilt : Pair → Bool) → IsWellFormed e → Leads self.old e r is_rebuilt request → KeepsJob self.old e reply job.old job.new) }
        ensures job_unchanged { OnErr result (job.new ≡ job.old) }
        ensures steps { (e : Event) (r : Routing) (is_rebuilt : Pair → Bool) → Leads self.old e r is_rebuilt request → IsWithinSteps (base_of self.old request) r is_rebuilt steps.old steps.new }
    {
        let plan = self.planned(&request, steps)?;
        plans_are_committed();
        added_are_few();
        reroutings_keep_jobs();
        policies_keep_jobs();
        no_jobs_start();
        self.server.reserve(&request.proposal)?;
        reserve(
            self.alloc,
            &self.registry,
            &plan,
            &mut self.classes,
            &mut self.adverts,
        )?;
        self.switch.reserve(plan.pair_count())?;
        tell_job(
            self.alloc,
            &self.registry,
            &self.classes,
            &self.switch,
            &request.change,
            &plan,
            job,
        )?;
        let Request {
            proposal,
            change,
            ..
        } = request;
        self.server.commit(proposal);
        let changes = commit(
            plan,
            &mut self.classes,
            &mut self.pool,
            &mut self.switch,
            &mut self.adverts,
        );
        carry_out(&mut self.programs, change);
        self.phase = Phase::Running;
        Ok(changes_reply(self.alloc, Head::Fine, changes))
    }

    /// The plan of a request, by the classifiers as they are after it.
    fn planned<L: Ledger>(&self, request: &Request, steps: &mut Steps<L>) -> Result<Plan, FastFault>
        requires { (e : Event) × (r : Routing) × (is_rebuilt : Pair → Bool) × Leads self.now e r is_rebuilt request.now }
        ensures plan { (e : Event) (r : Routing) (is_rebuilt : Pair → Bool) → Leads self.now e r is_rebuilt request.now → MatchResult result (IsPlan (base_of self.now request.now) r is_rebuilt) (IsFault (base_of self.now request.now) r) }
        ensures named { IfOk result (λ plan. plan.named ≡ request.now.proposal.named) }
        ensures steps { (e : Event) (r : Routing) (is_rebuilt : Pair → Bool) → Leads self.now e r is_rebuilt request.now → IsWithinSteps (base_of self.now request.now) r is_rebuilt steps.old steps.new }
    {
        let Ok(views) = lend_changed(self.alloc, &self.programs, &request.change) else {
            return Err(FastFault::Memory);
        };
        plan(
            self.alloc,
            &self.registry,
            &self.classes,
            &self.pool,
            &self.adverts,
            &self.switch,
            &views,
            &request.proposal,
            &request.rebuild,
            steps,
        )
    }
}
