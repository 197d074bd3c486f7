//! The lines of the background job, and what it is told of the other lines.

ghost use Rattle.std.specs.Prelude.{◌≡◌, ◌≤◌, ◌+◌, false, IfOk, OnErr};
ghost use Rattle.events.specs.Forms.{IsWellFormed};
ghost use Rattle.events.specs.Fits.{IsStep, is_of_job};
ghost use Rattle.events.specs.declared.Event.TheVariants as lines;
ghost use Rattle.sdx_core.specs.Steps.{step_bound};

use super::Sdx;
use events::{Event, Head, Refusal, Reply};
use exchange_core::{bare_reply, refused};
use job_laws::{
    all_steps_stay_steady, jobs_leave_lines, recompiles_are_accepted, works_are_accepted,
};
use job_upkeep::jobs_begin;
use net_types::{Memory, Steps};
use recompile::{Job, Progress};
use std::sync::ledger::Ledger;

impl Sdx {
    /// Runs a line that isn't a job's. A job that runs is told of it.
    pub(super) fn line<L: Ledger>(
        &mut self,
        event: &Event,
        steps: &mut Steps<L>,
    ) -> Result<Reply, Memory>
        requires formed { IsWellFormed event.now }
        requires line { is_of_job event.now ≡ false }
        ensures step { IfOk result (λ reply. IsStep self.old event.now reply self.new) }
        ensures unchanged { OnErr result (self.new ≡ self.old) }
        ensures steps { steps.new ≤ steps.old + step_bound self.old event.now }
    {
        jobs_leave_lines();
        all_steps_stay_steady();
        self.core.is_steady();
        self.core.step(event, &mut self.job, steps)
    }

    /// A job starts. It owes a unit for each carried prefix and each pair of the table.
    pub(super) fn recompile(&mut self) -> Result<Reply, Memory>
        ensures step { IfOk result (λ reply. IsStep self.old lines.Recompile reply self.new) }
        ensures unchanged { OnErr result (self.new ≡ self.old) }
    {
        recompiles_are_accepted();
        jobs_begin();
        self.core.is_steady();
        if self.job.is_some() {
            return Ok(refused(self.alloc, Refusal::Misplaced));
        }
        if !self.core.is_placed(&Event::Recompile) {
            return Ok(refused(self.alloc, Refusal::Misplaced));
        }
        let pairs = self.core.pairs()?;
        let job = Job::start(self.alloc, self.core.classes(), pairs)?;
        let owed = job.owed();
        self.job = Some(job);
        self.core.start_running();
        Ok(bare_reply(self.alloc, Head::Working(owed)))
    }

    /// The job does so many units, or ends.
    pub(super) fn work<L: Ledger>(
        &mut self,
        units: u64,
        steps: &mut Steps<L>,
    ) -> Result<Reply, Memory>
        ensures step { IfOk result (λ reply. IsStep self.old (lines.Work units) reply self.new) }
        ensures unchanged { OnErr result (self.new ≡ self.old) }
        ensures steps { steps.new ≤ steps.old + step_bound self.old (lines.Work units) }
    {
        works_are_accepted();
        self.core.is_steady();
        if !self.core.is_placed(&Event::Work { units }) {
            return Ok(refused(self.alloc, Refusal::Misplaced));
        }
        let Some(job) = &mut self.job else {
            return Ok(refused(self.alloc, Refusal::Misplaced));
        };
        match job.work(units, self.core.classes(), self.core.switch(), steps)? {
            Progress::Working(left) => {
                self.core.start_running();
                Ok(bare_reply(self.alloc, Head::Working(left)))
            }
            Progress::Ready(swap) => match self.core.finish(swap) {
                Ok(reply) => {
                    self.core.is_steady();
                    self.job = None;
                    Ok(reply)
                }
                Err(swap) => {
                    job.give_up(swap);
                    Err(Memory)
                }
            },
        }
    }
}
