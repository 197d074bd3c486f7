//! Which body a line has.

ghost use Rattle.std.specs.Prelude.{◌≡◌, ◌≤◌, ◌+◌, false, true, IfErr, IfOk, OnErr};
ghost use Rattle.events.specs.Forms.{IsWellFormed};
ghost use Rattle.events.specs.Fits.{IsStep, is_building, is_of_job};
ghost use Rattle.events.specs.Refusals.{is_placed};
ghost use Rattle.exchange_core.specs.Building.{Asks};
ghost use Rattle.exchange_core.specs.Jobs.{KeepsJob};
ghost use Rattle.exchange_core.specs.Steps.{step_bound};
ghost use Rattle.exchange_core.specs.Stops.{IsStop};

use super::Core;
use crate::request::Request;
use crate::stop::Stop;
use events::{Event, Refusal, Reply};
use job_upkeep::quiet_lines_keep_jobs;
use net_types::Steps;
use recompile::Job;
use std::sync::ledger::Ledger;

impl Core {
    /// Runs one line that isn't a job's, where it is in place. A line that isn't carried out leaves the exchange and the job as
    /// they were.
    pub(super) fn line<L: Ledger>(
        &mut self,
        event: &Event,
        job: &mut Option<Job>,
        steps: &mut Steps<L>,
    ) -> Result<Reply, Stop>
        requires formed { IsWellFormed event.now }
        requires line { is_of_job event.now ≡ false }
        ensures step { IfOk result (λ reply. IsStep self.old event.now reply self.new) }
        ensures stop { IfErr result (IsStop self.old event.now) }
        ensures unchanged { OnErr result (self.new ≡ self.old) }
        ensures job { IfOk result (λ reply. KeepsJob self.old event.now reply job.old job.new) }
        ensures job_unchanged { OnErr result (job.new ≡ job.old) }
        ensures steps { steps.new ≤ steps.old + step_bound self.old event.now }
    {
        if !self.is_placed(event) {
            return Err(Refusal::Misplaced.into());
        }
        quiet_lines_keep_jobs();
        self.is_steady();
        match event {
            Event::Bad => Err(Refusal::BadLine.into()),
            Event::Exchange {
                base,
                size,
                capacity,
            } => Ok(self.exchange(*base, *size, *capacity)?),
            Event::Participant { name, asn, id } => self.participant(name, *asn, *id),
            Event::Port {
                name,
                number,
                ip,
                mac,
            } => self.port(self.sender(name)?, *number, *ip, *mac),
            Event::Take { name, count } => Ok(self.take(self.sender(name)?, Some(*count))?),
            Event::Drain { name } => Ok(self.take(self.sender(name)?, None)?),
            Event::Arp { port, bytes } => Ok(self.arp(self.place(*port)?, bytes)?),
            Event::Resolve { port } => Ok(self.resolve(self.place(*port)?)?),
            Event::Packet { port, bytes } => self.packet(self.source(*port)?, bytes),
            Event::Frame { port, bytes } => Ok(self.frame(self.source(*port)?, bytes)?),
            Event::Table => Ok(self.table()?),
            _ => {
                let request = self.request(event)?;
                self.build(request, job, steps)
            }
        }
    }

    /// What a line asks for that builds rules.
    fn request(&self, event: &Event) -> Result<Request, Stop>
        requires formed { IsWellFormed event.now }
        requires building { is_building event.now ≡ true }
        requires placed { is_placed self.now.phase event.now ≡ true }
        ensures { Asks self.now event.now result }
    {
        match event {
            Event::Update { name, bytes } => self.update(self.sender(name)?, bytes),
            Event::Down { name } => self.down(self.sender(name)?),
            Event::Export { name, text } => self.export(self.sender(name)?, text),
            Event::Outbound { name, text } => self.outbound(self.sender(name)?, text),
            Event::Inbound { name, text } => self.inbound(self.sender(name)?, text),
            _ => unreachable!(),
        }
    }
}
