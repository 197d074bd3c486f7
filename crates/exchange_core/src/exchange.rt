//! The exchange, and the one step that a line is.

ghost use Rattle.std.specs.Prelude.{◌≡◌, ◌≤◌, ◌+◌, false, IfOk, OnErr};
ghost use Rattle.events.specs.Forms.{IsWellFormed};
ghost use Rattle.events.specs.Fits.{IsStep, is_of_job};
ghost use Rattle.events.specs.State.{first};
ghost use Rattle.exchange_core.specs.Jobs.{KeepsJob};
ghost use Rattle.exchange_core.specs.Steps.{step_bound};

mod build;
mod change;
mod declare;
mod forward;
mod job;
mod known;
mod lend;
mod line;
mod program;
mod resolve;
mod show;
mod take;

use crate::address_set::AddressSet;
use crate::programs::Programs;
use crate::replies::refused;
use crate::stop::Stop;
use advert_queue::Adverts;
use events::{Event, Phase, Reply};
use match_switch::Switch;
use net_types::{Ip, Memory, Steps};
use next_hop_pool::Pool;
use prefix_classes::ClassMap;
use recompile::Job;
use registry::Registry;
use route_server::RouteServer;
use std::alloc::Global;
use std::marker::Model;
use std::sync::ledger::Ledger;

/// An exchange without a background job.
#[derive(Drop)]
pub struct Core {
    alloc: Global,
    phase: Phase,
    base: Ip,
    size: u32,
    registry: Registry,
    server: RouteServer,
    /// For each port, the addresses that its router has resolved.
    resolved: Vec<AddressSet>,
    classes: ClassMap,
    pool: Pool,
    /// What each participant was told, and what is present for it.
    adverts: Adverts,
    switch: Switch,
    /// The policies of each participant.
    programs: Vec<Programs>,
}

impl Model for Core {
    ghost use Rattle.events.specs.State.{State};

    ghost Value = { State };

    ghost use Rattle.std.specs.Coded.{codes};
    ghost use Rattle.std.specs.FinMap as map;

    ghost coded = { Prim.hlevel (codes, map.code) };

    ghost use Rattle.exchange_core.specs.View.{state_of, AreParts};

    ghost view = { λ a. state_of a.phase a.base a.size a.registry a.server a.resolved.items a.classes a.adverts.told a.switch a.programs.items };

    ghost invariant = { λ a. AreParts (state_of a.phase a.base a.size a.registry a.server a.resolved.items a.classes a.adverts.told a.switch a.programs.items) a.pool a.programs.items a.adverts.present };
}

impl Core {
    /// An exchange without lines.
    pub fn new(alloc: Global) -> Core
        ensures { result ≡ first }
    {
        Core {
            alloc,
            phase: Phase::Start,
            base: Ip(0),
            size: 0,
            registry: Registry::new(alloc),
            server: RouteServer::new(alloc),
            resolved: Vec::new(alloc),
            classes: ClassMap::new(alloc),
            pool: Pool::none(alloc),
            adverts: Adverts::new(alloc),
            switch: Switch::new(alloc, 0),
            programs: Vec::new(alloc),
        }
    }

    /// The table of the switch, as it is between two lines.
    pub fn switch(&self) -> &Switch
        ensures { result.now.table ≡ self.now.table }
    {
        &self.switch
    }

    /// The tags of the prefixes and the signatures that are kept for the tags, as they are between two lines.
    pub fn classes(&self) -> &ClassMap
        ensures tag { result.now.tag ≡ self.now.tag }
        ensures kept { result.now.kept ≡ self.now.kept }
    {
        &self.classes
    }

    /// Runs one line that isn't a job's: the reply is one that is legal for the event, and the exchange is the one that
    /// follows. A job, where one runs, is told of it. After want of memory the exchange and the job are as they were.
    pub fn step<L: Ledger>(
        &mut self,
        event: &Event,
        job: &mut Option<Job>,
        steps: &mut Steps<L>,
    ) -> Result<Reply, Memory>
        requires formed { IsWellFormed event.now }
        requires line { is_of_job event.now ≡ false }
        ensures step { IfOk result (λ reply. IsStep self.old event.now reply self.new) }
        ensures unchanged { OnErr result (self.new ≡ self.old) }
        ensures job { IfOk result (λ reply. KeepsJob self.old event.now reply job.old job.new) }
        ensures job_unchanged { OnErr result (job.new ≡ job.old) }
        ensures steps { steps.new ≤ steps.old + step_bound self.old event.now }
    {
        match self.line(event, job, steps) {
            Ok(reply) => Ok(reply),
            Err(Stop::Refused(refusal)) => Ok(refused(self.alloc, refusal)),
            Err(Stop::Memory) => Err(Memory),
        }
    }
}
