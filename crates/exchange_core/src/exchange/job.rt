//! The table's pairs, with which a background job starts, and the end of a job.

ghost use Rattle.std.specs.Prelude.{◌≡◌, true, IfOk, IfErr, OnErr};
ghost use Rattle.std.specs.FinMap.{keys};
ghost use Rattle.events.specs.State.{State};
ghost use Rattle.job_end.specs.Ends.{IsEnd};
ghost use Rattle.job_laws.specs.Jobs.{IsSteadyInJob, without_job};
ghost use Rattle.recompile.specs.Setting.{setting_of};
ghost use Rattle.recompile.specs.Working.{IsSwap};
ghost use Rattle.exchange_core.specs.Jobs.{EndsJob};
ghost use Rattle.exchange_core.specs.Placed.{is_declared};

use super::Core;
use crate::replies::changes_reply;
use events::{Head, Phase, Reply};
use job_end::{End, commit_end, ends_are_committed, plan_end, reserve_end};
use net_types::{Memory, Pairs};
use recompile::Swap;

impl Core {
    /// The pairs of the table, ascending by port, and then by tag. Memory is the only refusal.
    pub fn pairs(&self) -> Result<Pairs, Memory>
        ensures { IfOk result (λ pairs. pairs ≡ keys self.now.table) }
    {
        self.switch.pairs(self.alloc)
    }

    /// What the end of a job does, whichever job it is.
    fn planned_end(&self, swap: &Swap) -> Result<End, Memory>
        requires { IsSwap (setting_of self.now) swap.now }
        ensures { (s : State) → IsSteadyInJob s → without_job s ≡ self.now → IfOk result (IsEnd s swap.now) }
    {
        plan_end(
            self.alloc,
            &self.registry,
            &self.classes,
            &self.adverts,
            &self.switch,
            swap,
        )
    }

    /// A job ends: the classes are merged, and the rules of each pair become tight. After want of memory nothing has changed,
    /// and the swap is given back.
    pub fn finish(&mut self, swap: Swap) -> Result<Reply, Swap>
        requires declared { is_declared self.old.phase ≡ true }
        requires swap { IsSwap (setting_of self.old) swap }
        ensures step { IfOk result (λ reply. EndsJob self.old reply self.new) }
        ensures unchanged { OnErr result (self.new ≡ self.old) }
        ensures swap { IfErr result (λ back. back ≡ swap) }
    {
        ends_are_committed();
        let Ok(end) = self.planned_end(&swap) else {
            return Err(swap);
        };
        let Ok(()) = reserve_end(self.alloc, &self.registry, &end, &mut self.adverts) else {
            return Err(swap);
        };
        let changes = commit_end(
            end,
            swap,
            &mut self.classes,
            &mut self.pool,
            &mut self.switch,
            &mut self.adverts,
        );
        self.phase = Phase::Running;
        Ok(changes_reply(self.alloc, Head::Finished, changes))
    }
}
