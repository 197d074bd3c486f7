//! The lines by which a participant takes what is pending for it.

ghost use Rattle.std.specs.Prelude.{◌≡◌, ◌<◌, List, ℕ, IfOk, OnErr, length};
ghost use Rattle.events.specs.Fits.{IsStep, bare};
ghost use Rattle.exchange_laws.specs.Telling.{told_anew};
ghost use Rattle.exchange_core.specs.Changing.{IsSender};
ghost use Rattle.exchange_core.specs.Taking.{IsTaker, IsTaking, line_of, told_after};

use super::Core;
use crate::replies::bare_reply;
use crate::taking::{dead_among, pairs_of};
use events::{Head, Messages, Phase, Reply};
use fast_path::{forget_all, give_all, remove_all};
use net_types::{Items, Memory, Pairs, Pid, Tags};

/// By what a participant is told some of what is pending, and what goes with what it was told before.
#[derive(Drop)]
struct Taking {
    adverts: Messages,
    /// The pairs that are live no more.
    drops: Pairs,
    /// The tags that are live no more.
    dead: Tags,
}

impl Core {
    /// The participant takes the first of what is pending, at most so many, or all where there is no limit. All memory is
    /// taken before anything changes, and the work follows what is taken.
    pub(super) fn take(&mut self, who: Pid, limit: Option<u32>) -> Result<Reply, Memory>
        requires { IsTaker self.old who limit }
        ensures step { IfOk result (λ reply. (name : List ℕ) → IsSender self.old name who → IsStep self.old (line_of name limit) reply self.new) }
        ensures unchanged { OnErr result (self.new ≡ self.old) }
    {
        self.is_steady();
        let taking = self.taking(who, limit)?;
        Ok(self.tell(who, limit, taking))
    }

    /// What a participant takes.
    fn taking(&self, who: Pid, limit: Option<u32>) -> Result<Taking, Memory>
        requires { who.0 < length self.now.told }
        ensures { IfOk result (IsTaking self.now who limit) }
    {
        let adverts = self.adverts.messages(self.base, who, limit)?;
        let gone = self.adverts.gone(who, limit)?;
        let drops = pairs_of(self.alloc, self.registry.ports_of(who), &gone)?;
        let dead = dead_among(self.alloc, &self.classes, &self.adverts, who, &gone)?;
        Ok(Taking {
            adverts,
            drops: Items::from_vec(drops),
            dead: Items::from_vec(dead),
        })
    }

    /// The participant takes it, which needs no memory.
    fn tell(&mut self, who: Pid, limit: Option<u32>, taking: Taking) -> Reply
        requires taker { IsTaker self.old who limit }
        requires taking { IsTaking self.old who limit taking }
        ensures reply { result ≡ record (bare Head.Fine) { drops = taking.drops; adverts = taking.adverts } }
        ensures state { self.new ≡ told_anew self.old who (told_after self.old who limit) }
    {
        let Taking {
            adverts,
            drops,
            dead,
        } = taking;
        self.adverts.take(who, limit);
        remove_all(&mut self.switch, drops.items());
        forget_all(&mut self.classes, dead.items());
        give_all(&mut self.pool, dead.items());
        self.phase = Phase::Running;
        let mut reply = bare_reply(self.alloc, Head::Fine);
        reply.drops = drops;
        reply.adverts = adverts;
        reply
    }
}
