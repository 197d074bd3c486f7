//! A background job.

ghost use Rattle.std.specs.Prelude.{◌≡◌, ◌≤◌, ◌+◌, ◌*◌, [], true, false, length, min, IfOk, OnErr, OnOk};
ghost use Rattle.std.specs.FinMap.{empty, entries};
ghost use Rattle.events.specs.Tags.{capped};
ghost use Rattle.recompile.specs.Changing.{CoversAfter, CoversListed};
ghost use Rattle.prefix_classes.specs.Merging.{IsFull, IsMergeOf};
ghost use Rattle.recompile.specs.Covering.{Covers, IsKeptUp, NeedsAtMost};
ghost use Rattle.recompile.specs.Setting.{setting};
ghost use Rattle.recompile.specs.Units.{NeedsFewer};
ghost use Rattle.recompile.specs.Working.{IsProgress, with_built};

use crate::lists::{
    listed, pair_to_do, push_both, reserve_each, tag_to_do, tags_with, take_out_each,
};
use crate::swap::{Built, Progress, Swap};
use crate::units::{all_units, more_units};
use block_build::Blocks;
use net_types::{Memory, Pair, Pairs, Steps, Tag};
use prefix_classes::{ClassMap, Grouping};
use std::alloc::Global;
use std::marker::Model;
use std::mem;
use std::sync::ledger::Ledger;

/// A job: what is done, what is still to do, and how many units it owes. Contracts see an `Underway`.
#[derive(Drop)]
pub struct Job {
    alloc: Global,
    owed: u64,
    placed: Grouping,
    built: Built,
    /// The tags that are still to do, each of which is taken out once it is placed, among others that are gone or placed; these cost
    /// no unit.
    tags: Vec<Tag>,
    /// The pairs that are still to do, each of which is taken out once it is done, among others that are gone; these cost no unit.
    pairs: Vec<Pair>,
}

impl Model for Job {
    ghost use Rattle.std.specs.Coded.{codes};
    ghost use Rattle.std.specs.FinMap as map;
    ghost use Rattle.recompile.specs.Underway.{Underway};

    ghost Value = { Underway };

    ghost coded = { Prim.hlevel (codes, map.code) };

    ghost view = { λ j. record { owed = j.owed; placed = j.placed; built = j.built; tags = j.tags.items; pairs = j.pairs.items } };
}

impl Job {
    /// A job of which nothing is done, for classes and the pairs of a table, each once. It owes a unit for each prefix that has
    /// a tag and each pair. Memory is the only refusal.
    pub fn start(alloc: Global, classes: &ClassMap, pairs: Pairs) -> Result<Job, Memory>
        ensures owed { IfOk result (λ job. job.owed ≡ capped (length (entries classes.now.tag) + length pairs)) }
        ensures covers { IfOk result (CoversListed classes.now.tag [] pairs) }
    {
        Job::begin(alloc, classes, &[], pairs)
    }

    /// How many units the job owes.
    pub fn owed(&self) -> u64
        ensures { result ≡ self.now.owed }
    {
        self.owed
    }

    /// Does so many units, or what is left to do. A unit places a tag with its kept signature, or makes the rules of a pair tight
    /// where they aren't;
    /// each is one step. The swap is ready exactly where the job owes no more than the units; the job then owes as much as before,
    /// and has given away what it built. After want of memory it owes as much as before, and covers the same.
    pub fn work<B: Blocks, L: Ledger>(
        &mut self,
        units: u64,
        classes: &ClassMap,
        switch: &B,
        steps: &mut Steps<L>,
    ) -> Result<Progress, Memory>
        requires covers { Covers (setting classes.now (B.installed switch.now).table) self.old }
        ensures progress { IfOk result (IsProgress (setting classes.now (B.installed switch.now).table) units self.old self.new) }
        ensures owed { OnErr result (self.new.owed ≡ self.old.owed) }
        ensures kept { OnErr result (Covers (setting classes.now (B.installed switch.now).table) self.new) }
        ensures steps { steps.new ≤ steps.old + min units self.old.owed }
    {
        let is_last = self.owed <= units;
        let count = units.min(self.owed);
        self.do_units(count, classes, switch, steps)?;
        if is_last {
            return Ok(Progress::Ready(self.finish(classes)?));
        }
        self.owed -= units;
        Ok(Progress::Working(self.owed))
    }

    /// Takes a swap back, where its line is given up for want of memory. It takes no memory.
    pub fn give_up(&mut self, swap: Swap)
        ensures { self.new ≡ with_built self.old swap }
    {
        self.built = swap.built;
    }

    /// A line has made so many prefixes carried, given fresh tags, emptied tags and added pairs of fresh tags, each once: at most
    /// as many for a tag as there are ports. After want of memory the job is as it was.
    pub fn on_changes(
        &mut self,
        newly: u64,
        ports: u64,
        fresh: &[Tag],
        emptied: &[Tag],
        added: &[Pair],
    ) -> Result<(), Memory>
        requires few { length added.now ≤ length fresh.now * ports }
        ensures owed { OnOk result (self.new.owed ≡ capped (self.old.owed + (newly + length fresh.now * (ports + 1)))) }
        ensures covers { OnOk result (CoversAfter fresh.now emptied.now added.now self.old self.new) }
        ensures unchanged { OnErr result (self.new ≡ self.old) }
    {
        push_both(&mut self.tags, &mut self.pairs, fresh, added)?;
        take_out_each(&mut self.placed, emptied);
        self.built.take_each(added);
        self.owed = more_units(self.owed, newly, fresh.len() as u64, ports);
        Ok(())
    }

    /// A line has changed a policy, given fresh tags and built pairs anew: the job begins anew, for the classes as they were
    /// before, the fresh tags and the pairs of the table after the line, each once. After want of memory it is as it was.
    pub fn on_policy(
        &mut self,
        classes: &ClassMap,
        fresh: &[Tag],
        pairs: Pairs,
    ) -> Result<(), Memory>
        ensures owed { OnOk result (self.new.owed ≡ capped (length (entries classes.now.tag) + length pairs)) }
        ensures covers { OnOk result (CoversListed classes.now.tag fresh.now pairs self.new) }
        ensures unchanged { OnErr result (self.new ≡ self.old) }
    {
        *self = Job::begin(self.alloc, classes, fresh, pairs)?;
        Ok(())
    }

    /// A job of which nothing is done, for the tags with members, fresh ones and these pairs.
    fn begin(alloc: Global, classes: &ClassMap, fresh: &[Tag], pairs: Pairs) -> Result<Job, Memory>
        ensures owed { IfOk result (λ job. job.owed ≡ capped (length (entries classes.now.tag) + length pairs)) }
        ensures covers { IfOk result (CoversListed classes.now.tag fresh.now pairs) }
    {
        let tags = tags_with(classes, fresh)?;
        let owed = all_units(classes.carried(), pairs.len());
        let pairs = listed(pairs)?;
        let mut placed = Grouping::new(alloc);
        reserve_each(&mut placed, &tags)?;
        Ok(Job {
            alloc,
            owed,
            placed,
            built: Built::new(alloc),
            tags,
            pairs,
        })
    }

    /// Does one unit, and answers whether there was one to do. It counts a step only where there was.
    fn do_one<B: Blocks, L: Ledger>(
        &mut self,
        classes: &ClassMap,
        switch: &B,
        steps: &mut Steps<L>,
    ) -> Result<bool, Memory>
        requires { IsKeptUp (setting classes.now (B.installed switch.now).table) self.old }
        ensures kept { IsKeptUp (setting classes.now (B.installed switch.now).table) self.new }
        ensures owed { self.new.owed ≡ self.old.owed }
        ensures done { IfOk result (λ more. more ≡ true → NeedsFewer (setting classes.now (B.installed switch.now).table) 1 self.old self.new) }
        ensures none { IfOk result (λ more. more ≡ false → NeedsAtMost (setting classes.now (B.installed switch.now).table) self.new 0) }
        ensures same { OnErr result (NeedsFewer (setting classes.now (B.installed switch.now).table) 0 self.old self.new) }
        ensures steps { steps.new ≤ steps.old + 1 }
    {
        if let Some(tag) = tag_to_do(&mut self.tags, &self.placed, classes) {
            self.placed.place(classes, tag, steps)?;
            self.tags.pop();
            return Ok(true);
        }
        if let Some((pair, old)) = pair_to_do(&mut self.pairs, switch) {
            self.built.build(self.alloc, pair, old, steps)?;
            self.pairs.pop();
            return Ok(true);
        }
        Ok(false)
    }

    /// Does so many units, or all that there are to do.
    fn do_units<B: Blocks, L: Ledger>(
        &mut self,
        count: u64,
        classes: &ClassMap,
        switch: &B,
        steps: &mut Steps<L>,
    ) -> Result<(), Memory>
        requires { IsKeptUp (setting classes.now (B.installed switch.now).table) self.old }
        ensures kept { IsKeptUp (setting classes.now (B.installed switch.now).table) self.new }
        ensures owed { self.new.owed ≡ self.old.owed }
        ensures done { OnOk result (NeedsFewer (setting classes.now (B.installed switch.now).table) count self.old self.new) }
        ensures same { OnErr result (NeedsFewer (setting classes.now (B.installed switch.now).table) 0 self.old self.new) }
        ensures steps { steps.new ≤ steps.old + count }
    {
        for _ in 0..count {
            if !self.do_one(classes, switch, steps)? {
                return Ok(());
            }
        }
        Ok(())
    }

    /// The swap of a job of which all is done.
    fn finish(&mut self, classes: &ClassMap) -> Result<Swap, Memory>
        requires { IsFull classes.now.tag classes.now.kept self.old.placed }
        ensures moves { IfOk result (λ swap. IsMergeOf classes.now.tag classes.now.kept swap.moves) }
        ensures built { IfOk result (λ swap. swap.built ≡ self.old.built) }
        ensures rest { OnOk result (self.new ≡ record self.old { built = empty }) }
        ensures unchanged { OnErr result (self.new ≡ self.old) }
    {
        let moves = classes.merge_plan(&self.placed)?;
        let built = mem::replace(&mut self.built, Built::new(self.alloc));
        Ok(Swap { moves, built })
    }
}
