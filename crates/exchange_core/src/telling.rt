//! What a background job is told of a plan, before it is committed.

ghost use Rattle.std.specs.Prelude.{◌≡◌, ◌≤◌, ◌*◌, length, IfOk, OnErr, OnOk};
ghost use Rattle.std.specs.FinMap.{keys};
ghost use Rattle.exchange_laws.specs.Listed.{is_pair_before};
ghost use Rattle.fast_path.specs.Committing.{signed, tags_of};
ghost use Rattle.fast_path.specs.Pairs.{staying};
ghost use Rattle.job_upkeep.specs.Upkeep.{fresh_of};
ghost use Rattle.net_types.specs.Sets.{IsRising};
ghost use Rattle.exchange_core.specs.Jobs.{IsTold, IsToldChanges, IsToldPolicy, pairs_with};
ghost use Rattle.exchange_core.specs.declared.programs.PolicyChange.TheVariants.{Stay};

use crate::programs::PolicyChange;
use fast_path::{Class, Plan, is_among};
use match_switch::Switch;
use net_types::{Items, Memory, Pair, Pairs, Tag};
use prefix_classes::ClassMap;
use recompile::Job;
use registry::Registry;
use std::alloc::Global;

/// The tags of classes.
fn tags_of(alloc: Global, classes: &[Class]) -> Result<Vec<Tag>, Memory>
    ensures { IfOk result (λ tags. tags.items ≡ tags_of (signed classes.now)) }
{
    let mut tags = Vec::new(alloc);
    for class in classes {
        tags.push(class.tag)?;
    }
    Ok(tags)
}

/// The pairs of the table but these.
fn pairs_beside(alloc: Global, switch: &Switch, gone: &[Pair]) -> Result<Vec<Pair>, Memory>
    requires { IsRising is_pair_before gone.now }
    ensures { IfOk result (λ pairs. pairs.items ≡ staying gone.now (keys switch.now.table)) }
{
    let mut pairs = Vec::new(alloc);
    for (pair, _) in switch.iter() {
        if !is_among(gone, pair) {
            pairs.push(pair)?;
        }
    }
    Ok(pairs)
}

/// The pairs of the table once a plan is committed.
fn pairs_after(alloc: Global, switch: &Switch, plan: &Plan) -> Result<Pairs, Memory>
    requires { IsRising is_pair_before plan.now.drops }
    ensures { IfOk result (λ pairs. pairs ≡ pairs_with switch.now.table plan.now) }
{
    let mut pairs = pairs_beside(alloc, switch, plan.dropped())?;
    pairs.extend_from_slice(plan.added())?;
    Ok(Items::from_vec(pairs))
}

/// A job is told what a plan changes.
fn tell_changes(names: &Registry, fresh: &[Tag], plan: &Plan, job: &mut Job) -> Result<(), Memory>
    requires fresh { fresh.now ≡ fresh_of plan.now }
    requires few { length plan.now.added ≤ length (fresh_of plan.now) * length names.now.ports }
    ensures told { OnOk result (IsToldChanges (length names.now.ports) plan.now job.old job.new) }
    ensures unchanged { OnErr result (job.new ≡ job.old) }
{
    let ports = names.ports().len() as u64;
    job.on_changes(plan.newly(), ports, fresh, plan.emptied(), plan.added())
}

/// A job is told that a plan comes of another policy.
fn tell_policy(
    alloc: Global,
    classes: &ClassMap,
    switch: &Switch,
    fresh: &[Tag],
    plan: &Plan,
    job: &mut Job,
) -> Result<(), Memory>
    requires fresh { fresh.now ≡ fresh_of plan.now }
    requires rising { IsRising is_pair_before plan.now.drops }
    ensures told { OnOk result (IsToldPolicy classes.now.tag switch.now.table plan.now job.new) }
    ensures unchanged { OnErr result (job.new ≡ job.old) }
{
    let pairs = pairs_after(alloc, switch, plan)?;
    job.on_policy(classes, fresh, pairs)
}

/// A job, where one runs, is told of a plan by the classes and the table that there were before. After want of memory it is as
/// it was.
pub fn tell_job(
    alloc: Global,
    names: &Registry,
    classes: &ClassMap,
    switch: &Switch,
    change: &PolicyChange,
    plan: &Plan,
    job: &mut Option<Job>,
) -> Result<(), Memory>
    requires few { change.now ≡ Stay → length plan.now.added ≤ length (fresh_of plan.now) * length names.now.ports }
    requires rising { IsRising is_pair_before plan.now.drops }
    ensures told { OnOk result (IsTold (length names.now.ports) classes.now.tag switch.now.table change.now plan.now job.old job.new) }
    ensures unchanged { OnErr result (job.new ≡ job.old) }
{
    let Some(job) = job else {
        return Ok(());
    };
    let fresh = tags_of(alloc, plan.fresh())?;
    match change {
        PolicyChange::Stay => tell_changes(names, &fresh, plan, job),
        _ => tell_policy(alloc, classes, switch, &fresh, plan, job),
    }
}
