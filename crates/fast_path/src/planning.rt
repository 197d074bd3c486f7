//! Planning a line that builds rules: the tags that touched prefixes get, the pairs of the table that go, and the rules of
//! those that come.

ghost use Rattle.std.specs.Prelude.{◌≡◌, ◌≤◌, ◌<◌, Bool, length, IfOk, IfNone, IfSome, MatchResult};
ghost use Rattle.net_types.specs.Exports.{Routing};
ghost use Rattle.net_types.specs.declared.rule.Pair.{Pair as AnyPair};
ghost use Rattle.events.specs.State.{State};
ghost use Rattle.fast_path.specs.Drafts.{IsDraft, IsDrafted};
ghost use Rattle.fast_path.specs.Plans.{IsAsked, IsAskedFor, IsFault, IsPlan, IsWithinSteps};
ghost use Rattle.next_hop_pool.specs.Free.{free_tags};

use crate::building::{flows_of, rules_for};
use crate::classes::with_tags;
use crate::draft::Draft;
use crate::emptied::emptied;
use crate::grouping::{Groups, groups_for};
use crate::known::KnownClasses;
use crate::moves::{Moves, moves_of};
use crate::offering::offers_of;
use crate::pairs::{built_pairs, dropped_pairs, gone_pairs, untold};
use crate::planned::{FastFault, Plan};
use crate::tagging::{fresh_tags, tagged};
use advert_queue::Adverts;
use block_build::{Block, Blocks, Views};
use net_types::{Items, Memory, Pair, Pid, Pids, Steps};
use next_hop_pool::Pool;
use prefix_classes::ClassMap;
use registry::Registry;
use route_server::Proposal;
use rule_laws::right_rules_are_few;
use std::alloc::Global;
use std::sync::ledger::Ledger;

/// What becomes of tags and pairs by a proposal, by the groups that get fresh tags.
fn drafted<'a>(
    alloc: Global,
    names: &Registry,
    classes: &ClassMap,
    pool: &Pool,
    adverts: &Adverts,
    proposal: &'a Proposal,
    groups: Groups<'a>,
    rebuild: &[Pair],
) -> Result<Draft, Memory>
    requires { length groups ≤ length (free_tags pool.now) }
    ensures { IfOk result (IsDraft names.now classes.now pool.now adverts.now.told proposal.now groups.entry rebuild.now) }
{
    let known = KnownClasses::of(classes, proposal);
    let given = fresh_tags(alloc, pool, groups.len())?;
    let after = tagged(alloc, &known, proposal, &groups, &given)?;
    let moves = moves_of(alloc, &known, after.items())?;
    let newly = moves.newly();
    let Moves {
        changes: tags,
        left,
    } = moves;
    let left = emptied(alloc, classes, left)?;
    let dead = untold(alloc, adverts, &left)?;
    let gone = gone_pairs(alloc, names, classes, adverts, &left, &dead)?;
    let drops = dropped_pairs(alloc, gone.items(), rebuild)?;
    let fresh = with_tags(alloc, groups.into_fresh(), &given, tags.items())?;
    let built = built_pairs(alloc, names, &fresh, gone.items(), rebuild)?;
    let offers = offers_of(alloc, names, proposal, after.items())?;
    Ok(Draft {
        tags,
        drops,
        built,
        fresh,
        emptied: left,
        dead,
        newly,
        offers,
    })
}

/// How many fresh tags are needed and how many are free, where these are fewer.
fn shortage(pool: &Pool, groups: &Groups<'_>) -> Option<(u64, u32)>
    ensures short { IfSome result (λ x. (x.0 ≡ length groups.now) × (x.1 ≡ length (free_tags pool.now)) × (x.1 < x.0)) }
    ensures enough { IfNone result (length groups.now ≤ length (free_tags pool.now)) }
{
    let need = groups.len() as u64;
    let free = pool.free();
    if need > free as u64 {
        Some((need, free))
    } else {
        None
    }
}

/// A copy of whom a proposal names.
fn names_of(alloc: Global, proposal: &Proposal) -> Result<Option<(Pid, Pids)>, Memory>
    ensures { IfOk result (λ named. named ≡ proposal.now.named) }
{
    match proposal.named() {
        None => Ok(None),
        Some((who, pids)) => {
            let named = Items::from_vec(Vec::from_slice(alloc, pids)?);
            Ok(Some((who, named)))
        }
    }
}

/// The plan that is a draft with the rules of its pairs.
fn joined(
    alloc: Global,
    proposal: &Proposal,
    draft: Draft,
    blocks: Vec<(Pair, Block)>,
) -> Result<Plan, Memory>
    ensures { IfOk result (IsDrafted draft proposal.now blocks.items) }
{
    let named = names_of(alloc, proposal)?;
    let adds = flows_of(alloc, &blocks)?;
    Ok(Plan {
        tags: draft.tags,
        drops: draft.drops,
        adds,
        added: draft.built,
        blocks,
        fresh: draft.fresh,
        emptied: draft.emptied,
        dead: draft.dead,
        newly: draft.newly,
        offers: draft.offers,
        named,
    })
}

/// What a line that builds rules does, by a proposal and the pairs that are built anew, which rise. More fresh tags than are
/// free are refused first, and then more rules than the table has room for. Each pair that is built counts one step at most.
pub fn plan<B: Blocks, L: Ledger>(
    alloc: Global,
    names: &Registry,
    classes: &ClassMap,
    pool: &Pool,
    adverts: &Adverts,
    switch: &B,
    views: &Views<'_>,
    proposal: &Proposal,
    rebuild: &[Pair],
    steps: &mut Steps<L>,
) -> Result<Plan, FastFault>
    requires { IsAskedFor names.now classes.now pool.now adverts.now.told (B.installed switch.now) views.now proposal.now rebuild.now }
    ensures plan { (s : State) (r : Routing) (is_rebuilt : AnyPair → Bool) → IsAsked s r is_rebuilt names.now classes.now pool.now adverts.now.told (B.installed switch.now) views.now proposal.now rebuild.now → MatchResult result (IsPlan s r is_rebuilt) (IsFault s r) }
    ensures named { IfOk result (λ p. p.named ≡ proposal.now.named) }
    ensures steps { (s : State) (r : Routing) (is_rebuilt : AnyPair → Bool) → IsAsked s r is_rebuilt names.now classes.now pool.now adverts.now.told (B.installed switch.now) views.now proposal.now rebuild.now → IsWithinSteps s r is_rebuilt steps.old steps.new }
{
    right_rules_are_few();
    let known = KnownClasses::of(classes, proposal);
    let groups = groups_for(alloc, &known, proposal)?;
    if let Some((need, free)) = shortage(pool, &groups) {
        return Err(FastFault::NoNextHop { need, free });
    }
    let draft = drafted(
        alloc, names, classes, pool, adverts, proposal, groups, rebuild,
    )?;
    let drops = draft.drops.items();
    let built = draft.built.items();
    let blocks = match rules_for(
        alloc,
        names,
        &known,
        &draft.fresh,
        views,
        switch,
        drops,
        built,
        steps,
    ) {
        Ok(blocks) => blocks,
        Err(fault) => return Err(fault),
    };
    let plan = joined(alloc, proposal, draft, blocks)?;
    Ok(plan)
}
