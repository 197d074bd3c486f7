//! Building the rules of the pairs that come, and of those that are built anew.

ghost use Rattle.std.specs.Prelude.{◌≡◌, ◌≤◌, ◌<◌, ◌+◌, ◌-◌, ◌^◌, ◌++◌, ◌∷◌, [], Option, Some, length, map, sum_by, IfOk, IfErr, IfSome, OnOk, MatchResult, option_copied, find};
ghost use Rattle.std.specs.Option.{option_and_then};
ghost use Rattle.net_types.specs.Answers.{Policies};
ghost use Rattle.net_types.specs.Sets.{Member, union_over};
ghost use Rattle.net_types.specs.declared.route.Part.{Part as AnyPart};
ghost use Rattle.net_types.specs.declared.rule.Pair.{Pair as AnyPair};
ghost use Rattle.events.specs.Fits.{flows_of};
ghost use Rattle.events.specs.Sound.{IsRight, part_of};
ghost use Rattle.exchange_laws.specs.Whole.{IsWhole};
ghost use Rattle.block_build.specs.Installed.{count_at, rule_count};
ghost use Rattle.block_build.specs.Lent.{AreOf};
ghost use Rattle.fast_path.specs.Building.{AreBlocksFor, AreInOrder, HasPart, IsBlockFor, IsFaultBeside, IsFaultFor, IsRefusedFor, IsWideBy, is_class_of, part_at, refused, rules_left, sig_after, site_of};
ghost use Rattle.fast_path.specs.Grouping.{Known};
ghost use Rattle.fast_path.specs.Last.{AreLast};

use crate::known::{KnownClasses, part_in};
use crate::last::{Lasts, built_again, noted};
use crate::planned::{Class, FastFault};
use block_build::{
    Block, Blocks, BuildFault, Views, build_with, no_more_cells, right_for_policies, views_are_of,
};
use events::{Flow, Flows};
use net_types::{Items, Memory, Pair, Part, Pid, PortNo, Rule, Steps, Tag, TryCopy};
use registry::Registry;
use rule_laws::offers_differ;
use std::alloc::Global;
use std::sync::ledger::Ledger;

/// The class of a tag that is fresh.
fn class_of(fresh: &[Class], tag: Tag) -> Option<&Class>
    requires { AreInOrder fresh.now }
    ensures { option_copied result ≡ find (is_class_of tag) fresh.now }
{
    match fresh.binary_search_by_key(&tag, |class| class.tag) {
        Ok(at) => Some(&fresh[at]),
        Err(_) => None,
    }
}

/// The part of a participant in the signature that the tag has afterwards: a fresh tag has that of its class.
fn part_after(
    known: &KnownClasses<'_>,
    fresh: &[Class],
    tag: Tag,
    who: Pid,
) -> Result<Option<Part>, Memory>
    requires { AreInOrder fresh.now }
    ensures { IfOk result (λ part. part ≡ option_and_then (λ sig. part_of sig who) (sig_after known.now fresh.now tag)) }
{
    let Some(class) = class_of(fresh, tag) else {
        return known.part_of(tag, who);
    };
    match part_in(class.sig.items(), who) {
        None => Ok(None),
        Some(part) => Ok(Some(part.copy()?)),
    }
}

/// The part of the owner of the pair's port.
fn part_at(
    names: &Registry,
    known: &KnownClasses<'_>,
    fresh: &[Class],
    pair: Pair,
) -> Result<Option<Part>, Memory>
    requires { AreInOrder fresh.now }
    ensures { IfOk result (λ part. part ≡ part_at names.now known.now fresh.now pair) }
{
    match names.port(pair.port) {
        None => Ok(None),
        Some(port) => part_after(known, fresh, pair.tag, port.owner),
    }
}

/// The rules of a part at a port. What they do is what the policies do whose classifiers these are.
fn block_of<L: Ledger>(
    alloc: Global,
    views: &Views<'_>,
    port: PortNo,
    part: &Part,
    room: usize,
    blocks: &[(Pair, Block)],
    lasts: &mut Lasts,
    steps: &mut Steps<L>,
) -> Result<Block, BuildFault>
    requires whole { IsWhole (length views.now) part.now }
    requires last { AreLast views.now blocks.now lasts.old }
    ensures last { IfOk result (λ block. (next : AnyPair) → AreLast views.now (blocks.now ++ (next, block) ∷ []) lasts.new) }
    ensures steps { steps.new ≤ steps.old + 1 }
    ensures right { IfOk result (λ block. (ps : Policies) → AreOf ps views.now → IsRight ps part.now port block) }
    ensures room { IfOk result (λ block. length block ≤ room) }
    ensures wide { IfErr result (IsWideBy views.now port part.now room) }
{
    offers_differ();
    views_are_of();
    right_for_policies();
    no_more_cells();
    if let Some(block) = built_again(views, lasts, blocks, part, room)? {
        steps.tick();
        return Ok(block);
    }
    let view = views.view(alloc, part)?;
    let block = build_with(alloc, &mut lasts.workshop, &view, port, part, room, steps)?;
    noted(views, lasts, blocks, part, &block)?;
    Ok(block)
}

/// The part of the owner of the pair's port, where the tag is fresh, as its class has it.
fn part_of_fresh<'c>(names: &Registry, fresh: &'c [Class], pair: Pair) -> Option<&'c Part>
    requires { AreInOrder fresh.now }
    ensures { IfSome result (λ part. (known : Known) → part_at names.now known fresh.now pair ≡ Some part.now) }
{
    let class = class_of(fresh, pair.tag)?;
    let port = names.port(pair.port)?;
    part_in(class.sig.items(), port.owner)
}

/// The rules of a pair with this part, where there is room for them beside as many as were built. Else it answers how many there
/// are with those.
fn block_within<L: Ledger>(
    alloc: Global,
    views: &Views<'_>,
    pair: Pair,
    part: &Part,
    built: usize,
    room: usize,
    blocks: &[(Pair, Block)],
    lasts: &mut Lasts,
    steps: &mut Steps<L>,
) -> Result<Block, BuildFault>
    requires whole { IsWhole (length views.now) part.now }
    requires within { built ≤ room }
    requires small { room < 2 ^ 32 }
    requires last { AreLast views.now blocks.now lasts.old }
    ensures last { IfOk result (λ block. (next : AnyPair) → AreLast views.now (blocks.now ++ (next, block) ∷ []) lasts.new) }
    ensures steps { steps.new ≤ steps.old + 1 }
    ensures right { IfOk result (λ block. (at : AnyPair → Option AnyPart) → at pair ≡ Some part.now → IsBlockFor (record { part = at; all = views.now }) pair block) }
    ensures room { IfOk result (λ block. built + length block ≤ room) }
    ensures wide { IfErr result (λ fault. (at : AnyPair → Option AnyPart) → at pair ≡ Some part.now → IsFaultBeside (record { part = at; all = views.now }) pair built room fault) }
{
    match block_of(
        alloc,
        views,
        pair.port,
        part,
        room - built,
        blocks,
        lasts,
        steps,
    ) {
        Ok(block) => Ok(block),
        Err(BuildFault::Memory) => Err(BuildFault::Memory),
        Err(BuildFault::Wide { rules }) => Err(BuildFault::Wide {
            rules: built.saturating_add(rules),
        }),
    }
}

/// The rules of a pair, where there is room for them beside as many as were built. Else it answers how many there are
/// with those.
fn block_beside<L: Ledger>(
    alloc: Global,
    names: &Registry,
    known: &KnownClasses<'_>,
    fresh: &[Class],
    views: &Views<'_>,
    pair: Pair,
    built: usize,
    room: usize,
    blocks: &[(Pair, Block)],
    lasts: &mut Lasts,
    steps: &mut Steps<L>,
) -> Result<Block, BuildFault>
    requires part { HasPart (site_of names.now known.now fresh.now views.now) pair }
    requires rising { AreInOrder fresh.now }
    requires within { built ≤ room }
    requires small { room < 2 ^ 32 }
    requires last { AreLast views.now blocks.now lasts.old }
    ensures last { IfOk result (λ block. (next : AnyPair) → AreLast views.now (blocks.now ++ (next, block) ∷ []) lasts.new) }
    ensures steps { steps.new ≤ steps.old + 1 }
    ensures right { IfOk result (IsBlockFor (site_of names.now known.now fresh.now views.now) pair) }
    ensures room { IfOk result (λ block. built + length block ≤ room) }
    ensures wide { IfErr result (IsFaultBeside (site_of names.now known.now fresh.now views.now) pair built room) }
{
    if let Some(part) = part_of_fresh(names, fresh, pair) {
        return block_within(alloc, views, pair, part, built, room, blocks, lasts, steps);
    }
    let Some(part) = part_at(names, known, fresh, pair)? else {
        unreachable!()
    };
    block_within(alloc, views, pair, &part, built, room, blocks, lasts, steps)
}

/// Puts the rules of a pair last.
fn put_last(blocks: &mut Vec<(Pair, Block)>, pair: Pair, block: Block) -> Result<(), Memory>
    ensures { OnOk result (blocks.new.items ≡ blocks.old.items ++ (pair, block) ∷ []) }
{
    blocks.push((pair, block))?;
    Ok(())
}

/// The rules of each of the pairs, one after the other, where there is room for all. Where it finds more it stops.
fn blocks_for<L: Ledger>(
    alloc: Global,
    names: &Registry,
    known: &KnownClasses<'_>,
    fresh: &[Class],
    views: &Views<'_>,
    pairs: &[Pair],
    room: usize,
    steps: &mut Steps<L>,
) -> Result<Vec<(Pair, Block)>, BuildFault>
    requires parts { (pair : AnyPair) → Member pair pairs.now → HasPart (site_of names.now known.now fresh.now views.now) pair }
    requires rising { AreInOrder fresh.now }
    requires small { room < 2 ^ 32 }
    ensures steps { steps.new ≤ steps.old + length pairs.now }
    ensures built { IfOk result (λ blocks. AreBlocksFor (site_of names.now known.now fresh.now views.now) pairs.now room blocks.items) }
    ensures wide { IfErr result (IsFaultFor (site_of names.now known.now fresh.now views.now) pairs.now room) }
{
    let mut blocks = Vec::new(alloc);
    let mut built = 0;
    let mut lasts = Lasts::new(alloc);
    for &pair in pairs {
        let block = match block_beside(
            alloc, names, known, fresh, views, pair, built, room, &blocks, &mut lasts, steps,
        ) {
            Ok(block) => block,
            Err(fault) => return Err(fault),
        };
        built += block.rules().len();
        put_last(&mut blocks, pair, block)?;
    }
    Ok(blocks)
}

/// How many rules a pair has in the table.
fn count_at<B: Blocks>(switch: &B, pair: Pair) -> usize
    ensures { result ≡ count_at (B.installed switch.now).table pair }
{
    match switch.rules_of(pair) {
        None => 0,
        Some(rules) => rules.len(),
    }
}

/// How many rules the table has beside those of the pairs.
fn rules_left<B: Blocks>(switch: &B, drops: &[Pair]) -> usize
    ensures { result ≡ rules_left (B.installed switch.now).table drops.now }
{
    let mut left = switch.rules();
    for &pair in drops {
        left = left.saturating_sub(count_at(switch, pair));
    }
    left
}

/// Why rules aren't built beside those that are left.
fn refused(fault: BuildFault, left: usize, capacity: usize) -> FastFault
    ensures { result ≡ refused fault left capacity }
{
    match fault {
        BuildFault::Memory => FastFault::Memory,
        BuildFault::Wide { rules } => FastFault::TableFull {
            rules: left.saturating_add(rules),
            capacity,
        },
    }
}

/// The rules of each of the pairs, where the table has room for all once the rules of others are taken out.
pub fn rules_for<B: Blocks, L: Ledger>(
    alloc: Global,
    names: &Registry,
    known: &KnownClasses<'_>,
    fresh: &[Class],
    views: &Views<'_>,
    switch: &B,
    drops: &[Pair],
    pairs: &[Pair],
    steps: &mut Steps<L>,
) -> Result<Vec<(Pair, Block)>, FastFault>
    requires parts { (pair : AnyPair) → Member pair pairs.now → HasPart (site_of names.now known.now fresh.now views.now) pair }
    requires rising { AreInOrder fresh.now }
    requires small { (B.installed switch.now).capacity < 2 ^ 32 }
    ensures steps { steps.new ≤ steps.old + length pairs.now }
    ensures built { IfOk result (λ blocks. AreBlocksFor (site_of names.now known.now fresh.now views.now) pairs.now ((B.installed switch.now).capacity - rules_left (B.installed switch.now).table drops.now) blocks.items) }
    ensures full { IfErr result (IsRefusedFor (site_of names.now known.now fresh.now views.now) pairs.now (rules_left (B.installed switch.now).table drops.now) (B.installed switch.now).capacity) }
{
    let left = rules_left(switch, drops);
    let capacity = switch.capacity();
    let room = capacity.saturating_sub(left);
    match blocks_for(alloc, names, known, fresh, views, pairs, room, steps) {
        Ok(blocks) => Ok(blocks),
        Err(fault) => Err(refused(fault, left, capacity)),
    }
}

/// Puts copies of a pair's rules last. Memory is the only refusal.
pub fn push_flows(flows: &mut Flows, pair: Pair, rules: &[Rule]) -> Result<(), Memory>
    ensures { OnOk result (flows.new ≡ flows.old ++ flows_of (pair, rules.now)) }
{
    for rule in rules {
        let rule = rule.copy()?;
        flows.push(Flow { pair, rule })?;
    }
    Ok(())
}

/// Copies of the rules of all pairs.
pub fn flows_of(alloc: Global, blocks: &[(Pair, Block)]) -> Result<Flows, Memory>
    ensures { IfOk result (λ flows. flows ≡ union_over flows_of blocks.now) }
{
    let mut flows = Items::new(alloc);
    for (pair, block) in blocks {
        push_flows(&mut flows, *pair, block.rules())?;
    }
    Ok(flows)
}
