//! The pairs that stay and get other rules.

ghost use Rattle.std.specs.Prelude.{◌≡◌, filter, IfOk};
ghost use Rattle.events.specs.Fits.{flows_of};
ghost use Rattle.exchange_laws.specs.Listed.{is_pair_before};
ghost use Rattle.job_end.specs.Rebuilt.{blocks_of, changed_pairs, has_others, is_changed};
ghost use Rattle.net_types.specs.Sets.{IsRising, union_over};

use block_build::{Blocks, same_rules};
use events::Flows;
use fast_path::{is_among, push_flows};
use net_types::{Items, Memory, Pair, Pairs};
use recompile::Built;
use std::alloc::Global;

/// Whether a pair has rules, and other ones were built for it. Where its rules were tight nothing was built, and nothing is compared.
fn has_others<B: Blocks>(switch: &B, built: &Built, pair: Pair) -> bool
    ensures { result ≡ has_others (B.installed switch.now).table built.now pair }
{
    let Some(rules) = built.get(pair) else {
        return false;
    };
    match switch.rules_of(pair) {
        Some(old) => !same_rules(old, rules),
        None => false,
    }
}

/// Those of the pairs that don't go and get other rules, in their order.
fn changed_among<B: Blocks>(
    alloc: Global,
    switch: &B,
    built: &Built,
    gone: &[Pair],
    pairs: &[Pair],
) -> Result<Pairs, Memory>
    requires { IsRising is_pair_before gone.now }
    ensures { IfOk result (λ changed. changed ≡ filter (is_changed (B.installed switch.now).table built.now gone.now) pairs.now) }
{
    let mut changed = Items::new(alloc);
    for &pair in pairs {
        if !is_among(gone, pair) && has_others(switch, built, pair) {
            changed.push(pair)?;
        }
    }
    Ok(changed)
}

/// The pairs that don't go and get other rules, ascending by port, and then by tag. Only those are looked at for which other rules
/// were built. Memory is the only refusal.
pub fn changed_pairs<B: Blocks>(
    alloc: Global,
    switch: &B,
    built: &Built,
    gone: &[Pair],
) -> Result<Pairs, Memory>
    requires { IsRising is_pair_before gone.now }
    ensures { IfOk result (λ changed. changed ≡ changed_pairs (B.installed switch.now).table built.now gone.now) }
{
    let pairs = built.pairs(alloc)?;
    let changed = changed_among(alloc, switch, built, gone, pairs.items())?;
    Ok(changed)
}

/// Copies of the other rules that were built for the pairs. Memory is the only refusal.
pub fn built_flows(alloc: Global, built: &Built, pairs: &[Pair]) -> Result<Flows, Memory>
    ensures { IfOk result (λ flows. flows ≡ union_over flows_of (blocks_of built.now pairs.now)) }
{
    let mut flows = Items::new(alloc);
    for &pair in pairs {
        if let Some(rules) = built.get(pair) {
            push_flows(&mut flows, pair, rules)?;
        }
    }
    Ok(flows)
}
