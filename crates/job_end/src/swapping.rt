//! Committing the rules that were built. It takes no memory.

ghost use Rattle.std.specs.Prelude.{◌≡◌, ◌≤◌, [], unwrap_or};
ghost use Rattle.std.specs.FinMap as map;
ghost use Rattle.block_build.specs.Installed.{rule_count};
ghost use Rattle.exchange_laws.specs.Listed.{is_pair_before};
ghost use Rattle.fast_path.specs.Committing.{with_blocks};
ghost use Rattle.job_end.specs.Rebuilt.{IsFewer, blocks_of};
ghost use Rattle.net_types.specs.Sets.{IsRising, Member};
ghost use Rattle.net_types.specs.declared.rule.Pair.{Pair as AnyPair};

use block_build::Blocks;
use net_types::Pair;
use recompile::Built;

/// Puts what was built for a pair in the place of its rules.
fn swap_one<B: Blocks>(switch: &mut B, built: &mut Built, pair: Pair)
    requires fewer { IsFewer (B.installed switch.old).table built.old pair }
    requires few { rule_count (B.installed switch.old).table ≤ (B.installed switch.old).capacity }
    ensures table { (B.installed switch.new).table ≡ map.insert (B.installed switch.old).table pair (unwrap_or (map.get built.old pair) []) }
    ensures capacity { (B.installed switch.new).capacity ≡ (B.installed switch.old).capacity }
    ensures few { rule_count (B.installed switch.new).table ≤ (B.installed switch.new).capacity }
    ensures built { built.new ≡ map.remove built.old pair }
{
    match built.take(pair) {
        Some(block) => switch.swap_block(pair, block),
        None => unreachable!(),
    }
}

/// Puts what was built for the pairs in the place of their rules.
pub fn swap_all<B: Blocks>(switch: &mut B, mut built: Built, pairs: &[Pair])
    requires rising { IsRising is_pair_before pairs.now }
    requires fewer { (pair : AnyPair) → Member pair pairs.now → IsFewer (B.installed switch.old).table built pair }
    requires few { rule_count (B.installed switch.old).table ≤ (B.installed switch.old).capacity }
    ensures table { (B.installed switch.new).table ≡ with_blocks (B.installed switch.old).table (blocks_of built pairs.now) }
    ensures capacity { (B.installed switch.new).capacity ≡ (B.installed switch.old).capacity }
{
    for &pair in pairs {
        swap_one(switch, &mut built, pair);
    }
}
