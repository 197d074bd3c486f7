//! Tables of blocks, as those see them who only put blocks in and take them out.

ghost use Rattle.std.specs.Prelude.{◌≡◌, ◌≤◌, ◌<◌, ◌+◌, length, None, option_copied, is_some, if◌then◌else◌};
ghost use Rattle.std.specs.FinMap as map;
ghost use Rattle.events.specs.After.{without_pairs};
ghost use Rattle.block_build.specs.Installed.{Installed, count_at, rule_count};

use crate::block::Block;
use net_types::{Pair, Rule};

/// The rules of pairs of a port and a tag, and for how many rules there is room.
pub trait Blocks {
    /// The rules of the pairs, how many new pairs go in without memory, and the capacity.
    ghost installed: { Self → Installed };

    /// The rules of a pair become these. A new pair needs room, and uses one place of it.
    fn swap_block(&mut self, pair: Pair, block: Block)
        requires room { map.get (installed self.old).table pair ≡ None → 0 < (installed self.old).room }
        requires few { rule_count (installed self.old).table + length block ≤ (installed self.old).capacity + count_at (installed self.old).table pair }
        ensures table { (installed self.new).table ≡ map.insert (installed self.old).table pair block }
        ensures capacity { (installed self.new).capacity ≡ (installed self.old).capacity }
        ensures room { (installed self.old).room ≤ (installed self.new).room + (if is_some (map.get (installed self.old).table pair) then 0 else 1) }
        ensures count { rule_count (installed self.new).table + count_at (installed self.old).table pair ≡ rule_count (installed self.old).table + length block };

    /// The rules of a pair go. There is room for no fewer new pairs than before.
    fn drop_block(&mut self, pair: Pair)
        ensures table { (installed self.new).table ≡ map.remove (installed self.old).table pair }
        ensures capacity { (installed self.new).capacity ≡ (installed self.old).capacity }
        ensures room { (installed self.old).room ≤ (installed self.new).room }
        ensures count { rule_count (installed self.new).table + count_at (installed self.old).table pair ≡ rule_count (installed self.old).table };

    /// The rules of these pairs go. There is room for no fewer new pairs than before.
    fn drop_blocks(&mut self, pairs: &[Pair])
        ensures table { (installed self.new).table ≡ without_pairs (installed self.old).table pairs.now }
        ensures capacity { (installed self.new).capacity ≡ (installed self.old).capacity }
        ensures room { (installed self.old).room ≤ (installed self.new).room }
        ensures count { rule_count (installed self.new).table ≤ rule_count (installed self.old).table };

    /// How many rules there are.
    fn rules(&self) -> usize
        ensures { result ≡ rule_count (installed self.now).table };

    /// For how many rules there is room.
    fn capacity(&self) -> usize
        ensures { result ≡ (installed self.now).capacity };

    /// The rules of a pair, in their order, where it has some.
    fn rules_of(&self, pair: Pair) -> Option<&[Rule]>
        ensures { option_copied result ≡ map.get (installed self.now).table pair };
}
