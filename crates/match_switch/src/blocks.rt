//! Blocks that are put into the table and taken out of it.

ghost use Rattle.std.specs.Prelude.{◌≡◌, ◌≤◌, ◌<◌, ◌+◌, ◌^◌, List, length, find, None, IsTrue, IsErr, IfErr, OnOk, OnErr, option_copied, is_some, if◌then◌else◌};
ghost use Rattle.std.specs.Borrow.{Bor};
ghost use Rattle.std.specs.FinMap as map;
ghost use Rattle.std.specs.Option.{option_map};
ghost use Rattle.net_types.specs.declared.rule.Pair.{Pair};
ghost use Rattle.net_types.specs.declared.rule.Rule.{Rule};
ghost use Rattle.block_build.specs.Installed.{count_at, rule_count};
ghost use Rattle.match_switch.specs.Installed.{IsOver, IsPutFault, is_past, pairs_of};

use crate::fault::PutFault;
use crate::switch::Switch;
use block_build::{Block, Blocks};
use net_types::{Pair, Rule};

impl Switch {
    /// The rules of a pair become these, where there is room for them. Else the table is as it was.
    pub fn put_block(&mut self, pair: Pair, block: Block) -> Result<(), PutFault>
        ensures table { OnOk result (self.new.table ≡ map.insert self.old.table pair block) }
        ensures full { IsOver self.old pair block → IsErr result }
        ensures fault { IfErr result (IsPutFault self.old pair block) }
        ensures unchanged { OnErr result (self.new.table ≡ self.old.table) }
        ensures capacity { self.new.capacity ≡ self.old.capacity }
    {
        let others = self.rules() - self.count_of(pair);
        let added = block.rules().len();
        let capacity = self.capacity();
        if others > capacity || added > capacity - others {
            let rules = others.saturating_add(added);
            return Err(PutFault::TableFull { rules, capacity });
        }
        self.reserve(1)?;
        self.swap_block(pair, block);
        Ok(())
    }

    /// The rules of a pair become these. A new pair needs room, and uses one place of it.
    pub fn swap_block(&mut self, pair: Pair, block: Block)
        requires room { map.get self.old.table pair ≡ None → 0 < self.old.room }
        requires few { rule_count self.old.table + length block ≤ self.old.capacity + count_at self.old.table pair }
        ensures table { self.new.table ≡ map.insert self.old.table pair block }
        ensures capacity { self.new.capacity ≡ self.old.capacity }
        ensures room { self.old.room ≤ self.new.room + (if is_some (map.get self.old.table pair) then 0 else 1) }
        ensures count { rule_count self.new.table + count_at self.old.table pair ≡ rule_count self.old.table + length block }
    {
        // It is a `usize`, so that the rules can be counted.
        let _capacity = self.capacity;
        let block = self.recent.shared(block);
        self.set(pair, block);
    }

    /// The least pair, or the least one that is greater than `after`. It takes no memory.
    pub fn next_pair(&self, after: Option<Pair>) -> Option<Pair>
        ensures { result ≡ find (is_past after) (pairs_of self.now.table) }
    {
        match after {
            None => pair_of(self.entries.first()),
            Some(pair) => pair_of(self.entries.next_after(&pair)),
        }
    }
}

/// The pair of an entry.
fn pair_of(found: Option<(&Pair, &Block)>) -> Option<Pair>
    ensures { result ≡ option_map (λ (e : Bor Pair × Bor (List Rule)). e.0.now) found.entry }
{
    match found {
        None => None,
        Some((pair, _)) => Some(*pair),
    }
}

impl Blocks for Switch {
    ghost installed = { λ s. s };

    fn swap_block(&mut self, pair: Pair, block: Block) {
        Switch::swap_block(self, pair, block);
    }

    fn drop_block(&mut self, pair: Pair) {
        Switch::drop_block(self, pair);
    }

    fn drop_blocks(&mut self, pairs: &[Pair]) {
        Switch::drop_blocks(self, pairs);
    }

    fn rules(&self) -> usize {
        Switch::rules(self)
    }

    fn capacity(&self) -> usize {
        Switch::capacity(self)
    }

    fn rules_of(&self, pair: Pair) -> Option<&[Rule]> {
        Switch::rules_of(self, pair)
    }
}
