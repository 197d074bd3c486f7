//! What a job has done: the moves that merge the classes, and the tight rules.

ghost use Rattle.std.specs.Prelude.{◌≡◌, ◌+◌, option_copied, IfOk, OnErr, OnOk};
ghost use Rattle.std.specs.FinMap as map;
ghost use Rattle.recompile.specs.Units.{IsBuiltFrom, without_each};

use crate::tight::tightened;
use block_build::Block;
use net_types::{Memory, Pair, Pairs, Rule, Steps};
use ordered_map::OrderedMap;
use prefix_classes::Moves;
use std::alloc::Global;
use std::marker::Model;
use std::sync::ledger::Ledger;

/// The other rules that a job built, for pairs whose rules weren't tight; some of these may be gone from the table.
#[derive(Drop)]
pub struct Built {
    pairs: OrderedMap<Pair, Block>,
}

impl Model for Built {
    ghost use Rattle.std.specs.Coded.{codes};
    ghost use Rattle.std.specs.FinMap as map;
    ghost use Rattle.net_types.specs.Keys.{pair_cmp};
    ghost use Rattle.recompile.specs.Underway.{BuiltPairs};

    ghost Value = { BuiltPairs };

    ghost coded = { Prim.hlevel (codes, map.code) };

    ghost use Rattle.std.specs.Prelude.{IsTrue};
    ghost use Rattle.std.specs.FinMap.Entries.{is_sorted};

    ghost view = { λ a. map.from_sorted a.pairs.items };

    ghost invariant = { λ a. IsTrue (is_sorted pair_cmp a.pairs.items) };
}

/// What a job ends with: the moves that merge the classes, and a tight block for each pair of the table whose rules
/// aren't tight.
#[derive(Drop)]
pub struct Swap {
    pub moves: Moves,
    pub built: Built,
}

/// How far a job is.
#[derive(Drop)]
pub enum Progress {
    /// It owes so many units still.
    Working(u64),
    /// Nothing is to do any more.
    Ready(Swap),
}

impl Built {
    pub(crate) fn new(alloc: Global) -> Built
        ensures { result ≡ map.empty }
    {
        Built {
            pairs: OrderedMap::new(alloc),
        }
    }

    /// The other rules that were built for a pair; none where it keeps those it has.
    pub fn get(&self, pair: Pair) -> Option<&[Rule]>
        ensures { option_copied result ≡ map.get self.now pair }
    {
        match self.pairs.get(&pair) {
            Some(block) => Some(block.rules()),
            None => None,
        }
    }

    /// The pairs with other rules, ascending by port, and then by tag: all in one walk. Memory is the only refusal.
    pub fn pairs(&self, alloc: Global) -> Result<Pairs, Memory>
        ensures { IfOk result (λ pairs. pairs ≡ map.keys self.now) }
    {
        let entries = self.pairs.first_entries(self.pairs.len())?;
        let mut pairs = Vec::with_capacity(alloc, entries.len())?;
        for (pair, _) in entries.as_slice() {
            pairs.push(**pair)?;
        }
        Ok(Pairs::from_vec(pairs))
    }

    /// Takes a pair out, and answers the block of other rules. It takes no memory.
    pub fn take(&mut self, pair: Pair) -> Option<Block>
        ensures block { result ≡ map.get self.old pair }
        ensures rest { self.new ≡ map.remove self.old pair }
    {
        self.pairs.remove(&pair)
    }

    /// Makes the rules of a pair tight, and keeps them where they weren't. It counts one step, even where memory is wanting; tight
    /// rules need none.
    pub(crate) fn build<L: Ledger>(
        &mut self,
        alloc: Global,
        pair: Pair,
        old: &[Rule],
        steps: &mut Steps<L>,
    ) -> Result<(), Memory>
        ensures built { OnOk result (IsBuiltFrom pair old.now self.old self.new) }
        ensures unchanged { OnErr result (self.new ≡ self.old) }
        ensures step { steps.new ≡ steps.old + 1 }
    {
        let Some(block) = tightened(alloc, old, steps)? else {
            return Ok(());
        };
        self.pairs.insert(pair, block)?;
        Ok(())
    }

    /// Takes these pairs out.
    pub(crate) fn take_each(&mut self, pairs: &[Pair])
        ensures { self.new ≡ without_each pairs.now self.old }
    {
        for &pair in pairs {
            self.take(pair);
        }
    }
}
