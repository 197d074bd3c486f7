//! The table, over an ordered map from pairs to their rules.

ghost use Rattle.std.specs.Prelude.{◌≡◌, ◌≤◌, ◌<◌, ◌+◌, ◌++◌, ◌^◌, [], length, None, IsOk, OnOk, IfOk, option_copied, is_some, unwrap_or, if◌then◌else◌};
ghost use Rattle.std.specs.FinMap as map;
ghost use Rattle.net_types.specs.Sets.{union_over};
ghost use Rattle.events.specs.After.{without_pairs};
ghost use Rattle.events.specs.Fits.{flows_of};
ghost use Rattle.block_build.specs.Installed.{count_at, rule_count};

use crate::gone::Gone;
use crate::iter::Iter;
use crate::recent::Recent;
use block_build::Block;
use events::{Flow, Flows};
use net_types::{Items, Memory, Pair, Pairs, Rule, TryCopy};
use ordered_map::OrderedMap;
use std::alloc::Global;
use std::marker::Model;

/// The rules of each pair of a port and a tag, and for how many rules there is room. Contracts see the map of the rules,
/// how many new pairs go in without memory, and the capacity.
#[derive(Drop)]
pub struct Switch {
    pub(crate) entries: OrderedMap<Pair, Block>,
    /// How many rules there are.
    rules: usize,
    /// For how many rules there is room.
    pub(crate) capacity: usize,
    /// Rules that were put in last.
    pub(crate) recent: Recent,
}

impl Model for Switch {
    ghost use Rattle.std.specs.Coded.{codes};
    ghost use Rattle.std.specs.FinMap as map;
    ghost use Rattle.block_build.specs.Installed.{Installed};
    ghost use Rattle.match_switch.specs.Installed.{IsKept};

    ghost Value = { Installed };

    ghost coded = { Prim.hlevel (codes, map.code) };

    ghost view = { λ a. record { table = map.from_sorted a.entries.items; room = a.entries.room; capacity = a.capacity } };

    ghost invariant = { λ a. IsKept a.entries.items a.rules };
}

impl Switch {
    /// A table without rules, with room for so many. It takes no memory.
    pub fn new(alloc: Global, capacity: usize) -> Switch
        ensures table { result.table ≡ map.empty }
        ensures capacity { result.capacity ≡ capacity }
    {
        Switch {
            entries: OrderedMap::new(alloc),
            rules: 0,
            capacity,
            recent: Recent::new(alloc),
        }
    }

    /// There is room for another number of rules; those in the table stay.
    pub fn set_capacity(&mut self, capacity: usize)
        ensures { self.new ≡ record self.old { capacity = capacity } }
    {
        self.capacity = capacity;
    }

    /// For how many rules there is room.
    pub fn capacity(&self) -> usize
        ensures { result ≡ self.now.capacity }
    {
        self.capacity
    }

    /// How many rules there are.
    pub fn rules(&self) -> usize
        ensures { result ≡ rule_count self.now.table }
    {
        self.rules
    }

    /// The rules of a pair, in their order, where it has some.
    pub fn rules_of(&self, pair: Pair) -> Option<&[Rule]>
        ensures { option_copied result ≡ map.get self.now.table pair }
    {
        match self.entries.get(&pair) {
            Some(block) => Some(block.rules()),
            None => None,
        }
    }

    /// Makes room for so many new pairs, and places for rules that pairs share. Memory is wanting only where there is less room.
    pub fn reserve(&mut self, pairs: usize) -> Result<(), Memory>
        ensures table { self.new.table ≡ self.old.table }
        ensures capacity { self.new.capacity ≡ self.old.capacity }
        ensures room { OnOk result (pairs ≤ self.new.room) }
        ensures kept { self.old.room ≤ self.new.room }
        ensures enough { pairs ≤ self.old.room → IsOk result }
    {
        self.recent.make_places();
        self.entries.reserve(pairs)?;
        Ok(())
    }

    /// The rules of a pair become these, and there are not too many to count.
    pub(crate) fn set(&mut self, pair: Pair, block: Block)
        requires room { map.get self.old.table pair ≡ None → 0 < self.old.room }
        requires few { rule_count self.old.table + length block < 2 ^ 64 + count_at self.old.table pair }
        ensures table { self.new.table ≡ map.insert self.old.table pair block }
        ensures capacity { self.new.capacity ≡ self.old.capacity }
        ensures room { self.old.room ≤ self.new.room + (if is_some (map.get self.old.table pair) then 0 else 1) }
        ensures count { rule_count self.new.table + count_at self.old.table pair ≡ rule_count self.old.table + length block }
    {
        let added = block.rules().len();
        let before = self.entries.put(pair, block);
        self.rules = self.rules - count(before) + added;
    }

    /// How many rules a pair has.
    pub(crate) fn count_of(&self, pair: Pair) -> usize
        ensures count { result ≡ count_at self.now.table pair }
        ensures within { result ≤ rule_count self.now.table }
    {
        match self.entries.get(&pair) {
            None => 0,
            Some(block) => block.rules().len(),
        }
    }

    /// The rules of a pair go. There is room for no fewer new pairs than before.
    pub fn drop_block(&mut self, pair: Pair)
        ensures table { self.new.table ≡ map.remove self.old.table pair }
        ensures capacity { self.new.capacity ≡ self.old.capacity }
        ensures room { self.old.room ≤ self.new.room }
        ensures count { rule_count self.new.table + count_at self.old.table pair ≡ rule_count self.old.table }
    {
        let before = self.entries.remove(&pair);
        self.rules -= count(before);
    }

    /// The rules of these pairs go: where the pairs rise, in one walk. There is room for no fewer new pairs than before.
    pub fn drop_blocks(&mut self, pairs: &[Pair])
        ensures table { self.new.table ≡ without_pairs self.old.table pairs.now }
        ensures capacity { self.new.capacity ≡ self.old.capacity }
        ensures room { self.old.room ≤ self.new.room }
        ensures count { rule_count self.new.table ≤ rule_count self.old.table }
    {
        // It is a `usize`, so that those that go can be counted.
        let rules = self.rules;
        let mut gone = Gone { rules: 0 };
        self.entries.remove_counted(pairs, &mut gone);
        self.rules = rules - gone.rules;
    }

    /// The pairs with their rules, ascending by port, and then by tag. It takes no memory.
    pub fn iter(&self) -> Iter<'_>
        ensures { result ≡ map.entries self.now.table }
    {
        Iter::new(self.entries.iter())
    }

    /// The pairs, ascending by port, and then by tag: all in one walk. Memory is the only refusal.
    pub fn pairs(&self, alloc: Global) -> Result<Pairs, Memory>
        ensures { IfOk result (λ pairs. pairs ≡ map.keys self.now.table) }
    {
        let entries = self.entries.first_entries(self.entries.len())?;
        let mut pairs = Vec::with_capacity(alloc, entries.len())?;
        for (pair, _) in entries.as_slice() {
            pairs.push(**pair)?;
        }
        Ok(Pairs::from_vec(pairs))
    }

    /// Copies of all rules, by port, tag and order. Memory is the only refusal.
    pub fn flows(&self, alloc: Global) -> Result<Flows, Memory>
        ensures { IfOk result (λ flows. flows ≡ union_over flows_of (map.entries self.now.table)) }
    {
        let mut flows = Items::new(alloc);
        for (pair, rules) in self.iter() {
            push_flows(&mut flows, pair, rules)?;
        }
        Ok(flows)
    }
}

/// How many rules there are of a pair.
fn count(block: Option<Block>) -> usize
    ensures { result ≡ length (unwrap_or block []) }
{
    match block {
        None => 0,
        Some(block) => block.rules().len(),
    }
}

/// Puts copies of a pair's rules last.
fn push_flows(flows: &mut Flows, pair: Pair, rules: &[Rule]) -> Result<(), Memory>
    ensures { OnOk result (flows.new ≡ flows.old ++ flows_of (pair, rules.now)) }
{
    for rule in rules {
        let rule = rule.copy()?;
        flows.push(Flow { pair, rule })?;
    }
    Ok(())
}
