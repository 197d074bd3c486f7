//! How many pairs of rules the operations on classifiers may meet, and how many results a sum may give.

use classifier::{Line, are_aligned};
use net_types::Memory;
use std::alloc::Global;
use std::collections::HashSet;

/// So many pairs are a second's work or two.
const MOST: usize = 8388608;

/// So many may be met where chains are put together from their ends, which is tried second.
const MOST_BACKWARD: usize = 4194304;

/// So many results take a second or two to be joined.
const MOST_RESULTS: usize = 8388608;

/// The results of a list that has more take longer each than a pair of rules.
const LONG: usize = 1024;

/// As long as so many pairs.
const LONG_WEIGHT: usize = 4;

/// A policy that isn't too wide has no more rules.
const MOST_RULES: usize = 65536;

/// Why a policy isn't compiled by operations.
#[derive(Clone, Copy, Debug, PartialEq, Eq)]
pub enum Stop {
    /// The operations would meet too many pairs of rules, or give too many results.
    Pairs,
    /// Memory ran out.
    Memory,
}

impl From<Memory> for Stop {
    fn from(_: Memory) -> Stop {
        Stop::Memory
    }
}

/// How many pairs of rules may still be met, how many results sums may still give, and whether chains are put together from their
/// ends.
#[derive(Drop)]
pub struct Pairs {
    left: usize,
    results: usize,
    is_backward: bool,
    // whether something would be put together otherwise from the ends of chains
    has_choice: bool,
}

impl Pairs {
    /// As many as a policy may have, chains being put together from their beginnings.
    pub fn new() -> Pairs {
        Pairs {
            left: MOST,
            results: MOST_RESULTS,
            is_backward: false,
            has_choice: false,
        }
    }

    /// Fewer, chains being put together from their ends.
    pub fn backward() -> Pairs {
        Pairs {
            left: MOST_BACKWARD,
            results: MOST_RESULTS / 2,
            is_backward: true,
            has_choice: false,
        }
    }

    /// Whether a chain is put together from its end. That it could be is noted.
    pub fn goes_backward(&mut self) -> bool {
        self.has_choice = true;
        self.is_backward
    }

    /// Whether something would have been put together otherwise from the ends of chains.
    pub fn has_choice(&self) -> bool {
        self.has_choice
    }

    fn take(&mut self, count: usize) -> Result<(), Stop> {
        if count > self.left {
            return Err(Stop::Pairs);
        }
        self.left -= count;
        Ok(())
    }

    /// Takes one for each rule of a list that is copied.
    pub fn take_copy(&mut self, xs: &[Line]) -> Result<(), Stop> {
        self.take(xs.len())
    }

    /// Takes those of a sum of two lists of rules, and its results. Where the cubes of both are the same in the same order, each
    /// rule is joined with one alone.
    pub fn take_sum(&mut self, alloc: Global, xs: &[Line], ys: &[Line]) -> Result<(), Stop> {
        let joined = if are_aligned(xs, ys) {
            self.take(xs.len())?;
            results_of(xs).saturating_add(results_of(ys))
        } else {
            self.take(xs.len().saturating_mul(ys.len()))?;
            spread_of(alloc, xs)?.joined_with(spread_of(alloc, ys)?)
        };
        if joined > self.results {
            return Err(Stop::Pairs);
        }
        self.results -= joined;
        Ok(())
    }

    /// Takes those of a chain of two lists of rules.
    pub fn take_chain(&mut self, xs: &[Line], ys: &[Line]) -> Result<(), Stop> {
        let mut results = 0usize;
        for y in ys {
            results = results.saturating_add(weight_of(y.results.len()));
        }
        for x in xs {
            self.take(count_behind(x.results.len(), ys.len(), results))?;
        }
        Ok(())
    }
}

/// What a list of so many results weighs.
fn weight_of(results: usize) -> usize {
    if results <= LONG {
        results
    } else {
        results.saturating_mul(LONG_WEIGHT)
    }
}

/// The pairs of one rule of so many results and a list of so many rules, whose results weigh so much, behind each: what the rule
/// gives after the first result is met by the list once for each other, and has become more rules by then. The results so far
/// are joined with those behind each further one, which is as much work as some pairs.
fn count_behind(results: usize, rules: usize, behind: usize) -> usize {
    if results == 0 {
        return 1;
    }
    let second = rules.saturating_mul(rules);
    let further = second.saturating_mul(rules);
    let met = match results {
        1 => rules,
        2 => rules.saturating_add(second),
        _ => further.saturating_mul(results - 1),
    };
    let joined = behind.saturating_mul(results.saturating_mul(results));
    met.saturating_add(joined)
}

/// What some rules give.
#[derive(Clone, Copy, Debug, PartialEq, Eq)]
struct Spread {
    // how many different lists of results they have
    lists: usize,
    // how many results these have together
    results: usize,
    // how many the longest has
    most: usize,
}

impl Spread {
    /// How many results the sum with others has at most, where it joins each two lists once, and no more lists than it has rules.
    /// They count twice where most of them were there before.
    fn joined_with(self, other: Spread) -> usize {
        let of_lists = self
            .results
            .saturating_mul(other.lists)
            .saturating_add(other.results.saturating_mul(self.lists));
        let of_rules = self
            .most
            .saturating_add(other.most)
            .saturating_mul(MOST_RULES);
        let joined = of_lists.min(of_rules);
        if self.results.max(other.results) > joined / 2 {
            return joined.saturating_mul(2);
        }
        joined
    }
}

/// How many results some rules have together.
fn results_of(lines: &[Line]) -> usize {
    let mut results = 0usize;
    for line in lines {
        results = results.saturating_add(line.results.len());
    }
    results
}

/// What some rules give. Lists are told apart by their prints.
fn spread_of(alloc: Global, lines: &[Line]) -> Result<Spread, Memory> {
    let mut prints = HashSet::new(alloc);
    let mut results = 0usize;
    let mut most = 0;
    for line in lines {
        if prints.insert(line.results.print())? {
            results = results.saturating_add(line.results.len());
            most = most.max(line.results.len());
        }
    }
    Ok(Spread {
        lists: prints.len(),
        results,
        most,
    })
}
