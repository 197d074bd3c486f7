//! Unions of results, kept for the next rules that join the same.

ghost use Rattle.std.specs.Prelude.{◌≡◌, IfOk, IfSome, OnOk};
ghost use Rattle.classifier.specs.Gathered.{Knows};
ghost use Rattle.classifier.specs.Items.{add_all};

use crate::gathering::{Key, joined, push_all, push_each, set_of};
use crate::results::Results;
use net_types::{Memory, TryCopy};
use std::alloc::Global;
use std::collections::HashSet;

/// So many results are joined at once, which is no more work than to look for their union.
const FEW: usize = 16;

/// So many results are joined to others by a set of these.
const MANY: usize = 64;

/// How many unions are kept.
const MOST: usize = 16;

/// Two lists of results, and their union.
#[derive(Drop)]
struct Union {
    print: u64,
    first: Results,
    second: Results,
    both: Results,
    ghost is: { both ≡ add_all first second },
}

/// A list of many results, with the set of its pairs.
#[derive(Drop)]
struct Known {
    list: Results,
    seen: HashSet<Key>,
    ghost knows: { Knows list seen },
}

/// Unions that were made. Where rules have many results, they often have one of a few lists, and share it. The set of the last
/// one serves the next, where that joins more to it, as what stands behind many assignments is joined one by one; that of a
/// list to which others are joined in turn, as a rule is joined with each of many, serves all of these.
#[derive(Drop)]
pub struct Unions {
    kept: Vec<Union>,
    last: Option<Known>,
    // the number of the first list of the last union
    first: u64,
    row: Option<Known>,
}

/// The union of two lists, where it was kept.
fn found<'u>(
    kept: &'u [Union],
    print: u64,
    first: &Results,
    second: &Results,
) -> Option<&'u Results>
    ensures { IfSome result (λ both. both.now ≡ add_all first.now second.now) }
{
    for union in kept {
        if union.print == print && union.first.equals(first) && union.second.equals(second) {
            return Some(&union.both);
        }
    }
    None
}

/// The results of both, in a list of their own where the second has others than the first.
fn union_of(alloc: Global, first: &Results, second: &Results) -> Result<Results, Memory>
    ensures { IfOk result (λ both. both ≡ add_all first.now second.now) }
{
    second.known();
    if first.is_empty() {
        return second.copy();
    }
    let mut both = first.copy()?;
    push_all(alloc, &mut both, second)?;
    Ok(both)
}

/// The set of the pairs of a list: that of the last union, where it is this one.
fn set_for(alloc: Global, last: Option<Known>, first: &Results) -> Result<HashSet<Key>, Memory>
    ensures { IfOk result (Knows first.now) }
{
    match last {
        Some(last) if last.list.equals(first) => Ok(last.seen),
        _ => set_of(alloc, first.items()),
    }
}

/// A list with the set of its pairs.
fn make_known(alloc: Global, list: &Results) -> Result<Known, Memory>
    ensures { IfOk result (λ known. known.list ≡ list.now) }
{
    Ok(Known {
        list: list.copy()?,
        seen: set_of(alloc, list.items())?,
    })
}

/// Keeps a union. Where there are many, the earlier ones go.
fn keep(
    kept: &mut Vec<Union>,
    print: u64,
    first: &Results,
    second: &Results,
    both: &Results,
) -> Result<(), Memory>
    requires { both.now ≡ add_all first.now second.now }
{
    if kept.len() >= MOST {
        kept.clear();
    }
    let first = first.copy()?;
    let second = second.copy()?;
    let both = both.copy()?;
    kept.push(Union {
        print,
        first,
        second,
        both,
    })?;
    Ok(())
}

impl Unions {
    /// No union is kept yet.
    pub fn new(alloc: Global) -> Unions {
        Unions {
            kept: Vec::new(alloc),
            last: None,
            first: 0,
            row: None,
        }
    }

    /// The results of both, in the order in which they were put, those of the first before the others.
    pub fn union(&mut self, first: &Results, second: &Results) -> Result<Results, Memory>
        ensures { IfOk result (λ both. both ≡ add_all first.now second.now) }
    {
        if second.is_empty() {
            return first.copy();
        }
        if first.len().saturating_add(second.len()) <= FEW {
            return union_of(*self.kept.allocator(), first, second);
        }
        self.long_union(first, second)
    }

    /// The same, of long lists.
    fn long_union(&mut self, first: &Results, second: &Results) -> Result<Results, Memory>
        ensures { IfOk result (λ both. both ≡ add_all first.now second.now) }
    {
        let number = first.print();
        let print = number.wrapping_mul(3).wrapping_add(second.print());
        if let Some(both) = found(&self.kept, print, first, second) {
            return both.copy();
        }
        let both = if first.is_empty() || second.len() < MANY {
            union_of(*self.kept.allocator(), first, second)?.shared()?
        } else {
            self.many_joined(number, first, second)?.shared()?
        };
        keep(&mut self.kept, print, first, second, &both)?;
        Ok(both)
    }

    /// The same, of second lists that are many, by a set of what is there.
    fn many_joined(
        &mut self,
        number: u64,
        first: &Results,
        second: &Results,
    ) -> Result<Results, Memory>
        ensures { IfOk result (λ both. both ≡ add_all first.now second.now) }
    {
        if self.first == number {
            return self.joined_in_row(first, second);
        }
        self.first = number;
        self.joined_to_last(first, second)
    }

    /// The same, where the last union most likely had the same first list.
    fn joined_in_row(&mut self, first: &Results, second: &Results) -> Result<Results, Memory>
        ensures { IfOk result (λ both. both ≡ add_all first.now second.now) }
    {
        let alloc = *self.kept.allocator();
        let row = match self.row.take() {
            Some(row) if row.list.equals(first) => row,
            _ => make_known(alloc, first)?,
        };
        let both = joined(alloc, &row.list, &row.seen, second)?;
        self.row = Some(row);
        Ok(both)
    }

    /// The same, by the set of the last union where it was the first list.
    fn joined_to_last(&mut self, first: &Results, second: &Results) -> Result<Results, Memory>
        ensures { IfOk result (λ both. both ≡ add_all first.now second.now) }
    {
        let mut seen = set_for(*self.kept.allocator(), self.last.take(), first)?;
        let mut both = first.copy()?;
        push_each(&mut both, &mut seen, second)?;
        let both = both.shared()?;
        self.last = Some(Known {
            list: both.copy()?,
            seen,
        });
        Ok(both)
    }
}
