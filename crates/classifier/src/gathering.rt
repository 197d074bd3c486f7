//! Results to which pairs are put one by one, and a set of the pairs where they are many.

ghost use Rattle.std.specs.Prelude.{◌≡◌, [], IfOk, OnOk};
ghost use Rattle.classifier.specs.Gathered.{key_of, kind_of, number_of, Knows};
ghost use Rattle.classifier.specs.Items.{add, add_all};

use crate::results::Results;
use net_types::{Assign, Loc, Memory, TryCopy};
use std::alloc::Global;
use std::collections::HashSet;
use std::marker::Model;

/// So many pairs are looked through one by one, which is no more work than to look for one in a set.
const FEW: usize = 64;

/// What a set finds a pair by: its assignment, and its location as two numbers.
#[derive(Clone, Copy, Debug, PartialEq, Eq, Hash)]
pub struct Key {
    pub set: Assign,
    pub kind: u8,
    pub number: u32,
}

/// Results to which pairs are put one by one.
#[derive(Drop)]
pub struct Gathering {
    alloc: Global,
    results: Results,
    // the pairs, once they are many
    seen: Option<HashSet<Key>>,
}

impl Model for Gathering {
    ghost use Rattle.std.specs.Prelude.{List, IfSome};
    ghost use Rattle.net_types.specs.declared.headers.Assign.{Assign};
    ghost use Rattle.net_types.specs.declared.headers.Loc.{Loc};
    ghost use Rattle.classifier.specs.Gathered.{Knows};

    ghost Value = { List (Assign × Loc) };

    ghost view = { λ g. g.results };

    ghost invariant = { λ g. IfSome g.seen (Knows g.results) };
}

/// Which of the locations it is.
fn kind_of(loc: Loc) -> u8
    ensures { result ≡ kind_of loc }
{
    match loc {
        Loc::Stay => 0,
        Loc::To(_) => 1,
        Loc::Out(_) => 2,
        Loc::Nowhere => 3,
    }
}

/// The number of the location's participant or port, if it has one.
fn number_of(loc: Loc) -> u32
    ensures { result ≡ number_of loc }
{
    match loc {
        Loc::To(who) => who.0,
        Loc::Out(port) => port.0 as u32,
        Loc::Stay | Loc::Nowhere => 0,
    }
}

fn key_of(pair: &(Assign, Loc)) -> Key
    ensures { result ≡ key_of pair.now }
{
    Key {
        set: pair.0,
        kind: kind_of(pair.1),
        number: number_of(pair.1),
    }
}

/// The set of the pairs.
pub fn set_of(alloc: Global, pairs: &[(Assign, Loc)]) -> Result<HashSet<Key>, Memory>
    ensures { IfOk result (Knows pairs.now) }
{
    let mut seen = HashSet::new(alloc);
    for pair in pairs {
        seen.insert(key_of(pair))?;
    }
    Ok(seen)
}

/// Puts a pair last, unless the set has it.
fn push_new(
    results: &mut Results,
    seen: &mut HashSet<Key>,
    pair: (Assign, Loc),
) -> Result<(), Memory>
    requires { Knows results.old seen.old }
    ensures results { OnOk result (results.new ≡ add results.old pair) }
    ensures knows { OnOk result (Knows results.new seen.new) }
{
    let is_new = seen.insert(key_of(&pair))?;
    if is_new {
        results.put_last(pair)?;
    }
    Ok(())
}

/// Puts each of the pairs last, unless the set has it.
pub fn push_each(
    results: &mut Results,
    seen: &mut HashSet<Key>,
    others: &Results,
) -> Result<(), Memory>
    requires { Knows results.old seen.old }
    ensures results { OnOk result (results.new ≡ add_all results.old others.now) }
    ensures knows { OnOk result (Knows results.new seen.new) }
{
    for pair in others.items() {
        push_new(results, seen, *pair)?;
    }
    Ok(())
}

/// The first list, and behind it those of the second that the set doesn't have: where there are none, the same list again.
pub fn joined(
    alloc: Global,
    first: &Results,
    seen: &HashSet<Key>,
    second: &Results,
) -> Result<Results, Memory>
    requires { Knows first.now seen.now }
    ensures { IfOk result (λ both. both ≡ add_all first.now second.now) }
{
    first.known();
    second.known();
    let mut pairs = Vec::with_capacity(alloc, first.len().saturating_add(second.len()))?;
    pairs.extend_from_slice(first.items())?;
    for pair in second.items() {
        if !seen.contains(&key_of(pair)) {
            pairs.push(*pair)?;
        }
    }
    if pairs.len() == first.len() {
        return first.copy();
    }
    Ok(Results::from_vec(pairs))
}

/// Puts each of the pairs last, unless it is there.
pub fn push_all(alloc: Global, results: &mut Results, others: &Results) -> Result<(), Memory>
    ensures { OnOk result (results.new ≡ add_all results.old others.now) }
{
    if others.len() < FEW {
        return results.push_all(others);
    }
    let mut seen = set_of(alloc, results.items())?;
    push_each(results, &mut seen, others)
}

impl Gathering {
    /// No results.
    pub fn new(alloc: Global) -> Gathering
        ensures { result ≡ [] }
    {
        Gathering {
            alloc,
            results: Results::new(alloc),
            seen: None,
        }
    }

    /// No results, with room for so many.
    pub fn with_room(alloc: Global, room: usize) -> Result<Gathering, Memory>
        ensures { IfOk result (λ g. g ≡ []) }
    {
        Ok(Gathering {
            alloc,
            results: Results::with_room(alloc, room)?,
            seen: None,
        })
    }

    /// Has the set ready, where the pairs are many.
    fn note(&mut self) -> Result<(), Memory>
        ensures { self.new ≡ self.old }
    {
        if self.seen.is_none() && self.results.len() >= FEW {
            self.seen = Some(set_of(self.alloc, self.results.items())?);
        }
        Ok(())
    }

    /// Puts a pair last, unless it is there.
    pub fn push(&mut self, pair: (Assign, Loc)) -> Result<(), Memory>
        ensures { OnOk result (self.new ≡ add self.old pair) }
    {
        self.note()?;
        match self.seen.take() {
            None => self.results.push(pair),
            Some(mut seen) => {
                push_new(&mut self.results, &mut seen, pair)?;
                self.seen = Some(seen);
                Ok(())
            }
        }
    }

    /// The pairs, in the order in which they were put.
    pub fn items(&self) -> &[(Assign, Loc)]
        ensures { result.now ≡ self.now }
    {
        self.results.items()
    }

    /// The results that were gathered.
    pub fn into_results(self) -> Results
        ensures { result ≡ self }
    {
        self.results
    }
}
