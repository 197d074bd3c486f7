//! What a rule gives: assignments, each with a location.

ghost use Rattle.std.specs.Prelude.{◌≡◌, ◌↔◌, IsTrue, IfOk, OnOk, OnErr, ◌++◌, ◌∷◌, [], length, false};
ghost use Rattle.std.specs.Cmp.Lexicographic.{pointwise};
ghost use Rattle.classifier.specs.Items.{add, add_all, is_among, same_item};
ghost use Rattle.net_types.specs.Sets.{HasNoRepeats};

use crate::prints::print_of;
use net_types::{Assign, Loc, Memory, SharedItems, TryCopy};
use std::alloc::Global;
use std::marker::Model;

/// Assignments with a location, each pair once. Rules may share them.
#[derive(Drop)]
pub struct Results {
    pairs: SharedItems<(Assign, Loc)>,
    // the number of the list where it is shared and may be asked for again and again, else 0
    print: u64,
}

impl Model for Results {
    ghost use Rattle.std.specs.Prelude.{List};
    ghost use Rattle.net_types.specs.declared.headers.Assign.{Assign};
    ghost use Rattle.net_types.specs.Sets.{HasNoRepeats};
    ghost use Rattle.net_types.specs.declared.headers.Loc.{Loc};

    ghost Value = { List (Assign × Loc) };

    ghost view = { λ r. r.pairs };

    ghost invariant = { λ r. HasNoRepeats r.pairs };
}

/// Whether two pairs are equal. Locations differ more often than assignments, so they are compared first.
pub fn is_equal(a: &(Assign, Loc), b: &(Assign, Loc)) -> bool
    ensures { IsTrue result ↔ (a.now ≡ b.now) }
{
    a.1 == b.1 && a.0 == b.0
}

/// Whether two pairs are equal, by the test of the definitions.
fn is_same(a: &(Assign, Loc), b: &(Assign, Loc)) -> bool
    ensures { result ≡ same_item a.now b.now }
{
    is_equal(a, b)
}

/// Whether two lists have equal pairs in the same order.
fn are_same(one: &[(Assign, Loc)], other: &[(Assign, Loc)]) -> bool
    ensures { result ≡ pointwise same_item one.now other.now }
{
    if one.len() != other.len() {
        return false;
    }
    for i in 0..one.len() {
        if !is_same(&one[i], &other[i]) {
            return false;
        }
    }
    true
}

impl Results {
    /// No results.
    pub fn new(alloc: Global) -> Results
        ensures { result ≡ [] }
    {
        Results {
            pairs: SharedItems::new(alloc),
            print: 0,
        }
    }

    /// No results, with room for so many.
    pub fn with_room(alloc: Global, room: usize) -> Result<Results, Memory>
        ensures { IfOk result (λ r. r ≡ []) }
    {
        Ok(Results {
            pairs: SharedItems::from_vec(Vec::with_capacity(alloc, room)?),
            print: 0,
        })
    }

    /// Puts a pair last, unless it is there. After want of memory the results are unchanged.
    pub fn push(&mut self, pair: (Assign, Loc)) -> Result<(), Memory>
        ensures ok { OnOk result (self.new ≡ add self.old pair) }
        ensures err { OnErr result (self.new ≡ self.old) }
    {
        if !has_pair(self.pairs.items(), &pair) {
            self.pairs.push(pair)?;
            self.print = 0;
        }
        Ok(())
    }

    /// Puts a pair last that isn't there.
    pub(crate) fn put_last(&mut self, pair: (Assign, Loc)) -> Result<(), Memory>
        requires { is_among self.old pair ≡ false }
        ensures { OnOk result (self.new ≡ self.old ++ pair ∷ []) }
    {
        self.pairs.push(pair)?;
        self.print = 0;
        Ok(())
    }

    /// The pairs, in the order in which they were put.
    pub fn items(&self) -> &[(Assign, Loc)]
        ensures { result.now ≡ self.now }
    {
        self.pairs.items()
    }

    /// No pair is there twice.
    pub fn known(&self)
        ensures { HasNoRepeats self.now }
    {
        let _pairs = self.pairs.items();
    }

    /// Whether there are no results: the packet is dropped.
    pub fn is_empty(&self) -> bool
        ensures { IsTrue result ↔ (self.now ≡ []) }
    {
        self.pairs.items().is_empty()
    }

    /// How many results there are.
    pub fn len(&self) -> usize
        ensures { result ≡ length self.now }
    {
        self.pairs.items().len()
    }

    /// Whether these are the others, in the same order.
    pub fn equals(&self, others: &Results) -> bool
        ensures { IsTrue result ↔ (self.now ≡ others.now) }
    {
        are_same(self.items(), others.items())
    }

    /// A number by which most lists differ. Nothing rests on it but how soon they are told apart.
    pub fn print(&self) -> u64 {
        if self.print != 0 {
            return self.print;
        }
        print_of(self.items())
    }

    /// The results that are in a vector, each once.
    pub fn from_vec(pairs: Vec<(Assign, Loc)>) -> Results
        requires { HasNoRepeats pairs.items }
        ensures { result ≡ pairs.items }
    {
        Results {
            pairs: SharedItems::from_vec(pairs),
            print: 0,
        }
    }

    /// The same results, of which a copy is a further owner, without the pairs being copied.
    pub fn shared(self) -> Result<Results, Memory>
        ensures { IfOk result (λ shared. shared ≡ self) }
    {
        let print = self.print();
        let pairs = self.pairs.shared()?;
        Ok(Results { pairs, print })
    }

    /// Puts each of the pairs last, unless it is there.
    pub fn push_all(&mut self, others: &Results) -> Result<(), Memory>
        ensures ok { OnOk result (self.new ≡ add_all self.old others.now) }
    {
        for pair in others.items() {
            self.push(*pair)?;
        }
        Ok(())
    }
}

impl TryCopy for Results {
    /// A further owner of the pairs where they are shared; else they are copied.
    fn copy(&self) -> Result<Results, Memory> {
        let pairs = self.pairs.copy()?;
        let print = self.print;
        Ok(Results { pairs, print })
    }
}

/// Whether the pair is among these.
fn has_pair(pairs: &[(Assign, Loc)], pair: &(Assign, Loc)) -> bool
    ensures { result ≡ is_among pairs.now pair.now }
{
    for x in pairs {
        if is_same(x, pair) {
            return true;
        }
    }
    false
}
