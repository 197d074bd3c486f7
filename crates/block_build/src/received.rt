//! What receivers make of results, kept for the next rules that give them the same.

ghost use Rattle.std.specs.Prelude.{◌≡◌, IfOk, IfSome};
ghost use Rattle.classifier.specs.Items.{add_all};
ghost use Rattle.block_build.specs.Receivers.{received_items};

use crate::receive::received_results;
use crate::stop::Stop;
use classifier::{Results, Unions, push_all};
use net_types::{Memory, PortNo, TryCopy};
use std::alloc::Global;

/// So many results are turned into exits at once, which is no more work than to look for what they gave.
const FEW: usize = 16;

/// How many lists are kept.
const MOST: usize = 16;

/// So many results are joined to others by a set of these.
const MANY: usize = 64;

/// Among so many results one is looked for in the time of a look.
const AMONG: usize = 8;

/// So many looks it takes to put a result into a set.
const HASHED: usize = 8;

/// So many looks a result takes of two lists that are joined.
const JOINED: usize = 2;

/// How results leave, with the port of a NEXT_HOP.
#[derive(Drop)]
struct Leaving {
    print: u64,
    hop: PortNo,
    results: Results,
    exits: Results,
    ghost is: { exits ≡ received_items hop results },
}

/// What receivers made of results, and the unions of that with what leaves by others. Where rules have many results, they often
/// have one of a few lists, and share what becomes of it.
#[derive(Drop)]
pub(crate) struct Received {
    alloc: Global,
    // how many looks are left
    left: usize,
    // with so many receivers the rules are still to be joined, the present one among them
    receivers: usize,
    kept: Vec<Leaving>,
    unions: Unions,
}

/// How results leave, where it was kept.
fn found<'u>(kept: &'u [Leaving], print: u64, hop: PortNo, results: &Results) -> Option<&'u Results>
    ensures { IfSome result (λ exits. exits.now ≡ received_items hop results.now) }
{
    for earlier in kept {
        if earlier.print == print && earlier.hop == hop && earlier.results.equals(results) {
            return Some(&earlier.exits);
        }
    }
    None
}

/// Keeps how results leave. Where there are many, the earlier ones go.
fn keep(
    kept: &mut Vec<Leaving>,
    print: u64,
    hop: PortNo,
    results: &Results,
    exits: &Results,
) -> Result<(), Memory>
    requires { exits.now ≡ received_items hop results.now }
{
    if kept.len() >= MOST {
        kept.clear();
    }
    let results = results.copy()?;
    let exits = exits.copy()?;
    kept.push(Leaving {
        print,
        hop,
        results,
        exits,
    })?;
    Ok(())
}

impl Received {
    /// Nothing is kept yet. So many looks may be taken.
    pub(crate) fn new(alloc: Global, left: usize) -> Received {
        Received {
            alloc,
            left,
            receivers: 1,
            kept: Vec::new(alloc),
            unions: Unions::new(alloc),
        }
    }

    /// The allocator that it takes its memory from.
    pub(crate) fn alloc(&self) -> Global {
        self.alloc
    }

    /// Counts looks that are taken now, a look being what it takes to see whether a cube meets one other. Where more would be
    /// taken than may be, the work stops.
    pub(crate) fn count(&mut self, looks: usize) -> Result<(), Stop> {
        match self.left.checked_sub(looks) {
            Some(left) => {
                self.left = left;
                Ok(())
            }
            None => Err(Stop::Work),
        }
    }

    /// Counts what it takes to put so many results last where they grow: they are looked for among those that are there, or by a
    /// set where they are many.
    pub(crate) fn count_pushes(&mut self, results: usize, others: usize) -> Result<(), Stop> {
        if others < MANY {
            self.count(results.saturating_mul(others) / AMONG)
        } else {
            self.count(results.saturating_add(others).saturating_mul(HASHED))
        }
    }

    /// Counts what it takes to join so many results with others: to see whether their union was made, and to make it.
    pub(crate) fn count_union(&mut self, results: usize, others: usize) -> Result<(), Stop> {
        self.count(results.saturating_add(others).saturating_mul(JOINED))
    }

    /// With so many receivers rules are still to be joined, the next one among them.
    pub(crate) fn expect(&mut self, receivers: usize) {
        self.receivers = receivers;
    }

    /// Where the present receiver will take so many looks, and all that are still to come as many would be more than may be
    /// taken, the work stops before it is begun.
    pub(crate) fn foresee(&self, looks: usize) -> Result<(), Stop> {
        if looks.saturating_mul(self.receivers) > self.left {
            Err(Stop::Work)
        } else {
            Ok(())
        }
    }

    /// How the results leave, and the packet as it is where there are none.
    pub(crate) fn exits(&mut self, hop: PortNo, results: &Results) -> Result<Results, Memory>
        ensures { IfOk result (λ r. r ≡ received_items hop results.now) }
    {
        if results.len() <= FEW {
            return received_results(self.alloc, hop, results);
        }
        let print = results.print();
        if let Some(exits) = found(&self.kept, print, hop, results) {
            return exits.copy();
        }
        let exits = received_results(self.alloc, hop, results)?.shared()?;
        keep(&mut self.kept, print, hop, results, &exits)?;
        Ok(exits)
    }

    /// Results that leave by ports, beside what leaves by receivers before.
    pub(crate) fn union(&mut self, others: &Results, results: &Results) -> Result<Results, Memory>
        ensures { IfOk result (λ r. r ≡ add_all others.now results.now) }
    {
        self.unions.union(others, results)
    }

    /// The results beside others: those alone where there are no others.
    fn beside_others(&mut self, others: &Results, results: Results) -> Result<Results, Memory>
        ensures { IfOk result (λ r. r ≡ add_all others.now results) }
    {
        results.known();
        if others.is_empty() {
            return Ok(results);
        }
        self.unions.union(others, &results)
    }

    /// Results that leave by ports, behind those by which others leave. Few grow where they are.
    pub(crate) fn joined_with(
        &mut self,
        mut others: Results,
        results: &Results,
    ) -> Result<Results, Memory>
        ensures { IfOk result (λ r. r ≡ add_all others results.now) }
    {
        if results.len() <= FEW {
            push_all(self.alloc, &mut others, results)?;
            return Ok(others);
        }
        self.unions.union(&others, results)
    }

    /// How a receiver's results leave, behind those by which others leave.
    pub(crate) fn joined(
        &mut self,
        others: Results,
        hop: PortNo,
        results: &Results,
    ) -> Result<Results, Memory>
        ensures { IfOk result (λ r. r ≡ add_all others (received_items hop results.now)) }
    {
        let exits = self.exits(hop, results)?;
        self.joined_with(others, &exits)
    }

    /// How a receiver's results leave, beside what leaves by receivers before it.
    pub(crate) fn beside(
        &mut self,
        others: &Results,
        hop: PortNo,
        results: &Results,
    ) -> Result<Results, Memory>
        ensures { IfOk result (λ r. r ≡ add_all others.now (received_items hop results.now)) }
    {
        let exits = self.exits(hop, results)?;
        self.beside_others(others, exits)
    }
}
