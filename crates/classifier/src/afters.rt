//! Results behind an assignment, kept for the next rules that follow the same.

ghost use Rattle.std.specs.Prelude.{◌≡◌, IfOk, IfSome, OnOk};
ghost use Rattle.net_types.specs.declared.headers.Assign.{Assign as AnyAssign};
ghost use Rattle.net_types.specs.declared.headers.Loc.{Loc as AnyLoc};
ghost use Rattle.classifier.specs.Lines.{after_all, joined};

use crate::gathering::Gathering;
use crate::join::Join;
use crate::results::{Results, is_equal};
use crate::unions::Unions;
use net_types::{Assign, Loc, Memory, TryCopy};
use std::alloc::Global;

/// So many results are put behind an assignment at once, which is no more work than to look for what they gave.
const FEW: usize = 16;

/// How many lists are kept.
const MOST: usize = 16;

/// A list of results, and the same behind one.
#[derive(Drop)]
struct After {
    first: (Assign, Loc),
    next: Results,
    after: Results,
    ghost is: { after ≡ after_all first next },
}

/// Results behind others that were made, and unions of them with others.
#[derive(Drop)]
pub struct Afters {
    alloc: Global,
    kept: Vec<After>,
    unions: Unions,
}

/// The results behind one, where they were kept.
fn found<'u>(kept: &'u [After], first: (Assign, Loc), next: &Results) -> Option<&'u Results>
    ensures { IfSome result (λ after. after.now ≡ after_all first next.now) }
{
    for earlier in kept {
        if is_equal(&earlier.first, &first) && earlier.next.equals(next) {
            return Some(&earlier.after);
        }
    }
    None
}

/// The results behind one, each once.
fn after_of(alloc: Global, first: (Assign, Loc), next: &Results) -> Result<Results, Memory>
    ensures { IfOk result (λ after. after ≡ after_all first next.now) }
{
    let mut after = Gathering::with_room(alloc, next.len())?;
    for pair in next.items() {
        after.push((first.0.followed_by(&pair.0), pair.1.after(first.1)))?;
    }
    Ok(after.into_results())
}

/// Keeps results behind one. Where there are many, the earlier ones go.
fn keep(
    kept: &mut Vec<After>,
    first: (Assign, Loc),
    next: &Results,
    after: &Results,
) -> Result<(), Memory>
    requires { after.now ≡ after_all first next.now }
{
    if kept.len() >= MOST {
        kept.clear();
    }
    let next = next.copy()?;
    let after = after.copy()?;
    kept.push(After { first, next, after })?;
    Ok(())
}

impl Afters {
    /// Nothing is kept yet.
    pub fn new(alloc: Global) -> Afters {
        Afters {
            alloc,
            kept: Vec::new(alloc),
            unions: Unions::new(alloc),
        }
    }

    /// The results behind one, each once.
    fn after(&mut self, first: (Assign, Loc), next: &Results) -> Result<Results, Memory>
        ensures { IfOk result (λ after. after ≡ after_all first next.now) }
    {
        if next.len() <= FEW {
            return after_of(self.alloc, first, next);
        }
        if let Some(after) = found(&self.kept, first, next) {
            return after.copy();
        }
        let after = after_of(self.alloc, first, next)?.shared()?;
        keep(&mut self.kept, first, next, &after)?;
        Ok(after)
    }

    /// The results of a rule and, behind an assignment, those of another.
    pub fn join_behind(
        &mut self,
        results: &Results,
        first: (Assign, Loc),
        next: &Results,
    ) -> Result<Results, Memory>
        ensures { IfOk result (λ r. r ≡ joined Join.Union results.now (after_all first next.now)) }
    {
        let after = self.after(first, next)?;
        let both = self.unions.union(results, &after)?;
        Ok(both)
    }
}
