//! Sums of classifiers, as long as the pairs of rules that they meet and what they give are few enough.

ghost use Rattle.std.specs.Prelude.{◌≡◌, ◌++◌, IfOk};
ghost use Rattle.net_types.specs.declared.cube.Cube.{Cube as AnyCube};
ghost use Rattle.net_types.specs.declared.headers.Headers.{Headers as AnyHeaders};
ghost use Rattle.net_types.specs.declared.headers.Loc.{Loc as AnyLoc};
ghost use Rattle.net_types.specs.declared.headers.Assign.{Assign as AnyAssign};
ghost use Rattle.net_types.specs.Meets.{IsMeet};
ghost use Rattle.net_types.specs.Sets.{Member, SameMembers};
ghost use Rattle.classifier.specs.Classifiers.{meaning, cubes_of, assigns_of};
ghost use Rattle.classifier.specs.Sums.{IsSum};
ghost use Rattle.policy_compile.specs.Summed.{whole_of};

use crate::pairs::{Pairs, Stop};
use classifier::{Classifier, Numbered, are_aligned, parallel, parallel_all};
use net_types::Memory;
use std::alloc::Global;

/// So many results are joined again for each two rules, which is no more work than to look for the numbers of two lists.
const FEW: usize = 16;

/// What parts give together, with numbers for its results once rules have many.
#[derive(Drop)]
pub enum Sum {
    Few(Classifier),
    Many(Numbered),
}

impl Sum {
    /// The classifier.
    fn whole(&self) -> &Classifier
        ensures { result.now ≡ whole_of self.now }
    {
        match self {
            Sum::Few(whole) => whole,
            Sum::Many(numbered) => &numbered.whole,
        }
    }

    /// The classifier alone.
    fn into_whole(self) -> Classifier
        ensures { result ≡ whole_of self }
    {
        match self {
            Sum::Few(whole) => whole,
            Sum::Many(numbered) => numbered.whole,
        }
    }

    /// The classifier with numbers.
    fn numbered(self, alloc: Global) -> Result<Numbered, Memory>
        ensures { IfOk result (λ n. n.whole ≡ whole_of self) }
    {
        match self {
            Sum::Few(whole) => Numbered::new(alloc, whole),
            Sum::Many(numbered) => Ok(numbered),
        }
    }

    /// How many results the rule has that has most.
    fn most(&self) -> usize {
        let mut most = 0;
        for line in self.whole().lines() {
            most = most.max(line.results.len());
        }
        most
    }
}

/// What either gives. Where the cubes of both are the same in the same order, the results have numbers, by which each rule is
/// joined with one alone.
fn joined(alloc: Global, a: Sum, b: Sum) -> Result<Sum, Memory>
    ensures union { IfOk result (λ s. (h : AnyHeaders) (l : AnyLoc) →
        SameMembers (meaning (whole_of s) h l) (meaning (whole_of a) h l ++ meaning (whole_of b) h l)) }
    ensures cubes { IfOk result (λ s. (x : AnyCube) → Member x (cubes_of (whole_of s)) →
        IsMeet (cubes_of (whole_of a) ++ cubes_of (whole_of b)) x) }
    ensures assigns { IfOk result (λ s. (m : AnyAssign) → Member m (assigns_of (whole_of s)) →
        Member m (assigns_of (whole_of a) ++ assigns_of (whole_of b))) }
{
    let front = a.whole();
    let back = b.whole();
    if a.most().saturating_add(b.most()) <= FEW && !are_aligned(front.lines(), back.lines()) {
        let both = parallel(alloc, front, back)?;
        return Ok(Sum::Few(both));
    }
    let first = a.numbered(alloc)?;
    let second = b.numbered(alloc)?;
    let both = Numbered::parallel(alloc, &first, &second)?;
    Ok(Sum::Many(both))
}

/// What any of the parts gives. The parts of each half are joined first.
fn sum_of(alloc: Global, pairs: &mut Pairs, parts: &[Classifier]) -> Result<Sum, Stop>
    ensures { IfOk result (λ s. IsSum parts.now (whole_of s)) }
{
    if parts.len() < 2 {
        let few = parallel_all(alloc, parts)?;
        return Ok(Sum::Few(few));
    }
    let (front, back) = parts.split_at(parts.len() / 2);
    let left = sum_of(alloc, pairs, front)?;
    let right = sum_of(alloc, pairs, back)?;
    pairs.take_sum(alloc, left.whole().lines(), right.whole().lines())?;
    let all = joined(alloc, left, right)?;
    Ok(all)
}

/// What any of the parts gives.
pub fn sum_all(alloc: Global, pairs: &mut Pairs, parts: &[Classifier]) -> Result<Classifier, Stop>
    ensures { IfOk result (IsSum parts.now) }
{
    let all = sum_of(alloc, pairs, parts)?;
    Ok(all.into_whole())
}
