//! The operations of policies on classifiers.

ghost use Rattle.std.specs.Prelude.{◌≡◌, ◌∷◌, [], ◌++◌, IfOk, map, length, ◌≤◌, if◌then◌else◌};
ghost use Rattle.net_types.specs.declared.cube.Cube.{Cube as AnyCube};
ghost use Rattle.net_types.specs.declared.headers.Headers.{Headers as AnyHeaders};
ghost use Rattle.net_types.specs.declared.headers.Loc.{Loc as AnyLoc};
ghost use Rattle.net_types.specs.declared.headers.Assign.{Assign as AnyAssign};
ghost use Rattle.net_types.specs.Meets.{IsMeet, behind};
ghost use Rattle.net_types.specs.Sets.{Member, SameMembers, union_over};
ghost use Rattle.classifier.specs.Lines.{add_lines, product, composed};
ghost use Rattle.classifier.specs.declared.line.Line.{Line as AnyLine};
ghost use Rattle.net_types.specs.Headers.{no_change};
ghost use Rattle.net_types.specs.Cubes.{has, everything};
ghost use Rattle.classifier.specs.Meaning.{otherwise, only_where_none, Follows, carried, AreTightLines};
ghost use Rattle.classifier.specs.Classifiers.{lines_of, meaning, cubes_of, assigns_of};

use crate::classifier::Classifier;
use crate::composition::composition_of;
use crate::filters::{lines_of_all, lines_of_test, negation_of};
use crate::join::Join;
use crate::product::product_of;
use crate::results::Results;
use crate::tight::tight_lines;
use net_types::{Cube, Memory};
use std::alloc::Global;

/// The rules of both, joined.
fn join(alloc: Global, join: Join, a: &Classifier, b: &Classifier) -> Result<Classifier, Memory>
    ensures { IfOk result (λ c. lines_of c ≡ add_lines [] (product join (lines_of a.now) (lines_of b.now))) }
{
    let lines = product_of(alloc, join, a.lines(), b.lines())?;
    Ok(Classifier::from_vec(lines))
}

/// The rules of the second behind those of the first.
fn compose(alloc: Global, a: &Classifier, b: &Classifier) -> Result<Classifier, Memory>
    ensures { IfOk result (λ c. lines_of c ≡ add_lines [] (composed (lines_of a.now) (lines_of b.now))) }
{
    let lines = composition_of(alloc, a.lines(), b.lines())?;
    Ok(Classifier::from_vec(lines))
}

/// What either gives.
pub fn parallel(alloc: Global, a: &Classifier, b: &Classifier) -> Result<Classifier, Memory>
    ensures union { IfOk result (λ c. (h : AnyHeaders) (l : AnyLoc) →
        SameMembers (meaning c h l) (meaning a.now h l ++ meaning b.now h l)) }
    ensures cubes { IfOk result (λ c. (x : AnyCube) → Member x (cubes_of c) →
        IsMeet (cubes_of a.now ++ cubes_of b.now) x) }
    ensures assigns { IfOk result (λ c. (m : AnyAssign) → Member m (assigns_of c) →
        Member m (assigns_of a.now ++ assigns_of b.now)) }
{
    let both = join(alloc, Join::Union, a, b)?;
    Ok(both)
}

/// What the second gives where the first gives nothing, and else what the first gives.
pub fn choose(alloc: Global, a: &Classifier, b: &Classifier) -> Result<Classifier, Memory>
    ensures otherwise { IfOk result (λ c. (h : AnyHeaders) (l : AnyLoc) →
        meaning c h l ≡ otherwise (meaning a.now h l) (meaning b.now h l)) }
    ensures cubes { IfOk result (λ c. (x : AnyCube) → Member x (cubes_of c) →
        IsMeet (cubes_of a.now ++ cubes_of b.now) x) }
    ensures assigns { IfOk result (λ c. (m : AnyAssign) → Member m (assigns_of c) →
        Member m (assigns_of a.now ++ assigns_of b.now)) }
{
    let chosen = join(alloc, Join::Otherwise, a, b)?;
    Ok(chosen)
}

/// What the second gives of each packet that the first gives.
pub fn sequence(alloc: Global, a: &Classifier, b: &Classifier) -> Result<Classifier, Memory>
    ensures chain { IfOk result (λ c. (h : AnyHeaders) (l : AnyLoc) →
        SameMembers (meaning c h l) (union_over (λ p. meaning b.now p.0 p.1) (meaning a.now h l))) }
    ensures cubes { IfOk result (λ c. (x : AnyCube) → Member x (cubes_of c) →
        IsMeet (cubes_of a.now ++ behind (assigns_of a.now) (cubes_of b.now)) x) }
    ensures assigns { IfOk result (λ c. (m : AnyAssign) → Member m (assigns_of c) →
        Follows (assigns_of a.now) (assigns_of b.now) m) }
{
    let chained = compose(alloc, a, b)?;
    Ok(chained)
}

/// The rules without those whose cube lies within an earlier one's. Runs of 64 rules are passed over for a rule that the
/// cube which holds the run doesn't hold.
pub fn tighten(alloc: Global, a: &Classifier) -> Result<Classifier, Memory>
    ensures same { IfOk result (λ c. (h : AnyHeaders) (l : AnyLoc) → meaning c h l ≡ meaning a.now h l) }
    ensures tight { IfOk result (λ c. AreTightLines (lines_of c)) }
    ensures fewer { IfOk result (λ c. length (lines_of c) ≤ length (lines_of a.now)) }
    ensures stand { IfOk result (λ c. (x : AnyLine) → Member x (lines_of c) → Member x (lines_of a.now)) }
{
    let lines = tight_lines(alloc, a.lines())?;
    Ok(Classifier::from_vec(lines))
}

/// The packet as it is where the first gives nothing, and nothing elsewhere.
pub fn negate(alloc: Global, a: &Classifier) -> Result<Classifier, Memory>
    ensures turned { IfOk result (λ c. (h : AnyHeaders) (l : AnyLoc) →
        meaning c h l ≡ only_where_none (meaning a.now h l) (h, l)) }
    ensures cubes { IfOk result (λ c. cubes_of c ≡ cubes_of a.now) }
    ensures assigns { IfOk result (λ c. (m : AnyAssign) → Member m (assigns_of c) → m ≡ no_change) }
{
    let lines = negation_of(alloc, a.lines())?;
    Ok(Classifier::from_vec(lines))
}

/// These results for all headers.
pub fn single(alloc: Global, results: Results) -> Result<Classifier, Memory>
    ensures all { IfOk result (λ c. (h : AnyHeaders) (l : AnyLoc) → meaning c h l ≡ map (carried h l) results) }
    ensures cubes { IfOk result (λ c. cubes_of c ≡ everything ∷ []) }
    ensures assigns { IfOk result (λ c. (m : AnyAssign) → Member m (assigns_of c) → Member m (map (λ i. i.0) results)) }
{
    let lines = lines_of_all(alloc, results)?;
    Ok(Classifier::from_vec(lines))
}

/// The packet as it is where its headers lie in a cube, and nothing elsewhere.
pub fn test(alloc: Global, cube: &Cube) -> Result<Classifier, Memory>
    ensures inside { IfOk result (λ c. (h : AnyHeaders) (l : AnyLoc) →
        meaning c h l ≡ (if has cube.now h then (h, l) ∷ [] else [])) }
    ensures cubes { IfOk result (λ c. (x : AnyCube) → Member x (cubes_of c) → IsMeet (cube.now ∷ []) x) }
    ensures assigns { IfOk result (λ c. (m : AnyAssign) → Member m (assigns_of c) → m ≡ no_change) }
{
    let lines = lines_of_test(alloc, cube)?;
    Ok(Classifier::from_vec(lines))
}
