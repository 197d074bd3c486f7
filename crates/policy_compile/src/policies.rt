//! Policies compiled to classifiers.

ghost use Rattle.std.specs.Prelude.{◌≡◌, ◌∷◌, [], IfOk};
ghost use Rattle.net_types.specs.declared.cube.Cube.{Cube as AnyCube};
ghost use Rattle.net_types.specs.declared.headers.Headers.{Headers as AnyHeaders};
ghost use Rattle.net_types.specs.declared.headers.Loc.{Loc as AnyLoc};
ghost use Rattle.net_types.specs.declared.headers.Assign.{Assign as AnyAssign};
ghost use Rattle.net_types.specs.declared.headers.Span.{Span as AnySpan};
ghost use Rattle.net_types.specs.Meets.{IsMeet};
ghost use Rattle.net_types.specs.Sets.{Member, SameMembers};
ghost use Rattle.net_types.specs.Policies.{Policy, Fwd, Both, Then, den, atoms, mods};
ghost use Rattle.classifier.specs.Classifiers.{meaning, cubes_of, assigns_of};
ghost use Rattle.policy_syntax.specs.Views.{policy_of, target_of};
ghost use Rattle.classifier.specs.Compiled.{IsCompiled};
ghost use Rattle.policy_compile.specs.Parts.{AreParts};

use crate::at_cells::compiled_at_cells;
use crate::pairs::{Pairs, Stop};
use crate::parts::{alone, appended};
use crate::preds::{compile_pred, plain_cube, unchanged};
use crate::sums::sum_all;
use classifier::{Classifier, Results, sequence, single};
use net_types::{Assign, Loc, Memory};
use policy_isolate::Names;
use policy_syntax::{Node, Target, Tree};
use std::alloc::Global;

/// The one pair.
fn only(alloc: Global, set: Assign, loc: Loc) -> Result<Results, Memory>
    ensures { IfOk result (λ r. r ≡ (set, loc) ∷ []) }
{
    let mut results = Results::new(alloc);
    results.push((set, loc))?;
    Ok(results)
}

/// A packet goes to the target; it is lost where a name is nobody's.
fn forward<N: Names>(alloc: Global, target: Target<'_>, names: &N) -> Result<Classifier, Memory>
    ensures { IfOk result (λ c. (span : AnySpan) → IsCompiled (N.pid_of names.now) (Fwd (target_of target.entry) span) c) }
{
    match target {
        Target::Number(port) => {
            let out = single(alloc, only(alloc, Assign::none(), Loc::Out(port))?)?;
            Ok(out)
        }
        Target::Name(name) => match names.find(name) {
            Some(who) => {
                let sent = single(alloc, only(alloc, Assign::none(), Loc::To(who))?)?;
                Ok(sent)
            }
            None => {
                let lost = single(alloc, Results::new(alloc))?;
                Ok(lost)
            }
        },
    }
}

/// The classifiers of the parts of a sum, however its brackets stand; of another policy its own.
#[cycle(sums)]
fn parts_of<N: Names>(
    alloc: Global,
    pairs: &mut Pairs,
    tree: &Tree<'_>,
    names: &N,
) -> Result<Vec<Classifier>, Stop>
    ensures { IfOk result (λ v. AreParts (N.pid_of names.now) (policy_of tree.now) v.items) }
{
    match tree.node() {
        Node::Both(first, second) => {
            let parts = parts_of_both(alloc, pairs, first, second, names)?;
            Ok(parts)
        }
        _ => {
            let whole = compiled(alloc, pairs, tree, names)?;
            let parts = alone(alloc, whole)?;
            Ok(parts)
        }
    }
}

/// The classifiers of the parts of two policies' sum.
#[cycle(sums)]
fn parts_of_both<N: Names>(
    alloc: Global,
    pairs: &mut Pairs,
    first: &Tree<'_>,
    second: &Tree<'_>,
    names: &N,
) -> Result<Vec<Classifier>, Stop>
    ensures { IfOk result (λ v. AreParts (N.pid_of names.now) (Both (policy_of first.now) (policy_of second.now)) v.items) }
{
    let left = parts_of(alloc, pairs, first, names)?;
    let right = parts_of(alloc, pairs, second, names)?;
    let parts = appended(left, right)?;
    Ok(parts)
}

/// Whether a policy compiles to two rules at most.
fn is_simple(tree: &Tree<'_>) -> bool {
    match tree.node() {
        Node::Both(_, _) => false,
        Node::Then(_, _) => false,
        Node::Test(pred) => plain_cube(pred).is_some(),
        _ => true,
    }
}

/// A policy before a classifier.
#[cycle(sums)]
fn whole_before<N: Names>(
    alloc: Global,
    pairs: &mut Pairs,
    tree: &Tree<'_>,
    next: &Classifier,
    names: &N,
) -> Result<Classifier, Stop>
    ensures { IfOk result (λ c. (q : Policy) → IsCompiled (N.pid_of names.now) q next.now → IsCompiled (N.pid_of names.now) (Then (policy_of tree.now) q) c) }
{
    let whole = compiled(alloc, pairs, tree, names)?;
    pairs.take_chain(whole.lines(), next.lines())?;
    let chained = sequence(alloc, &whole, next)?;
    Ok(chained)
}

/// The parts of a sum, however its brackets stand, each before a classifier; another policy as a whole.
#[cycle(sums)]
fn parts_before<N: Names>(
    alloc: Global,
    pairs: &mut Pairs,
    tree: &Tree<'_>,
    next: &Classifier,
    names: &N,
) -> Result<Vec<Classifier>, Stop>
    ensures { IfOk result (λ v. (q : Policy) → IsCompiled (N.pid_of names.now) q next.now → AreParts (N.pid_of names.now) (Then (policy_of tree.now) q) v.items) }
{
    match tree.node() {
        Node::Both(first, second) => {
            let parts = parts_of_both_before(alloc, pairs, first, second, next, names)?;
            Ok(parts)
        }
        _ => {
            let whole = before(alloc, pairs, tree, next, names)?;
            let parts = alone(alloc, whole)?;
            Ok(parts)
        }
    }
}

/// The parts of two policies' sum, each before a classifier.
#[cycle(sums)]
fn parts_of_both_before<N: Names>(
    alloc: Global,
    pairs: &mut Pairs,
    first: &Tree<'_>,
    second: &Tree<'_>,
    next: &Classifier,
    names: &N,
) -> Result<Vec<Classifier>, Stop>
    ensures { IfOk result (λ v. (q : Policy) → IsCompiled (N.pid_of names.now) q next.now → AreParts (N.pid_of names.now) (Then (Both (policy_of first.now) (policy_of second.now)) q) v.items) }
{
    let left = parts_before(alloc, pairs, first, next, names)?;
    let right = parts_before(alloc, pairs, second, next, names)?;
    let spread = appended(left, right)?;
    Ok(spread)
}

/// What `whole_before` does. `pass` before a classifier is that classifier. Where the classifier is one rule, it goes behind each
/// part of a sum, which has fewer results than the sum. The end of a chain is put before the classifier first where that is one
/// rule or the end is simple: so a chain of such ends goes over the rules of what stands before them once. Where chains are put
/// together from their ends, it is so with every sum and every chain.
#[cycle(sums)]
fn before<N: Names>(
    alloc: Global,
    pairs: &mut Pairs,
    tree: &Tree<'_>,
    next: &Classifier,
    names: &N,
) -> Result<Classifier, Stop>
    ensures { IfOk result (λ c. (q : Policy) → IsCompiled (N.pid_of names.now) q next.now → IsCompiled (N.pid_of names.now) (Then (policy_of tree.now) q) c) }
{
    let is_one = next.lines().len() == 1;
    match tree.node() {
        Node::Pass => {
            pairs.take_copy(next.lines())?;
            let same = next.twin()?;
            Ok(same)
        }
        Node::Then(first, second) => {
            if is_one || is_simple(second) || pairs.goes_backward() {
                let later = before(alloc, pairs, second, next, names)?;
                let chained = before(alloc, pairs, first, &later, names)?;
                return Ok(chained);
            }
            let chained = whole_before(alloc, pairs, tree, next, names)?;
            Ok(chained)
        }
        Node::Both(first, second) => {
            if is_one || pairs.goes_backward() {
                let parts = parts_of_both_before(alloc, pairs, first, second, next, names)?;
                let either = sum_all(alloc, pairs, &parts)?;
                return Ok(either);
            }
            let chained = whole_before(alloc, pairs, tree, next, names)?;
            Ok(chained)
        }
        _ => {
            let chained = whole_before(alloc, pairs, tree, next, names)?;
            Ok(chained)
        }
    }
}

/// What `compile` does, with its three promises as one, by operations on the classifiers of the parts.
#[cycle(sums)]
fn compiled<N: Names>(
    alloc: Global,
    pairs: &mut Pairs,
    tree: &Tree<'_>,
    names: &N,
) -> Result<Classifier, Stop>
    ensures { IfOk result (λ c. IsCompiled (N.pid_of names.now) (policy_of tree.now) c) }
{
    match tree.node() {
        Node::Drop => {
            let none = single(alloc, Results::new(alloc))?;
            Ok(none)
        }
        Node::Pass => {
            let all = single(alloc, unchanged(alloc)?)?;
            Ok(all)
        }
        Node::Block => {
            let blocked = single(alloc, only(alloc, Assign::none(), Loc::Nowhere)?)?;
            Ok(blocked)
        }
        Node::Fwd(target, _) => {
            let sent = forward(alloc, target, names)?;
            Ok(sent)
        }
        Node::Test(pred) => {
            let kept = compile_pred(alloc, pairs, pred)?;
            Ok(kept)
        }
        Node::Set(set, _) => {
            let changed = single(alloc, only(alloc, set, Loc::Stay)?)?;
            Ok(changed)
        }
        Node::Both(first, second) => {
            let parts = parts_of_both(alloc, pairs, first, second, names)?;
            let either = sum_all(alloc, pairs, &parts)?;
            Ok(either)
        }
        Node::Then(first, second) => {
            let next = compiled(alloc, pairs, second, names)?;
            let chained = before(alloc, pairs, first, &next, names)?;
            Ok(chained)
        }
    }
}

/// What `compile` does, with its three promises as one, where chains that are put together from their beginnings meet or give
/// too much: from their ends, and where they do so too, cube by cube.
fn compiled_backward<N: Names>(
    alloc: Global,
    tree: &Tree<'_>,
    names: &N,
) -> Result<Classifier, Memory>
    ensures { IfOk result (λ c. IsCompiled (N.pid_of names.now) (policy_of tree.now) c) }
{
    let mut pairs = Pairs::backward();
    match compiled(alloc, &mut pairs, tree, names) {
        Ok(made) => Ok(made),
        Err(Stop::Memory) => Err(Memory),
        Err(Stop::Pairs) => {
            let made = compiled_at_cells(alloc, tree, names)?;
            Ok(made)
        }
    }
}

/// The classifier that makes of each packet what the policy makes of it. A name that is nobody's leads nowhere.
pub fn compile<N: Names>(alloc: Global, tree: &Tree<'_>, names: &N) -> Result<Classifier, Memory>
    // It gives the same set of packets as the policy, of all headers and locations.
    ensures means { IfOk result (λ c. (h : AnyHeaders) (l : AnyLoc) →
        SameMembers (meaning c h l) (den (N.pid_of names.now) (policy_of tree.now) h l)) }
    // Its cubes are meets of the policy's atoms.
    ensures cubes { IfOk result (λ c. (x : AnyCube) → Member x (cubes_of c) → IsMeet (atoms (policy_of tree.now)) x) }
    // Its assignments are those of the policy's paths.
    ensures assigns { IfOk result (λ c. (m : AnyAssign) → Member m (assigns_of c) → Member m (mods (policy_of tree.now))) }
{
    let mut pairs = Pairs::new();
    match compiled(alloc, &mut pairs, tree, names) {
        Ok(made) => Ok(made),
        Err(Stop::Memory) => Err(Memory),
        Err(Stop::Pairs) => {
            if pairs.has_choice() {
                let made = compiled_backward(alloc, tree, names)?;
                return Ok(made);
            }
            let made = compiled_at_cells(alloc, tree, names)?;
            Ok(made)
        }
    }
}
