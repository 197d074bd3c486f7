//! Predicates compiled to classifiers that keep or drop a packet.

ghost use Rattle.std.specs.Prelude.{◌≡◌, ◌∷◌, [], IfOk};
ghost use Rattle.net_types.specs.Headers.{no_change};
ghost use Rattle.net_types.specs.declared.headers.Loc.TheVariants.{Stay};
ghost use Rattle.net_types.specs.Policies.{Or, plain, test_cube};
ghost use Rattle.policy_syntax.specs.Views.{pred_of, test_of};
ghost use Rattle.classifier.specs.Compiled.{Filters, KeepsFound};
ghost use Rattle.policy_compile.specs.Parts.{AreFilters};

use crate::pairs::{Pairs, Stop};
use crate::parts::{alone, appended};
use crate::sums::sum_all;
use classifier::{Classifier, Results, negate, sequence, single};
use net_types::{Assign, Cube, Loc, Memory};
use policy_syntax::{Pred, Test};
use std::alloc::Global;

/// The cube of the headers that pass a test.
pub fn cube_of_test(test: &Test) -> Cube
    ensures { result ≡ test_cube (test_of test.now) }
{
    let mut cube = Cube::everything();
    match test {
        Test::Inport(port) => cube.inport = Some(*port),
        Test::Src(prefix) => cube.src = *prefix,
        Test::Dst(prefix) => cube.dst = *prefix,
        Test::Proto(proto) => cube.proto = Some(*proto),
        Test::Sport(port) => cube.sport = Some(*port),
        Test::Dport(port) => cube.dport = Some(*port),
    }
    cube
}

/// Of a conjunction of plain tests alone, the meet of their cubes, where they have headers in common.
pub fn plain_cube(pred: &Pred<'_>) -> Option<Option<Cube>>
    ensures { result ≡ plain (pred_of pred.now) }
{
    match pred {
        Pred::Is(test, _) => Some(Some(cube_of_test(test))),
        Pred::And(first, second) => match second {
            Pred::Is(test, _) => match plain_cube(first) {
                Some(Some(cube)) => Some(cube::meet(&cube, &cube_of_test(test))),
                Some(None) => Some(None),
                None => None,
            },
            _ => None,
        },
        _ => None,
    }
}

/// The packet as it is.
pub fn unchanged(alloc: Global) -> Result<Results, Memory>
    ensures { IfOk result (λ r. r ≡ (no_change, Stay) ∷ []) }
{
    let mut results = Results::new(alloc);
    results.push((Assign::none(), Loc::Stay))?;
    Ok(results)
}

/// The packet as it is in the cube that was found, and nothing elsewhere.
fn keep_found(alloc: Global, found: Option<Cube>) -> Result<Classifier, Memory>
    ensures { IfOk result (λ c. KeepsFound found c) }
{
    match found {
        Some(cube) => {
            let tested = classifier::test(alloc, &cube)?;
            Ok(tested)
        }
        None => {
            let none = single(alloc, Results::new(alloc))?;
            Ok(none)
        }
    }
}

/// The classifiers of the parts of a disjunction, however its brackets stand; of another predicate its own.
#[cycle(filters)]
fn filters_of(alloc: Global, pairs: &mut Pairs, pred: &Pred<'_>) -> Result<Vec<Classifier>, Stop>
    ensures { IfOk result (λ v. AreFilters (pred_of pred.now) v.items) }
{
    match pred {
        Pred::Or(first, second) => {
            let parts = filters_of_both(alloc, pairs, first, second)?;
            Ok(parts)
        }
        _ => {
            let whole = compile_pred(alloc, pairs, pred)?;
            let parts = alone(alloc, whole)?;
            Ok(parts)
        }
    }
}

/// The classifiers of the parts of two predicates' disjunction.
#[cycle(filters)]
fn filters_of_both(
    alloc: Global,
    pairs: &mut Pairs,
    first: &Pred<'_>,
    second: &Pred<'_>,
) -> Result<Vec<Classifier>, Stop>
    ensures { IfOk result (λ v. AreFilters (Or (pred_of first.now) (pred_of second.now)) v.items) }
{
    let left = filters_of(alloc, pairs, first)?;
    let right = filters_of(alloc, pairs, second)?;
    let parts = appended(left, right)?;
    Ok(parts)
}

/// The packet as it is where the predicate holds, and nothing elsewhere.
#[cycle(filters)]
pub fn compile_pred(alloc: Global, pairs: &mut Pairs, pred: &Pred<'_>) -> Result<Classifier, Stop>
    ensures { IfOk result (λ c. Filters (pred_of pred.now) c) }
{
    match pred {
        Pred::Yes => {
            let all = single(alloc, unchanged(alloc)?)?;
            Ok(all)
        }
        Pred::Is(test, _) => {
            let tested = classifier::test(alloc, &cube_of_test(test))?;
            Ok(tested)
        }
        Pred::Not(inner) => {
            let inside = compile_pred(alloc, pairs, inner)?;
            let turned = negate(alloc, &inside)?;
            Ok(turned)
        }
        Pred::And(first, second) => match plain_cube(pred) {
            Some(found) => {
                let kept = keep_found(alloc, found)?;
                Ok(kept)
            }
            None => {
                let left = compile_pred(alloc, pairs, first)?;
                let right = compile_pred(alloc, pairs, second)?;
                pairs.take_chain(left.lines(), right.lines())?;
                let both = sequence(alloc, &left, &right)?;
                Ok(both)
            }
        },
        Pred::Or(first, second) => {
            let parts = filters_of_both(alloc, pairs, first, second)?;
            let either = sum_all(alloc, pairs, &parts)?;
            Ok(either)
        }
    }
}
