//! What the paths of a policy make in all cubes at once. A policy of 8192 octets has chains and sums of over a thousand parts, and
//! the tree is gone down part by part: so what is done in a part stays out of line, and what a part makes is put in place. The way
//! down a chain or a sum needs little of the stack, and only brackets within one another need more.

ghost use Rattle.std.specs.Prelude.{◌≡◌, ◌<◌, ◌&&◌, ◌∷◌, [], ℕ, List, length, map, filter, Some, IfOk, OnOk};
ghost use Rattle.std.specs.List.{slice_get};
ghost use Rattle.net_types.specs.declared.cube.Cube.{Cube as AnyCube};
ghost use Rattle.net_types.specs.declared.headers.Span.{Span as AnySpan};
ghost use Rattle.net_types.specs.declared.headers.Loc.TheVariants.{Stay};
ghost use Rattle.net_types.specs.Policies.{Both, Fwd, Then};
ghost use Rattle.net_types.specs.Sets.{Member, SameMembers};
ghost use Rattle.policy_syntax.specs.Views.{pred_of, policy_of, target_of};
ghost use Rattle.policy_compile.specs.Columns.{AreBelow, AreKept, IsInside, IsKept, KeepSets, given, outcome_at, set_of};
ghost use Rattle.policy_compile.specs.Covered.{Covers, IsCovered};
ghost use Rattle.policy_compile.specs.Groups.{IsClosed};
ghost use Rattle.policy_compile.specs.Given.{AreMade, given_by};
ghost use Rattle.place_sets.specs.Places.{has_place};
ghost use Rattle.policy_compile.specs.Exact.{stage_exact};
ghost use Rattle.policy_compile.specs.Paths.{after_item};
ghost use Rattle.policy_compile.specs.Paths.{AreVisits, begun, pred_at};

use crate::columns::{Columns, Key};
use crate::groups::Groups;
use crate::memo::{Asked, Memo};
use crate::outcomes::{Outcome, Within};
use crate::regroup::regrouped;
use crate::seen::fields_of;
use crate::set_table::SetTable;
use classifier::print_of_pair;
use net_types::{Assign, Loc, Memory};
use place_sets::PlaceSet;
use policy_isolate::Names;
use policy_syntax::{Node, Pred, Target, Tree};
use std::alloc::Global;

// an odd number without a pattern
const PLACES: u64 = 0xA24B_AED4_963E_E407;

/// What an assignment sets of the fields that a predicate tests, and the number of a set.
#[derive(Clone, Copy, Debug, PartialEq, Eq)]
pub struct Tested {
    pub places: usize,
    pub set: Assign,
}

impl Asked for Tested {
    ghost exact = { stage_exact };

    fn print(&self) -> u64 {
        (self.places as u64)
            .wrapping_mul(PLACES)
            .wrapping_add(print_of_pair(&(self.set, Loc::Stay)))
    }
}

/// The places of a set at which something holds.
fn both_of(alloc: Global, places: &PlaceSet, outcome: &Outcome) -> Result<PlaceSet, Memory>
    ensures { IfOk result (λ s. (k : ℕ) → has_place s k ≡ (has_place places.now k && outcome_at outcome.now k)) }
{
    match outcome {
        Outcome::All => {
            let same = places.copy(alloc)?;
            Ok(same)
        }
        Outcome::Nowhere => Ok(PlaceSet::none(alloc)),
        Outcome::In(others) => {
            let both = places.both(alloc, others)?;
            Ok(both)
        }
    }
}

/// The number of a set, where it has places.
fn number_of(columns: &mut Columns, places: PlaceSet) -> Result<Option<usize>, Memory>
    ensures inside { IfOk result (IsInside columns.new.sets.sets.items) }
    ensures is { IfOk result (λ n. (k : ℕ) → set_of columns.new.sets.sets.items n k ≡ has_place places k) }
    ensures kept { OnOk result (KeepSets columns.old.sets.sets.items columns.new.sets.sets.items) }
    ensures columns { OnOk result (columns.new.columns.items ≡ columns.old.columns.items) }
{
    if places.is_empty() {
        return Ok(None);
    }
    let number = columns.sets.put(places)?;
    Ok(Some(number))
}

/// The number of the places of a set at which a predicate holds behind an assignment, if any.
fn kept_number(
    alloc: Global,
    within: &mut Within<'_>,
    made: &mut Columns,
    asked: &mut Memo<Tested, Option<usize>>,
    sets: &[PlaceSet],
    pred: &Pred<'_>,
    tested: Tested,
) -> Result<Option<usize>, Memory>
    requires places { tested.places < length sets.now }
    requires asked { AreKept within.old.cubes.now (pred_of pred.now) sets.now made.old.sets.sets.items asked.old.noted.items }
    ensures number { IfOk result (IsKept within.new.cubes.now (pred_of pred.now) sets.now made.new.sets.sets.items tested) }
    ensures asked { OnOk result (AreKept within.new.cubes.now (pred_of pred.now) sets.now made.new.sets.sets.items asked.new.noted.items) }
    ensures kept { OnOk result (KeepSets made.old.sets.sets.items made.new.sets.sets.items) }
    ensures columns { OnOk result (made.new.columns.items ≡ made.old.columns.items) }
    ensures cubes { within.new.cubes.now ≡ within.old.cubes.now }
{
    if let Some(number) = asked.find(&tested) {
        return Ok(number);
    }
    let outcome = within.of_pred(&tested.set, pred)?;
    let places = both_of(alloc, &sets[tested.places], &outcome)?;
    let number = number_of(made, places)?;
    asked.note(tested, number)?;
    Ok(number)
}

/// The keys behind whose assignments a predicate holds.
fn kept_columns(
    alloc: Global,
    within: &mut Within<'_>,
    columns: &Columns,
    pred: &Pred<'_>,
) -> Result<Columns, Memory>
    ensures kept { IfOk result (λ made. (k : ℕ) (m : AnyCube) → slice_get within.old.cubes.now k ≡ Some m → given made.sets.sets.items made.columns.items k ≡ filter (λ key. pred_at m key.set (pred_of pred.now)) (given columns.now.sets.sets.items columns.now.columns.items k)) }
    ensures below { IfOk result (λ made. (n : ℕ) → AreBelow n columns.now.columns.items → AreBelow n made.columns.items) }
    ensures cubes { within.new.cubes.now ≡ within.old.cubes.now }
{
    let mut made = Columns::new(alloc);
    let mut asked = Memo::new(alloc);
    let fields = fields_of(pred);
    for column in columns.columns.iter() {
        let tested = Tested {
            places: column.set,
            set: fields.seen(&column.key.set),
        };
        let number = kept_number(
            alloc,
            within,
            &mut made,
            &mut asked,
            &columns.sets.sets,
            pred,
            tested,
        )?;
        if let Some(number) = number {
            made.push(column.key, number)?;
        }
    }
    Ok(made)
}

/// The results behind which a predicate holds.
#[inline(never)]
fn kept(
    alloc: Global,
    within: &mut Within<'_>,
    locations: &[Loc],
    groups: &Groups,
    pred: &Pred<'_>,
) -> Result<Groups, Memory>
    ensures kept { IfOk result (λ made. (k : ℕ) (m : AnyCube) → slice_get within.old.cubes.now k ≡ Some m → given_by locations.now made k ≡ filter (λ i. pred_at m i.0 (pred_of pred.now)) (given_by locations.now groups.now k)) }
    ensures cubes { within.new.cubes.now ≡ within.old.cubes.now }
{
    let columns = kept_columns(alloc, within, &groups.columns, pred)?;
    let ways = groups.ways.twin(alloc)?;
    Ok(Groups::from_parts(alloc, ways, columns))
}

/// What is done after each result.
#[inline(never)]
fn after(
    alloc: Global,
    locations: &[Loc],
    groups: &Groups,
    set: &Assign,
    loc: Loc,
) -> Result<Groups, Memory>
    requires { IsClosed locations.now loc }
    ensures { IfOk result (λ made. (k : ℕ) → SameMembers (given_by locations.now made k) (map (after_item set.now loc) (given_by locations.now groups.now k))) }
{
    let mut made = Groups::new(alloc);
    made.add_after(locations, groups, set, loc)?;
    Ok(made)
}

/// What a forward makes of each result; nothing where a name is nobody's.
#[inline(never)]
fn forwarded<N: Names>(
    alloc: Global,
    locations: &[Loc],
    target: Target<'_>,
    names: &N,
    groups: &Groups,
) -> Result<Groups, Memory>
    requires { IsCovered (N.pid_of names.now) (target_of target) locations.now }
    ensures { IfOk result (λ made. (cubes : List AnyCube) (span : AnySpan) → AreMade (N.pid_of names.now) (Fwd (target_of target.entry) span) locations.now cubes groups.now made) }
{
    match target {
        Target::Number(port) => { after(alloc, locations, groups, &Assign::none(), Loc::Out(port)) }
        Target::Name(name) => match names.find(name) {
            Some(who) => { after(alloc, locations, groups, &Assign::none(), Loc::To(who)) }
            None => Ok(Groups::new(alloc)),
        },
    }
}

/// What a policy makes of the results of each cube.
#[cycle(stages)]
#[inline(never)]
pub fn made_of<N: Names>(
    alloc: Global,
    within: &mut Within<'_>,
    locations: &[Loc],
    tree: &Tree<'_>,
    names: &N,
    groups: &Groups,
) -> Result<Groups, Memory>
    requires { Covers (N.pid_of names.now) (policy_of tree.now) locations.now }
    ensures made { IfOk result (AreMade (N.pid_of names.now) (policy_of tree.now) locations.now within.old.cubes.now groups.now) }
    ensures cubes { within.new.cubes.now ≡ within.old.cubes.now }
{
    match tree.node() {
        Node::Drop => Ok(Groups::new(alloc)),
        Node::Pass => after(alloc, locations, groups, &Assign::none(), Loc::Stay),
        Node::Block => after(alloc, locations, groups, &Assign::none(), Loc::Nowhere),
        Node::Fwd(target, _) => forwarded(alloc, locations, target, names, groups),
        Node::Test(pred) => kept(alloc, within, locations, groups, pred),
        Node::Set(set, _) => after(alloc, locations, groups, &set, Loc::Stay),
        Node::Both(first, second) => {
            summed(alloc, within, locations, first, second, names, groups)
        }
        Node::Then(first, second) => {
            chained(alloc, within, locations, first, second, names, groups)
        }
    }
}

/// What either of two policies makes.
#[cycle(stages)]
#[inline(never)]
fn summed<N: Names>(
    alloc: Global,
    within: &mut Within<'_>,
    locations: &[Loc],
    first: &Tree<'_>,
    second: &Tree<'_>,
    names: &N,
    groups: &Groups,
) -> Result<Groups, Memory>
    requires { Covers (N.pid_of names.now) (Both (policy_of first.now) (policy_of second.now)) locations.now }
    ensures made { IfOk result (AreMade (N.pid_of names.now) (Both (policy_of first.now) (policy_of second.now)) locations.now within.old.cubes.now groups.now) }
    ensures cubes { within.new.cubes.now ≡ within.old.cubes.now }
{
    let mut either = Groups::new(alloc);
    add_made(alloc, within, locations, &mut either, first, names, groups)?;
    add_made(alloc, within, locations, &mut either, second, names, groups)?;
    regrouped(alloc, &either)
}

/// What the second of two policies makes of what the first makes.
#[cycle(stages)]
#[inline(never)]
fn chained<N: Names>(
    alloc: Global,
    within: &mut Within<'_>,
    locations: &[Loc],
    first: &Tree<'_>,
    second: &Tree<'_>,
    names: &N,
    groups: &Groups,
) -> Result<Groups, Memory>
    requires { Covers (N.pid_of names.now) (Then (policy_of first.now) (policy_of second.now)) locations.now }
    ensures made { IfOk result (AreMade (N.pid_of names.now) (Then (policy_of first.now) (policy_of second.now)) locations.now within.old.cubes.now groups.now) }
    ensures cubes { within.new.cubes.now ≡ within.old.cubes.now }
{
    let mut made = Groups::new(alloc);
    put_made(alloc, within, locations, &mut made, first, names, groups)?;
    put_behind(alloc, within, locations, &mut made, second, names)?;
    Ok(made)
}

/// Makes in place what a policy makes.
#[cycle(stages)]
#[inline(never)]
fn put_whole<N: Names>(
    alloc: Global,
    within: &mut Within<'_>,
    locations: &[Loc],
    made: &mut Groups,
    tree: &Tree<'_>,
    names: &N,
    groups: &Groups,
) -> Result<(), Memory>
    requires { Covers (N.pid_of names.now) (policy_of tree.now) locations.now }
    ensures made { OnOk result (AreMade (N.pid_of names.now) (policy_of tree.now) locations.now within.old.cubes.now groups.now made.new) }
    ensures cubes { within.new.cubes.now ≡ within.old.cubes.now }
{
    *made = made_of(alloc, within, locations, tree, names, groups)?;
    Ok(())
}

/// Makes in place what a policy makes: of a chain part by part, however its brackets stand.
#[cycle(stages)]
#[inline(never)]
fn put_made<N: Names>(
    alloc: Global,
    within: &mut Within<'_>,
    locations: &[Loc],
    made: &mut Groups,
    tree: &Tree<'_>,
    names: &N,
    groups: &Groups,
) -> Result<(), Memory>
    requires { Covers (N.pid_of names.now) (policy_of tree.now) locations.now }
    ensures made { OnOk result (AreMade (N.pid_of names.now) (policy_of tree.now) locations.now within.old.cubes.now groups.now made.new) }
    ensures cubes { within.new.cubes.now ≡ within.old.cubes.now }
{
    match tree.node() {
        Node::Then(first, second) => {
            put_made(alloc, within, locations, made, first, names, groups)?;
            put_behind(alloc, within, locations, made, second, names)?;
            Ok(())
        }
        _ => put_whole(alloc, within, locations, made, tree, names, groups),
    }
}

/// Takes results to what a policy makes of them, in place.
#[cycle(stages)]
#[inline(never)]
fn put_whole_behind<N: Names>(
    alloc: Global,
    within: &mut Within<'_>,
    locations: &[Loc],
    made: &mut Groups,
    tree: &Tree<'_>,
    names: &N,
) -> Result<(), Memory>
    requires { Covers (N.pid_of names.now) (policy_of tree.now) locations.now }
    ensures made { OnOk result (AreMade (N.pid_of names.now) (policy_of tree.now) locations.now within.old.cubes.now made.old made.new) }
    ensures cubes { within.new.cubes.now ≡ within.old.cubes.now }
{
    *made = made_of(alloc, within, locations, tree, names, made)?;
    Ok(())
}

/// Takes results to what a policy makes of them, in place: of a chain part by part, however its brackets stand.
#[cycle(stages)]
#[inline(never)]
fn put_behind<N: Names>(
    alloc: Global,
    within: &mut Within<'_>,
    locations: &[Loc],
    made: &mut Groups,
    tree: &Tree<'_>,
    names: &N,
) -> Result<(), Memory>
    requires { Covers (N.pid_of names.now) (policy_of tree.now) locations.now }
    ensures made { OnOk result (AreMade (N.pid_of names.now) (policy_of tree.now) locations.now within.old.cubes.now made.old made.new) }
    ensures cubes { within.new.cubes.now ≡ within.old.cubes.now }
{
    match tree.node() {
        Node::Then(first, second) => {
            put_behind(alloc, within, locations, made, first, names)?;
            put_behind(alloc, within, locations, made, second, names)?;
            Ok(())
        }
        _ => put_whole_behind(alloc, within, locations, made, tree, names),
    }
}

/// Adds what a policy makes.
#[cycle(stages)]
#[inline(never)]
fn add_whole<N: Names>(
    alloc: Global,
    within: &mut Within<'_>,
    locations: &[Loc],
    either: &mut Groups,
    tree: &Tree<'_>,
    names: &N,
    groups: &Groups,
) -> Result<(), Memory>
    requires { Covers (N.pid_of names.now) (policy_of tree.now) locations.now }
    ensures made { OnOk result ((k : ℕ) (m : AnyCube) → slice_get within.old.cubes.now k ≡ Some m → AreVisits (N.pid_of names.now) (policy_of tree.now) m (given_by locations.now groups.now k) (given_by locations.now either.old k) (given_by locations.now either.new k)) }
    ensures cubes { within.new.cubes.now ≡ within.old.cubes.now }
{
    let made = made_of(alloc, within, locations, tree, names, groups)?;
    either.add_after(locations, &made, &Assign::none(), Loc::Stay)?;
    Ok(())
}

/// Adds what each part of a sum makes, however its brackets stand; of another policy what it makes.
#[cycle(stages)]
#[inline(never)]
fn add_made<N: Names>(
    alloc: Global,
    within: &mut Within<'_>,
    locations: &[Loc],
    either: &mut Groups,
    tree: &Tree<'_>,
    names: &N,
    groups: &Groups,
) -> Result<(), Memory>
    requires { Covers (N.pid_of names.now) (policy_of tree.now) locations.now }
    ensures made { OnOk result ((k : ℕ) (m : AnyCube) → slice_get within.old.cubes.now k ≡ Some m → AreVisits (N.pid_of names.now) (policy_of tree.now) m (given_by locations.now groups.now k) (given_by locations.now either.old k) (given_by locations.now either.new k)) }
    ensures cubes { within.new.cubes.now ≡ within.old.cubes.now }
{
    match tree.node() {
        Node::Both(first, second) => {
            add_made(alloc, within, locations, either, first, names, groups)?;
            add_made(alloc, within, locations, either, second, names, groups)?;
            Ok(())
        }
        _ => add_whole(alloc, within, locations, either, tree, names, groups),
    }
}

/// The packet as it is, in all cubes.
pub fn begun(alloc: Global, within: &Within<'_>, locations: &[Loc]) -> Result<Groups, Memory>
    requires { slice_get locations.now 0 ≡ Some Stay }
    ensures { IfOk result (λ g. (k : ℕ) (m : AnyCube) → slice_get within.now.cubes.now k ≡ Some m → given_by locations.now g k ≡ begun ∷ []) }
{
    let mut ways = SetTable::new(alloc);
    let number = ways.put(PlaceSet::first(alloc, 1)?)?;
    let mut columns = Columns::new(alloc);
    let places = columns.sets.put(within.everywhere()?)?;
    let key = Key {
        set: Assign::none(),
        number,
    };
    columns.push(key, places)?;
    Ok(Groups::from_parts(alloc, ways, columns))
}
