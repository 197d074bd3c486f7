//! In which cubes a predicate holds behind an assignment.

ghost use Rattle.std.specs.Prelude.{◌≡◌, ◌&&◌, ◌||◌, ℕ, Bool, not, true, Some, IfOk};
ghost use Rattle.net_types.specs.declared.cube.Cube.{Cube as AnyCube};
ghost use Rattle.net_types.specs.Cubes.{lies_within_cube};
ghost use Rattle.policy_syntax.specs.Views.{pred_of};
ghost use Rattle.policy_compile.specs.Columns.{AreWithin, IsWithin, Tells, TellsSet, outcome_at};
ghost use Rattle.policy_compile.specs.Exact.{cubes_exact};
ghost use Rattle.place_sets.specs.Places.{has_place};
ghost use Rattle.policy_compile.specs.Paths.{part_at, pred_at, taken_into};

use crate::memo::{Asked, Memo};
use crate::preds::{cube_of_test, plain_cube};
use crate::prints::print_of_cube;
use net_types::{Assign, Cube, Memory};
use place_sets::PlaceSet;
use policy_syntax::Pred;
use std::alloc::Global;

impl Asked for Cube {
    ghost exact = { cubes_exact };

    fn print(&self) -> u64 {
        print_of_cube(self)
    }
}

/// In which cubes something holds.
#[derive(Drop)]
pub enum Outcome {
    /// In all.
    All,
    /// In none.
    Nowhere,
    /// In the cubes at these places.
    In(PlaceSet),
}

/// The cubes, and which of them lie within others that were asked for.
#[derive(Drop)]
pub struct Within<'c> {
    alloc: Global,
    pub cubes: &'c [Cube],
    // the places of all cubes
    all: PlaceSet,
    sets: Vec<PlaceSet>,
    // the number of the set of those within a cube
    found: Memo<Cube, usize>,
    ghost are: { AreWithin cubes.now all sets.items found.noted.items },
}

/// The places of the cubes that lie within one.
fn places_within(alloc: Global, cubes: &[Cube], outer: &Cube) -> Result<PlaceSet, Memory>
    ensures { IfOk result (λ s. TellsSet cubes.now (λ m. lies_within_cube m outer.now) (has_place s)) }
{
    let mut places = PlaceSet::none(alloc);
    for place in 0..cubes.len() {
        if cube::within(&cubes[place], outer) {
            places.put(place)?;
        }
    }
    Ok(places)
}

impl<'c> Within<'c> {
    /// Nothing was asked for yet.
    pub fn new(alloc: Global, cubes: &'c [Cube]) -> Result<Within<'c>, Memory>
        ensures { IfOk result (λ w. w.cubes.now ≡ cubes.now) }
    {
        let all = PlaceSet::first(alloc, cubes.len())?;
        Ok(Within {
            alloc,
            cubes,
            all,
            sets: Vec::new(alloc),
            found: Memo::new(alloc),
        })
    }

    /// The places of all cubes.
    pub fn everywhere(&self) -> Result<PlaceSet, Memory>
        ensures { IfOk result (λ s. TellsSet self.now.cubes.now (λ m. true) (has_place s)) }
    {
        self.all.copy(self.alloc)
    }

    /// The number of the set of the cubes that lie within one.
    fn number_of(&mut self, outer: &Cube) -> Result<usize, Memory>
        ensures number { IfOk result (IsWithin self.new.cubes.now self.new.sets.items outer.now) }
        ensures cubes { self.new.cubes.now ≡ self.old.cubes.now }
    {
        if let Some(number) = self.found.find(outer) {
            return Ok(number);
        }
        let places = places_within(self.alloc, self.cubes, outer)?;
        let number = self.sets.len();
        self.sets.push(places)?;
        self.found.note(*outer, number)?;
        Ok(number)
    }

    /// The cubes that lie within one.
    fn of_cube(&mut self, outer: &Cube) -> Result<Outcome, Memory>
        ensures tells { IfOk result (Tells self.new.cubes.now (λ m. lies_within_cube m outer.now)) }
        ensures cubes { self.new.cubes.now ≡ self.old.cubes.now }
    {
        if *outer == Cube::everything() {
            return Ok(Outcome::All);
        }
        let number = self.number_of(outer)?;
        let places = self.sets[number].copy(self.alloc)?;
        Ok(Outcome::In(places))
    }

    /// The cubes that an assignment takes into a tested one.
    fn of_test(&mut self, set: &Assign, test: &Cube) -> Result<Outcome, Memory>
        ensures tells { IfOk result (Tells self.new.cubes.now (λ m. taken_into m set.now (Some test.now))) }
        ensures cubes { self.new.cubes.now ≡ self.old.cubes.now }
    {
        match cube::pull(test, set) {
            None => Ok(Outcome::Nowhere),
            Some(rest) => {
                let outcome = self.of_cube(&rest)?;
                Ok(outcome)
            }
        }
    }

    /// The others.
    fn others(&self, outcome: Outcome) -> Result<Outcome, Memory>
        ensures { IfOk result (λ o. (f : AnyCube → Bool) → Tells self.now.cubes.now f outcome → Tells self.now.cubes.now (λ m. not (f m)) o) }
    {
        match outcome {
            Outcome::All => Ok(Outcome::Nowhere),
            Outcome::Nowhere => Ok(Outcome::All),
            Outcome::In(places) => {
                let others = self.all.without(self.alloc, &places)?;
                Ok(Outcome::In(others))
            }
        }
    }

    /// Those of both.
    fn both(&self, first: Outcome, second: Outcome) -> Result<Outcome, Memory>
        ensures { IfOk result (λ o. (k : ℕ) → outcome_at o k ≡ (outcome_at first k && outcome_at second k)) }
    {
        match (first, second) {
            (Outcome::Nowhere, _) => Ok(Outcome::Nowhere),
            (_, Outcome::Nowhere) => Ok(Outcome::Nowhere),
            (Outcome::All, second) => Ok(second),
            (first, Outcome::All) => Ok(first),
            (Outcome::In(first), Outcome::In(second)) => {
                let both = first.both(self.alloc, &second)?;
                Ok(Outcome::In(both))
            }
        }
    }

    /// Those of either.
    fn either(&self, first: Outcome, second: Outcome) -> Result<Outcome, Memory>
        ensures { IfOk result (λ o. (k : ℕ) → outcome_at o k ≡ (outcome_at first k || outcome_at second k)) }
    {
        match (first, second) {
            (Outcome::All, _) => Ok(Outcome::All),
            (_, Outcome::All) => Ok(Outcome::All),
            (Outcome::Nowhere, second) => Ok(second),
            (first, Outcome::Nowhere) => Ok(first),
            (Outcome::In(first), Outcome::In(second)) => {
                let either = first.either(self.alloc, &second)?;
                Ok(Outcome::In(either))
            }
        }
    }

    /// The cubes in which a predicate holds behind an assignment, by the parts of a conjunction.
    #[cycle(holding)]
    fn of_parts(&mut self, set: &Assign, pred: &Pred<'_>) -> Result<Outcome, Memory>
        ensures tells { IfOk result (Tells self.new.cubes.now (λ m. part_at m set.now (pred_of pred.now))) }
        ensures cubes { self.new.cubes.now ≡ self.old.cubes.now }
    {
        match pred {
            Pred::Yes => Ok(Outcome::All),
            Pred::Is(test, _) => {
                let outcome = self.of_test(set, &cube_of_test(test))?;
                Ok(outcome)
            }
            Pred::Not(inner) => {
                let outcome = self.of_pred(set, inner)?;
                let others = self.others(outcome)?;
                Ok(others)
            }
            Pred::And(first, second) => {
                let near = self.of_parts(set, first)?;
                let far = self.of_pred(set, second)?;
                let both = self.both(near, far)?;
                Ok(both)
            }
            Pred::Or(first, second) => {
                let near = self.of_pred(set, first)?;
                let far = self.of_pred(set, second)?;
                let either = self.either(near, far)?;
                Ok(either)
            }
        }
    }

    /// The cubes in which a predicate holds behind an assignment.
    #[cycle(holding)]
    pub fn of_pred(&mut self, set: &Assign, pred: &Pred<'_>) -> Result<Outcome, Memory>
        ensures tells { IfOk result (Tells self.new.cubes.now (λ m. pred_at m set.now (pred_of pred.now))) }
        ensures cubes { self.new.cubes.now ≡ self.old.cubes.now }
    {
        match plain_cube(pred) {
            Some(Some(test)) => {
                let outcome = self.of_test(set, &test)?;
                Ok(outcome)
            }
            Some(None) => Ok(Outcome::Nowhere),
            None => {
                let outcome = self.of_parts(set, pred)?;
                Ok(outcome)
            }
        }
    }
}
