//! What a sender sends by.

ghost use Rattle.std.specs.Prelude.{◌≡◌, map, IfOk, Some, false};
ghost use Rattle.std.specs.List.{slice_get};
ghost use Rattle.classifier.specs.declared.line.Line.{Line as AnyLine};
ghost use Rattle.classifier.specs.Meaning.{cubes_of};
ghost use Rattle.cells.specs.Firsts.{first_place};
ghost use Rattle.net_types.specs.declared.cube.Cube.{Cube as AnyCube};
ghost use Rattle.block_build.specs.ByCells.{held_by};
ghost use Rattle.block_build.specs.Offers.{has_one_left};
ghost use Rattle.block_build.specs.Reached.{NoneSends};

use crate::offers::{goes_to, has_one_left};
use classifier::Line;
use net_types::{Memory, Offer, Pid};
use std::alloc::Global;

/// The offers and the best of them, and a sender's rules, of each of which it is known whether one of its results isn't taken
/// out.
#[derive(Drop)]
pub struct Sending<'x> {
    pub best: Pid,
    pub offers: &'x [Offer],
    pub rules: &'x [Line],
    lefts: Vec<bool>,
    ghost are: { lefts.items ≡ map (λ (x : AnyLine). has_one_left offers.now x.results) rules.now },
}

/// Of each rule whether one of its results isn't taken out.
fn lefts_of(alloc: Global, offers: &[Offer], rules: &[Line]) -> Result<Vec<bool>, Memory>
    ensures { IfOk result (λ v. v.items ≡ map (λ (x : AnyLine). has_one_left offers.now x.results) rules.now) }
{
    let mut lefts = Vec::with_capacity(alloc, rules.len())?;
    for x in rules {
        lefts.push(has_one_left(offers, x.results.items()))?;
    }
    Ok(lefts)
}

impl<'x> Sending<'x> {
    /// The rules with what is known of them.
    pub(crate) fn new(
        alloc: Global,
        best: Pid,
        offers: &'x [Offer],
        rules: &'x [Line],
    ) -> Result<Sending<'x>, Memory>
        ensures best { IfOk result (λ s. s.best ≡ best) }
        ensures offers { IfOk result (λ s. s.offers.now ≡ offers.now) }
        ensures rules { IfOk result (λ s. s.rules.now ≡ rules.now) }
    {
        let lefts = lefts_of(alloc, offers, rules)?;
        Ok(Sending {
            best,
            offers,
            rules,
            lefts,
        })
    }

    /// Whether one of the results of the rule at a place isn't taken out.
    fn is_left(&self, place: usize) -> bool
        ensures { (x : AnyLine) → slice_get self.now.rules.now place ≡ Some x → result ≡ has_one_left self.now.offers.now x.results }
    {
        match self.lefts.get(place) {
            Some(left) => *left,
            None => false,
        }
    }

    /// Whether one of the results of the rule that holds a cube isn't taken out: the place of that rule is known.
    pub(crate) fn left_at(&self, place: Option<usize>) -> bool
        ensures { (c : AnyCube) → place ≡ first_place c (cubes_of self.now.rules.now) → result ≡ has_one_left self.now.offers.now (held_by c self.now.rules.now) }
    {
        match place {
            Some(place) => self.is_left(place),
            None => false,
        }
    }

    /// Whether one of the rules sends to a participant in the offers. Results from a place on are looked at first.
    pub(crate) fn reaches(&self, who: Pid, place: usize) -> bool
        ensures { result ≡ false → NoneSends self.now.best self.now.offers.now self.now.rules.now who }
    {
        for i in 0..self.rules.len() {
            let items = self.rules[i].results.items();
            if goes_to(self.is_left(i), self.best, items, who, place) {
                return true;
            }
        }
        false
    }
}
