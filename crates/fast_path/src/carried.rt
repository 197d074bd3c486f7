//! What a plan leads to, once it is carried out. The function's contract is the law, and its body only cites others.

ghost use Rattle.fast_path.specs.Carried.{OffersAreKnown, PlansCanBeCommitted, PlansFitLines, PlansLeadOn};

use exchange_laws::{
    edits_are_accepted, gone_pairs_are_dropped, new_pairs_are_added, right_rules_are_some,
};

/// A plan for a state on which a line builds can be committed to the parts that have the state, where there is room for what
/// it puts in. The parts then have the state with the new tags and rules, and so has the line that the plan is for, with the
/// reply that says what the plan says. Its offers are to participants that were told something, be it nothing.
pub fn plans_are_committed()
    ensures known { OffersAreKnown }
    ensures allowed { PlansCanBeCommitted }
    ensures reached { PlansLeadOn }
    ensures replied { PlansFitLines }
{
    gone_pairs_are_dropped();
    new_pairs_are_added();
    right_rules_are_some();
    edits_are_accepted();
}
