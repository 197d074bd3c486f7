//! Whether rules are the same.

ghost use Rattle.std.specs.Prelude.{◌≡◌};
ghost use Rattle.std.specs.Cmp.Lexicographic.{pointwise};
ghost use Rattle.events.specs.Sound.{same_rule};

use cube::within;
use net_types::{Rule, same_items};

/// Whether two rules are the same. Their actions differ more often than their cubes do.
fn same_rule(one: &Rule, other: &Rule) -> bool
    ensures { result ≡ same_rule one.now other.now }
{
    if !same_items(one.actions.items(), other.actions.items()) {
        return false;
    }
    within(&one.cube, &other.cube) && within(&other.cube, &one.cube)
}

/// Whether the rules are the same, one by one.
pub fn same_rules(one: &[Rule], other: &[Rule]) -> bool
    ensures { result ≡ pointwise same_rule one.now other.now }
{
    if one.len() != other.len() {
        return false;
    }
    for i in 0..one.len() {
        if !same_rule(&one[i], &other[i]) {
            return false;
        }
    }
    true
}
