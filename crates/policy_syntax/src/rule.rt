//! The laws of rules of texts, for policies.

ghost use Rattle.net_types.specs.Policies.{Policy};
ghost use Rattle.net_types.specs.PolicyGrammar.{policy};
ghost use Rattle.net_types.specs.PolicyReading.{read_start};
ghost use Rattle.policy_syntax.specs.After.{after_policy};

use grammar::TextRule;

/// The texts of policies: each spells one policy at most, and is wrong at one place.
pub struct PolicyText;

impl TextRule for PolicyText {
    ghost Value = { Policy };

    ghost rule = { policy };

    ghost reader = { read_start };

    ghost follow = { after_policy };

    fn reads_exactly() {}

    fn has_fronts() {}
}
