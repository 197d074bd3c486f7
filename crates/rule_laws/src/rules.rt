//! Right rules exist for any policies, and how many they can be.

ghost use Rattle.rule_laws.specs.Rules.{OffersDiffer, RightRulesAreFew, RightRulesAreSome, RightRulesExist};

/// Some rules are right for any policies, part and port, where the best is one of the offers.
pub fn right_rules_exist()
    ensures { RightRulesExist }
{}

/// Right rules are no more than the cells of their policies.
pub fn right_rules_are_few()
    ensures { RightRulesAreFew }
{}

/// Right rules are at least one, since headers can come in by a port.
pub fn right_rules_are_some()
    ensures { RightRulesAreSome }
{}

/// Where no two offers have the same exporter, each exporter stands in them once.
pub fn offers_differ()
    ensures { OffersDiffer }
{}
