//! What the reply at the end of a job lists.

ghost use Rattle.job_laws.specs.Changes.{ChangesAreListed, SameRulesAreEqual};

/// The prefixes that have other tags, in order, are the changes of tags that a reply lists.
pub fn changes_are_listed()
    ensures { ChangesAreListed }
{}

/// Rules pass as the same exactly where they are equal.
pub fn same_rules_are_equal()
    ensures { SameRulesAreEqual }
{}
