//! What replies put into the table.

ghost use Rattle.exchange_laws.specs.Listed.{GoneAreDropped, NewAreAdded};
ghost use Rattle.exchange_laws.specs.Replies.{ChangesAreBuilt, RepliesBuildTables, RightRulesAreSome};

/// The pairs dropped are taken out, the rules added are put in, and the table is the new one.
pub fn replies_build_tables()
    ensures { RepliesBuildTables }
{}

/// What a line that builds rules puts into the table.
pub fn changes_are_built()
    ensures { ChangesAreBuilt }
{}

/// Right rules are some rules.
pub fn right_rules_are_some()
    ensures { RightRulesAreSome }
{}

/// The pairs whose rules go, in order, are those dropped.
pub fn gone_pairs_are_dropped()
    ensures { GoneAreDropped }
{}

/// The rules of the pairs whose rules come, in order, are those added.
pub fn new_pairs_are_added()
    ensures { NewAreAdded }
{}
