//! The rules after a line that builds rules.

ghost use Rattle.exchange_laws.specs.Rules.{LivePairsHaveParts, LivePairsKeepParts, TablesStaySound};

/// A table with rules that are right for the pairs that are new leaves a state sound, whatever the policies.
pub fn tables_stay_sound()
    ensures { TablesStaySound }
{}

/// The owner of each live pair's port has a part in the signature that is kept for its tag.
pub fn live_pairs_have_parts()
    ensures { LivePairsHaveParts }
{}

/// A pair that stays live keeps its owner's part.
pub fn live_pairs_keep_parts()
    ensures { LivePairsKeepParts }
{}
