//! What a change of routes brings, found among the prefixes at which the routings differ.

ghost use Rattle.exchange_laws.specs.Touched.{GonePairsAreTouched, NewPairsAreTouched, OthersKeepTags, OthersStayPresent, TouchedHaveChanges, TouchedHaveGroups};

/// The groups are those of the touched prefixes, in their order.
pub fn touched_prefixes_have_groups()
    ensures { TouchedHaveGroups }
{}

/// The changes of tags are those of the touched prefixes, in their order.
pub fn touched_prefixes_have_changes()
    ensures { TouchedHaveChanges }
{}

/// Any other prefix keeps its tag.
pub fn other_prefixes_keep_tags()
    ensures { OthersKeepTags }
{}

/// What is present of any other prefix is the same.
pub fn other_prefixes_stay_present()
    ensures { OthersStayPresent }
{}

/// A pair that becomes live is so by a touched prefix.
pub fn new_pairs_are_touched()
    ensures { NewPairsAreTouched }
{}

/// A pair that is live no more was so by a touched prefix.
pub fn gone_pairs_are_touched()
    ensures { GonePairsAreTouched }
{}
