//! Fresh tags, and the tags and signatures after a line that changes the routes.

ghost use Rattle.exchange_laws.specs.Fresh.{ChangedAreGrouped, FreeTagsRise, FreshTagsByPlace, FreshTagsDiffer, GroupsHaveFreshTags};
ghost use Rattle.exchange_laws.specs.Retagging.{CarriedHaveTags, KeptStayLive, LiveStayKept, LiveTagsStay, SignaturesAreKept, TagsStayPooled};

/// The group at a place takes the free tag at that place.
pub fn fresh_tags_go_by_place()
    ensures { FreshTagsByPlace }
{}

/// Each group has a fresh tag, which is one of the pool's and was not live.
pub fn groups_have_fresh_tags()
    ensures { GroupsHaveFreshTags }
{}

/// Different groups have different fresh tags.
pub fn fresh_tags_differ()
    ensures { FreshTagsDiffer }
{}

/// The group of each carried prefix that changed is one of the groups.
pub fn changed_prefixes_are_grouped()
    ensures { ChangedAreGrouped }
{}

/// Behind each free tag comes the least greater one that is free.
pub fn free_tags_rise()
    ensures { FreeTagsRise }
{}

/// After a change of routes exactly the carried prefixes have a tag.
pub fn carried_prefixes_have_tags()
    ensures { CarriedHaveTags }
{}

/// The signature of each prefix is the one that is kept for its tag.
pub fn signatures_are_kept()
    ensures { SignaturesAreKept }
{}

/// A tag that stays live keeps its signature.
pub fn live_tags_keep_signatures()
    ensures { LiveTagsStay }
{}

/// The live tags are still the pool's.
pub fn tags_stay_pooled()
    ensures { TagsStayPooled }
{}

/// Each tag that is kept is live.
pub fn kept_tags_stay_live()
    ensures { KeptStayLive }
{}

/// And each live tag is kept.
pub fn live_tags_stay_kept()
    ensures { LiveStayKept }
{}
