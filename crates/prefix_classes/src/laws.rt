//! Laws of counting members. The functions have empty bodies, and their contracts are the laws.

ghost use Rattle.prefix_classes.specs.MergeLaws.{LeastTagsHaveMembers, MembersHaveLeastTags, MergedAreTabulated, MergedHaveLeastTags, MergedKeepSignatures, MergedShareTags, OnlyMovedDiffer};
ghost use Rattle.prefix_classes.specs.Laws.{MembersAfterInsert, MembersAfterRemove, NoMembersNoPrefix, ChangesAreCounted, TagsAfterChanges, ChangedHaveNewTags, OthersKeepTheirs, NewOnesAreFew};

/// A prefix that is given a tag counts for it, and no more for the one it had.
pub fn members_after_insert()
    ensures { MembersAfterInsert }
{}

/// A prefix whose tag is taken away counts no more for it.
pub fn members_after_remove()
    ensures { MembersAfterRemove }
{}

/// A tag has no members where no prefix has the tag, and only there.
pub fn no_members_no_prefix()
    ensures { NoMembersNoPrefix }
{}

/// After changes at different prefixes, a tag has the members it had, less those that leave, and those that join.
pub fn changes_are_counted()
    ensures { ChangesAreCounted }
{}

/// After changes at different prefixes, a prefix has the tag of its change, or else the one it had.
pub fn tags_after_changes()
    ensures { TagsAfterChanges }
{}

/// After changes at different prefixes, each of these has its new tag, or none.
pub fn changed_prefixes_have_new_tags()
    ensures { ChangedHaveNewTags }
{}

/// After changes, all other prefixes have the tags they had.
pub fn other_prefixes_keep_their_tags()
    ensures { OthersKeepTheirs }
{}

/// No more prefixes of a list are new than it has.
pub fn new_ones_are_few()
    ensures { NewOnesAreFew }
{}

/// Once classes are merged, a prefix has the least tag of its kept signature.
pub fn merged_prefixes_have_least_tags()
    ensures { MergedHaveLeastTags }
{}

/// Once classes are merged, two prefixes have the same tag exactly where their kept signatures are the same.
pub fn merged_prefixes_share_tags()
    ensures { MergedShareTags }
{}

/// What is kept for a prefix's tag is the same after a merge.
pub fn merged_prefixes_keep_signatures()
    ensures { MergedKeepSignatures }
{}

/// Once classes are merged, the least tag of each signature has members.
pub fn least_tags_have_members()
    ensures { LeastTagsHaveMembers }
{}

/// Once classes are merged, only the least tag of a signature has members.
pub fn members_have_least_tags()
    ensures { MembersHaveLeastTags }
{}

/// A merge changes the tags of exactly the prefixes that move.
pub fn only_moved_prefixes_differ()
    ensures { OnlyMovedDiffer }
{}

/// Where exactly these prefixes have tags and the signature of each is kept for its tag, each has after a merge the least
/// tag of those with its signature, and no other has one.
pub fn merged_prefixes_are_tabulated()
    ensures { MergedAreTabulated }
{}
