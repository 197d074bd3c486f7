//! Which prefixes share a tag.

ghost use Rattle.job_laws.specs.Sharing.{LeastTagsStay, MergedPrefixesShare, SharedTagsTell};

/// At every moment two prefixes that share a tag have equal signatures.
pub fn shared_tags_tell()
    ensures { SharedTagsTell }
{}

/// At the end of a job two carried prefixes share a tag exactly where their signatures are equal.
pub fn merged_prefixes_share()
    ensures { MergedPrefixesShare }
{}

/// At the end of a job a prefix gets the least tag for which the signature of its own is kept.
pub fn least_tags_stay()
    ensures { LeastTagsStay }
{}
