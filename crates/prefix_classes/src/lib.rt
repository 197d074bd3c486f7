//! The tag of each prefix, and of each tag that is kept its signature and the number of its members.
#![tactic(auto)]

mod class_map;
mod grouping;
mod kept;
mod laws;
mod members;
mod moves;
mod placed;
mod trimming;

pub use class_map::ClassMap;
pub use grouping::Grouping;
pub use laws::{
    changed_prefixes_have_new_tags, changes_are_counted, least_tags_have_members,
    members_after_insert, members_after_remove, members_have_least_tags,
    merged_prefixes_are_tabulated, merged_prefixes_have_least_tags,
    merged_prefixes_keep_signatures, merged_prefixes_share_tags, new_ones_are_few,
    no_members_no_prefix, only_moved_prefixes_differ, other_prefixes_keep_their_tags,
    tags_after_changes,
};
pub use moves::Moves;
pub use placed::compare_sigs;
