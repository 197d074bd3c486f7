//! Laws of the exchange: what becomes of a sound state. The functions have empty bodies, and their contracts are the laws.
#![tactic(auto)]

mod counts;
mod editing;
mod fitting;
mod quiet;
mod replies;
mod reroutings;
mod rules;
mod steady;
mod tags;
mod telling;
mod touched;
mod unchanged;
mod whole;

pub use counts::{
    free_tags_are_counted, numbers_fit_cells, pairs_are_live, rules_are_counted, tags_are_counted,
};
pub use editing::{
    edits_are_accepted, edits_are_changes, inbounds_are_edits, outbounds_are_edits,
    reroutings_are_edits, steady_states_are_bases,
};
pub use fitting::{accepted_lines_fit, full_tables_are_refused};
pub use quiet::quiet_lines_are_accepted;
pub use replies::{
    changes_are_built, gone_pairs_are_dropped, new_pairs_are_added, replies_build_tables,
    right_rules_are_some,
};
pub use reroutings::{downs_reroute, exports_reroute, nothing_is_rerouted, updates_reroute};
pub use rules::{live_pairs_have_parts, live_pairs_keep_parts, tables_stay_sound};
pub use steady::{runs_stay_steady, starts_steady, steps_stay_steady};
pub use tags::{
    carried_prefixes_have_tags, changed_prefixes_are_grouped, free_tags_rise, fresh_tags_differ,
    fresh_tags_go_by_place, groups_have_fresh_tags, kept_tags_stay_live, live_tags_keep_signatures,
    live_tags_stay_kept, signatures_are_kept, tags_stay_pooled,
};
pub use telling::{
    drains_are_accepted, gone_pairs_were_told, gone_tags_were_told, news_are_known,
    present_are_known, takes_are_accepted, telling_keeps_live, telling_stays_kept,
    telling_stays_pooled, telling_stays_sound,
};
pub use touched::{
    gone_pairs_are_touched, new_pairs_are_touched, other_prefixes_keep_tags,
    other_prefixes_stay_present, touched_prefixes_have_changes, touched_prefixes_have_groups,
};
pub use unchanged::{nothing_is_said, routes_stay, same_routes_have_no_groups};
pub use whole::signatures_are_whole;
