//! Lines that leave the routes as they were.

ghost use Rattle.exchange_laws.specs.Unchanged.{NoGroups, NothingIsSaid, RoutesStay};

/// By the same routes no prefix changes.
pub fn same_routes_have_no_groups()
    ensures { NoGroups }
{}

/// By the same routes the tags and the signatures are the same.
pub fn routes_stay()
    ensures { RoutesStay }
{}

/// Nothing is said where neither tags nor rules change.
pub fn nothing_is_said()
    ensures { NothingIsSaid }
{}
