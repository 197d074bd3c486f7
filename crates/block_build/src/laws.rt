//! What is right for a view is right for the policies, and the other way round. The functions have empty bodies, and their contracts are the laws.

ghost use Rattle.block_build.specs.Laws.{NoInports, NoMoreCells, RightForPolicies, RightForViews, ViewsAreOf};
ghost use Rattle.block_build.specs.Tight.{TightFormsStayRight};

/// Rules that are right for a view are right for the policies that its classifiers were made of.
pub fn right_for_policies()
    ensures { RightForPolicies }
{}

/// Rules that are right for the policies give what a view gives, with cubes that differ and actions in order.
pub fn right_for_views()
    ensures { RightForViews }
{}

/// A view has no more cells than the policies that its classifiers were made of.
pub fn no_more_cells()
    ensures { NoMoreCells }
{}

/// Where no cube of a receiver has an inport, no cube of right rules has one.
pub fn no_inports()
    ensures { NoInports }
{}

/// A view of the classifiers of all participants is one of the policies that they do.
pub fn views_are_of()
    ensures { ViewsAreOf }
{}

/// A tight form of right rules is right, whatever they are right for.
pub fn tight_forms_stay_right()
    ensures { TightFormsStayRight }
{}
