//! How many tags are free, and how many rules the table has.

ghost use Rattle.exchange_laws.specs.Counts.{FreeTagsAreCounted, NumbersFitCells, PairsAreLive, RulesAreCounted, TagsAreCounted};

/// The free tags and the live ones are all of the pool.
pub fn tags_are_counted()
    ensures { TagsAreCounted }
{}

/// In a steady state the free tags and those that are kept are all of the pool.
pub fn free_tags_are_counted()
    ensures { FreeTagsAreCounted }
{}

/// The rules are those that were there, less those dropped, and those added.
pub fn rules_are_counted()
    ensures { RulesAreCounted }
{}

/// The pairs of the table are the live ones, in order.
pub fn pairs_are_live()
    ensures { PairsAreLive }
{}

/// Numbers of distinct live pairs, each at most the pair's cells, are together at most all cells.
pub fn numbers_fit_cells()
    ensures { NumbersFitCells }
{}
