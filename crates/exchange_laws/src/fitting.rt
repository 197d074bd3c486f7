//! Which replies fit a line that no refusal before stops.

ghost use Rattle.exchange_laws.specs.Fitting.{AcceptedLinesFit, FullTablesAreRefused};

/// The reply by which such a line is accepted fits.
pub fn accepted_lines_fit()
    ensures { AcceptedLinesFit }
{}

/// Where a line would leave more rules than the table has room for, though no more than the cells, it is refused.
pub fn full_tables_are_refused()
    ensures { FullTablesAreRefused }
{}
