//! Lines that change neither the routes nor what was told.

ghost use Rattle.exchange_laws.specs.Quiet.{QuietLinesAreAccepted};

/// Such a line is accepted with its answer, and the table stays as it was.
pub fn quiet_lines_are_accepted()
    ensures { QuietLinesAreAccepted }
{}
