//! The parts of signatures, of which rules are built.

ghost use Rattle.exchange_laws.specs.Whole.{SignaturesAreWhole};

/// Rules can be built of the parts of signatures.
pub fn signatures_are_whole()
    ensures { SignaturesAreWhole }
{}
