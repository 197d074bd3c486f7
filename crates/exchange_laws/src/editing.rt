//! Lines that build rules: those that change the routes, and policies.

ghost use Rattle.exchange_laws.specs.Editing.{EditsAreAccepted, InboundBases, InboundsAreChanges, InboundsAreEdits, OutboundBases, OutboundsAreChanges, OutboundsAreEdits, ReroutingsAreChanges, ReroutingsAreEdits, SteadyAreBases};

/// Where the rules fit the table, such a line is accepted with the reply that says what is dropped and added.
pub fn edits_are_accepted()
    ensures { EditsAreAccepted }
{}

/// A steady state is one on which lines build.
pub fn steady_states_are_bases()
    ensures { SteadyAreBases }
{}

/// A line that changes the routes builds on the state before it.
pub fn reroutings_are_edits()
    ensures { ReroutingsAreEdits }
{}

/// Another outbound policy builds on the state with its text and the signatures trimmed by whom it names.
pub fn outbounds_are_edits()
    ensures bases { OutboundBases }
    ensures edits { OutboundsAreEdits }
{}

/// Another inbound policy builds on the state with its text.
pub fn inbounds_are_edits()
    ensures bases { InboundBases }
    ensures edits { InboundsAreEdits }
{}

/// Where no refusal stops it, each such line is a change of routes for which there are enough tags.
pub fn edits_are_changes()
    ensures reroutings { ReroutingsAreChanges }
    ensures outbounds { OutboundsAreChanges }
    ensures inbounds { InboundsAreChanges }
{}
