//! Lines that change the routes: an UPDATE, a participant whose routes go, and export rules.

ghost use Rattle.exchange_laws.specs.Rerouting.{DownsReroute, ExportsReroute, NothingIsRerouted, UpdatesReroute};

/// An UPDATE leaves the routes that it says.
pub fn updates_reroute()
    ensures { UpdatesReroute }
{}

/// A participant that is down has no routes.
pub fn downs_reroute()
    ensures { DownsReroute }
{}

/// Export rules are those that were read.
pub fn exports_reroute()
    ensures { ExportsReroute }
{}

/// Where it leaves the routes as they were, it is accepted without a word.
pub fn nothing_is_rerouted()
    ensures { NothingIsRerouted }
{}
