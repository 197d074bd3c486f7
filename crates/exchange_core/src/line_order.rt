//! Which lines are in place.

ghost use Rattle.std.specs.Prelude.{◌≡◌};
ghost use Rattle.events.specs.Refusals.{is_placed};
ghost use Rattle.exchange_core.specs.Placed.{is_declared};

use events::{Event, Phase};

/// Whether the pool and the table are declared, so that routes and datagrams may come.
fn is_declared(phase: Phase) -> bool
    ensures { result ≡ is_declared phase }
{
    match phase {
        Phase::Start => false,
        Phase::Declaring => true,
        Phase::Running => true,
    }
}

/// Whether a line is in place: the pool and the table come first and once, and participants and ports before all lines but
/// these.
pub fn is_placed(phase: Phase, event: &Event) -> bool
    ensures { result ≡ is_placed phase event.now }
{
    match event {
        Event::Bad => true,
        Event::Exchange { .. } => matches!(phase, Phase::Start),
        Event::Participant { .. } | Event::Port { .. } => matches!(phase, Phase::Declaring),
        _ => is_declared(phase),
    }
}
