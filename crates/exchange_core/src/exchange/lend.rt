//! What is told of an exchange between two lines.

ghost use Rattle.std.specs.Prelude.{◌≡◌, true, filter, length};
ghost use Rattle.events.specs.After.{running};
ghost use Rattle.events.specs.Refusals.{is_placed};
ghost use Rattle.events.specs.Tags.{is_live, tags};
ghost use Rattle.exchange_core.specs.Placed.{is_declared};
ghost use Rattle.exchange_laws.specs.Steady.{IsSteady};

use super::Core;
use crate::line_order::is_placed;
use events::{Event, Phase};
use exchange_laws::tags_are_counted;

impl Core {
    /// Between two lines the state is steady.
    pub fn is_steady(&self)
        ensures { IsSteady self.now }
    {
        let _phase = self.phase;
    }

    /// Whether a line is in place: the pool and the table come first and once, and participants and ports before all lines
    /// but these. Whether a job runs isn't looked at.
    pub fn is_placed(&self, event: &Event) -> bool
        ensures { result ≡ is_placed self.now.phase event.now }
    {
        is_placed(self.phase, event)
    }

    /// The declarations have ended: a job's line ends them too.
    pub fn start_running(&mut self)
        requires { is_declared self.old.phase ≡ true }
        ensures { self.new ≡ running self.old }
    {
        self.phase = Phase::Running;
    }

    /// How many tags are live: a prefix has them, or a participant was told them.
    pub fn live_tags(&self) -> u32
        ensures { result ≡ length (filter (is_live self.now) (tags self.now)) }
    {
        tags_are_counted();
        self.size - self.pool.free()
    }
}
