//! The line that shows the table.

ghost use Rattle.std.specs.Prelude.{◌≡◌, true, IfOk, OnErr};
ghost use Rattle.events.specs.Fits.{IsStep};
ghost use Rattle.events.specs.declared.Event.TheVariants as lines;
ghost use Rattle.exchange_core.specs.Placed.{is_declared};

use super::Core;
use crate::replies::bare_reply;
use events::{Head, Phase, Reply};
use net_types::Memory;

impl Core {
    /// All rules of the table.
    pub(super) fn table(&mut self) -> Result<Reply, Memory>
        requires { is_declared self.old.phase ≡ true }
        ensures step { IfOk result (λ reply. IsStep self.old lines.Table reply self.new) }
        ensures unchanged { OnErr result (self.new ≡ self.old) }
    {
        let flows = self.switch.flows(self.alloc)?;
        self.phase = Phase::Running;
        let mut reply = bare_reply(self.alloc, Head::Fine);
        reply.adds = flows;
        Ok(reply)
    }
}
