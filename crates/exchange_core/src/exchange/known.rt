//! Who sends a line, and from which port it comes.

ghost use Rattle.std.specs.Prelude.{◌<◌, IfOk, length};
ghost use Rattle.events.specs.Resolving.{port_place};
ghost use Rattle.events.specs.State.{port_of};
ghost use Rattle.net_types.specs.Exports.{pid_of};
ghost use Rattle.exchange_core.specs.Stops.{IsKnown};

use super::Core;
use crate::stop::Stop;
use events::Refusal;
use net_types::{Name, Pid, PortInfo, PortNo};

impl Core {
    /// The participant that sends a line, where it is declared.
    pub(super) fn sender(&self, name: &Name) -> Result<Pid, Stop>
        ensures known { IsKnown (pid_of self.now.routing name.now) result }
        ensures declared { IfOk result (λ who. who.0 < length self.now.routing.participants) }
    {
        match self.registry.find_octets(name.items()) {
            Some(who) => Ok(who),
            None => Err(Refusal::Unknown.into()),
        }
    }

    /// The port from which a line comes, where it is declared.
    pub(super) fn source(&self, port: PortNo) -> Result<PortInfo, Stop>
        ensures { IsKnown (port_of self.now port) result }
    {
        match self.registry.port(port) {
            Some(source) => Ok(*source),
            None => Err(Refusal::Unknown.into()),
        }
    }

    /// The place of that port in the order of declaration.
    pub(super) fn place(&self, port: PortNo) -> Result<usize, Stop>
        ensures known { IsKnown (port_place self.now port) result }
        ensures within { IfOk result (λ place. place < length self.now.routing.ports) }
    {
        match self.registry.port_place(port) {
            Some(place) => Ok(place),
            None => Err(Refusal::Unknown.into()),
        }
    }
}
