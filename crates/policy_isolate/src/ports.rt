//! Ports of a participant's own.

ghost use Rattle.std.specs.Prelude.{◌≡◌};
ghost use Rattle.net_types.specs.Isolation.{first_of, port_faults};

use crate::fault::refused;
use crate::names::Names;
use net_types::{IsolateFault, Kind, Pid, PortNo, Span};

/// Refuses a port that isn't the participant's.
pub(crate) fn own_port<N: Names>(
    names: &N,
    me: Pid,
    port: PortNo,
    span: Span,
) -> Result<(), IsolateFault>
    ensures { result ≡ first_of (port_faults me (N.owner_of names.now port) span) }
{
    match names.owner(port) {
        None => refused(Kind::ForeignPort, span),
        Some(who) => {
            if who.0 == me.0 {
                Ok(())
            } else {
                refused(Kind::ForeignPort, span)
            }
        }
    }
}
