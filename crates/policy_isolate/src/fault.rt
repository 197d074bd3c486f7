//! How a policy breaks isolation.

ghost use Rattle.std.specs.Prelude.{◌≡◌};
ghost use Rattle.net_types.specs.Isolation.{first_of, broken};

use net_types::{IsolateFault, Kind, Span};

pub(crate) fn refused(kind: Kind, span: Span) -> Result<(), IsolateFault>
    ensures { result ≡ first_of (broken kind span) }
{
    Err(IsolateFault { kind, span })
}
