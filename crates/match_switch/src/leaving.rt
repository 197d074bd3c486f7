//! Frames that leave, in order.

ghost use Rattle.std.specs.Prelude.{◌≡◌};
ghost use Rattle.events.specs.Table.{frame_cmp};
ghost use Rattle.net_types.specs.Maps.{ordered};

use events::Frame;
use std::cmp::Ordering;

/// By port, and then by octets.
fn order(a: &Frame, b: &Frame) -> Ordering
    ensures { result ≡ frame_cmp a.now b.now }
{
    let octets = a.bytes.items().cmp(b.bytes.items());
    a.port.0.cmp(&b.port.0).then(octets)
}

/// The same frames, by port and then octets, each once.
pub(crate) fn ascending(mut frames: Vec<Frame>) -> Vec<Frame>
    ensures { result.items ≡ ordered frame_cmp frames.items }
{
    frames.sort_unstable_by(|a, b| order(a, b));
    frames.dedup_by(|a, b| order(a, b).is_eq());
    frames
}
