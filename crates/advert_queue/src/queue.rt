//! The message by which a participant is told what is present of a prefix.

ghost use Rattle.std.specs.Prelude.{◌≡◌, ◌≤◌, IfOk, IfSome, option_copied};
ghost use Rattle.advert_queue.specs.Telling.{advert_with};

use bgp_update::{announcement, withdrawal};
use events::Entry;
use net_types::{Bytes, Ip, Memory, Prefix};
use std::alloc::Global;

/// A withdrawal, or an announcement with the address of the entry's tag as NEXT_HOP.
pub(crate) fn advert(
    alloc: Global,
    base: Ip,
    prefix: Prefix,
    entry: Option<&Entry>,
) -> Result<Bytes, Memory>
    requires low { base.0 ≤ 3758096383 }
    requires small { IfSome (option_copied entry) (λ e. e.tag.0 ≤ 65536) }
    ensures { IfOk result (λ message. message ≡ advert_with base prefix (option_copied entry.entry)) }
{
    match entry {
        None => withdrawal(alloc, prefix),
        Some(entry) => announcement(alloc, prefix, entry.attrs.get(), Ip(base.0 + entry.tag.0)),
    }
}
