//! The virtual MAC of a tag.

ghost use Rattle.std.specs.Prelude.{◌≡◌, ◌≤◌};
ghost use Rattle.net_types.specs.Frames.{tag_mac};

use net_types::{Mac, Tag};

/// The virtual MAC of a tag: 02:53:44 and the tag in three octets.
pub fn vmac(tag: Tag) -> Mac
    requires { tag.0 ≤ 65536 }
    ensures { result.0 ≡ tag_mac tag }
{
    let high = (tag.0 / 65536) as u8;
    let middle = (tag.0 / 256 % 256) as u8;
    let low = (tag.0 % 256) as u8;
    Mac([2, 83, 68, high, middle, low])
}
