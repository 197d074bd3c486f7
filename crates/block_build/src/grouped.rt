//! Rules with the port of a NEXT_HOP.

ghost use Rattle.std.specs.Prelude.{◌≡◌};
ghost use Rattle.block_build.specs.Groups.{lines_within};

use crate::group::Group;
use classifier::Line;
use net_types::PortNo;

/// Rules, the same in groups of runs, and the port of the NEXT_HOP by which they leave.
#[derive(Drop)]
pub struct Grouped<'v> {
    pub hop: PortNo,
    pub lines: &'v [Line],
    pub groups: Vec<Group<'v>>,
    ghost same: { lines_within groups.items ≡ lines.now },
}
