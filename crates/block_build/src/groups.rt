//! Rules in groups of runs.

ghost use Rattle.std.specs.Prelude.{◌≡◌, IfOk};
ghost use Rattle.block_build.specs.Groups.{lines_within};

use crate::group::Group;
use classifier::Line;
use net_types::Memory;
use std::alloc::Global;

/// How many rules a group has: sixteen runs, so that looking at the groups is as much work as looking at the runs of one.
const LENGTH: usize = 256;

/// The rules in groups.
pub(crate) fn groups_of<'v>(alloc: Global, lines: &'v [Line]) -> Result<Vec<Group<'v>>, Memory>
    ensures { IfOk result (λ v. lines_within v.items ≡ lines.now) }
{
    let mut groups = Vec::new(alloc);
    let mut left = lines;
    while !left.is_empty() {
        let (front, others) = left.split_at(left.len().min(LENGTH));
        groups.push(Group::new(alloc, front)?)?;
        left = others;
    }
    Ok(groups)
}
