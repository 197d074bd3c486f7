//! Building the rules of a pair.

ghost use Rattle.std.specs.Prelude.{◌≡◌, ◌+◌, ◌≤◌, true, IsTrue, IfOk, IfErr, length};
ghost use Rattle.net_types.specs.Answers.{is_offered};
ghost use Rattle.block_build.specs.Offers.{each_once};
ghost use Rattle.block_build.specs.Right.{are_for_any_port, IsRightAnywhere, IsRightFor, IsWide, view_cells};
ghost use Rattle.block_build.specs.Rules.{rules_of};
ghost use Rattle.block_build.specs.Views.{has_all};

use crate::actions::rules_of;
use crate::block::{Block, BuildFault};
use crate::joining::blocks_of;
use crate::tables::Workshop;
use crate::view::View;
use classifier::Line;
use net_types::{Memory, Part, PortNo, Steps};
use std::alloc::Global;
use std::sync::ledger::Ledger;

/// The rules as lines: all of them, where there are no more than the limit, and else more than the limit.
fn lines_for(
    alloc: Global,
    workshop: &mut Workshop,
    view: &View<'_>,
    port: PortNo,
    part: &Part,
    limit: usize,
) -> Result<Vec<Line>, Memory>
    requires best { IsTrue (is_offered part.now.offers part.now.best) }
    requires once { IsTrue (each_once part.now.offers) }
    requires all { IsTrue (has_all view.now part.now.offers) }
    ensures right { IfOk result (λ v. length v.items ≤ limit → IsRightFor view.now port part.now (rules_of v.items)) }
    ensures anywhere { IfOk result (λ v. length v.items ≤ limit → are_for_any_port view.now.outbound ≡ true → IsRightAnywhere view.now part.now (rules_of v.items)) }
    ensures cells { IfOk result (λ v. length v.items ≤ view_cells view.now port part.now) }
{
    view.known();
    let lines = blocks_of(alloc, workshop, view, port, part, limit)?;
    Ok(lines)
}

/// The rules for what comes in by a port and is sent by a part of a signature, by the classifiers of a view. It counts one
/// step. What goes to a hole is discarded. Where it finds more rules than the room it stops, and answers how many it found.
/// Where the sender's rules don't tell by which port a packet has to come in, the rules are right at every port. What is found on the way is kept in a workshop, for the next pairs.
pub fn build_with<L: Ledger>(
    alloc: Global,
    workshop: &mut Workshop,
    view: &View<'_>,
    port: PortNo,
    part: &Part,
    room: usize,
    steps: &mut Steps<L>,
) -> Result<Block, BuildFault>
    requires best { IsTrue (is_offered part.now.offers part.now.best) }
    requires once { IsTrue (each_once part.now.offers) }
    requires all { IsTrue (has_all view.now part.now.offers) }
    ensures step { steps.new ≡ steps.old + 1 }
    ensures right { IfOk result (λ block. IsRightFor view.now port part.now block) }
    ensures anywhere { IfOk result (λ block. are_for_any_port view.now.outbound ≡ true → IsRightAnywhere view.now part.now block) }
    ensures room { IfOk result (λ block. length block ≤ room) }
    ensures wide { IfErr result (λ fault. IsWide room (view_cells view.now port part.now) fault) }
{
    steps.tick();
    let lines = lines_for(alloc, workshop, view, port, part, room)?;
    let count = lines.len();
    if count > room {
        return Err(BuildFault::Wide { rules: count });
    }
    let rules = rules_of(alloc, lines)?;
    let block = Block::new(alloc, rules)?;
    Ok(block)
}

/// The same, where nothing is kept.
pub fn build<L: Ledger>(
    alloc: Global,
    view: &View<'_>,
    port: PortNo,
    part: &Part,
    room: usize,
    steps: &mut Steps<L>,
) -> Result<Block, BuildFault>
    requires best { IsTrue (is_offered part.now.offers part.now.best) }
    requires once { IsTrue (each_once part.now.offers) }
    requires all { IsTrue (has_all view.now part.now.offers) }
    ensures step { steps.new ≡ steps.old + 1 }
    ensures right { IfOk result (λ block. IsRightFor view.now port part.now block) }
    ensures anywhere { IfOk result (λ block. are_for_any_port view.now.outbound ≡ true → IsRightAnywhere view.now part.now block) }
    ensures room { IfOk result (λ block. length block ≤ room) }
    ensures wide { IfErr result (λ fault. IsWide room (view_cells view.now port part.now) fault) }
{
    let mut workshop = Workshop::new(alloc);
    build_with(alloc, &mut workshop, view, port, part, room, steps)
}
