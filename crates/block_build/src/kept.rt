//! What is kept of a receiver's rules.

ghost use Rattle.std.specs.Prelude.{◌≡◌, ◌∷◌, [], IfOk};
ghost use Rattle.net_types.specs.Cubes.{everything};
ghost use Rattle.classifier.specs.Lines.{line};
ghost use Rattle.block_build.specs.Kept.{kept_lines};
ghost use Rattle.block_build.specs.Receivers.{lines_by, received_items, received_lines};

use crate::alone::is_everything;
use crate::grouped::Grouped;
use crate::groups::groups_of;
use crate::receive::received_results;
use classifier::{Line, Results};
use net_types::{Memory, PortNo};
use std::alloc::Global;

/// What is kept of a receiver's rules.
#[derive(Drop)]
pub enum Kept<'v> {
    /// The results by which all headers leave: none by a hole.
    Alone(Results),
    /// Rules of which none is made before it is needed.
    Many(Grouped<'v>),
}

/// The rules in groups.
fn many<'v>(alloc: Global, hop: PortNo, lines: &'v [Line]) -> Result<Kept<'v>, Memory>
    ensures { IfOk result (λ kept. kept_lines kept ≡ received_lines hop lines.now) }
{
    let groups = groups_of(alloc, lines)?;
    Ok(Kept::Many(Grouped { hop, lines, groups }))
}

/// What a rule for all headers gives, as ports to leave by.
fn alone<'v>(alloc: Global, hop: PortNo, results: &Results) -> Result<Kept<'v>, Memory>
    ensures { IfOk result (λ kept. kept_lines kept ≡ line (received_items hop results.now) everything ∷ []) }
{
    let exits = received_results(alloc, hop, results)?;
    Ok(Kept::Alone(exits))
}

/// The rules of a participant with a route, in groups unless there is one, for all headers.
fn forwarding<'v>(alloc: Global, hop: PortNo, lines: &'v [Line]) -> Result<Kept<'v>, Memory>
    ensures { IfOk result (λ kept. kept_lines kept ≡ received_lines hop lines.now) }
{
    match lines {
        [only] if is_everything(&only.cube) => alone(alloc, hop, &only.results),
        _ => many(alloc, hop, lines),
    }
}

/// The rules of a participant, by the port of its NEXT_HOP, none for a hole.
pub(crate) fn kept_of<'v>(
    alloc: Global,
    hop: Option<PortNo>,
    lines: &'v [Line],
) -> Result<Kept<'v>, Memory>
    ensures { IfOk result (λ kept. kept_lines kept ≡ lines_by hop lines.now) }
{
    match hop {
        Some(hop) => forwarding(alloc, hop, lines),
        None => Ok(Kept::Alone(Results::new(alloc))),
    }
}
