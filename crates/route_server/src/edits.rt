//! A row after an update.

ghost use Rattle.std.specs.Prelude.{◌≡◌, ℕ, None, Some, ◌<◌, ◌≤◌, ◌++◌, ◌∷◌, length, IfOk};
ghost use Rattle.route_server.specs.Rows.{look, look_after, Rising, without, before, after};

use crate::held::Held;
use net_types::{Items, Memory, Pid, TryCopy};
use std::alloc::Global;

impl TryCopy for Held {
    fn copy(&self) -> Result<Held, Memory> {
        let attrs = self.attrs.copy()?;
        let twin = Held {
            from: self.from,
            hops: self.hops,
            attrs,
        };
        Ok(twin)
    }
}

/// How many routes of a row are of other participants.
fn others(row: &[Held], from: Pid) -> usize
    ensures count { result ≡ length (without from.0 row.now) }
    ensures within { result ≤ length row.now }
{
    row.iter().filter(|held| held.from.0 != from.0).count()
}

/// The row without the participant's route.
fn copy_without(alloc: Global, row: &[Held], from: Pid) -> Result<Items<Held>, Memory>
    ensures { IfOk result (λ next. next ≡ without from.0 row.now) }
{
    let mut next = Items::from_vec(Vec::with_capacity(alloc, others(row, from))?);
    for held in row {
        if held.from.0 != from.0 {
            next.push(held.copy()?)?;
        }
    }
    Ok(next)
}

/// The row after a withdrawal.
pub fn row_without(alloc: Global, row: &[Held], from: Pid) -> Result<Items<Held>, Memory>
    requires rising { Rising 0 256 row.now }
    ensures looks { IfOk result (λ next. (n : ℕ) → look next n ≡ look_after from.0 None row.now n) }
    ensures rising { IfOk result (λ next. Rising 0 256 next) }
{
    let next = copy_without(alloc, row, from)?;
    Ok(next)
}

/// The row with a route in its place.
fn copy_with(alloc: Global, row: &[Held], own: Held) -> Result<Items<Held>, Memory>
    ensures { IfOk result (λ next. next ≡ before own.from.0 row.now ++ own ∷ after own.from.0 row.now) }
{
    let from = own.from;
    let mut next = Items::from_vec(Vec::with_capacity(alloc, others(row, from) + 1)?);
    for lesser in row {
        if lesser.from.0 < from.0 {
            next.push(lesser.copy()?)?;
        }
    }
    next.push(own)?;
    for greater in row {
        if from.0 < greater.from.0 {
            next.push(greater.copy()?)?;
        }
    }
    Ok(next)
}

/// The row after an announcement.
pub fn row_with(alloc: Global, row: &[Held], own: Held) -> Result<Items<Held>, Memory>
    requires rising { Rising 0 256 row.now }
    requires declared { own.from.0 < 256 }
    ensures looks { IfOk result (λ next. (n : ℕ) → look next n ≡ look_after own.from.0 (Some own.attrs) row.now n) }
    ensures rising { IfOk result (λ next. Rising 0 256 next) }
{
    let next = copy_with(alloc, row, own)?;
    Ok(next)
}
