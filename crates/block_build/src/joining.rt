//! The rules of a sender, joined with its receivers': one by one, or cell by cell where that would be more work.

ghost use Rattle.std.specs.Prelude.{[], IfOk};
ghost use Rattle.classifier.specs.Lines.{add_lines};
ghost use Rattle.block_build.specs.Bounds.{IsBuilt};
ghost use Rattle.block_build.specs.Reached.{AreReached};
ghost use Rattle.block_build.specs.Receivers.{receivers};
ghost use Rattle.block_build.specs.Spreads.{restricted};
ghost use Rattle.block_build.specs.Views.{inbound_of};

use crate::by_cells::by_cells;
use crate::exits::Exits;
use crate::sending::Sending;
use crate::spread::{are_for_any_port, restricted, spread_all};
use crate::stop::Stop;
use crate::tables::Workshop;
use crate::view::View;
use classifier::Line;
use net_types::{Memory, Part, PortNo};
use std::alloc::Global;

/// So many looks are taken where rules are joined one by one.
const MOST: usize = 67_108_864;

/// The participants in the offers that the sender reaches, each with its rules.
fn reached<'v>(
    alloc: Global,
    view: &'v View<'_>,
    sending: &Sending<'_>,
) -> Result<Vec<Exits<'v>>, Memory>
    ensures { IfOk result (λ v. AreReached sending.now.best sending.now.offers.now sending.now.rules.now (receivers (inbound_of view.now) sending.now.offers.now) v.items) }
{
    let mut all = Vec::new(alloc);
    let offers = sending.offers;
    for offer in offers {
        let place = all.len();
        if sending.reaches(offer.exporter, place) {
            all.push(Exits::new(alloc, view, offer, place)?)?;
        }
    }
    Ok(all)
}

/// The rules joined one by one, however many looks that takes.
fn one_by_one(
    alloc: Global,
    sending: &Sending<'_>,
    receivers: &[Exits<'_>],
    limit: usize,
) -> Result<Vec<Line>, Memory>
    ensures { IfOk result (λ v. IsBuilt limit sending.now.best sending.now.offers.now receivers.now sending.now.rules.now v.items) }
{
    let (best, offers, rules) = (sending.best, sending.offers, sending.rules);
    match spread_all(alloc, best, offers, receivers, rules, limit, usize::MAX) {
        Ok(lines) => Ok(lines),
        // so many looks nobody waits for
        Err(Stop::Work | Stop::Memory) => Err(Memory),
    }
}

/// The rules built cell by cell, or joined one by one where that would be no less work.
fn by_cells_or_one_by_one(
    alloc: Global,
    workshop: &mut Workshop,
    sending: &Sending<'_>,
    receivers: &[Exits<'_>],
    limit: usize,
) -> Result<Vec<Line>, Memory>
    ensures { IfOk result (λ v. IsBuilt limit sending.now.best sending.now.offers.now receivers.now sending.now.rules.now v.items) }
{
    match by_cells(alloc, workshop, sending, receivers, limit)? {
        Some(lines) => Ok(lines),
        None => one_by_one(alloc, sending, receivers, limit),
    }
}

/// The rules within each of the sender's: all of them, where there are no more than the limit, and else more than the limit.
fn joined(
    alloc: Global,
    workshop: &mut Workshop,
    sending: &Sending<'_>,
    receivers: &[Exits<'_>],
    limit: usize,
) -> Result<Vec<Line>, Memory>
    ensures { IfOk result (λ v. IsBuilt limit sending.now.best sending.now.offers.now receivers.now sending.now.rules.now v.items) }
{
    let (best, offers, rules) = (sending.best, sending.offers, sending.rules);
    match spread_all(alloc, best, offers, receivers, rules, limit, MOST) {
        Ok(lines) => Ok(lines),
        Err(Stop::Work) => by_cells_or_one_by_one(alloc, workshop, sending, receivers, limit),
        Err(Stop::Memory) => Err(Memory),
    }
}

/// The same for a part, by the participants in its offers.
fn within_part(
    alloc: Global,
    workshop: &mut Workshop,
    view: &View<'_>,
    part: &Part,
    rules: &[Line],
    limit: usize,
) -> Result<Vec<Line>, Memory>
    ensures { IfOk result (λ v. IsBuilt limit part.now.best part.now.offers (receivers (inbound_of view.now) part.now.offers) rules.now v.items) }
{
    let sending = Sending::new(alloc, part.best, part.offers.items(), rules)?;
    let receivers = reached(alloc, view, &sending)?;
    let lines = joined(alloc, workshop, &sending, &receivers, limit)?;
    Ok(lines)
}

/// The rules of a port and a part, with ports to leave by: all of them, where there are no more than the limit, and else
/// more than the limit.
pub(crate) fn blocks_of(
    alloc: Global,
    workshop: &mut Workshop,
    view: &View<'_>,
    port: PortNo,
    part: &Part,
    limit: usize,
) -> Result<Vec<Line>, Memory>
    ensures { IfOk result (λ v. IsBuilt limit part.now.best part.now.offers (receivers (inbound_of view.now) part.now.offers) (add_lines [] (restricted port view.now.outbound)) v.items) }
{
    let own = view.outbound();
    if are_for_any_port(own) {
        return within_part(alloc, workshop, view, part, own, limit);
    }
    let at_port = restricted(alloc, port, own)?;
    let lines = within_part(alloc, workshop, view, part, &at_port, limit)?;
    Ok(lines)
}
