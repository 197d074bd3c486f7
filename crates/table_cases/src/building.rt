//! Rules that are built from offers and policies.

ghost use Rattle.std.specs.Prelude.{◌≡◌, ◌<◌, true, length, nat_lt, IsTrue, IfOk};
ghost use Rattle.std.specs.List.{list_all};
ghost use Rattle.net_types.specs.Answers.{is_offered};
ghost use Rattle.net_types.specs.declared.route.Offer.{Offer as AnyOffer};
ghost use Rattle.block_build.specs.Offers.{each_once};
ghost use Rattle.block_build.specs.Views.{has_all};

use crate::asked::Asked;
use crate::fault::Fault;
use block_build::{Block, BuildFault, View, build, build_tight};
use net_types::{Memory, Offer, Part, Pid, PortNo, Steps};
use std::alloc::Global;
use std::sync::ledger::Ledger;

/// Whether a participant stands in the offers.
fn is_offered(offers: &[Offer], who: Pid) -> bool
    ensures { result ≡ is_offered offers.now who }
{
    for offer in offers {
        if offer.exporter.0 == who.0 {
            return true;
        }
    }
    false
}

/// Whether no participant stands in the offers twice.
fn each_once(offers: &[Offer]) -> bool
    ensures { result ≡ each_once offers.now }
{
    for at in 0..offers.len() {
        if is_offered(&offers[at + 1..], offers[at].exporter) {
            return false;
        }
    }
    true
}

/// Whether all who offer are among so many participants.
fn are_declared(offers: &[Offer], count: usize) -> bool
    ensures { result ≡ list_all (λ (offer : AnyOffer). nat_lt offer.exporter.0 count) offers.now }
{
    for offer in offers {
        if offer.exporter.0 as usize >= count {
            return false;
        }
    }
    true
}

impl From<BuildFault> for Fault {
    fn from(fault: BuildFault) -> Fault {
        match fault {
            BuildFault::Wide { rules } => Fault::Wide { rules },
            BuildFault::Memory => Fault::Memory,
        }
    }
}

/// The rules, and tight ones in their place.
fn both<L: Ledger>(
    alloc: Global,
    view: &View<'_>,
    port: PortNo,
    part: &Part,
    room: usize,
    steps: &mut Steps<L>,
) -> Result<(Block, Block), Fault>
    requires best { IsTrue (is_offered part.now.offers part.now.best) }
    requires once { IsTrue (each_once part.now.offers) }
    requires all { IsTrue (has_all view.now part.now.offers) }
{
    let block = build(alloc, view, port, part, room, steps)?;
    let tight = build_tight(alloc, block.rules(), steps)?;
    Ok((block, tight))
}

/// The rules that are asked for at a port, where all who send or offer are declared.
fn declared_blocks<L: Ledger>(
    alloc: Global,
    asked: &Asked,
    port: PortNo,
    room: usize,
    steps: &mut Steps<L>,
) -> Result<(Block, Block), Fault>
    requires best { IsTrue (is_offered asked.now.part.offers asked.now.part.best) }
    requires once { IsTrue (each_once asked.now.part.offers) }
    requires sender { asked.now.part.sender.0 < length asked.now.policies.inbounds.items }
    requires declared { list_all (λ (offer : AnyOffer). nat_lt offer.exporter.0 (length asked.now.policies.inbounds.items)) asked.now.part.offers ≡ true }
{
    let views = asked.policies.views(alloc)?;
    let view = views.view(alloc, &asked.part)?;
    both(alloc, &view, port, &asked.part, room, steps)
}

/// The rules that are asked for at a port, where there is room for them, and tight ones in their place.
pub fn blocks<L: Ledger>(
    alloc: Global,
    asked: &Asked,
    port: PortNo,
    room: usize,
    steps: &mut Steps<L>,
) -> Result<(Block, Block), Fault> {
    let part = &asked.part;
    let offers = part.offers.items();
    let count = asked.policies.count();
    if !is_offered(offers, part.best) || !each_once(offers) {
        return Err(Fault::Offers);
    }
    if (part.sender.0 as usize) < count && are_declared(offers, count) {
        declared_blocks(alloc, asked, port, room, steps)
    } else {
        Err(Fault::Offers)
    }
}
