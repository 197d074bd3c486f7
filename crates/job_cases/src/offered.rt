//! Signatures and rules of a part in which one participant offers.

ghost use Rattle.std.specs.Prelude.{◌≡◌, ◌∷◌, [], false, IfOk};

use crate::wrong::Wrong;
use block_build::{Block, BuildFault, View, build};
use classifier::{Results, single};
use net_types::{Memory, Offer, Offers, Part, Pid, PortNo, Sig, Steps};
use std::alloc::Global;
use std::sync::ledger::Ledger;

/// B's offer by a port.
fn offers(alloc: Global, port: PortNo) -> Result<Offers, Memory>
    ensures { IfOk result (λ list. list ≡ record { exporter = record { 0 = 1 }; port = port; hole = false } ∷ []) }
{
    let mut list = Offers::new(alloc);
    list.push(Offer {
        exporter: Pid(1),
        port,
        hole: false,
    })?;
    Ok(list)
}

/// The signature by which A sends by B at a port.
pub fn signature(alloc: Global, port: PortNo) -> Result<Sig, Memory> {
    let mut signature = Sig::new(alloc);
    signature.push(Part {
        sender: Pid(0),
        best: Pid(1),
        offers: offers(alloc, port)?,
    })?;
    Ok(signature)
}

/// The one rule of such a part, by policies that drop.
pub fn block<L: Ledger>(
    alloc: Global,
    port: PortNo,
    steps: &mut Steps<L>,
) -> Result<Block, BuildFault> {
    let dropping = single(alloc, Results::new(alloc))?;
    let mut view = View::new(alloc, &dropping);
    view.add(Pid(1), &dropping)?;
    let part = Part {
        sender: Pid(0),
        best: Pid(1),
        offers: offers(alloc, port)?,
    };
    build(alloc, &view, PortNo(1), &part, 1, steps)
}

impl From<BuildFault> for Wrong {
    fn from(fault: BuildFault) -> Wrong {
        match fault {
            BuildFault::Wide { .. } => Wrong::Row,
            BuildFault::Memory => Wrong::Memory,
        }
    }
}
