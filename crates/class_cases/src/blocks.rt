//! The rules of a pair, built and made tight.

ghost use Rattle.std.specs.Prelude.{◌≡◌, ◌∷◌, [], false, IfOk};

use crate::counter::Counter;
use crate::words::number;
use crate::wrong::Wrong;
use block_build::{Block, BuildFault, View};
use classifier::{Classifier, Results, single};
use net_types::{Cube, Memory, Offer, Offers, Part, Pid, PortNo};
use std::alloc::Global;
use std::sync::ledger::Ledger;

/// B's offer by its port 2.
fn offers(alloc: Global) -> Result<Offers, Memory>
    ensures { IfOk result (λ list. list ≡ record { exporter = record { 0 = 1 }; port = record { 0 = 2 }; hole = false } ∷ []) }
{
    let mut list = Offers::new(alloc);
    list.push(Offer {
        exporter: Pid(1),
        port: PortNo(2),
        hole: false,
    })?;
    Ok(list)
}

/// The rules at A's port 1 where B's route is the best and nobody else offers one, by policies that drop.
fn block_of<L: Ledger>(
    alloc: Global,
    dropping: &Classifier,
    room: usize,
    counter: &mut Counter<L>,
) -> Result<Block, BuildFault> {
    let mut view = View::new(alloc, dropping);
    view.add(Pid(1), dropping)?;
    let part = Part {
        sender: Pid(0),
        best: Pid(1),
        offers: offers(alloc)?,
    };
    counter.build(alloc, &view, PortNo(1), &part, room)
}

/// Puts rules behind a text: how many there are, and to which ports those send that have all packets.
fn push_rules(text: &mut String, block: &Block) -> Result<(), Memory> {
    let count = block.rules().len();
    write!(text, "{count} rules:")?;
    for rule in block.rules() {
        text.push_str(if rule.cube == Cube::everything() {
            " * ->"
        } else {
            " some ->"
        })?;
        for action in rule.actions.items() {
            let port = action.port.0;
            write!(text, " {port}")?;
        }
    }
    Ok(())
}

/// The rules that are built where there is so much room, and tight ones in their place; told is what the counter was and is.
pub fn rules<L: Ledger>(
    alloc: Global,
    counter: &mut Counter<L>,
    text: &str,
) -> Result<String, Wrong> {
    let dropping = single(alloc, Results::new(alloc))?;
    let before = counter.count();
    let built = block_of(alloc, &dropping, number(text)? as usize, counter);
    let between = counter.count();
    let mut told = format!(in alloc; "steps {before} to {between}, ")?;
    match built {
        Ok(block) => {
            push_rules(&mut told, &block)?;
            let tight = counter.tighten(alloc, block.rules())?;
            let after = counter.count();
            write!(told, "; steps {between} to {after}, ")?;
            push_rules(&mut told, &tight)?;
        }
        Err(BuildFault::Wide { rules }) => write!(told, "wide {rules}")?,
        Err(BuildFault::Memory) => return Err(Wrong::Memory),
    }
    Ok(told)
}
