//! Rules that are built from the classifiers of a sender and two receivers.

ghost use Rattle.std.specs.Prelude.{◌≡◌, ◌∷◌, [], IfOk};

use crate::classifiers::classifier_of;
use crate::said::push_assign;
use crate::words::first_word;
use block_build::{Block, BuildFault, View, build};
use classifier::Classifier;
use net_types::{Action, Headers, Ip, Memory, Offer, Offers, Part, Pid, PortNo, Rule, Steps};
use std::alloc::Global;
use std::sync::ledger::Ledger;

/// The offers of participant 1 by port 2, and of participant 2 by port 3, and which of them are holes.
fn offers(alloc: Global, holes: (bool, bool)) -> Result<Offers, Memory>
    ensures { IfOk result (λ list. list ≡ record { exporter = record { 0 = 1 }; port = record { 0 = 2 }; hole = holes.0 } ∷ record { exporter = record { 0 = 2 }; port = record { 0 = 3 }; hole = holes.1 } ∷ []) }
{
    let mut list = Offers::new(alloc);
    list.push(Offer {
        exporter: Pid(1),
        port: PortNo(2),
        hole: holes.0,
    })?;
    list.push(Offer {
        exporter: Pid(2),
        port: PortNo(3),
        hole: holes.1,
    })?;
    Ok(list)
}

/// The actions of the first rule that has packets to a port.
fn actions_on(rules: &[Rule], dport: u16) -> &[Action] {
    let h = Headers {
        inport: PortNo(1),
        src: Ip(1),
        dst: Ip(2),
        proto: 6,
        sport: Some(7),
        dport: Some(dport),
    };
    for rule in rules {
        if cube::has(&rule.cube, &h) {
            return rule.actions.items();
        }
    }
    &[]
}

/// By which port each packet leaves, behind what is assigned to it.
fn actions_text(alloc: Global, actions: &[Action]) -> Result<String, Memory> {
    let mut text = String::new(alloc);
    for action in actions {
        text.push(' ')?;
        push_assign(&mut text, &action.set)?;
        let port = action.port.0;
        write!(text, "{port}")?;
    }
    if text.is_empty() {
        text.push_str(" none")?;
    }
    Ok(text)
}

/// How many rules there are, and the actions for packets to the ports 80 and 443.
fn told(alloc: Global, block: &Block) -> Result<String, Memory> {
    let rules = block.rules();
    let count = rules.len();
    let web = actions_text(alloc, actions_on(rules, 80))?;
    let other = actions_text(alloc, actions_on(rules, 443))?;
    Ok(format!(in alloc; "{count} rules; to 80:{web}; to 443:{other}")?)
}

/// The outbound policy of participant 0, and the inbound ones of the participants 1 and 2.
#[derive(Drop)]
struct Policies {
    outbound: Classifier,
    first: Classifier,
    second: Classifier,
}

fn read_policies(alloc: Global, text: &str) -> Result<Policies, Memory> {
    let mut words = text.split("; ");
    let outbound = classifier_of(alloc, words.next().unwrap_or(""))?;
    let first = classifier_of(alloc, words.next().unwrap_or(""))?;
    let second = classifier_of(alloc, words.next().unwrap_or(""))?;
    Ok(Policies {
        outbound,
        first,
        second,
    })
}

/// The rules at port 1, where participant 0 sends and the best route is that of participant 1.
fn block_of<L: Ledger>(
    alloc: Global,
    policies: &Policies,
    holes: (bool, bool),
    room: usize,
    steps: &mut Steps<L>,
) -> Result<Block, BuildFault> {
    let mut view = View::new(alloc, &policies.outbound);
    view.add(Pid(1), &policies.first)?;
    view.add(Pid(2), &policies.second)?;
    let part = Part {
        sender: Pid(0),
        best: Pid(1),
        offers: offers(alloc, holes)?,
    };
    build(alloc, &view, PortNo(1), &part, room, steps)
}

/// `ROOM HOLE OUTBOUND; FIRST; SECOND`: the rules for which there is so much room. `1` and `2` are holes, and any other
/// word is none.
pub fn built<L: Ledger>(alloc: Global, text: &str, steps: &mut Steps<L>) -> Result<String, Memory> {
    let (room, rest) = first_word(text);
    let (hole, rest) = first_word(rest);
    let policies = read_policies(alloc, rest)?;
    let room = room.parse().unwrap_or(0);
    match block_of(alloc, &policies, (hole == "1", hole == "2"), room, steps) {
        Ok(block) => told(alloc, &block),
        Err(BuildFault::Wide { rules }) => Ok(format!(in alloc; "wide {rules}")?),
        Err(BuildFault::Memory) => Err(Memory),
    }
}
