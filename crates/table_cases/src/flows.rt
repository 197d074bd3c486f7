//! Rules as a reply says them.

use crate::fault::Fault;
use block_build::Block;
use events::{Event, Exchanges, Flow, Flows, Frames, Head, Messages, Reply, TagChanges};
use net_types::{Memory, Pair, Pairs, TryCopy};
use replay_text::write_reply;
use std::alloc::Global;

fn reply(alloc: Global, adds: Flows) -> Reply {
    Reply {
        head: Head::Fine,
        tags: TagChanges::new(alloc),
        drops: Pairs::new(alloc),
        adds,
        adverts: Messages::new(alloc),
        asks: Exchanges::new(alloc),
        frames: Frames::new(alloc),
    }
}

/// Writes a reply with these rules.
pub fn push_flows(alloc: Global, text: &mut String, flows: Flows) -> Result<(), Memory> {
    let written = write_reply(alloc, 0, &Event::Table, &reply(alloc, flows))?;
    for octet in written.items() {
        text.push(char::from(*octet))?;
    }
    Ok(())
}

/// How many rules a block has; then all of them.
pub fn block_flows(alloc: Global, pair: Pair, block: &Block) -> Result<String, Fault> {
    let count = block.rules().len();
    let mut text = format!(in alloc; "{count} rules:")?;
    let mut flows = Flows::new(alloc);
    for rule in block.rules() {
        let rule = rule.copy()?;
        flows.push(Flow { pair, rule })?;
    }
    push_flows(alloc, &mut text, flows)?;
    Ok(text)
}
