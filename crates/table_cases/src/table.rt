//! Rules that come, are listed and counted, and go.

ghost use Rattle.std.specs.Prelude.{◌≡◌, ◌≤◌, ◌<◌, None, OnOk};
ghost use Rattle.std.specs.FinMap as map;
ghost use Rattle.block_build.specs.Installed.{count_at};

use crate::asked::{pair, read};
use crate::building::blocks;
use crate::fault::Fault;
use crate::flows::{block_flows, push_flows};
use block_build::{Block, Blocks};
use match_switch::{PutFault, Switch};
use net_types::{Memory, Pair, Steps};
use registry::Registry;
use std::alloc::Global;
use std::sync::ledger::Ledger;

/// More rules than any table of these rows has room for.
const MANY: usize = 1000;

/// How many rules there are, and of which pairs; then all of them.
fn shown(alloc: Global, switch: &Switch) -> Result<String, Memory> {
    let count = switch.rules();
    let mut text = format!(in alloc; "{count} rules:")?;
    for (pair, rules) in switch.iter() {
        let (port, tag, count) = (pair.port.0, pair.tag.0, rules.len());
        write!(text, " {count} of {port} {tag};")?;
    }
    push_flows(alloc, &mut text, switch.flows(alloc)?)?;
    Ok(text)
}

impl From<PutFault> for Fault {
    fn from(fault: PutFault) -> Fault {
        match fault {
            PutFault::TableFull { rules, capacity } => Fault::TableFull { rules, capacity },
            PutFault::Memory => Fault::Memory,
        }
    }
}

/// The rules of a pair become those that are asked for, where the table has room for them.
pub fn put<L: Ledger>(
    alloc: Global,
    names: &Registry,
    switch: &mut Switch,
    text: &str,
    steps: &mut Steps<L>,
) -> Result<String, Fault> {
    let (pair, rest) = pair(text);
    let asked = read(alloc, names, rest)?;
    let (block, _) = blocks(alloc, &asked, pair.port, MANY, steps)?;
    switch.put_block(pair, block)?;
    Ok(shown(alloc, switch)?)
}

/// How many rules a pair has.
fn count_at<B: Blocks>(table: &B, pair: Pair) -> usize
    ensures { result ≡ count_at (B.installed table.now).table pair }
{
    match table.rules_of(pair) {
        None => 0,
        Some(rules) => rules.len(),
    }
}

/// The rules of a pair become these, in any table for whose rules there is room. Where there is none for these, it is as
/// it was.
fn swap_within<B: Blocks>(table: &mut B, pair: Pair, block: Block) -> bool
    requires { map.get (B.installed table.old).table pair ≡ None → 0 < (B.installed table.old).room }
{
    let after = table.rules().checked_add(block.rules().len());
    let limit = table.capacity().checked_add(count_at(table, pair));
    match (after, limit) {
        (Some(after), Some(limit)) if after <= limit => {
            table.swap_block(pair, block);
            true
        }
        _ => false,
    }
}

/// The rules of a pair become the tight ones of those that are asked for.
pub fn swap<L: Ledger>(
    alloc: Global,
    names: &Registry,
    switch: &mut Switch,
    text: &str,
    steps: &mut Steps<L>,
) -> Result<String, Fault> {
    let (pair, rest) = pair(text);
    let asked = read(alloc, names, rest)?;
    let (_, tight) = blocks(alloc, &asked, pair.port, MANY, steps)?;
    switch.reserve(1)?;
    if swap_within(switch, pair, tight) {
        Ok(shown(alloc, switch)?)
    } else {
        Ok(String::from_str(alloc, "no room")?)
    }
}

/// The rules of a pair go, out of any table.
fn drop_within<B: Blocks>(table: &mut B, pair: Pair) {
    table.drop_block(pair);
}

/// The rules of a pair go.
pub fn leave(alloc: Global, switch: &mut Switch, text: &str) -> Result<String, Fault> {
    let (pair, _) = pair(text);
    drop_within(switch, pair);
    Ok(shown(alloc, switch)?)
}

/// How many rules a pair has, where it has some.
pub fn rules(alloc: Global, switch: &Switch, text: &str) -> Result<String, Fault> {
    let (pair, _) = pair(text);
    match switch.rules_of(pair) {
        Some(rules) => {
            let count = rules.len();
            Ok(format!(in alloc; "{count}")?)
        }
        None => Ok(String::from_str(alloc, "none")?),
    }
}

/// The least pair, or the one after a pair.
pub fn next(alloc: Global, switch: &Switch, text: &str) -> Result<String, Fault> {
    let after = if text.is_empty() {
        None
    } else {
        Some(pair(text).0)
    };
    match switch.next_pair(after) {
        Some(Pair { port, tag }) => {
            let (port, tag) = (port.0, tag.0);
            Ok(format!(in alloc; "{port} {tag}")?)
        }
        None => Ok(String::from_str(alloc, "none")?),
    }
}

/// How many rules there are, and for how many there is room.
pub fn room(alloc: Global, switch: &Switch) -> Result<String, Fault> {
    let (capacity, count) = (switch.capacity(), switch.rules());
    Ok(format!(in alloc; "{count} rules, of {capacity}")?)
}

/// Another table, without rules, with room for so many.
pub fn table(alloc: Global, switch: &mut Switch, text: &str) -> Result<String, Fault> {
    *switch = Switch::new(alloc, text.parse().unwrap_or(0));
    room(alloc, switch)
}

/// The rules that are built at a port for which there is so much room.
pub fn build<L: Ledger>(
    alloc: Global,
    names: &Registry,
    text: &str,
    steps: &mut Steps<L>,
) -> Result<String, Fault> {
    let (room, rest) = text.split_once(' ').unwrap_or((text, ""));
    let (pair, rest) = pair(rest);
    let asked = read(alloc, names, rest)?;
    let room = room.parse().unwrap_or(0);
    let (block, _) = blocks(alloc, &asked, pair.port, room, steps)?;
    block_flows(alloc, pair, &block)
}

/// The tight rules that are built at a port in place of others.
pub fn tight<L: Ledger>(
    alloc: Global,
    names: &Registry,
    text: &str,
    steps: &mut Steps<L>,
) -> Result<String, Fault> {
    let (pair, rest) = pair(text);
    let asked = read(alloc, names, rest)?;
    let (_, tight) = blocks(alloc, &asked, pair.port, MANY, steps)?;
    block_flows(alloc, pair, &tight)
}
