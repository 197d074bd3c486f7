//! Classes and a table.

ghost use Rattle.std.specs.Prelude.{◌≡◌, ◌≤◌, IfOk, length};
ghost use Rattle.std.specs.FinMap.{entries, keys};

use crate::offered::{block, signature};
use crate::words::{first_word, number, pair, prefixes, tag};
use crate::wrong::Wrong;
use match_switch::{PutFault, Switch};
use net_types::{Memory, Pair, Pairs, PortNo, Prefix, Sig, Steps, Tag};
use prefix_classes::{ClassMap, new_ones_are_few};
use std::alloc::Global;
use std::sync::ledger::Ledger;

/// As many prefixes as a job is given at most.
const MANY: usize = 1048576;

/// For how many rules a table has room.
const CAPACITY: usize = 65536;

/// The tags of prefixes, and the rules of pairs.
#[derive(Drop)]
pub struct Desk {
    pub classes: ClassMap,
    pub switch: Switch,
}

/// The pairs of a table.
fn pairs_of(alloc: Global, switch: &Switch) -> Result<Pairs, Memory>
    ensures { IfOk result (λ pairs. pairs ≡ keys switch.now.table) }
{
    let mut pairs = Pairs::new(alloc);
    for (pair, _) in switch.iter() {
        pairs.push(pair)?;
    }
    Ok(pairs)
}

impl From<PutFault> for Wrong {
    fn from(fault: PutFault) -> Wrong {
        match fault {
            PutFault::TableFull { .. } => Wrong::Row,
            PutFault::Memory => Wrong::Memory,
        }
    }
}

/// Keeps a tag that isn't kept, and gives it to these prefixes.
fn give_tag(classes: &mut ClassMap, tag: Tag, sig: Sig, members: &[Prefix]) -> Result<(), Wrong> {
    if classes.sig_of(tag).is_some() {
        return Err(Wrong::Row);
    }
    classes.reserve(members.len(), tag.0 as usize + 1)?;
    new_ones_are_few();
    classes.give(tag, sig, members);
    Ok(())
}

/// The port that a word is.
fn port(word: &str) -> Result<PortNo, Wrong> {
    match word.parse() {
        Ok(port) => Ok(PortNo(port)),
        Err(_) => Err(Wrong::Row),
    }
}

impl Desk {
    /// No prefix has a tag, and there are no rules.
    pub fn new(alloc: Global) -> Desk {
        Desk {
            classes: ClassMap::new(alloc),
            switch: Switch::new(alloc, CAPACITY),
        }
    }

    /// The pairs of the table, where the prefixes aren't too many for a job.
    pub fn pairs_for_job(&self, alloc: Global) -> Result<Pairs, Wrong>
        ensures pairs { IfOk result (λ pairs. pairs ≡ keys self.now.switch.table) }
        ensures carried { IfOk result (λ _. length (entries self.now.classes.tag) ≤ 1048576) }
    {
        if self.classes.carried() > MANY {
            return Err(Wrong::Row);
        }
        Ok(pairs_of(alloc, &self.switch)?)
    }

    /// How many prefixes, tags, pairs and rules there are.
    pub fn size(&self, alloc: Global) -> Result<String, Wrong> {
        let (carried, tagged) = (self.classes.carried(), self.classes.tagged());
        let rules = self.switch.rules();
        Ok(format!(in alloc; "{carried} prefixes, {tagged} tags, {rules} rules")?)
    }

    /// A tag, B's port in its signature, and the prefixes that get it.
    pub fn give(&mut self, alloc: Global, text: &str) -> Result<String, Wrong> {
        let (word, rest) = first_word(text);
        let (hop, rest) = first_word(rest);
        let members = prefixes(alloc, rest)?;
        let sig = signature(alloc, port(hop)?)?;
        give_tag(&mut self.classes, tag(word)?, sig, members.items())?;
        self.size(alloc)
    }

    /// A tag without members is forgotten.
    pub fn forget(&mut self, alloc: Global, text: &str) -> Result<String, Wrong> {
        let tag = tag(text)?;
        if self.classes.members(tag) > 0 {
            return Err(Wrong::Row);
        }
        self.classes.forget(tag);
        self.size(alloc)
    }

    /// The port to which the one rule of each of some pairs sends.
    pub fn put<L: Ledger>(
        &mut self,
        alloc: Global,
        text: &str,
        steps: &mut Steps<L>,
    ) -> Result<String, Wrong> {
        let (hop, rest) = first_word(text);
        let hop = port(hop)?;
        for word in rest.split(' ') {
            let block = block(alloc, hop, steps)?;
            self.switch.put_block(pair(word)?, block)?;
        }
        self.size(alloc)
    }

    /// So many tags from 1 on, each with a rule for one port.
    pub fn fill<L: Ledger>(
        &mut self,
        alloc: Global,
        text: &str,
        steps: &mut Steps<L>,
    ) -> Result<String, Wrong> {
        let (word, rest) = first_word(text);
        let port = port(word)?;
        let count = number(rest)?.min(65536) as u32;
        for tag in 0..count {
            let block = block(alloc, PortNo(2), steps)?;
            let tag = Tag(tag + 1);
            self.switch.put_block(Pair { port, tag }, block)?;
        }
        self.size(alloc)
    }

    /// The pair behind another one, or the least.
    pub fn next(&self, alloc: Global, text: &str) -> Result<String, Wrong> {
        let after = if text.is_empty() {
            None
        } else {
            Some(pair(text)?)
        };
        match self.switch.next_pair(after) {
            Some(Pair { port, tag }) => {
                let (port, tag) = (port.0, tag.0);
                Ok(format!(in alloc; "{port}:{tag}")?)
            }
            None => Ok(String::from_str(alloc, "none")?),
        }
    }
}
