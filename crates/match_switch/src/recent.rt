//! Rules that were put in last. A pair that gets equal ones shares them.

ghost use Rattle.std.specs.Prelude.{◌≡◌, IfSome};

use block_build::Block;
use net_types::TryCopy;
use std::alloc::Global;

/// So many rules of a pair are compared with those that were put in last.
const FEW: usize = 4;

/// So many blocks are remembered.
const MOST: usize = 16;

/// Blocks of few rules that were put in last, each with other rules.
#[derive(Drop)]
pub(crate) struct Recent {
    blocks: Vec<Block>,
    /// The place of the one that was put in or met last, which the next pair often has too.
    last: usize,
    /// The place that the next other block takes.
    next: usize,
}

/// A further owner of the rules at a place, where these are equal.
fn twin_at(blocks: &[Block], at: usize, block: &Block) -> Option<Block>
    ensures { IfSome result (λ twin. twin ≡ block.now) }
{
    let Some(earlier) = blocks.get(at) else {
        return None;
    };
    if !earlier.is_same(block) {
        return None;
    }
    match earlier.copy() {
        Ok(twin) => Some(twin),
        Err(_) => None,
    }
}

impl Recent {
    /// None was put in.
    pub(crate) fn new(alloc: Global) -> Recent {
        Recent {
            blocks: Vec::new(alloc),
            last: 0,
            next: 0,
        }
    }

    /// Makes the places of blocks. Where memory is wanting there are none, and no rules are shared.
    pub(crate) fn make_places(&mut self) {
        if self.blocks.capacity() < MOST {
            let _ = self.blocks.reserve(MOST);
        }
    }

    /// The same rules: those of a remembered block where it has equal ones; else these, which are remembered.
    pub(crate) fn shared(&mut self, block: Block) -> Block
        ensures { result ≡ block }
    {
        if block.rules().len() > FEW {
            return block;
        }
        match self.twin_of(&block) {
            Some(twin) => twin,
            None => {
                self.remember(&block);
                block
            }
        }
    }

    // A further owner of equal rules that are remembered.
    fn twin_of(&mut self, block: &Block) -> Option<Block>
        ensures { IfSome result (λ twin. twin ≡ block.now) }
    {
        if let Some(twin) = twin_at(&self.blocks, self.last, block) {
            return Some(twin);
        }
        for at in 0..self.blocks.len() {
            if let Some(twin) = twin_at(&self.blocks, at, block) {
                self.last = at;
                return Some(twin);
            }
        }
        None
    }

    // Remembers rules, in the place of the earliest ones where there are enough. It takes no memory.
    fn remember(&mut self, block: &Block) {
        let Ok(twin) = block.copy() else {
            return;
        };
        let at = self.next;
        if at < self.blocks.len() {
            self.blocks[at] = twin;
        } else if at >= self.blocks.capacity() || self.blocks.push(twin).is_err() {
            return;
        }
        let after = at.saturating_add(1);
        self.last = at;
        self.next = if after < MOST { after } else { 0 };
    }
}
