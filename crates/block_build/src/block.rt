//! Blocks of rules.

ghost use Rattle.std.specs.Prelude.{◌≡◌, ◌↔◌, IfOk, IsTrue};
ghost use Rattle.block_build.specs.declared.block.BuildFault.TheVariants as fault;

use crate::same::same_rules;
use net_types::{Memory, Rule, TryCopy};
use std::alloc::Global;
use std::marker::Model;
use std::rc::Rc;

/// The rules of a pair. Only building makes one, and a copy is a further owner of the same rules. Contracts see the rules, in
/// their order.
#[derive(Drop)]
pub struct Block {
    rules: Rc<Vec<Rule>>,
}

impl Model for Block {
    ghost use Rattle.std.specs.Prelude.{List};
    ghost use Rattle.net_types.specs.declared.rule.Rule.{Rule};

    ghost Value = { List Rule };

    ghost view = { λ b. b.rules.value.items };
}

impl TryCopy for Block {
    fn copy(&self) -> Result<Block, Memory> {
        let rules = self.rules.clone()?;
        Ok(Block { rules })
    }
}

impl Block {
    pub(crate) fn new(alloc: Global, rules: Vec<Rule>) -> Result<Block, Memory>
        ensures { IfOk result (λ block. block ≡ rules.items) }
    {
        let rules = Rc::new(alloc, rules)?;
        Ok(Block { rules })
    }

    /// The rules, in their order.
    pub fn rules(&self) -> &[Rule]
        ensures { result.now ≡ self.now }
    {
        self.rules.as_ref().as_slice()
    }

    /// Whether two blocks have the same rules.
    pub fn is_same(&self, other: &Block) -> bool
        ensures { IsTrue result ↔ (self.now ≡ other.now) }
    {
        same_rules(self.rules(), other.rules())
    }
}

/// Why there is no block.
#[derive(Clone, Copy, Debug, PartialEq, Eq)]
pub enum BuildFault {
    /// There are more rules than there is room for.
    Wide { rules: usize },
    Memory,
}

impl From<Memory> for BuildFault {
    ghost from_gives = { λ _ e. e ≡ fault.Memory };

    fn from(_: Memory) -> BuildFault
        ensures { result ≡ fault.Memory }
    {
        BuildFault::Memory
    }
}
