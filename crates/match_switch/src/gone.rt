//! How many rules leave the table with their pairs.

ghost use Rattle.std.specs.Prelude.{List, length};
ghost use Rattle.net_types.specs.declared.rule.Rule.{Rule as AnyRule};

use block_build::Block;
use ordered_map::Tally;

#[derive(Drop)]
pub(crate) struct Gone {
    /// How many rules are gone.
    pub(crate) rules: usize,
}

impl Tally<Block> for Gone {
    ghost weight = { λ (rules : List AnyRule). length rules };

    ghost total = { λ gone. gone.rules };

    fn count(&mut self, value: &Block) {
        self.rules += value.rules().len();
    }
}
