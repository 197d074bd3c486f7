//! Rules that were built last. Where a tag is fresh, pairs of many ports with it mostly have the same.

ghost use Rattle.std.specs.Prelude.{◌≡◌, ◌≤◌, ◌++◌, ◌∷◌, [], List, true, length, IsTrue, IfOk, IfSome, OnOk};
ghost use Rattle.exchange_laws.specs.Whole.{IsWhole};
ghost use Rattle.net_types.specs.declared.rule.Pair.{Pair as AnyPair};
ghost use Rattle.block_build.specs.Lent.{Lent, outbound_at};
ghost use Rattle.block_build.specs.Right.{are_for_any_port};
ghost use Rattle.fast_path.specs.Last.{AreLast, IsAlike, IsLast, IsRightByViews};

use block_build::{Block, Views, Workshop};
use net_types::{Memory, Pair, Part, TryCopy, same_items};
use std::alloc::Global;

/// Blocks of so many rules are few.
const FEW: usize = 16;

/// A part, and the place of the rules that were built for it, which are right at every port.
#[derive(Drop)]
pub struct Last {
    part: Part,
    place: usize,
}

/// The block of few rules that was built last, and that of many: neither hides the other. And what was found while they were
/// built.
#[derive(Drop)]
pub struct Lasts {
    few: Option<Last>,
    many: Option<Last>,
    pub workshop: Workshop,
}

/// Whether two parts have the same rules: the same offers, and senders with the same rules.
fn is_alike(views: &Views<'_>, one: &Part, other: &Part) -> bool
    requires one { IsWhole (length views.now) one.now }
    requires other { IsWhole (length views.now) other.now }
    ensures { IsTrue result → IsAlike views.now one.now other.now }
{
    if one.best.0 != other.best.0 || !same_items(one.offers.items(), other.offers.items()) {
        return false;
    }
    views.send_alike(one.sender, other.sender)
}

/// The rules of a part that are those of a block that was built, where there is room for them.
fn built_as(
    views: &Views<'_>,
    last: &Option<Last>,
    blocks: &[(Pair, Block)],
    part: &Part,
    room: usize,
) -> Result<Option<Block>, Memory>
    requires whole { IsWhole (length views.now) part.now }
    requires last { IsLast views.now blocks.now last.now }
    ensures right { IfOk result (λ again. IfSome again (λ block. IsRightByViews views.now part.now block)) }
    ensures room { IfOk result (λ again. IfSome again (λ block. length block ≤ room)) }
{
    let Some(before) = last else {
        return Ok(None);
    };
    let Some((_, block)) = blocks.get(before.place) else {
        return Ok(None);
    };
    if block.rules().len() > room || !is_alike(views, &before.part, part) {
        return Ok(None);
    }
    Ok(Some(block.copy()?))
}

/// The rules of a part that are those of a block that was built last, where there is room for them.
pub(crate) fn built_again(
    views: &Views<'_>,
    lasts: &Lasts,
    blocks: &[(Pair, Block)],
    part: &Part,
    room: usize,
) -> Result<Option<Block>, Memory>
    requires whole { IsWhole (length views.now) part.now }
    requires last { AreLast views.now blocks.now lasts.now }
    ensures right { IfOk result (λ again. IfSome again (λ block. IsRightByViews views.now part.now block)) }
    ensures room { IfOk result (λ again. IfSome again (λ block. length block ≤ room)) }
{
    if let Some(block) = built_as(views, &lasts.few, blocks, part, room)? {
        return Ok(Some(block));
    }
    built_as(views, &lasts.many, blocks, part, room)
}

impl Lasts {
    /// Nothing was built yet.
    pub(crate) fn new(alloc: Global) -> Lasts
        ensures { (all : List Lent) → AreLast all [] result }
    {
        Lasts {
            few: None,
            many: None,
            workshop: Workshop::new(alloc),
        }
    }
}

/// Notes the rules of a part for the next pairs, where they are right at every port, as the block that comes behind these.
pub(crate) fn noted(
    views: &Views<'_>,
    lasts: &mut Lasts,
    blocks: &[(Pair, Block)],
    part: &Part,
    block: &Block,
) -> Result<(), Memory>
    requires whole { IsWhole (length views.now) part.now }
    requires last { AreLast views.now blocks.now lasts.old }
    requires right { are_for_any_port (outbound_at views.now part.now.sender) ≡ true → IsRightByViews views.now part.now block.now }
    ensures { OnOk result ((pair : AnyPair) → AreLast views.now (blocks.now ++ (pair, block.now) ∷ []) lasts.new) }
{
    if !views.sends_from_any_port(part.sender) {
        return Ok(());
    }
    let part = part.copy()?;
    let last = Some(Last {
        part,
        place: blocks.len(),
    });
    if block.rules().len() > FEW {
        lasts.many = last;
        return Ok(());
    }
    lasts.few = last;
    Ok(())
}
