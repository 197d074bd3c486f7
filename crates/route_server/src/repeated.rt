//! Changes with the same rows as the one before them.
//!
//! Prefixes that are announced together mostly have the same routes, before and afterwards. Where nobody has export rules, no
//! choice asks for the prefix, and such changes do the same.

ghost use Rattle.std.specs.Prelude.{◌≡◌, IsTrue, IfOk, IfSome, option_copied};
ghost use Rattle.route_server.specs.Effects.{IsEffectOf};
ghost use Rattle.route_server.specs.Repeated.{AreAlike, AreUnruled, IsDone, same_held};
ghost use Rattle.route_server.specs.Rows.{settled_by};

use crate::change::Change;
use crate::effect::Effect;
use crate::held::Held;
use crate::terms::Terms;
use net_types::{ExportRules, Memory, Prefix, Same, same_attrs, same_items};
use std::alloc::Global;

/// A change with the row before it, and what it does.
#[derive(Drop)]
pub struct Done<'a> {
    pub old: &'a [Held],
    pub change: &'a Change,
    pub at: usize,
    pub effect: Option<Effect>,
}

impl Same for Held {
    ghost same = { same_held };

    fn same(&self, other: &Held) -> bool {
        let attrs = same_attrs(self.attrs.get(), other.attrs.get());
        self.from.0 == other.from.0 && (self.hops == other.hops && attrs)
    }
}

/// Whether no participant has export rules.
fn are_unruled(rules: &[ExportRules]) -> bool
    ensures { IsTrue result → AreUnruled rules.now }
{
    for own in rules {
        if !own.is_empty() {
            return false;
        }
    }
    true
}

/// Whether it is worth while to remember what a change does, of so many, and right to take it for another one's.
pub fn may_repeat(before: Terms<'_>, after: Terms<'_>, changes: usize) -> bool
    ensures { IsTrue result → AreUnruled before.entry.rules.now × AreUnruled after.entry.rules.now }
{
    changes > 1 && are_unruled(before.rules) && are_unruled(after.rules)
}

/// Whether a change has the same rows, before and afterwards.
pub fn is_repeated(done: &Done<'_>, old: &[Held], change: &Change) -> bool
    ensures { IsTrue result → (done.now.old.now ≡ old.now) × (done.now.change.now.row ≡ change.now.row) }
{
    same_items(done.old, old) && same_items(done.change.row.items(), change.row.items())
}

/// The same at another place and for another prefix.
fn moved(
    alloc: Global,
    effect: Option<&Effect>,
    at: usize,
    prefix: Prefix,
) -> Result<Option<Effect>, Memory>
    ensures { IfOk result (AreAlike at prefix (option_copied effect.entry)) }
{
    match effect {
        None => Ok(None),
        Some(effect) => {
            let sig = effect.sig.clone()?;
            let bests = Vec::from_slice(alloc, effect.bests.as_slice())?;
            Ok(Some(Effect {
                at,
                prefix,
                sig,
                bests,
            }))
        }
    }
}

/// What a change does that has the rows of an earlier one.
pub fn again(
    alloc: Global,
    before: Terms<'_>,
    after: Terms<'_>,
    done: &Done<'_>,
    old: &[Held],
    change: &Change,
    at: usize,
) -> Result<Option<Effect>, Memory>
    requires done { IsDone before after done.now }
    requires same { (done.now.old.now ≡ old.now) × (done.now.change.now.row ≡ change.now.row) }
    ensures { IfOk result (λ effect. IsEffectOf (settled_by before.entry) (settled_by after.entry) old.now change.now at effect) }
{
    let effect = moved(alloc, done.effect.as_ref(), at, change.prefix)?;
    Ok(effect)
}

/// What is remembered for the next changes: what was, where it fits this change too, and else what this one does.
pub fn remembered<'a>(
    alloc: Global,
    before: Terms<'_>,
    after: Terms<'_>,
    earlier: Option<Done<'a>>,
    old: &'a [Held],
    change: &'a Change,
    at: usize,
    effect: Option<&Effect>,
) -> Result<Option<Done<'a>>, Memory>
    requires earlier { IfSome earlier (IsDone before after) }
    requires before { AreUnruled before.rules.now }
    requires after { AreUnruled after.rules.now }
    requires effect { IsEffectOf (settled_by before) (settled_by after) old.now change.now at (option_copied effect) }
    ensures { IfOk result (λ done. IfSome done (IsDone before.entry after.entry)) }
{
    match earlier {
        Some(done) if is_repeated(&done, old, change) => Ok(Some(done)),
        _ => {
            let effect = moved(alloc, effect, at, change.prefix)?;
            Ok(Some(Done {
                old,
                change,
                at,
                effect,
            }))
        }
    }
}
