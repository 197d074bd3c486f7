//! What changes of rows do: which prefixes they touch, and what is true of these afterwards.

ghost use Rattle.std.specs.Prelude.{◌≡◌, ◌&&◌, true, nat_eq, length, IfOk, IfSome};
ghost use Rattle.std.specs.List.{list_all};
ghost use Rattle.std.specs.FinMap.{FinMap};
ghost use Rattle.std.specs.Option.{option_copied};
ghost use Rattle.net_types.specs.Attributes.{same_option, same_attrs};
ghost use Rattle.net_types.specs.Exports.{Routing};
ghost use Rattle.net_types.specs.Keys.{route_cmp};
ghost use Rattle.net_types.specs.Routes.{pids};
ghost use Rattle.net_types.specs.declared.route.Attrs.{Attrs};
ghost use Rattle.net_types.specs.declared.prefix.Prefix.{Prefix};
ghost use Rattle.route_server.specs.Choices.{AreChosen};
ghost use Rattle.route_server.specs.Repeated.{IsDone};
ghost use Rattle.route_server.specs.Rows.{settled_by, signature_of};
ghost use Rattle.route_server.specs.Served.{AreDeclared};
ghost use Rattle.route_server.specs.Effects.{place_attrs, best_by_row, IsEffectOf, AreEffects, AreRowsOf, routing_after, routing_by, same_by_rows};

use crate::change::Change;
use crate::choices::{chosen_in, held_in, place_of};
use crate::compared::is_signature;
use crate::effect::Effect;
use crate::held::Held;
use crate::repeated::{Done, again, is_repeated, may_repeat, remembered};
use crate::server::RouteServer;
use crate::signature::{all_offers, signature_in};
use crate::terms::Terms;
use net_types::{Attrs, Memory, Pid, Prefix, Sig, same_optional};
use registry::Registry;
use std::alloc::Global;
use std::rc::Rc;

/// The places of a participant's best route in the old row and in the new one.
#[derive(Clone, Copy)]
struct Places {
    old: Option<usize>,
    new: Option<usize>,
}

/// The attributes at a place, where there is one.
fn attrs_in(row: &[Held], place: Option<usize>) -> Option<&Attrs>
    ensures { option_copied result ≡ place_attrs row.now place }
{
    let held = held_in(row, place)?;
    Some(held.attrs.get())
}

fn both(one: bool, two: bool) -> bool
    ensures { result ≡ (one && two) }
{
    one && two
}

fn same_place(one: Option<usize>, other: Option<usize>) -> bool
    ensures { result ≡ same_option nat_eq one other }
{
    match one {
        None => match other {
            None => true,
            Some(_) => false,
        },
        Some(one) => match other {
            None => false,
            Some(other) => one == other,
        },
    }
}

fn same_places(one: Places, other: Places) -> bool
    ensures { result ≡ (same_option nat_eq one.old other.old && same_option nat_eq one.new other.new) }
{
    let old = same_place(one.old, other.old);
    let new = same_place(one.new, other.new);
    both(old, new)
}

/// Whether the attributes at two places are the same.
fn same_at(old: &[Held], new: &[Held], at: Places) -> bool
    ensures { result ≡ same_option same_attrs (place_attrs old.now at.old) (place_attrs new.now at.new) }
{
    same_optional(attrs_in(old, at.old), attrs_in(new, at.new))
}

/// The same, where it is known of two places. Participants, one after another, mostly have the same best route.
fn stays(old: &[Held], new: &[Held], known: Places, at: Places) -> bool
    requires { same_option same_attrs (place_attrs old.now known.old) (place_attrs new.now known.new) ≡ true }
    ensures { result ≡ same_option same_attrs (place_attrs old.now at.old) (place_attrs new.now at.new) }
{
    if same_places(known, at) {
        return true;
    }
    same_at(old, new, at)
}

/// Whether every participant's best attributes stay the same, by the places of these.
fn same_bests(
    names: &Registry,
    old: &[Held],
    earlier: &[Option<usize>],
    new: &[Held],
    places: &[Option<usize>],
) -> bool
    ensures { (r s : Routing) (p : Prefix) → r.participants ≡ names.now.participants → s.participants ≡ names.now.participants → AreChosen r p old.now earlier.now → AreChosen s p new.now places.now → result ≡ list_all (λ to. same_option same_attrs (best_by_row r p old.now to) (best_by_row s p new.now to)) (pids r) }
{
    let count = names.participants().len() as u32;
    let mut known = Places {
        old: None,
        new: None,
    };
    for number in 0..count {
        let before = place_of(earlier, Pid(number));
        let after = place_of(places, Pid(number));
        let at = Places {
            old: before,
            new: after,
        };
        if !stays(old, new, known, at) {
            return false;
        }
        known = at;
    }
    true
}

/// Whether a change leaves the signature of its prefix and every participant's best attributes the same. A prefix that had
/// no route and has a signature now is another, and no best route is looked for by the old row.
fn is_same(
    alloc: Global,
    before: Terms<'_>,
    old: &[Held],
    after: Terms<'_>,
    change: &Change,
    sig: &Sig,
    is: &[Option<usize>],
) -> Result<bool, Memory>
    requires names { after.names.now ≡ before.names.now }
    requires sig { sig.now ≡ signature_of (settled_by after) change.now.prefix change.now.row }
    requires chosen { AreChosen (settled_by after) change.now.prefix change.now.row is.now }
    ensures { IfOk result (λ same. same ≡ same_by_rows (settled_by before.entry) (settled_by after.entry) change.now.prefix old.now change.now.row) }
{
    if old.is_empty() && !sig.is_empty() {
        return Ok(false);
    }
    let prefix = change.prefix;
    let earlier = chosen_in(alloc, before, old, prefix)?;
    let was = earlier.as_slice();
    let offers = all_offers(alloc, before, old)?;
    let same_sig = is_signature(before, old, offers.as_slice(), prefix, was, sig.items());
    let same_best = same_bests(before.names, old, was, change.row.items(), is);
    Ok(both(same_sig, same_best))
}

/// What a change does, or nothing where all stays the same. Each participant's best route is decided once by the old row
/// and once by the new one.
fn effect_of(
    alloc: Global,
    before: Terms<'_>,
    old: &[Held],
    after: Terms<'_>,
    change: &Change,
    at: usize,
) -> Result<Option<Effect>, Memory>
    requires names { after.names.now ≡ before.names.now }
    ensures { IfOk result (λ effect. IsEffectOf (settled_by before.entry) (settled_by after.entry) old.now change.now at effect) }
{
    let prefix = change.prefix;
    let row = change.row.items();
    let bests = chosen_in(alloc, after, row, prefix)?;
    let is = bests.as_slice();
    let sig = signature_in(alloc, after, row, prefix, is)?;
    let same = is_same(alloc, before, old, after, change, &sig, is)?;
    if same {
        return Ok(None);
    }
    Ok(Some(Effect {
        at,
        prefix,
        sig: Rc::new(alloc, sig)?,
        bests,
    }))
}

/// What a change does: that of an earlier one with the same rows, where one is known.
fn effect_beside(
    alloc: Global,
    before: Terms<'_>,
    after: Terms<'_>,
    earlier: Option<&Done<'_>>,
    old: &[Held],
    change: &Change,
    at: usize,
) -> Result<Option<Effect>, Memory>
    requires names { after.names.now ≡ before.names.now }
    requires earlier { IfSome earlier (λ done. IsDone before after done.now) }
    ensures { IfOk result (λ effect. IsEffectOf (settled_by before.entry) (settled_by after.entry) old.now change.now at effect) }
{
    match earlier {
        Some(done) if is_repeated(done, old, change) => {
            again(alloc, before, after, done, old, change, at)
        }
        _ => effect_of(alloc, before, old, after, change, at),
    }
}

/// What the changes do to the server's routes, by what decides on them before and afterwards. The same is declared.
pub fn effects_of(
    server: &RouteServer,
    before: Terms<'_>,
    after: Terms<'_>,
    changes: &[Change],
) -> Result<Vec<Effect>, Memory>
    requires declared { AreDeclared before.names.now server.now.routes }
    requires names { after.names.now ≡ before.names.now }
    ensures { IfOk result (λ effects. (m : FinMap route_cmp Attrs) → AreDeclared before.entry.names.now m → AreRowsOf changes.now m → AreEffects (routing_by before.entry server.now.routes) (routing_after before.entry.names.now after.entry.rules.now after.entry.named.now m) changes.now (length changes.now) effects.items) }
{
    let alloc = server.allocator();
    let repeats = may_repeat(before, after, changes.len());
    let mut earlier = None;
    let mut effects = Vec::new(alloc);
    for (at, change) in changes.iter().enumerate() {
        let old = server.row(change.prefix);
        let effect = effect_beside(alloc, before, after, earlier.as_ref(), old, change, at)?;
        if repeats {
            earlier = remembered(
                alloc,
                before,
                after,
                earlier,
                old,
                change,
                at,
                effect.as_ref(),
            )?;
        }
        match effect {
            Some(own) => {
                effects.push(own)?;
            }
            None => {}
        }
    }
    Ok(effects)
}
