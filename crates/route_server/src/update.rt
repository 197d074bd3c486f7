//! The rows after an update.

ghost use Rattle.std.specs.Prelude.{◌≡◌, ◌⊎◌, ◌<◌, ◌^◌, ◌++◌, map, IfOk, IfSome, sum_by, Some, None};
ghost use Rattle.std.specs.List.Sorted.{IsPermutation, IsSortedBy};
ghost use Rattle.std.specs.Ordering.{is_lt};
ghost use Rattle.net_types.specs.Changes.{updated};
ghost use Rattle.net_types.specs.Keys.{prefix_cmp};
ghost use Rattle.net_types.specs.Paths.{hops_of};
ghost use Rattle.net_types.specs.Sets.{Member, IsRising};
ghost use Rattle.net_types.specs.SoundUpdates.{IsSoundUpdate, HasSoundAttrs};
ghost use Rattle.net_types.specs.UpdateSpelling.{is_before};
ghost use Rattle.net_types.specs.declared.prefix.Prefix.{Prefix};
ghost use Rattle.route_server.specs.Effects.{AreRowsOf};
ghost use Rattle.route_server.specs.Edits.{IsEdit, prefixes_of};
ghost use Rattle.route_server.specs.declared.change.Change.{Change};

use crate::admission::hops;
use crate::change::Change;
use crate::edits::{row_with, row_without};
use crate::held::Held;
use crate::server::RouteServer;
use net_types::{Attrs, Memory, Pid, Prefix, SharedAttrs, TryCopy, Update, same_attrs};

/// The row of a prefix without a participant's route.
fn withdrawal(server: &RouteServer, from: Pid, prefix: Prefix) -> Result<Change, Memory>
    ensures prefix { IfOk result (λ change. change.prefix ≡ prefix) }
    ensures edit { IfOk result (λ change. IsEdit server.now.routes from None change) }
{
    let row = row_without(server.allocator(), server.row(prefix), from)?;
    Ok(Change { prefix, row })
}

/// The row of a prefix with a route of a participant, which is a further owner of the attributes.
fn announcement(
    server: &RouteServer,
    from: Pid,
    attrs: &SharedAttrs,
    prefix: Prefix,
) -> Result<Change, Memory>
    requires declared { from.0 < 256 }
    requires short { sum_by hops_of attrs.now.path < 2 ^ 32 }
    ensures prefix { IfOk result (λ change. change.prefix ≡ prefix) }
    ensures edit { IfOk result (λ change. IsEdit server.now.routes from (Some attrs.now) change) }
{
    let own = Held {
        from,
        hops: hops(attrs.get().path.items()),
        attrs: attrs.copy()?,
    };
    let row = row_with(server.allocator(), server.row(prefix), own)?;
    Ok(Change { prefix, row })
}

/// A change for each withdrawn prefix.
pub fn withdrawals(server: &RouteServer, from: Pid, gone: &[Prefix]) -> Result<Vec<Change>, Memory>
    ensures prefixes { IfOk result (λ changes. prefixes_of changes.items ≡ gone.now) }
    ensures edits { IfOk result (λ changes. (c : Change) → Member c changes.items → IsEdit server.now.routes from None c) }
{
    let mut changes = Vec::new(server.allocator());
    for prefix in gone {
        let change = withdrawal(server, from, *prefix)?;
        changes.push(change)?;
    }
    Ok(changes)
}

/// A change more for each announced prefix.
fn announcements(
    server: &RouteServer,
    from: Pid,
    attrs: &SharedAttrs,
    here: &[Prefix],
    earlier: Vec<Change>,
) -> Result<Vec<Change>, Memory>
    requires declared { from.0 < 256 }
    requires short { sum_by hops_of attrs.now.path < 2 ^ 32 }
    ensures prefixes { IfOk result (λ changes. prefixes_of changes.items ≡ prefixes_of earlier.items ++ here.now) }
    ensures edits { IfOk result (λ changes. (c : Change) → Member c changes.items → Member c earlier.items ⊎ (IsEdit server.now.routes from (Some attrs.now) c × Member c.prefix here.now)) }
{
    let mut changes = earlier;
    for prefix in here {
        let change = announcement(server, from, attrs, *prefix)?;
        changes.push(change)?;
    }
    Ok(changes)
}

/// Changes by prefix.
fn sorted(changes: Vec<Change>) -> Vec<Change>
    ensures same { IsPermutation changes.items result.items }
    ensures sorted { IsSortedBy (λ (a : Change) (b : Change). is_lt (prefix_cmp a.prefix b.prefix)) result.items }
{
    let mut sorted = changes;
    sorted.sort_unstable_by_key(|change| (change.prefix.address.0, change.prefix.len));
    sorted
}

/// The attributes of a participant's route in a row, where they are the same as these.
fn same_in<'r>(row: &'r [Held], from: Pid, attrs: &Attrs) -> Option<&'r SharedAttrs>
    ensures { IfSome result (λ shared. shared.now ≡ attrs.now) }
{
    let held = row.iter().find(|held| held.from.0 == from.0)?;
    if same_attrs(held.attrs.get(), attrs) {
        Some(&held.attrs)
    } else {
        None
    }
}

/// Attributes that several can own: those of the participant's route for the prefix that was listed last of it, where they
/// are the same, and else a copy.
fn shared(server: &RouteServer, from: Pid, attrs: &Attrs) -> Result<SharedAttrs, Memory>
    ensures { IfOk result (λ shared. shared ≡ attrs.now) }
{
    if let Some(known) = same_in(server.last_row(from), from, attrs) {
        return known.copy();
    }
    let own = attrs.copy()?;
    SharedAttrs::new(server.allocator(), own)
}

/// Changes for all prefixes of an update, the withdrawn ones first. The announced ones share one copy of the attributes.
fn edits(server: &RouteServer, from: Pid, update: &Update) -> Result<Vec<Change>, Memory>
    requires declared { from.0 < 256 }
    requires sound { HasSoundAttrs update.now.announced update.now.attrs }
    requires short { IfSome update.now.attrs (λ a. sum_by hops_of a.path < 2 ^ 32) }
    ensures prefixes { IfOk result (λ changes. prefixes_of changes.items ≡ update.now.withdrawn ++ update.now.announced) }
    ensures edits { IfOk result (λ changes. (c : Change) → Member c changes.items → (IsEdit server.now.routes from None c × Member c.prefix update.now.withdrawn) ⊎ (IsEdit server.now.routes from update.now.attrs c × Member c.prefix update.now.announced)) }
{
    let gone = withdrawals(server, from, update.withdrawn.items())?;
    match &update.attrs {
        Some(attrs) => {
            let shared = shared(server, from, attrs)?;
            let all = announcements(server, from, &shared, update.announced.items(), gone)?;
            Ok(all)
        }
        None => Ok(gone),
    }
}

/// The changes of an update, by prefix.
pub fn update_changes(
    server: &RouteServer,
    from: Pid,
    update: &Update,
) -> Result<Vec<Change>, Memory>
    requires declared { from.0 < 256 }
    requires sound { IsSoundUpdate update.now }
    requires short { IfSome update.now.attrs (λ a. sum_by hops_of a.path < 2 ^ 32) }
    ensures rows { IfOk result (λ changes. AreRowsOf changes.items (updated from update.now server.now.routes)) }
    ensures rising { IfOk result (λ changes. IsRising is_before (prefixes_of changes.items)) }
    ensures all { IfOk result (λ changes. (p : Prefix) → Member p (update.now.withdrawn ++ update.now.announced) → Member p (prefixes_of changes.items)) }
{
    let changes = edits(server, from, update)?;
    let changes = sorted(changes);
    Ok(changes)
}
