//! What it does that a participant's outbound policy names others in a forward.

ghost use Rattle.std.specs.Prelude.{◌≡◌, ◌<◌, length, is_some, slice_set, Some, None, IfOk};
ghost use Rattle.std.specs.List.{list_any};
ghost use Rattle.net_types.specs.declared.address.Pid.{Pid as AnyPid};
ghost use Rattle.route_server.specs.Effects.{AreEffects, AreRowsOf};
ghost use Rattle.route_server.specs.Edits.{prefixes_of};
ghost use Rattle.route_server.specs.Proposed.{IsProposal, added, both, trimmed_routing};
ghost use Rattle.route_server.specs.Rows.{look, names_at};
ghost use Rattle.route_server.specs.Served.{routing, AreDeclared, CarryAny};

use crate::change::Change;
use crate::down::has;
use crate::effect::Effect;
use crate::effects::effects_of;
use crate::export::all_kept;
use crate::held::Held;
use crate::proposal::Proposal;
use crate::server::RouteServer;
use crate::signature::{is_named, names_at};
use crate::terms::Terms;
use net_types::{Items, Memory, Pid, Pids, Prefix, TryCopy};
use registry::Registry;
use std::alloc::{AllocError, Global};

/// Those that were named before and are named still.
fn both(alloc: Global, old: &[Pid], new: &[Pid]) -> Result<Vec<Pid>, AllocError>
    ensures { IfOk result (λ kept. kept.items ≡ both old.now new.now) }
{
    old.iter()
        .copied()
        .filter(|who| is_named(new, *who))
        .collect(alloc)
}

/// Those that are named now and weren't before.
fn added(alloc: Global, old: &[Pid], new: &[Pid]) -> Result<Vec<Pid>, AllocError>
    ensures { IfOk result (λ others. others.items ≡ added old.now new.now) }
{
    new.iter()
        .copied()
        .filter(|who| !is_named(old, *who))
        .collect(alloc)
}

/// A copy of all lists of names.
fn copied(alloc: Global, lists: &[Pids]) -> Result<Vec<Pids>, Memory>
    ensures { IfOk result (λ twins. twins.items ≡ lists.now) }
{
    let mut twins = Vec::new(alloc);
    for own in lists {
        let twin = own.copy()?;
        twins.push(twin)?;
    }
    Ok(twins)
}

/// A copy of all lists of names, with a participant's own in place of its earlier one, where it has one.
fn with_names(alloc: Global, lists: &[Pids], who: Pid, own: Pids) -> Result<Vec<Pids>, Memory>
    ensures { IfOk result (λ after. after.items ≡ slice_set lists.now who.0 own) }
{
    let mut after = copied(alloc, lists)?;
    if let Some(there) = after.get_mut(who.0 as usize) {
        *there = own;
    }
    Ok(after)
}

/// Whether one of some participants has a route in a row.
fn has_any(row: &[Held], froms: &[Pid]) -> bool
    ensures { result ≡ list_any (λ (from : AnyPid). is_some (look row.now from.0)) froms.now }
{
    froms.iter().any(|from| has(row, *from))
}

/// The prefixes for which one of some participants has a route, in ascending order. It walks over all prefixes.
fn prefixes_of_any(server: &RouteServer, froms: &[Pid]) -> Result<Vec<Prefix>, Memory>
    ensures { IfOk result (λ prefixes. CarryAny server.now.routes froms.now prefixes.items) }
{
    let mut prefixes = Vec::new(server.allocator());
    let all = server.prefixes()?;
    for prefix in all.as_slice() {
        if has_any(server.row(*prefix), froms) {
            prefixes.push(*prefix)?;
        }
    }
    Ok(prefixes)
}

/// The names without those of a participant that aren't named from now on.
fn names_before(alloc: Global, lists: &[Pids], who: Pid, named: &[Pid]) -> Result<Vec<Pids>, Memory>
    ensures { IfOk result (λ before. before.items ≡ slice_set lists.now who.0 (both (names_at lists.now who.0) named.now)) }
{
    let kept = Items::from_vec(both(alloc, names_at(lists, who), named)?);
    with_names(alloc, lists, who, kept)
}

/// The names with those of a participant from now on.
fn names_after(alloc: Global, lists: &[Pids], who: Pid, named: &[Pid]) -> Result<Vec<Pids>, Memory>
    ensures { IfOk result (λ after. after.items ≡ slice_set lists.now who.0 named.now) }
{
    let own = Items::from_vec(Vec::from_slice(alloc, named)?);
    with_names(alloc, lists, who, own)
}

/// What other names of a participant do to the prefixes of these rows, which stay as they are: it is compared with what
/// those make that are named still.
fn effects_of_names(
    server: &RouteServer,
    names: &Registry,
    who: Pid,
    named: &[Pid],
    changes: &[Change],
) -> Result<Vec<Effect>, Memory>
    requires declared { AreDeclared names.now server.now.routes }
    requires rows { AreRowsOf changes.now server.now.routes }
    ensures { IfOk result (λ effects. AreEffects (trimmed_routing (routing names.now server.now) who named.now) (record (routing names.now server.now) { named = slice_set server.now.named who.0 named.now }) changes.now (length changes.now) effects.items) }
{
    let alloc = server.allocator();
    let terms = server.terms(names);
    let earlier = names_before(alloc, terms.named, who, named)?;
    let later = names_after(alloc, terms.named, who, named)?;
    let before = Terms {
        names,
        rules: terms.rules,
        named: earlier.as_slice(),
    };
    let after = Terms {
        names,
        rules: terms.rules,
        named: later.as_slice(),
    };
    let effects = effects_of(server, before, after, changes)?;
    Ok(effects)
}

/// The rows, as they are, of the prefixes whose signatures other names of a participant may make others: those for which one
/// that is named now and wasn't before has a route.
fn rows_of_names(server: &RouteServer, who: Pid, named: &[Pid]) -> Result<Vec<Change>, Memory>
    ensures prefixes { IfOk result (λ changes. CarryAny server.now.routes (added (names_at server.now.named who.0) named.now) (prefixes_of changes.items)) }
    ensures rows { IfOk result (λ changes. AreRowsOf changes.items server.now.routes) }
{
    let old = names_at(server.named(), who);
    let others = added(server.allocator(), old, named)?;
    let prefixes = prefixes_of_any(server, others.as_slice())?;
    let changes = all_kept(server, prefixes.as_slice())?;
    Ok(changes)
}

impl RouteServer {
    /// What it does that the outbound policy of a participant names these in a forward, in place of those that it named: the
    /// signatures that the new names make.
    ///
    /// They are compared with the signatures as they are without those that aren't named any more. Where the server was told
    /// of no such participant, nothing becomes another.
    pub fn propose_named(&self, names: &Registry, who: Pid, named: Pids) -> Result<Proposal, Memory>
        requires { AreDeclared names.now self.now.routes }
        ensures rules { IfOk result (λ p. p.rules ≡ None) }
        ensures named { IfOk result (λ p. p.named ≡ Some (who, named)) }
        ensures proposal { IfOk result (λ p. IsProposal (trimmed_routing (routing names.now self.now) who named) (record (routing names.now self.now) { named = slice_set self.now.named who.0 named }) p) }
    {
        let changes = rows_of_names(self, who, named.items())?;
        let effects = effects_of_names(self, names, who, named.items(), changes.as_slice())?;
        let proposal = Proposal::made(
            self.allocator(),
            changes,
            None,
            Some((who, named)),
            effects,
        )?;
        Ok(proposal)
    }
}
