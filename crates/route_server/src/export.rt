//! What other export rules of a participant do.

ghost use Rattle.std.specs.Prelude.{◌≡◌, ◌<◌, ◌≤◌, Some, None, length, slice_set, IfOk};
ghost use Rattle.net_types.specs.Sets.{Member};
ghost use Rattle.route_server.specs.Edits.{IsKept, prefixes_of};
ghost use Rattle.route_server.specs.Effects.{routing_after};
ghost use Rattle.route_server.specs.Proposed.{IsProposal};
ghost use Rattle.route_server.specs.Rows.{padded, rules_with};
ghost use Rattle.route_server.specs.Served.{routing, AreDeclared};
ghost use Rattle.route_server.specs.declared.change.Change.{Change};

use crate::change::Change;
use crate::down::prefixes_from;
use crate::held::Held;
use crate::proposal::Proposal;
use crate::server::RouteServer;
use export_rules::Bound;
use net_types::{ExportRules, Items, Memory, Pid, Prefix, TryCopy};
use registry::Registry;
use std::alloc::Global;

/// A copy of all rules.
fn copied(alloc: Global, rules: &[ExportRules]) -> Result<Vec<ExportRules>, Memory>
    ensures { IfOk result (λ twins. twins.items ≡ rules.now) }
{
    let mut twins = Vec::new(alloc);
    for own in rules {
        let twin = Items::from_vec(Vec::from_slice(alloc, own.items())?);
        twins.push(twin)?;
    }
    Ok(twins)
}

/// A copy of all rules, with lists for so many participants at least.
fn padded(alloc: Global, rules: &[ExportRules], count: usize) -> Result<Vec<ExportRules>, Memory>
    ensures padded { IfOk result (λ after. after.items ≡ padded rules.now count) }
    ensures long { IfOk result (λ after. count ≤ length after.items) }
{
    let mut after = copied(alloc, rules)?;
    let mut place = rules.len();
    while place < count {
        after.push(Items::new(alloc))?;
        place += 1;
    }
    Ok(after)
}

/// The rules with a participant's own in place of its earlier ones.
fn with_rules(
    alloc: Global,
    rules: &[ExportRules],
    from: Pid,
    own: ExportRules,
) -> Result<Vec<ExportRules>, Memory>
    ensures { IfOk result (λ after. after.items ≡ rules_with rules.now from own) }
{
    let place = from.0 as usize;
    let mut after = padded(alloc, rules, place + 1)?;
    after[place] = own;
    Ok(after)
}

/// A copy of a row.
fn same_row(alloc: Global, row: &[Held]) -> Result<Items<Held>, Memory>
    ensures { IfOk result (λ next. next ≡ row.now) }
{
    let mut next = Items::new(alloc);
    for held in row {
        next.push(held.copy()?)?;
    }
    Ok(next)
}

/// The row of a prefix as it is.
fn kept(server: &RouteServer, prefix: Prefix) -> Result<Change, Memory>
    ensures prefix { IfOk result (λ change. change.prefix ≡ prefix) }
    ensures row { IfOk result (λ change. IsKept server.now.routes change) }
{
    let row = same_row(server.allocator(), server.row(prefix))?;
    Ok(Change { prefix, row })
}

/// The rows of prefixes as they are.
pub fn all_kept(server: &RouteServer, prefixes: &[Prefix]) -> Result<Vec<Change>, Memory>
    ensures prefixes { IfOk result (λ changes. prefixes_of changes.items ≡ prefixes.now) }
    ensures rows { IfOk result (λ changes. (c : Change) → Member c changes.items → IsKept server.now.routes c) }
{
    let mut changes = Vec::new(server.allocator());
    for prefix in prefixes {
        let change = kept(server, *prefix)?;
        changes.push(change)?;
    }
    Ok(changes)
}

impl RouteServer {
    /// What it does that a participant has these export rules, in place of its earlier ones.
    pub fn propose_rules(
        &self,
        names: &Registry,
        from: Pid,
        rules: Bound,
    ) -> Result<Proposal, Memory>
        requires { AreDeclared names.now self.now.routes }
        ensures rules { IfOk result (λ p. p.rules ≡ Some (rules_with self.now.rules from rules)) }
        ensures named { IfOk result (λ p. p.named ≡ None) }
        ensures listed { IfOk result (λ _. from.0 < length self.now.rules → rules_with self.now.rules from rules ≡ slice_set self.now.rules from.0 rules) }
        ensures proposal { IfOk result (λ p. IsProposal (routing names.now self.now) (routing_after names.now (rules_with self.now.rules from rules) self.now.named self.now.routes) p) }
    {
        let prefixes = prefixes_from(self, from)?;
        let changes = all_kept(self, prefixes.as_slice())?;
        let before = self.rules();
        let after = with_rules(self.allocator(), before, from, rules.into_rules())?;
        let proposal = Proposal::of(self, names, changes, Some(after))?;
        Ok(proposal.with_list(from, 0))
    }
}
