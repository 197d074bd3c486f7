//! What export rules say of a participant and a prefix.

ghost use Rattle.std.specs.Prelude.{◌≡◌};
ghost use Rattle.net_types.specs.Exports.{is_about, applies, allows};
ghost use Rattle.route_server.specs.Rows.{rules_at};

use net_types::{ExportRule, ExportRules, Pid, Prefix, Which};

fn is_about(which: Which, prefix: Prefix) -> bool
    ensures { result ≡ is_about which prefix }
{
    match which {
        Which::Every => true,
        Which::Exactly(other) => other.address.0 == prefix.address.0 && other.len == prefix.len,
        Which::Within(other) => prefix.within(other),
    }
}

fn applies(rule: &ExportRule, to: Pid, prefix: Prefix) -> bool
    ensures { result ≡ applies rule.now to prefix }
{
    let is_for = match rule.who {
        None => true,
        Some(who) => who.0 == to.0,
    };
    is_for && is_about(rule.which, prefix)
}

/// Whether the first rule that applies allows; where none does, the prefix is given.
fn allows(rules: &[ExportRule], to: Pid, prefix: Prefix) -> bool
    ensures { result ≡ allows rules.now to prefix }
{
    for rule in rules {
        if applies(rule, to, prefix) {
            return rule.allow;
        }
    }
    true
}

/// Whether a participant's rules allow a prefix; one without rules allows all.
pub fn allowed(rules: &[ExportRules], from: Pid, to: Pid, prefix: Prefix) -> bool
    ensures { result ≡ allows (rules_at rules.now from.0) to prefix }
{
    match rules.get(from.0 as usize) {
        Some(own) => allows(own.items(), to, prefix),
        None => true,
    }
}
