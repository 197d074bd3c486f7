//! Rules of declared participants.

ghost use Rattle.std.specs.Prelude.{◌≡◌, Some, None, IfOk, IfErr};
ghost use Rattle.registry.specs.Registered.{named};
ghost use Rattle.net_types.specs.Exports.{applies, is_about, allows};
ghost use Rattle.net_types.specs.ExportTexts.{bound_rule, bound};

use crate::fault::BindFault;
use crate::parsed::Rules;
use net_types::{ExportRule, ExportRules, Items, Name, NamedRule, Pid, Prefix, Which};
use registry::Registry;
use std::marker::Model;

/// A participant's export rules, of which the first one that applies decides.
#[derive(Drop)]
pub struct Bound {
    rules: Vec<ExportRule>,
}

impl Model for Bound {
    ghost use Rattle.std.specs.Prelude.{List};
    ghost use Rattle.net_types.specs.declared.export.ExportRule.{ExportRule};

    ghost Value = { List ExportRule };

    ghost view = { λ a. a.rules.items };
}

fn bind_rule(names: &Registry, rule: &NamedRule) -> Option<ExportRule>
    ensures { result ≡ bound_rule (named names.now) rule.now }
{
    let who = match &rule.who {
        None => None,
        Some(name) => Some(names.find_octets(name.items())?),
    };
    Some(ExportRule {
        allow: rule.allow,
        who,
        which: rule.which,
    })
}

// Whether a rule applies to a participant and a prefix.
fn applies(rule: &ExportRule, to: Pid, prefix: Prefix) -> bool
    ensures { result ≡ applies rule.now to prefix }
{
    rule.who.is_none_or(|who| who.0 == to.0) && is_about(rule.which, prefix)
}

fn is_about(which: Which, prefix: Prefix) -> bool
    ensures { result ≡ is_about which prefix }
{
    match which {
        Which::Every => true,
        Which::Exactly(only) => prefix.address.0 == only.address.0 && prefix.len == only.len,
        Which::Within(all) => prefix.within(all),
    }
}

impl Rules {
    /// The rules with the participants of their names. Refused is a name that isn't declared.
    pub fn bind(&self, names: &Registry) -> Result<Bound, BindFault>
        ensures ok { IfOk result (λ b. bound (named names.now) self.now ≡ Some b) }
        ensures unknown { IfErr result (λ fault. fault ≡ BindFault.UnknownName → bound (named names.now) self.now ≡ None) }
    {
        let named = self.rules();
        let mut rules = Vec::new(*named.allocator());
        for rule in named {
            match bind_rule(names, rule) {
                None => return Err(BindFault::UnknownName),
                Some(rule) => rules.push(rule)?,
            }
        }
        Ok(Bound { rules })
    }
}

impl Bound {
    /// The rules, in their order.
    pub fn rules(&self) -> &[ExportRule]
        ensures { result.now ≡ self.now }
    {
        self.rules.as_slice()
    }

    /// The rules as a list of their own, in their order. It takes no memory.
    pub fn into_rules(self) -> ExportRules
        ensures { result ≡ self }
    {
        Items::from_vec(self.rules)
    }

    /// Whether a participant may be given the routes of a prefix: what the first rule says that applies, and yes where
    /// none does.
    pub fn allows(&self, to: Pid, prefix: Prefix) -> bool
        ensures { result ≡ allows self.now to prefix }
    {
        for rule in self.rules() {
            if applies(rule, to, prefix) {
                return rule.allow;
            }
        }
        true
    }
}
