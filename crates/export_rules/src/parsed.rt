//! Rules as a text writes them.

ghost use Rattle.std.specs.Prelude.{◌≡◌, ℕ, ◌<◌, ◌≤◌, ◌↔◌, length, IfOk, IfErr, Some, None};
ghost use Rattle.grammar.specs.Texts.{read_whole};
ghost use Rattle.net_types.specs.ExportTexts.{RulesText};
ghost use Rattle.net_types.specs.ExportReading.{read_rules, rules_of_text};
ghost use Rattle.export_rules.specs.Answers.{Gives, IsCause, FindsRules};

use crate::fault::RulesFault;
use crate::reading::rules;
use net_types::NamedRule;
use std::alloc::Global;
use std::marker::Model;
use text_fields::wrong;

/// Export rules with the names of participants, in their order.
#[derive(Drop)]
pub struct Rules {
    rules: Vec<NamedRule>,
}

impl Model for Rules {
    ghost use Rattle.std.specs.Prelude.{List};
    ghost use Rattle.net_types.specs.declared.named_rule.NamedRule.{NamedRule};

    ghost Value = { List NamedRule };

    ghost view = { λ a. a.rules.items };
}

impl Rules {
    /// The rules.
    pub(crate) fn rules(&self) -> &Vec<NamedRule>
        ensures { result.now.items ≡ self.now }
    {
        &self.rules
    }
}

#[tactic(auto, unfolding(grammar::specs::Texts::read_whole))]
fn read(alloc: Global, text: &str) -> Result<Rules, RulesFault>
    requires { length text.now ≤ 8192 }
    ensures { Gives (λ rules. rules) result (read_whole read_rules text.now) }
{
    let (rules, rest) = rules(alloc, text.len(), text.as_bytes())?;
    if !rest.is_empty() {
        return Err(wrong(text.len(), rest).into());
    }
    Ok(Rules { rules })
}

/// The rules that a text spells.
pub fn parse_rules(alloc: Global, text: &str) -> Result<Rules, RulesFault>
    // They are the rules that the text spells, and no others.
    ensures ok { IfOk result (λ rules. (length text.now ≤ 8192) × RulesText text.now rules) }
    // Each fault is the right one, at its place.
    ensures err { IfErr result (λ fault. IsCause 8192 text.now fault) }
    // A text that is short enough and spells rules is read, unless memory runs out.
    ensures found { FindsRules 8192 text.now result }
    // The rules are the value of the text.
    ensures value { IfOk result (λ rules. rules_of_text text.now ≡ Ok rules) }
    // The place of the fault is the value of the text.
    ensures place { IfErr result (λ fault. (at : ℕ) → fault ≡ RulesFault.Syntax at → rules_of_text text.now ≡ Err at) }
    // Too long are exactly the texts of more than 8192 octets.
    ensures long { (result ≡ Err RulesFault.TextLong) ↔ (8192 < length text.now) }
{
    if text.len() > 8192 {
        return Err(RulesFault::TextLong);
    }
    read(alloc, text)
}
