//! A text of rules has one value.

ghost use Rattle.std.specs.Prelude.{◌≡◌, ◌↔◌, ℕ, List, Ok, Err};
ghost use Rattle.net_types.specs.ExportReading.{rules_of_text};
ghost use Rattle.net_types.specs.ExportTexts.{RulesText, IsWrongRulesAt};
ghost use Rattle.net_types.specs.declared.named_rule.NamedRule.{NamedRule};

/// Reading a text from left to right gives rules exactly where it spells them, and a place exactly where it is wrong there.
/// Nothing is said of its length.
pub fn reading_is_spelling()
    ensures spelled { (text : List ℕ) (rs : List NamedRule) → rules_of_text text ≡ Ok rs ↔ RulesText text rs }
    ensures failed { (text : List ℕ) (at : ℕ) → rules_of_text text ≡ Err at ↔ IsWrongRulesAt text at }
{}
