//! A text of a policy has one value.

ghost use Rattle.std.specs.Prelude.{◌≡◌, ◌↔◌, ℕ, List, Ok, Err};
ghost use Rattle.grammar.specs.TextReading.{Wrong, Deep};
ghost use Rattle.grammar.specs.Texts.{IsText, IsSyntaxFault, IsDeepFault};
ghost use Rattle.net_types.specs.Policies.{Policy};
ghost use Rattle.net_types.specs.PolicyGrammar.{policy};
ghost use Rattle.net_types.specs.PolicyReading.{policy_of_text};

/// Reading a text from left to right gives a policy exactly where it spells it with at most 64 groups open at once, and
/// a fault at a place exactly where it has that fault there. Nothing is said of its length.
pub fn reading_is_spelling()
    ensures spelled { (text : List ℕ) (p : Policy) → policy_of_text text ≡ Ok p ↔ IsText policy 64 text p }
    ensures wrong { (text : List ℕ) (at : ℕ) → policy_of_text text ≡ Err (Wrong at) ↔ IsSyntaxFault policy 64 text at }
    ensures deep { (text : List ℕ) (at : ℕ) → policy_of_text text ≡ Err (Deep at) ↔ IsDeepFault policy 64 text at }
{}
