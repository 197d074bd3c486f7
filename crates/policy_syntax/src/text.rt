//! Whole texts.

ghost use Rattle.std.specs.Prelude.{◌≡◌, ◌<◌, ◌≤◌, ◌↔◌, length, IfOk, IfErr};
ghost use Rattle.grammar.specs.Texts.{IsText, read_whole};
ghost use Rattle.net_types.specs.PolicyGrammar.{policy};
ghost use Rattle.net_types.specs.PolicyReading.{read_start, policy_of_text};
ghost use Rattle.policy_syntax.specs.Answers.{Gives, IsCause, FindsText};
ghost use Rattle.policy_syntax.specs.ReadsBack.{EachPart, ReadsBack};
ghost use Rattle.policy_syntax.specs.Views.{policy_of};

use crate::fault::SyntaxFault;
use crate::policies::start;
use crate::tree::Tree;
use bumpalo::Bump;
use std::alloc::Global;
use text_fields::place;

#[tactic(auto, unfolding(grammar::specs::Texts::read_whole))]
fn read<'a>(arena: &'a Bump, text: &'a str) -> Result<Tree<'a>, SyntaxFault>
    requires { length text.now ≤ 8192 }
    ensures { Gives policy_of result (read_whole (read_start 64) text.now) }
{
    let (tree, rest) = start(arena, 64, text.len(), text.as_bytes())?;
    if !rest.is_empty() {
        return Err(SyntaxFault::Syntax {
            at: place(text.len(), rest),
        });
    }
    Ok(tree)
}

/// The policy that a text spells, with its nodes in the arena and its names as slices of the text.
pub fn parse<'a>(_alloc: Global, arena: &'a Bump, text: &'a str) -> Result<Tree<'a>, SyntaxFault>
    // The tree is the one policy that the text spells.
    ensures ok { IfOk result (λ tree. (length text.now ≤ 8192) × IsText policy 64 text.now (policy_of tree)) }
    // Each fault is the right one, at its place.
    ensures err { IfErr result (λ fault. IsCause 8192 64 text.now fault) }
    // A text that is short enough and spells a policy without too many groups is read, unless memory runs out.
    ensures found { FindsText 8192 64 text.now policy_of result }
    // What is answered for a text that is short enough is what reading it gives, unless memory runs out.
    ensures reads { length text.now ≤ 8192 → Gives policy_of result (policy_of_text text.now) }
    // Too long are exactly the texts of more than 8192 octets.
    ensures long { (result ≡ Err SyntaxFault.TextLong) ↔ (8192 < length text.now) }
    // The canonical text of the tree and of each of its parts spells the same, but for the spans.
    ensures back { IfOk result (λ tree. EachPart (λ p. ReadsBack 64 p) (policy_of tree)) }
{
    if text.len() > 8192 {
        return Err(SyntaxFault::TextLong);
    }
    read(arena, text)
}
