//! The texts of policies: as they are read, why they are refused, and what they are compiled to.

ghost use Rattle.std.specs.Prelude.{◌≡◌, None, Ok, IfOk, IsTrue, MatchResult};
ghost use Rattle.events.specs.Lines.{is_utf8};
ghost use Rattle.events.specs.Refusals.{refused_if};
ghost use Rattle.events.specs.declared.Refusal.TheVariants.{TooWide};
ghost use Rattle.net_types.specs.PolicyReading.{policy_of_text};
ghost use Rattle.net_types.specs.Widths.{is_too_wide};
ghost use Rattle.policy_syntax.specs.Views.{policy_of};
ghost use Rattle.registry.specs.Registered.{named};
ghost use Rattle.exchange_core.specs.PolicyTexts.{HasRead};
ghost use Rattle.exchange_core.specs.Programs.{IsCompiled};
ghost use Rattle.exchange_core.specs.Stops.{IsFirst};

use crate::programs::Program;
use crate::stop::Stop;
use bumpalo::Bump;
use events::Refusal;
use net_types::{Memory, Text, TryCopy};
use policy_compile::{compile, too_wide};
use policy_syntax::{Tree, parse};
use registry::Registry;
use std::alloc::Global;

/// The policy of a text, with its nodes in the arena, or why the text is refused.
pub fn read_policy<'a>(alloc: Global, arena: &'a Bump, text: &'a Text) -> Result<Tree<'a>, Stop>
    requires { IsTrue (is_utf8 text.now) }
    ensures { HasRead text.now result }
{
    let Ok(text) = std::str::from_utf8(text.items()) else {
        unreachable!()
    };
    let tree = parse(alloc, arena, text)?;
    Ok(tree)
}

/// A policy isn't too wide, or is refused.
pub fn narrow(alloc: Global, tree: &Tree<'_>) -> Result<(), Stop>
    ensures { let first = refused_if (is_too_wide (policy_of tree.now)) TooWide in MatchResult result (λ _. first ≡ None) (IsFirst first) }
{
    if too_wide(alloc, tree)? {
        Err(Refusal::TooWide.into())
    } else {
        Ok(())
    }
}

/// What a text is compiled to that was read so.
pub fn compiled(
    alloc: Global,
    names: &Registry,
    text: &Text,
    tree: &Tree<'_>,
) -> Result<Program, Memory>
    requires { policy_of_text text.now ≡ Ok (policy_of tree.now) }
    ensures text { IfOk result (λ program. program.text ≡ text.now) }
    ensures compiled { IfOk result (IsCompiled (named names.now)) }
{
    let classifier = compile(alloc, tree, names)?;
    let text = text.copy()?;
    Ok(Program { text, classifier })
}
