//! What the texts of policies are compiled to.

ghost use Rattle.std.specs.Prelude.{◌≡◌, Ok, IfOk, map};
ghost use Rattle.classifier.specs.Classifiers.{lines_of};
ghost use Rattle.net_types.specs.PolicyReading.{policy_of_text};
ghost use Rattle.plan_cases.specs.Policies.{AreCompiled, AreRulesOf, lent_of};
ghost use Rattle.policy_syntax.specs.Views.{policy_of};
ghost use Rattle.registry.specs.Registered.{named};

use crate::policies::Texts;
use crate::wrong::Wrong;
use block_build::Views;
use bumpalo::Bump;
use classifier::Classifier;
use net_types::{Memory, Text};
use policy_compile::compile;
use policy_syntax::{SyntaxFault, Tree, parse};
use registry::Registry;
use std::alloc::Global;

/// The classifiers of a participant's two policies.
#[derive(Drop)]
pub struct Programs {
    pub outbound: Classifier,
    pub inbound: Classifier,
}

/// The policy of a text, with its nodes in the arena.
pub fn read<'a>(alloc: Global, arena: &'a Bump, text: &'a str) -> Result<Tree<'a>, Wrong>
    ensures { IfOk result (λ tree. policy_of_text text.now ≡ Ok (policy_of tree)) }
{
    match parse(alloc, arena, text) {
        Ok(tree) => Ok(tree),
        Err(SyntaxFault::Memory) => Err(Wrong::Memory),
        Err(_) => Err(Wrong::Row),
    }
}

/// The policy of the text of a participant.
fn read_text<'a>(alloc: Global, arena: &'a Bump, text: &'a Text) -> Result<Tree<'a>, Wrong>
    ensures { IfOk result (λ tree. policy_of_text text.now ≡ Ok (policy_of tree)) }
{
    let Ok(text) = std::str::from_utf8(text.items()) else {
        return Err(Wrong::Row);
    };
    let tree = read(alloc, arena, text)?;
    Ok(tree)
}

/// What the policy of a text is compiled to.
fn compiled(alloc: Global, names: &Registry, text: &Text) -> Result<Classifier, Wrong>
    ensures { IfOk result (λ c. AreRulesOf (named names.now) text.now (lines_of c)) }
{
    let arena = Bump::new(alloc);
    let tree = read_text(alloc, &arena, text)?;
    let made = compile(alloc, &tree, names)?;
    Ok(made)
}

/// What the policies of all participants are compiled to.
pub fn all_compiled(alloc: Global, names: &Registry, all: &[Texts]) -> Result<Vec<Programs>, Wrong>
    ensures { IfOk result (λ programs. AreCompiled (named names.now) all.now programs.items) }
{
    let mut programs = Vec::new(alloc);
    for texts in all {
        let outbound = compiled(alloc, names, &texts.outbound)?;
        let inbound = compiled(alloc, names, &texts.inbound)?;
        programs.push(Programs { outbound, inbound })?;
    }
    Ok(programs)
}

/// Lends the classifiers of all participants.
pub fn lent<'p>(alloc: Global, programs: &'p [Programs]) -> Result<Views<'p>, Memory>
    ensures { IfOk result (λ views. views ≡ map lent_of programs.now) }
{
    let mut views = Views::new(alloc);
    for both in programs {
        views.push(&both.outbound, &both.inbound)?;
    }
    Ok(views)
}
