//! Actions that results became, kept for the next rules with the same results.

ghost use Rattle.std.specs.Prelude.{◌≡◌, IfOk, IfSome};
ghost use Rattle.block_build.specs.Rules.{actions_of};

use crate::actions::actions_of;
use classifier::Results;
use net_types::{Actions, Memory, TryCopy};
use std::alloc::Global;

/// So many results become actions at once, which is no more work than to look for those that they became.
const FEW: usize = 16;

/// How many lists are kept.
const MOST: usize = 16;

/// Results and the actions that they became.
#[derive(Drop)]
struct Turn {
    print: u64,
    results: Results,
    actions: Actions,
    ghost is: { actions ≡ actions_of results },
}

/// Actions that results became. Rules with the same results often have the same list of actions.
#[derive(Drop)]
pub(crate) struct Turned {
    alloc: Global,
    kept: Vec<Turn>,
}

/// The actions that results became, where they were kept.
fn found<'u>(kept: &'u [Turn], print: u64, results: &Results) -> Option<&'u Actions>
    ensures { IfSome result (λ actions. actions.now ≡ actions_of results.now) }
{
    for earlier in kept {
        if earlier.print == print && earlier.results.equals(results) {
            return Some(&earlier.actions);
        }
    }
    None
}

/// Keeps the actions that results became. Where there are many, the earlier ones go.
fn keep(kept: &mut Vec<Turn>, print: u64, results: Results, actions: &Actions) -> Result<(), Memory>
    requires { actions.now ≡ actions_of results }
{
    if kept.len() >= MOST {
        kept.clear();
    }
    let actions = actions.copy()?;
    kept.push(Turn {
        print,
        results,
        actions,
    })?;
    Ok(())
}

impl Turned {
    /// Nothing is kept yet.
    pub(crate) fn new(alloc: Global) -> Turned {
        Turned {
            alloc,
            kept: Vec::new(alloc),
        }
    }

    /// The actions of what leaves by ports, in order, each once.
    pub(crate) fn actions(&mut self, results: Results) -> Result<Actions, Memory>
        ensures { IfOk result (λ a. a ≡ actions_of results) }
    {
        if results.len() <= FEW {
            return actions_of(self.alloc, results.items());
        }
        let print = results.print();
        if let Some(actions) = found(&self.kept, print, &results) {
            return actions.copy();
        }
        let actions = actions_of(self.alloc, results.items())?.shared()?;
        keep(&mut self.kept, print, results, &actions)?;
        Ok(actions)
    }
}
