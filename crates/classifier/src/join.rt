//! The results of two rules, joined.

ghost use Rattle.std.specs.Prelude.{◌≡◌, IfOk};
ghost use Rattle.classifier.specs.Lines.{joined};

use crate::results::Results;
use crate::unions::Unions;
use net_types::{Memory, TryCopy};

/// How the results of two rules are joined.
#[derive(Clone, Copy, Debug, PartialEq, Eq)]
pub enum Join {
    /// Those of both.
    Union,
    /// Those of the second where the first has none.
    Otherwise,
}

/// The results of two rules, joined.
pub fn join_results(
    unions: &mut Unions,
    join: Join,
    a: &Results,
    b: &Results,
) -> Result<Results, Memory>
    ensures { IfOk result (λ r. r ≡ joined join a.now b.now) }
{
    match join {
        Join::Union => unions.union(a, b),
        Join::Otherwise => { if a.is_empty() { b.copy() } else { a.copy() } }
    }
}
