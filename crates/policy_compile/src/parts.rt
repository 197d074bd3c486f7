//! Lists of classifiers.

ghost use Rattle.std.specs.Prelude.{◌≡◌, ◌∷◌, ◌++◌, [], IfOk};

use classifier::Classifier;
use net_types::Memory;
use std::alloc::Global;

/// The one classifier.
pub fn alone(alloc: Global, c: Classifier) -> Result<Vec<Classifier>, Memory>
    ensures { IfOk result (λ v. v.items ≡ c ∷ []) }
{
    let mut parts = Vec::new(alloc);
    parts.push(c)?;
    Ok(parts)
}

/// The second classifiers behind the first.
#[tactic(auto, using(std::proofs::Common::append_assoc))]
pub fn appended(first: Vec<Classifier>, second: Vec<Classifier>) -> Result<Vec<Classifier>, Memory>
    ensures { IfOk result (λ v. v.items ≡ first.items ++ second.items) }
{
    let mut parts = first;
    for part in second {
        parts.push(part)?;
    }
    Ok(parts)
}
