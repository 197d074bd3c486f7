//! What several classifiers give together.

ghost use Rattle.std.specs.Prelude.{IfOk};
ghost use Rattle.classifier.specs.Sums.{IsSum};

use crate::classifier::Classifier;
use crate::ops::{parallel, single};
use crate::results::Results;
use net_types::Memory;
use std::alloc::Global;

/// What any of the parts gives. The parts of each half are joined first, so that a rule is met by those of few others before
/// it is met by all.
pub fn parallel_all(alloc: Global, parts: &[Classifier]) -> Result<Classifier, Memory>
    ensures { IfOk result (IsSum parts.now) }
{
    let Some((first, others)) = parts.split_first() else {
        let none = single(alloc, Results::new(alloc))?;
        return Ok(none);
    };
    if others.is_empty() {
        let same = first.twin()?;
        return Ok(same);
    }
    let (front, back) = parts.split_at(parts.len() / 2);
    let left = parallel_all(alloc, front)?;
    let right = parallel_all(alloc, back)?;
    let all = parallel(alloc, &left, &right)?;
    Ok(all)
}
