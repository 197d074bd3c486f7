//! The type of classifiers.

ghost use Rattle.std.specs.Prelude.{IsTrue, IfOk};
ghost use Rattle.classifier.specs.Meaning.{HasDistinctCubes, HasDistinctCubes-prop, ends_with_everything};

use crate::line::{Line, Lines};
use net_types::{Items, Memory, TryCopy};

/// Rules in order, of which the first with a packet's headers decides. Their cubes differ, and the last has all headers.
#[derive(Drop)]
pub struct Classifier {
    lines: Lines,
    ghost distinct: { HasDistinctCubes lines } by { HasDistinctCubes-prop lines },
    ghost total: { IsTrue (ends_with_everything lines) },
}

impl Classifier {
    ghost use Rattle.std.specs.Prelude.{◌≡◌};
    ghost use Rattle.classifier.specs.Classifiers.{lines_of};

    /// The rules in their order.
    pub fn lines(&self) -> &[Line]
        ensures rules { result.now ≡ lines_of self.now }
        ensures distinct { HasDistinctCubes result.now }
        ensures total { IsTrue (ends_with_everything result.now) }
    {
        self.lines.items()
    }

    /// A classifier of rules whose cubes differ and of which the last has all headers.
    pub fn from_lines(lines: Lines) -> Classifier
        requires distinct { HasDistinctCubes lines }
        requires total { IsTrue (ends_with_everything lines) }
        ensures { lines_of result ≡ lines }
    {
        Classifier { lines }
    }

    /// A classifier of the same rules.
    pub fn twin(&self) -> Result<Classifier, Memory>
        ensures { IfOk result (λ c. lines_of c ≡ lines_of self.now) }
    {
        let lines = self.lines.copy()?;
        Ok(Classifier::from_lines(lines))
    }

    /// The same of a vector.
    pub(crate) fn from_vec(lines: Vec<Line>) -> Classifier
        requires distinct { HasDistinctCubes lines.items }
        requires total { IsTrue (ends_with_everything lines.items) }
        ensures { lines_of result ≡ lines.items }
    {
        Classifier::from_lines(Items::from_vec(lines))
    }
}
