//! The fields of an assignment that a predicate tests.

ghost use Rattle.std.specs.Prelude.{◌≡◌};
ghost use Rattle.policy_syntax.specs.Views.{pred_of, test_of};
ghost use Rattle.policy_compile.specs.Seen.{Decide, both_fields, field_tested, kept, no_fields, seen, tested};

use net_types::Assign;
use policy_syntax::{Pred, Test};

/// Which of the fields that can be set a predicate tests.
#[derive(Clone, Copy, Debug, PartialEq, Eq)]
pub struct Fields {
    pub src: bool,
    pub dst: bool,
    pub sport: bool,
    pub dport: bool,
}

/// What a field is set to, where it is one of those that count.
fn kept<T: Copy>(counts: bool, value: Option<T>) -> Option<T>
    ensures { result ≡ kept counts value }
{
    if counts { value } else { None }
}

impl Fields {
    /// No field.
    fn none() -> Fields
        ensures { result ≡ no_fields }
    {
        Fields {
            src: false,
            dst: false,
            sport: false,
            dport: false,
        }
    }

    /// The field that a test is of, where it can be set.
    fn of_test(test: &Test) -> Fields
        ensures { result ≡ field_tested (test_of test.now) }
    {
        let mut fields = Fields::none();
        match test {
            Test::Src(_) => fields.src = true,
            Test::Dst(_) => fields.dst = true,
            Test::Sport(_) => fields.sport = true,
            Test::Dport(_) => fields.dport = true,
            Test::Inport(_) | Test::Proto(_) => {}
        }
        fields
    }

    /// The fields of both.
    fn with(&self, more: &Fields) -> Fields
        ensures { result ≡ both_fields self.now more.now }
    {
        Fields {
            src: self.src || more.src,
            dst: self.dst || more.dst,
            sport: self.sport || more.sport,
            dport: self.dport || more.dport,
        }
    }

    /// What an assignment sets of these fields.
    pub fn seen(&self, set: &Assign) -> Assign
        ensures { result ≡ seen self.now set.now }
    {
        Assign {
            src: kept(self.src, set.src),
            dst: kept(self.dst, set.dst),
            sport: kept(self.sport, set.sport),
            dport: kept(self.dport, set.dport),
        }
    }
}

/// The fields that a predicate tests.
pub fn fields_of(pred: &Pred<'_>) -> Fields
    ensures tested { result ≡ tested (pred_of pred.now) }
    ensures decide { Decide result (pred_of pred.now) }
{
    match pred {
        Pred::Yes => Fields::none(),
        Pred::Is(test, _) => Fields::of_test(test),
        Pred::Not(inner) => fields_of(inner),
        Pred::And(first, second) => fields_of(first).with(&fields_of(second)),
        Pred::Or(first, second) => fields_of(first).with(&fields_of(second)),
    }
}
