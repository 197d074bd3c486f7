//! Assignments as values that a set can hold.

ghost use Rattle.std.specs.Prelude.{◌≡◌};
ghost use Rattle.policy_compile.specs.Sets.{assign_of, fields_of, after};

use net_types::{Assign, Ip};

/// The fields of an assignment.
#[derive(Clone, Copy, Debug, PartialEq, Eq, Hash)]
pub struct Fields {
    src: Option<Ip>,
    dst: Option<Ip>,
    sport: Option<u16>,
    dport: Option<u16>,
}

impl Fields {
    /// Those of an assignment.
    pub fn of(set: &Assign) -> Fields
        ensures { result ≡ fields_of set.now }
    {
        Fields {
            src: set.src,
            dst: set.dst,
            sport: set.sport,
            dport: set.dport,
        }
    }

    /// The assignment of these fields.
    fn assign(&self) -> Assign
        ensures { result ≡ assign_of self.now }
    {
        Assign {
            src: self.src,
            dst: self.dst,
            sport: self.sport,
            dport: self.dport,
        }
    }

    /// These and then the next ones, which count where both set a field.
    pub fn followed_by(&self, next: &Fields) -> Fields
        ensures { result ≡ after self.now next.now }
    {
        Fields::of(&self.assign().followed_by(&next.assign()))
    }
}
