//! An order of groups, by which they are found.

ghost use Rattle.std.specs.Prelude.{◌≡◌, refl};
ghost use Rattle.std.specs.Cmp.{eq_by_cmp_equiv, partial_equiv_from_equiv, partial_order_from_total};
ghost use Rattle.std.specs.Ordering.{as_partial_cmp, eq_by_cmp};
ghost use Rattle.fast_path.specs.GroupOrder.{group_cmp, groups_total};

use net_types::{Sig, Tag};
use prefix_classes::compare_sigs;
use std::cmp::Ordering;
use std::marker::Model;

/// A group's tag before and its signature after. Contracts see the group.
#[derive(Drop)]
pub struct GroupKey<'a> {
    before: Option<Tag>,
    sig: &'a Sig,
}

impl<'a> Model for GroupKey<'a> {
    ghost use Rattle.std.specs.Coded.{codes};
    ghost use Rattle.events.specs.Tags.{Group};

    ghost Value = { Group };

    ghost coded = { Prim.hlevel codes };

    ghost view = { λ k. record { before = k.before; after = k.sig.now } };
}

impl<'a> GroupKey<'a> {
    /// The group with this tag before and this signature after.
    pub fn new(before: Option<Tag>, sig: &'a Sig) -> GroupKey<'a>
        ensures { result ≡ record { before = before; after = sig.now } }
    {
        GroupKey { before, sig }
    }
}

impl<'a> Ord for GroupKey<'a> {
    ghost cmp = { group_cmp };

    ghost total = { groups_total };

    ghost matches_partial_cmp = { λ a b. refl };

    ghost matches_eq = { λ a b. refl };

    fn cmp(&self, other: &GroupKey<'a>) -> Ordering {
        match self.before.cmp(&other.before) {
            Ordering::Equal => compare_sigs(self.sig, other.sig),
            Ordering::Less => Ordering::Less,
            Ordering::Greater => Ordering::Greater,
        }
    }
}

impl<'a> PartialOrd for GroupKey<'a> {
    ghost partial_cmp = { as_partial_cmp group_cmp };

    ghost laws = { partial_order_from_total groups_total };

    fn partial_cmp(&self, other: &GroupKey<'a>) -> Option<Ordering> {
        Some(self.cmp(other))
    }
}

impl<'a> PartialEq for GroupKey<'a> {
    ghost eq = { eq_by_cmp group_cmp };

    ghost laws = { partial_equiv_from_equiv (eq_by_cmp_equiv groups_total) };

    fn eq(&self, other: &GroupKey<'a>) -> bool {
        self.cmp(other).is_eq()
    }
}

impl<'a> Eq for GroupKey<'a> {
    ghost laws = { eq_by_cmp_equiv groups_total };
}
