//! Signatures that several owners share, and the order in which they are found.

ghost use Rattle.std.specs.Prelude.{◌≡◌, true, IfOk, refl};
ghost use Rattle.std.specs.Cmp.{eq_by_cmp_equiv, partial_equiv_from_equiv, partial_order_from_total};
ghost use Rattle.std.specs.Cmp.Lexicographic.{slice_cmp};
ghost use Rattle.std.specs.Ordering.{as_partial_cmp, eq_by_cmp};
ghost use Rattle.prefix_classes.specs.Placed.{offer_cmp, part_cmp, sig_cmp};
ghost use Rattle.prefix_classes.specs.PlacedLaws.{sigs_total};
ghost use Rattle.std.specs.declared.cmp.Ordering.{Ordering as AnyOrdering};

use net_types::{Memory, Offer, Part, Sig};
use std::alloc::Global;
use std::cmp::Ordering;
use std::marker::Model;
use std::rc::Rc;

/// A signature on the heap, once for all that hold it. Contracts see the signature.
#[derive(Drop)]
pub(crate) struct SharedSig {
    sig: Rc<Sig>,
}

impl Model for SharedSig {
    ghost use Rattle.std.specs.Prelude.{List};
    ghost use Rattle.net_types.specs.declared.route.Part.{Part};

    ghost Value = { List Part };

    ghost view = { λ a. a.sig.value };
}

impl SharedSig {
    /// This signature. Memory is the only refusal.
    pub(crate) fn new(alloc: Global, sig: Sig) -> Result<SharedSig, Memory>
        ensures { IfOk result (λ shared. shared ≡ sig) }
    {
        let sig = Rc::new(alloc, sig)?;
        Ok(SharedSig { sig })
    }

    /// A further owner of the same signature: it isn't copied.
    pub(crate) fn share(&self) -> Result<SharedSig, Memory>
        ensures { IfOk result (λ twin. twin ≡ self.now) }
    {
        let sig = self.sig.clone()?;
        Ok(SharedSig { sig })
    }

    /// Whether it is this signature.
    pub(crate) fn is(&self, sig: &Sig) -> bool
        ensures { result ≡ true → self.now ≡ sig.now }
    {
        rank_items(self.parts(), sig.items()).is_eq()
    }

    fn parts(&self) -> &[Part]
        ensures { result.now ≡ self.now }
    {
        self.sig.items()
    }
}

/// Values that have an order.
trait Ranked {
    // What `rank` answers.
    ghost order: { Self → Self → AnyOrdering };

    /// Which of two values comes first.
    fn rank(&self, other: &Self) -> Ordering
        ensures { result ≡ order self.now other.now };
}

impl Ranked for Offer {
    ghost order = { offer_cmp };

    fn rank(&self, other: &Offer) -> Ordering {
        let ports = self.port.0.cmp(&other.port.0);
        let holes = self.hole.cmp(&other.hole);
        self.exporter
            .0
            .cmp(&other.exporter.0)
            .then(ports.then(holes))
    }
}

impl Ranked for Part {
    ghost order = { part_cmp };

    fn rank(&self, other: &Part) -> Ordering {
        let bests = self.best.0.cmp(&other.best.0);
        match self.sender.0.cmp(&other.sender.0).then(bests) {
            Ordering::Equal => rank_items(self.offers.items(), other.offers.items()),
            Ordering::Less => Ordering::Less,
            Ordering::Greater => Ordering::Greater,
        }
    }
}

/// Lists by their first items that differ. A list comes before each longer one that begins with it.
fn rank_items<T: Ranked>(one: &[T], other: &[T]) -> Ordering
    ensures { result ≡ slice_cmp T.order one.now other.now }
{
    for i in 0..one.len() {
        if i == other.len() {
            return Ordering::Greater;
        }
        match one[i].rank(&other[i]) {
            Ordering::Equal => {}
            Ordering::Less => return Ordering::Less,
            Ordering::Greater => return Ordering::Greater,
        }
    }
    if one.len() < other.len() {
        return Ordering::Less;
    }
    Ordering::Equal
}

/// Which of two signatures comes first, by the first part that differs.
pub fn compare_sigs(one: &Sig, other: &Sig) -> Ordering
    ensures { result ≡ sig_cmp one.now other.now }
{
    rank_items(one.items(), other.items())
}

impl Ord for SharedSig {
    ghost cmp = { sig_cmp };

    ghost total = { sigs_total };

    ghost matches_partial_cmp = { λ a b. refl };

    ghost matches_eq = { λ a b. refl };

    fn cmp(&self, other: &SharedSig) -> Ordering {
        rank_items(self.parts(), other.parts())
    }
}

impl PartialOrd for SharedSig {
    ghost partial_cmp = { as_partial_cmp sig_cmp };

    ghost laws = { partial_order_from_total sigs_total };

    fn partial_cmp(&self, other: &SharedSig) -> Option<Ordering> {
        Some(self.cmp(other))
    }
}

impl PartialEq for SharedSig {
    ghost eq = { eq_by_cmp sig_cmp };

    ghost laws = { partial_equiv_from_equiv (eq_by_cmp_equiv sigs_total) };

    fn eq(&self, other: &SharedSig) -> bool {
        self.cmp(other).is_eq()
    }
}

impl Eq for SharedSig {
    ghost laws = { eq_by_cmp_equiv sigs_total };
}
