//! Copies of values that hold lists.

ghost use Rattle.std.specs.Prelude.{◌≡◌, IfOk};

use crate::address::Pid;
use crate::list::Items;
use crate::memory::Memory;
use crate::prefix::Prefix;
use crate::route::{Attrs, Offer, Part, Segment, Unknown};
use crate::rule::Rule;
use crate::update::Update;

/// A value of which an equal one can be made.
pub trait TryCopy {
    fn copy(&self) -> Result<Self, Memory>
        ensures { IfOk result (λ twin. twin ≡ self.now) };
}

impl TryCopy for u8 {
    fn copy(&self) -> Result<u8, Memory> {
        Ok(*self)
    }
}

impl TryCopy for u32 {
    fn copy(&self) -> Result<u32, Memory> {
        Ok(*self)
    }
}

impl TryCopy for Prefix {
    fn copy(&self) -> Result<Prefix, Memory> {
        Ok(*self)
    }
}

impl TryCopy for Offer {
    fn copy(&self) -> Result<Offer, Memory> {
        Ok(*self)
    }
}

impl TryCopy for Pid {
    fn copy(&self) -> Result<Pid, Memory> {
        Ok(*self)
    }
}

impl TryCopy for Segment {
    fn copy(&self) -> Result<Segment, Memory> {
        match self {
            Segment::Set(asns) => Ok(Segment::Set(asns.copy()?)),
            Segment::Sequence(asns) => Ok(Segment::Sequence(asns.copy()?)),
        }
    }
}

impl TryCopy for Unknown {
    fn copy(&self) -> Result<Unknown, Memory> {
        Ok(Unknown {
            kind: self.kind,
            value: self.value.copy()?,
        })
    }
}

impl TryCopy for Attrs {
    fn copy(&self) -> Result<Attrs, Memory> {
        Ok(Attrs {
            origin: self.origin,
            path: self.path.copy()?,
            next_hop: self.next_hop,
            med: self.med,
            atomic: self.atomic,
            aggregator: self.aggregator,
            communities: self.communities.copy()?,
            communities_partial: self.communities_partial,
            unknown: self.unknown.copy()?,
        })
    }
}

impl TryCopy for Update {
    fn copy(&self) -> Result<Update, Memory> {
        let withdrawn = self.withdrawn.copy()?;
        let announced = self.announced.copy()?;
        let attrs = match &self.attrs {
            Some(attrs) => Some(attrs.copy()?),
            None => None,
        };
        Ok(Update {
            withdrawn,
            attrs,
            announced,
        })
    }
}

impl TryCopy for Part {
    fn copy(&self) -> Result<Part, Memory> {
        Ok(Part {
            sender: self.sender,
            best: self.best,
            offers: self.offers.copy()?,
        })
    }
}

impl TryCopy for Rule {
    fn copy(&self) -> Result<Rule, Memory> {
        Ok(Rule {
            cube: self.cube,
            actions: self.actions.copy()?,
        })
    }
}

impl<T: TryCopy + Drop> TryCopy for Items<T> {
    fn copy(&self) -> Result<Items<T>, Memory> {
        let mut twin = Vec::with_capacity(self.allocator(), self.len())?;
        for item in self.items() {
            twin.push(item.copy()?)?;
        }
        Ok(Items::from_vec(twin))
    }
}
