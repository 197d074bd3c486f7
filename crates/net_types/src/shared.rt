//! Attributes that several owners share.

ghost use Rattle.std.specs.Prelude.{◌≡◌, IfOk};

use crate::copy::TryCopy;
use crate::memory::Memory;
use crate::route::Attrs;
use std::alloc::Global;
use std::marker::Model;
use std::rc::Rc;

/// Attributes of a route on the heap, once for all that hold them. Contracts see the attributes.
#[derive(Drop)]
pub struct SharedAttrs {
    attrs: Rc<Attrs>,
}

impl Model for SharedAttrs {
    ghost use Rattle.std.specs.Coded.{codes};
    ghost use Rattle.net_types.specs.contracts.route.Attrs as route;
    ghost use Rattle.net_types.specs.declared.route.Attrs.{Attrs};

    ghost Value = { Attrs };

    ghost coded = { Prim.hlevel (codes, route.the_row.coded) };

    ghost view = { λ a. a.attrs.value };
}

impl SharedAttrs {
    /// These attributes. Memory is the only refusal.
    pub fn new(alloc: Global, attrs: Attrs) -> Result<SharedAttrs, Memory>
        ensures { IfOk result (λ shared. shared ≡ attrs) }
    {
        let attrs = Rc::new(alloc, attrs)?;
        Ok(SharedAttrs { attrs })
    }

    /// The attributes.
    pub fn get(&self) -> &Attrs
        ensures { result.now ≡ self.now }
    {
        self.attrs.as_ref()
    }
}

impl TryCopy for SharedAttrs {
    /// A further owner of the same attributes: they aren't copied.
    fn copy(&self) -> Result<SharedAttrs, Memory> {
        let attrs = self.attrs.clone()?;
        Ok(SharedAttrs { attrs })
    }
}
