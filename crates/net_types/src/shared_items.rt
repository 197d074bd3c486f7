//! Lists that several owners may share.

ghost use Rattle.std.specs.Prelude.{◌≡◌, [], ◌++◌, ◌∷◌, IfOk, OnOk, OnErr};

use crate::copy::TryCopy;
use crate::memory::Memory;
use std::alloc::Global;
use std::marker::Model;
use std::rc::Rc;

/// Items of one owner alone, or on the heap for all that hold them.
#[derive(Drop)]
enum Held<T> {
    Own(Vec<T>),
    Shared(Rc<Vec<T>>),
}

/// A list that further owners may hold, too. Contracts see its items.
#[derive(Drop)]
pub struct SharedItems<T> {
    held: Held<T>,
}

impl<T> Model for SharedItems<T> {
    ghost use Rattle.std.specs.Prelude.{List};
    ghost use Rattle.net_types.specs.SharedItems.{items_of};

    ghost Value = { List T };

    ghost view = { λ a. items_of a.held };
}

impl<T> SharedItems<T> {
    /// The empty list.
    pub fn new(alloc: Global) -> SharedItems<T>
        ensures { result ≡ [] }
    {
        SharedItems::from_vec(Vec::new(alloc))
    }

    /// The list of what is in a vector, with one owner.
    pub fn from_vec(items: Vec<T>) -> SharedItems<T>
        ensures { result ≡ items.items }
    {
        SharedItems {
            held: Held::Own(items),
        }
    }

    /// The items in their order.
    pub fn items(&self) -> &[T]
        ensures { result.now ≡ self.now }
    {
        match &self.held {
            Held::Own(items) => items.as_slice(),
            Held::Shared(items) => items.as_ref().as_slice(),
        }
    }
}

impl<T: Copy + Drop> SharedItems<T> {
    /// The same list, of which a copy is a further owner, without its items being copied.
    pub fn shared(self) -> Result<SharedItems<T>, Memory>
        ensures { IfOk result (λ shared. shared ≡ self) }
    {
        match self.held {
            Held::Own(items) => {
                let alloc = *items.allocator();
                let items = Rc::new(alloc, items)?;
                Ok(SharedItems {
                    held: Held::Shared(items),
                })
            }
            Held::Shared(items) => Ok(SharedItems {
                held: Held::Shared(items),
            }),
        }
    }

    /// The items, and one more, in a vector.
    pub fn with(&self, item: T) -> Result<Vec<T>, Memory>
        ensures { IfOk result (λ v. v.items ≡ self.now ++ item ∷ []) }
    {
        let (alloc, items) = match &self.held {
            Held::Own(items) => (*items.allocator(), items),
            Held::Shared(items) => (*items.as_ref().allocator(), items.as_ref()),
        };
        let mut more = Vec::from_slice(alloc, items.as_slice())?;
        more.push(item)?;
        Ok(more)
    }

    /// Puts an item last. Other owners of the list keep what they have. After want of memory the list is unchanged.
    pub fn push(&mut self, item: T) -> Result<(), Memory>
        ensures ok { OnOk result (self.new ≡ self.old ++ item ∷ []) }
        ensures err { OnErr result (self.new ≡ self.old) }
    {
        if let Held::Own(items) = &mut self.held {
            items.push(item)?;
            return Ok(());
        }
        let more = self.with(item)?;
        *self = SharedItems::from_vec(more);
        Ok(())
    }
}

impl<T: Copy + Drop> TryCopy for SharedItems<T> {
    /// A further owner of the items where they are shared; else they are copied.
    fn copy(&self) -> Result<SharedItems<T>, Memory> {
        match &self.held {
            Held::Own(items) => {
                let items = Vec::from_slice(*items.allocator(), items.as_slice())?;
                Ok(SharedItems::from_vec(items))
            }
            Held::Shared(items) => {
                let items = items.clone()?;
                Ok(SharedItems {
                    held: Held::Shared(items),
                })
            }
        }
    }
}
