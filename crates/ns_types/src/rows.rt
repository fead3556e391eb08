//! Rows in their order, which contracts see as a list.

ghost use Rattle.std.specs.Prelude.{◌≡◌, ◌++◌, ◌∷◌, [], IfOk, OnOk, OnErr};

use std::alloc::{AllocError, Global};
use std::marker::Model;

pub struct Rows<T> {
    items: Vec<T>,
}

impl<T: Drop> Drop for Rows<T> {
    fn drop(self) {
        let Rows { items: _items } = self;
    }
}

impl<T> Model for Rows<T> {
    ghost use Rattle.std.specs.Prelude.{List};

    ghost Value = { List T };

    ghost view = { λ r. r.items.items };
}

impl<T> Rows<T> {
    /// No rows. It takes no memory.
    pub fn new(alloc: Global) -> Rows<T>
        ensures { result ≡ [] }
    {
        Rows {
            items: Vec::new(alloc),
        }
    }

    pub fn from_vec(items: Vec<T>) -> Rows<T>
        ensures { result ≡ items.items }
    {
        Rows { items }
    }

    pub fn into_vec(self) -> Vec<T>
        ensures { result.items ≡ self }
    {
        let Rows { items } = self;
        items
    }

    pub fn as_slice(&self) -> &[T]
        ensures { result.now ≡ self.now }
    {
        self.items.as_slice()
    }
}

impl<T: Copy> Rows<T> {
    /// Copies of the rows. Want of memory is the only error.
    pub fn from_slice(alloc: Global, items: &[T]) -> Result<Rows<T>, AllocError>
        ensures { IfOk result (λ rows. rows ≡ items.now) }
    {
        let items = Vec::from_slice(alloc, items)?;
        Ok(Rows { items })
    }
}

impl<T: Drop> Rows<T> {
    /// Puts a row at the end. Want of memory is the only error.
    pub fn push(&mut self, row: T) -> Result<(), AllocError>
        ensures ok { OnOk result (self.new ≡ self.old ++ row ∷ []) }
        ensures err { OnErr result (self.new ≡ self.old) }
    {
        self.items.push(row)?;
        Ok(())
    }
}

impl<T: Clone> Clone for Rows<T> {
    ghost use Rattle.std.specs.List.{AllZip};

    ghost is_clone = { λ rows copy. AllZip T.is_clone rows copy };

    fn clone(&self) -> Result<Rows<T>, AllocError> {
        let items = self.items.clone()?;
        Ok(Rows { items })
    }
}
