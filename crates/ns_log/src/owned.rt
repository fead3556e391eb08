//! Values that are owned alone, or together with others.

ghost use Rattle.std.specs.Prelude.{◌≡◌, IfOk};

use ns_types::shared::Shared;
use std::alloc::{AllocError, Global};
use std::marker::Model;

/// The owners of a value.
#[derive(Drop)]
enum Owner<T> {
    Alone(Box<T>),
    Together(Shared<T>),
}

/// A value in memory of its own. It has one owner, or several, of which none changes it. Contracts see the value.
pub struct Owned<T> {
    owner: Owner<T>,
}

impl<T: Drop> Drop for Owned<T> {
    fn drop(self) {
        let Owned { owner: _owner } = self;
    }
}

impl<T> Model for Owned<T> {
    ghost use Rattle.ns_log.specs.Owned.{value_of};

    ghost Value = { T };

    ghost view = { λ o. value_of o.owner };
}

impl<T: Drop> Owned<T> {
    /// The value in a new box, with one owner. Want of memory is the only error.
    pub fn boxed(alloc: Global, value: T) -> Result<Owned<T>, AllocError>
        ensures { IfOk result (λ owned. owned ≡ value) }
    {
        let place = Box::new(alloc, value)?;
        Ok(Owned::alone(place))
    }

    pub fn alone(value: Box<T>) -> Owned<T>
        ensures { result ≡ value.value }
    {
        Owned {
            owner: Owner::Alone(value),
        }
    }

    pub fn together(value: Shared<T>) -> Owned<T>
        ensures { result ≡ value }
    {
        Owned {
            owner: Owner::Together(value),
        }
    }

    pub fn get(&self) -> &T
        ensures { result.now ≡ self.now }
    {
        match &self.owner {
            Owner::Alone(value) => value,
            Owner::Together(value) => value.get(),
        }
    }
}
