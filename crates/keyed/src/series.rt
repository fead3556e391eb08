// Rows in their order.
ghost use Rattle.std.specs.Prelude.{◌≡◌, ◌+◌, ◌<◌, ◌≤◌, ◌++◌, ◌∷◌, [], OnErr, OnOk};

use std::alloc::{AllocError, Global};
use std::marker::Model;

/// Rows in their order, with room for more, which is made before it is needed.
pub struct Series<T> {
    rows: Vec<T>,
}

impl<T: Drop> Drop for Series<T> {
    fn drop(self) {
        let Series { rows: _rows } = self;
    }
}

impl<T> Model for Series<T> {
    ghost use Rattle.keyed.specs.Series.{Series, series_of};

    ghost Value = { Series T };

    ghost view = { λ s. series_of s.rows };
}

impl<T: Drop> Series<T> {
    ghost use Rattle.std.specs.Fn.{CalledAt};
    ghost use Rattle.std.specs.List.Retain.{IsFiltered};

    /// No rows. It takes no memory.
    pub fn new(alloc: Global) -> Series<T>
        ensures { result.items ≡ [] }
    {
        Series {
            rows: Vec::new(alloc),
        }
    }

    pub fn as_slice(&self) -> &[T]
        ensures { result.now ≡ self.now.items }
    {
        self.rows.as_slice()
    }

    /// Makes room for `count` more rows. Want of memory is the only error.
    pub fn reserve(&mut self, count: usize) -> Result<(), AllocError>
        ensures items { self.new.items ≡ self.old.items }
        ensures ok { OnOk result (count ≤ self.new.room) }
        ensures kept { self.old.room ≤ self.new.room }
        ensures err { OnErr result (self.new.room ≡ self.old.room) }
    {
        self.rows.reserve(count)
    }

    /// Puts a row at the end. It takes no memory.
    pub fn push(&mut self, row: T)
        requires { 0 < self.old.room }
        ensures items { self.new.items ≡ self.old.items ++ row ∷ [] }
        ensures room { self.old.room ≤ self.new.room + 1 }
    {
        self.rows.push_reserved(row);
    }

    /// Keeps the rows for which the closure returns true, in their order, and drops the others. It takes no memory.
    pub fn retain<F: FnMut(&T) -> bool>(&mut self, keeps: F)
        requires { F.IsAlwaysCallable keeps }
        ensures items { IsFiltered (CalledAt F.FnMut) keeps self.old.items self.new.items }
        ensures room { self.old.room ≤ self.new.room }
    {
        self.rows.retain(keeps);
    }
}
