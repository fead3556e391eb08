//! Rows by their places.

ghost use Rattle.std.specs.Prelude.{◌≡◌, ℕ, OnOk};
ghost use Rattle.std.specs.FinMap.{empty};
ghost use Rattle.keyed.specs.Queue.{ClearsRoom, HasRoomAt, KeepsRows, PutsRow, TakesRow};
ghost use Rattle.keyed.specs.Table.{row_at};
ghost use Rattle.ns_types.specs.State.Names.{Key};

use crate::numbers::NumberTable;
use crate::place_set::PlaceSet;
use ns_types::key::EvalKey;
use std::alloc::{AllocError, Global};

/// A row of a queue. A look-up finds it by its key.
pub trait Keyed: Drop {
    /// The row's key.
    ghost key_of: { Self → Key };

    /// The row's key.
    fn key(&self) -> &EvalKey
        ensures { result.now ≡ key_of self.now };
}

/// A key is its own key.
impl Keyed for EvalKey {
    ghost key_of = { λ key. key };

    fn key(&self) -> &EvalKey {
        self
    }
}

/// The row at each place, and the places of each key.
#[derive(Drop)]
pub(crate) struct PlacedRows<R> {
    pub(crate) rows: NumberTable<R>,
    pub(crate) places: PlaceSet,
}

impl<R: Keyed> PlacedRows<R> {
    pub(crate) fn new(alloc: Global) -> PlacedRows<R>
        ensures rows { result.rows ≡ empty }
        ensures places { result.places.names ≡ empty }
    {
        PlacedRows {
            rows: NumberTable::new(alloc),
            places: PlaceSet::new(alloc),
        }
    }

    /// Makes room for the row at this place. Want of memory is the only error.
    pub(crate) fn reserve(&mut self, alloc: Global, place: u64, row: &R) -> Result<(), AllocError>
        ensures same { KeepsRows self.old self.new }
        ensures ok { OnOk result (HasRoomAt R.key_of place row.now self.new) }
    {
        self.rows.reserve(place)?;
        let key = row.key();
        self.places
            .reserve(alloc, key.namespace(), key.number(), place)?;
        Ok(())
    }

    /// Puts the row at this place. It takes no memory.
    pub(crate) fn put(&mut self, place: u64, row: R)
        requires { HasRoomAt R.key_of place row self.old }
        ensures { PutsRow R.key_of place row self.old self.new }
    {
        let key = row.key();
        self.places.insert(key.namespace(), key.number(), place);
        self.rows.set(place, row);
    }

    /// Takes the row out of this place. It takes no memory.
    pub(crate) fn take(&mut self, place: u64) -> Option<R>
        ensures row { result ≡ row_at self.old.rows place }
        ensures left { TakesRow R.key_of place result self.old self.new }
    {
        let row = self.rows.take(place)?;
        let key = row.key();
        self.places.remove(key.namespace(), key.number(), place);
        Some(row)
    }

    /// Takes the room for the row at this place away again.
    pub(crate) fn clear(&mut self, place: u64, row: &R)
        ensures { ClearsRoom R.key_of place row.now self.old self.new }
    {
        let key = row.key();
        self.places.remove(key.namespace(), key.number(), place);
        self.rows.clear_slot(place);
    }

    /// Takes the vacant slots away, if they are more than the rows.
    pub(crate) fn compact(&mut self)
        ensures rows { (n : ℕ) → row_at self.new.rows n ≡ row_at self.old.rows n }
        ensures places { self.new.places ≡ self.old.places }
    {
        if self.rows.len() < self.rows.as_slice().len() / 2 {
            self.rows.clear_room();
        }
    }
}
