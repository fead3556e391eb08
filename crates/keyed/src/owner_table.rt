//! Tables of owners by name. Each knows whether the counter of one of its owners may be at its bound.

ghost use Rattle.std.specs.Prelude.{◌≡◌, Bool, IsTrue, OnErr, OnOk, false, option_copied};
ghost use Rattle.std.specs.List.{list_any};
ghost use Rattle.std.specs.FinMap.{empty, entries, insert, remove};
ghost use Rattle.keyed.specs.Owned.{NoneAtBound};
ghost use Rattle.keyed.specs.Table.{at_slot, emptied, has_slot, row_at, with_slot};

use crate::names::{NameSlot, NameTable};
use ns_types::text::Text;
use std::alloc::{AllocError, Global};
use std::marker::Model;

/// A row with a counter.
pub trait Bounded {
    /// Whether the counter can not rise any more.
    ghost at_bound: { Self → Bool };

    /// Whether the counter can not rise any more.
    fn is_at_bound(&self) -> bool
        ensures { result ≡ at_bound self.now };
}

/// A table by name of rows with a counter. It remembers whether it ever had a row whose counter is at its bound.
pub struct OwnerTable<V: Bounded> {
    table: NameTable<V>,
    /// Once true it stays true, even if the row goes: an owner whose counter is at its bound can do next to nothing any more.
    ever_at_bound: bool,
}

impl<V: Bounded + Drop> Drop for OwnerTable<V> {
    fn drop(self) {
        let OwnerTable {
            table: _table,
            ever_at_bound: _,
        } = self;
    }
}

impl<V: Bounded> Model for OwnerTable<V> {
    ghost use Rattle.std.specs.Prelude.{◌≡◌, Option, false};
    ghost use Rattle.std.specs.Coded.{codes};
    ghost use Rattle.std.specs.FinMap.{FinMap, code};
    ghost use Rattle.keyed.specs.Owned.{NoneAtBound};
    ghost use Rattle.ns_types.specs.State.Names.{name_cmp};

    ghost Value = { FinMap name_cmp (Option V) };

    ghost coded = { Prim.hlevel (codes, code, V.code) };

    ghost view = { λ t. t.table };

    ghost invariant = { λ t. t.ever_at_bound ≡ false → NoneAtBound V.at_bound t.table };
}

/// Whether the slot's row is at its bound.
fn is_slot_at_bound<V: Bounded>(slot: &NameSlot<V>) -> bool
    ensures { result ≡ at_slot (λ e. V.at_bound e.1) slot.now }
{
    match &slot.1 {
        Some(row) => row.is_at_bound(),
        None => false,
    }
}

fn any_at_bound<V: Bounded>(slots: &[NameSlot<V>]) -> bool
    ensures { result ≡ list_any (at_slot (λ e. V.at_bound e.1)) slots.now }
{
    slots.iter().any(|slot| is_slot_at_bound(slot))
}

impl<V: Bounded + Drop> OwnerTable<V> {
    ghost use Rattle.std.specs.Borrow.{sem};
    ghost use Rattle.std.specs.Option.{option_copied_mut};
    ghost use Rattle.keyed.specs.Lends.{lends_owner};

    /// No slots. It takes no memory.
    pub fn new(alloc: Global) -> OwnerTable<V>
        ensures { result ≡ empty }
    {
        OwnerTable {
            table: NameTable::new(alloc),
            ever_at_bound: false,
        }
    }

    /// A table of those slots. It looks at each row, and takes no memory.
    pub fn from_table(table: NameTable<V>) -> OwnerTable<V>
        ensures { result ≡ table }
    {
        let ever_at_bound = any_at_bound(table.as_slice());
        OwnerTable {
            table,
            ever_at_bound,
        }
    }

    /// The slots, for reading.
    pub fn as_table(&self) -> &NameTable<V>
        ensures { result.now ≡ self.now }
    {
        &self.table
    }

    /// The slots with their keys, which rise.
    pub fn as_slice(&self) -> &[NameSlot<V>]
        ensures { result.now ≡ entries self.now }
    {
        self.table.as_slice()
    }

    /// Whether a row may be at its bound: if it returns false, none is. It reads no row.
    pub fn may_be_at_bound(&self) -> bool
        ensures { result ≡ false → NoneAtBound V.at_bound self.now }
    {
        self.ever_at_bound
    }

    /// The row at `key`.
    pub fn get(&self, key: &Text) -> Option<&V>
        ensures { option_copied result ≡ row_at self.now key.now }
    {
        self.table.get(key)
    }

    /// The row at `key`, to be changed in place. From then on a row may be at its bound, until `note` is called.
    pub fn get_mut(&mut self, key: &Text) -> Option<&mut V>
        ensures* writes_back { sem 𝓛 (lends_owner V.row V.at_bound self.entry key.now result) }
        ensures value { option_copied_mut result ≡ row_at self.old key.now }
    {
        self.ever_at_bound = true;
        self.table.get_mut(key)
    }

    /// Notes whether a row may be at its bound, after a row was changed in place.
    pub fn note(&mut self, may_be_at_bound: bool)
        requires { may_be_at_bound ≡ false → NoneAtBound V.at_bound self.old }
        ensures { self.new ≡ self.old }
    {
        self.ever_at_bound = may_be_at_bound;
    }

    /// Makes a slot for a row at `key`, unless there is one: only then is the key copied. Want of memory is the only error.
    pub fn reserve(&mut self, key: &Text) -> Result<(), AllocError>
        ensures ok { OnOk result (self.new ≡ with_slot self.old key.now) }
        ensures err { OnErr result (self.new ≡ self.old) }
    {
        self.table.reserve(key)?;
        Ok(())
    }

    /// Writes the row at `key`. It takes no memory.
    pub fn set(&mut self, key: &Text, row: V)
        requires { IsTrue (has_slot self.old key.now) }
        ensures { self.new ≡ insert self.old key.now (Some row) }
    {
        self.ever_at_bound |= row.is_at_bound();
        self.table.set(key, row);
    }

    /// Takes the row at `key` out, to be changed and set again. Its slot stays, vacant.
    pub fn take(&mut self, key: &Text) -> Option<V>
        ensures row { result ≡ row_at self.old key.now }
        ensures slots { self.new ≡ emptied self.old key.now }
    {
        self.table.take(key)
    }

    /// Takes the slot at `key` out, with its row.
    pub fn remove(&mut self, key: &Text)
        ensures { self.new ≡ remove self.old key.now }
    {
        self.table.remove(key);
    }
}
