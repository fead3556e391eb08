// Tables by name.
ghost use Rattle.std.specs.Prelude.{◌≡◌, IsTrue, T, OnOk, OnErr, is_some, option_copied};
ghost use Rattle.std.specs.FinMap.{empty, entries, from_sorted, get, insert, len, remove};
ghost use Rattle.std.specs.FinMap.Entries.{is_sorted};
ghost use Rattle.keyed.specs.Table.{rows, row_at, has_slot, with_slot, emptied, without_vacant};
ghost use Rattle.keyed.specs.Over.{HasRoomFor, over};
ghost use Rattle.ns_types.specs.State.Names.{Name, name_cmp};

use crate::slots::Slots;
use ns_types::text::Text;
use std::alloc::{AllocError, Global};
use std::marker::Model;

/// A slot of a table by name: the name with its row, or with none if the slot is vacant.
pub type NameSlot<V> = (Text, Option<V>);

/// A table by name: slots that have a row, or are vacant. A look-up among few compares each name, and among many it hashes the
/// name; without an index, for which there may be no memory, it is a binary search.
pub struct NameTable<V> {
    slots: Slots<Text, V>,
}

impl<V: Drop> Drop for NameTable<V> {
    fn drop(self) {
        let NameTable { slots: _slots } = self;
    }
}

impl<V> Model for NameTable<V> {
    ghost use Rattle.std.specs.Prelude.{Option, T};
    ghost use Rattle.std.specs.Coded.{codes};
    ghost use Rattle.std.specs.FinMap.{FinMap, code, from_sorted};
    ghost use Rattle.std.specs.FinMap.Entries.{is_sorted};
    ghost use Rattle.ns_types.specs.State.Names.{name_cmp};

    ghost Value = { FinMap name_cmp (Option V) };

    ghost coded = { Prim.hlevel (codes, code, V.code) };

    ghost view = { λ t. from_sorted t.slots };

    ghost invariant = { λ t. T (is_sorted name_cmp t.slots) };
}

impl<V: Drop> NameTable<V> {
    ghost use Rattle.std.specs.Borrow.{sem};
    ghost use Rattle.std.specs.Option.{option_copied_mut};
    ghost use Rattle.keyed.specs.Lends.{lends_at_name};

    /// No slots. It takes no memory.
    pub fn new(alloc: Global) -> NameTable<V>
        ensures { result ≡ empty }
    {
        NameTable {
            slots: Slots::new(alloc),
        }
    }

    /// The slots with their keys, which rise.
    pub fn as_slice(&self) -> &[NameSlot<V>]
        ensures { result.now ≡ entries self.now }
    {
        self.slots.as_slice()
    }

    /// A table of slots whose keys rise. Many names get an index, if there is memory for it.
    pub fn from_slots(slots: Vec<NameSlot<V>>) -> NameTable<V>
        requires { T (is_sorted name_cmp slots.items) }
        ensures { result ≡ from_sorted slots.items }
    {
        NameTable {
            slots: Slots::from_slots(slots),
        }
    }

    /// The slots with their keys, which rise.
    pub fn into_slots(self) -> Vec<NameSlot<V>>
        ensures { result.items ≡ entries self }
    {
        let NameTable { slots } = self;
        slots.into_slots()
    }

    /// The number of rows.
    pub fn len(&self) -> usize
        ensures { result ≡ len (rows self.now) }
    {
        self.slots.len()
    }

    /// The row at `key`.
    pub fn get(&self, key: &Text) -> Option<&V>
        ensures { option_copied result ≡ row_at self.now key.now }
    {
        self.slots.get(key)
    }

    /// The slot of `key`, with its row or vacant.
    pub fn slot(&self, key: &Text) -> Option<&Option<V>>
        ensures { option_copied result ≡ get self.now key.now }
    {
        self.slots.slot(key)
    }

    /// The row at `key`, to be changed in place.
    pub fn get_mut(&mut self, key: &Text) -> Option<&mut V>
        ensures* writes_back { sem 𝓛 (lends_at_name V.row self.entry key.now result) }
        ensures value { option_copied_mut result ≡ row_at self.old key.now }
    {
        self.slots.get_mut(key)
    }

    /// Whether there is a slot for `key`, so that a row there takes no memory.
    pub fn has_slot(&self, key: &Text) -> bool
        ensures { result ≡ has_slot self.now key.now }
    {
        self.slots.has_slot(key)
    }

    /// Makes a slot for a row at `key`, unless there is one: only then is the key copied. Want of memory is the only error.
    pub fn reserve(&mut self, key: &Text) -> Result<(), AllocError>
        ensures ok { OnOk result (self.new ≡ with_slot self.old key.now) }
        ensures err { OnErr result (self.new ≡ self.old) }
    {
        if self.slots.has_slot(key) {
            return Ok(());
        }
        let copy = key.clone()?;
        self.slots.reserve(copy)?;
        Ok(())
    }

    /// Writes the row at `key`. It takes no memory.
    pub fn set(&mut self, key: &Text, row: V)
        requires { IsTrue (has_slot self.old key.now) }
        ensures { self.new ≡ insert self.old key.now (Some row) }
    {
        self.slots.set(key, row);
    }

    /// Takes the row at `key` out, to be changed and set again. Its slot stays, vacant.
    pub fn take(&mut self, key: &Text) -> Option<V>
        ensures row { result ≡ row_at self.old key.now }
        ensures slots { self.new ≡ emptied self.old key.now }
    {
        self.slots.take(key)
    }

    /// Takes the slot at `key` out, with its row.
    pub fn remove(&mut self, key: &Text)
        ensures { self.new ≡ remove self.old key.now }
    {
        self.slots.remove(key);
    }

    /// Takes the slot at `key` out, if it is vacant.
    pub fn clear_slot(&mut self, key: &Text)
        ensures { self.new ≡ without_vacant self.old key.now }
    {
        self.slots.clear_slot(key);
    }

    /// Takes all vacant slots out.
    pub fn clear_room(&mut self)
        ensures rows { rows self.new ≡ rows self.old }
        ensures slots { (key : Name) → has_slot self.new key ≡ is_some (row_at self.old key) }
    {
        self.slots.clear_room();
    }

    // ---- changes: a slot with a row is the row's new value, a vacant one takes the row away

    /// The row at `key` with those changes made.
    pub fn get_over<'a>(&'a self, changes: &'a NameTable<V>, key: &Text) -> Option<&'a V>
        ensures { option_copied result ≡ get (over (rows self.now) changes.now) key.now }
    {
        match changes.slot(key) {
            Some(slot) => slot.as_ref(),
            None => self.get(key),
        }
    }

    /// Makes room for each changed row. Want of memory is the only error.
    pub fn reserve_all(&mut self, changes: &NameTable<V>) -> Result<(), AllocError>
        ensures rows { rows self.new ≡ rows self.old }
        ensures room { OnOk result (HasRoomFor changes.now self.new) }
    {
        for slot in changes.as_slice() {
            self.reserve(&slot.0)?;
        }
        Ok(())
    }

    /// Writes the changed rows, and takes away those that are gone. It takes no memory.
    pub fn apply(&mut self, changes: NameTable<V>)
        requires { HasRoomFor changes self.old }
        ensures { rows self.new ≡ over (rows self.old) changes }
    {
        for (key, slot) in changes.into_slots() {
            match slot {
                Some(row) => self.set(&key, row),
                None => self.remove(&key),
            }
        }
    }
}
