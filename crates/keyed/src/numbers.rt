// Tables by number.
ghost use Rattle.std.specs.Prelude.{◌≡◌, ℕ, IsTrue, T, OnOk, OnErr, is_some, option_copied};
ghost use Rattle.std.specs.FinMap.{empty, entries, from_sorted, get, insert, len, remove};
ghost use Rattle.std.specs.FinMap.Entries.{is_sorted};
ghost use Rattle.std.specs.Ordering.{nat_cmp};
ghost use Rattle.keyed.specs.Table.{IsNextRow, added, rows, row_at, has_slot, with_slot, emptied, without_vacant};
ghost use Rattle.keyed.specs.Over.{HasRoomFor, over};
ghost use Rattle.keyed.specs.Slots.{Passed};

use crate::slots::Slots;
use std::alloc::{AllocError, Global};
use std::marker::Model;

/// A slot of a table by number: the number with its row, or with none if the slot is vacant.
pub type NumberSlot<V> = (u64, Option<V>);

/// A table by number: slots that have a row, or are vacant. A look-up is a binary search, which begins where the number would
/// be if the numbers rose by one.
pub struct NumberTable<V> {
    slots: Slots<u64, V>,
}

impl<V: Drop> Drop for NumberTable<V> {
    fn drop(self) {
        let NumberTable { slots: _slots } = self;
    }
}

impl<V> Model for NumberTable<V> {
    ghost use Rattle.std.specs.Prelude.{Option, T};
    ghost use Rattle.std.specs.Coded.{codes};
    ghost use Rattle.std.specs.FinMap.{FinMap, code, from_sorted};
    ghost use Rattle.std.specs.FinMap.Entries.{is_sorted};
    ghost use Rattle.std.specs.Ordering.{nat_cmp};

    ghost Value = { FinMap nat_cmp (Option V) };

    ghost coded = { Prim.hlevel (codes, code, V.code) };

    ghost view = { λ t. from_sorted t.slots };

    ghost invariant = { λ t. T (is_sorted nat_cmp t.slots) };
}

/// The number of the first row from `from` on, if the slots before `start` have smaller numbers.
fn row_from<V>(slots: &[NumberSlot<V>], start: usize, from: u64) -> Option<u64>
    requires sorted { T (is_sorted nat_cmp slots.now) }
    requires start { Passed nat_cmp from slots.now start }
    ensures { IsNextRow (from_sorted slots.now) from result }
{
    let mut place = start;
    while place < slots.len() {
        let slot = &slots[place];
        if slot.0 >= from && slot.1.is_some() {
            return Some(slot.0);
        }
        place += 1;
    }
    None
}

impl<V: Drop> NumberTable<V> {
    ghost use Rattle.std.specs.Borrow.{sem};
    ghost use Rattle.std.specs.Option.{option_copied_mut};
    ghost use Rattle.keyed.specs.Lends.{lends_at_number};

    /// No slots. It takes no memory.
    pub fn new(alloc: Global) -> NumberTable<V>
        ensures { result ≡ empty }
    {
        NumberTable {
            slots: Slots::new(alloc),
        }
    }

    /// The slots with their keys, which rise.
    pub fn as_slice(&self) -> &[NumberSlot<V>]
        ensures { result.now ≡ entries self.now }
    {
        self.slots.as_slice()
    }

    /// A table of slots whose keys rise. It needs no memory.
    pub fn from_slots(slots: Vec<NumberSlot<V>>) -> NumberTable<V>
        requires { T (is_sorted nat_cmp slots.items) }
        ensures { result ≡ from_sorted slots.items }
    {
        NumberTable {
            slots: Slots::from_slots(slots),
        }
    }

    /// The slots with their keys, which rise.
    pub fn into_slots(self) -> Vec<NumberSlot<V>>
        ensures { result.items ≡ entries self }
    {
        let NumberTable { slots } = self;
        slots.into_slots()
    }

    /// The number of rows.
    pub fn len(&self) -> usize
        ensures { result ≡ len (rows self.now) }
    {
        self.slots.len()
    }

    /// The row at `key`.
    pub fn get(&self, key: u64) -> Option<&V>
        ensures { option_copied result ≡ row_at self.now key }
    {
        self.slots.get(&key)
    }

    /// The number of the first row from `from` on. It looks up the place of `from`, and goes over vacant slots.
    pub fn next_row(&self, from: u64) -> Option<u64>
        ensures { IsNextRow self.now from result }
    {
        let start = self.slots.count_below(&from);
        row_from(self.slots.as_slice(), start, from)
    }

    /// The slot of `key`, with its row or vacant.
    pub fn slot(&self, key: u64) -> Option<&Option<V>>
        ensures { option_copied result ≡ get self.now key }
    {
        self.slots.slot(&key)
    }

    /// The row at `key`, to be changed in place.
    pub fn get_mut(&mut self, key: u64) -> Option<&mut V>
        ensures* writes_back { sem 𝓛 (lends_at_number V.row self.entry key result) }
        ensures value { option_copied_mut result ≡ row_at self.old key }
    {
        self.slots.get_mut(&key)
    }

    /// Whether there is a slot for `key`, so that a row there takes no memory.
    pub fn has_slot(&self, key: u64) -> bool
        ensures { result ≡ has_slot self.now key }
    {
        self.slots.has_slot(&key)
    }

    /// Makes a slot for a row at `key`, unless there is one. Want of memory is the only error.
    pub fn reserve(&mut self, key: u64) -> Result<(), AllocError>
        ensures ok { OnOk result (self.new ≡ with_slot self.old key) }
        ensures err { OnErr result (self.new ≡ self.old) }
    {
        self.slots.reserve(key)?;
        Ok(())
    }

    /// Writes the row at `key`. It takes no memory.
    pub fn set(&mut self, key: u64, row: V)
        requires { IsTrue (has_slot self.old key) }
        ensures { self.new ≡ insert self.old key (Some row) }
    {
        self.slots.set(&key, row);
    }

    /// Puts a row at `key`, unless there is one. Want of memory is the only error.
    pub fn add(&mut self, key: u64, row: V) -> Result<(), AllocError>
        ensures ok { OnOk result (self.new ≡ added self.old key row) }
        ensures err { OnErr result (self.new ≡ self.old) }
    {
        self.slots.add(key, row)?;
        Ok(())
    }

    /// Takes the row at `key` out, to be changed and set again. Its slot stays, vacant.
    pub fn take(&mut self, key: u64) -> Option<V>
        ensures row { result ≡ row_at self.old key }
        ensures slots { self.new ≡ emptied self.old key }
    {
        self.slots.take(&key)
    }

    /// Takes the slot at `key` out, with its row.
    pub fn remove(&mut self, key: u64)
        ensures { self.new ≡ remove self.old key }
    {
        self.slots.remove(&key);
    }

    /// Takes the slot at `key` out, if it is vacant.
    pub fn clear_slot(&mut self, key: u64)
        ensures { self.new ≡ without_vacant self.old key }
    {
        self.slots.clear_slot(&key);
    }

    /// Takes all vacant slots out.
    pub fn clear_room(&mut self)
        ensures rows { rows self.new ≡ rows self.old }
        ensures slots { (key : ℕ) → has_slot self.new key ≡ is_some (row_at self.old key) }
    {
        self.slots.clear_room();
    }

    // ---- changes: a slot with a row is the row's new value, a vacant one takes the row away

    /// The row at `key` with those changes made.
    pub fn get_over<'a>(&'a self, changes: &'a NumberTable<V>, key: u64) -> Option<&'a V>
        ensures { option_copied result ≡ get (over (rows self.now) changes.now) key }
    {
        match changes.slot(key) {
            Some(slot) => slot.as_ref(),
            None => self.get(key),
        }
    }

    /// Makes room for each changed row. Want of memory is the only error.
    pub fn reserve_all(&mut self, changes: &NumberTable<V>) -> Result<(), AllocError>
        ensures rows { rows self.new ≡ rows self.old }
        ensures room { OnOk result (HasRoomFor changes.now self.new) }
    {
        for slot in changes.as_slice() {
            self.reserve(slot.0)?;
        }
        Ok(())
    }

    /// Writes the changed rows, and takes away those that are gone. It takes no memory.
    pub fn apply(&mut self, changes: NumberTable<V>)
        requires { HasRoomFor changes self.old }
        ensures { rows self.new ≡ over (rows self.old) changes }
    {
        for (key, slot) in changes.into_slots() {
            match slot {
                Some(row) => self.set(key, row),
                None => self.remove(key),
            }
        }
    }
}
