//! Queues of rows, each at a place.

ghost use Rattle.std.specs.Prelude.{◌≡◌, ℕ, ◌+◌, ◌<◌, ◌≤◌, ◌^◌, ◌++◌, ◌∷◌, [], IsTrue, List, OnOk};
ghost use Rattle.std.specs.Prelude.{None, Some, cond, filter, is_some, length, not};
ghost use Rattle.std.specs.Prelude.{option_copied, slice_get};
ghost use Rattle.keyed.specs.Queue.{CanAddRows, HasRoomAt, IsPlaceOf, KeepsPlaces, KeepsRoom};
ghost use Rattle.keyed.specs.Queue.{LeavesOthers, has_row, rows_in, stands_in};
ghost use Rattle.keyed.specs.Table.{row_at};
ghost use Rattle.ns_types.specs.State.Lists.{is_empty};
ghost use Rattle.ns_types.specs.State.Names.{has_key, same_key, same_number};

use crate::numbers::{NumberSlot, NumberTable};
use crate::placed_rows::{Keyed, PlacedRows};
use ns_types::key::EvalKey;
use ns_types::rows::Rows;
use ns_types::text::Text;
use std::alloc::{AllocError, Global};
use std::marker::Model;

/// A queue of rows, with room for more, which is made before it is needed. Each row has a place, a number that rises along the
/// queue and is given once; several rows may have the same key. A look-up finds the places of a key.
pub struct Queue<R: Keyed> {
    alloc: Global,
    /// The place of the first row, or the next place if there is none.
    first: u64,
    /// The place that the next row gets.
    next: u64,
    placed: PlacedRows<R>,
}

/// A queue of keys. A key may be at several places.
pub type KeyQueue = Queue<EvalKey>;

impl<R: Keyed> Drop for Queue<R> {
    fn drop(self) {
        let Queue {
            alloc: _,
            first: _,
            next: _,
            placed: _placed,
        } = self;
    }
}

impl<R: Keyed> Model for Queue<R> {
    ghost use Rattle.keyed.specs.Queue.{IsPlaced, Queue, queue_code, queue_of};
    ghost use Rattle.keyed.specs.contracts.place_set.PlaceSet as set;
    ghost use Rattle.std.specs.Coded.{codes};
    ghost use Rattle.std.specs.FinMap.{code};

    ghost Value = { Queue R };

    ghost coded = { queue_code (Prim.hlevel (codes, code, R.code, set.the_row.coded)) };

    ghost view = { λ q. queue_of q.next q.placed };

    ghost invariant = { λ q. IsPlaced R.key_of q.first q.next q.placed };
}

impl<R: Keyed> Queue<R> {
    /// No rows. It takes no memory.
    pub fn new(alloc: Global) -> Queue<R>
        ensures { result.items ≡ [] }
    {
        Queue {
            alloc,
            first: 0,
            next: 0,
            placed: PlacedRows::new(alloc),
        }
    }

    /// The places in their order, each with its row. A vacant slot has none.
    pub fn slots(&self) -> &[NumberSlot<R>]
        ensures { rows_in result.now ≡ self.now.items }
    {
        self.placed.rows.as_slice()
    }

    /// How many rows there are. It reads no row.
    pub fn len(&self) -> usize
        ensures { result ≡ length self.now.items }
    {
        self.placed.rows.len()
    }

    /// Whether there is no row.
    pub fn is_empty(&self) -> bool
        ensures { result ≡ is_empty self.now.items }
    {
        self.len() == 0
    }

    /// The first row, by a look-up.
    pub fn first(&self) -> Option<&R>
        ensures { option_copied result ≡ slice_get self.now.items 0 }
    {
        self.placed.rows.get(self.first)
    }

    /// The place that the next row gets.
    pub fn next_place(&self) -> u64
        ensures next { result ≡ self.now.next }
        ensures behind { (n : ℕ) → self.now.next ≤ n → row_at self.now.placed.rows n ≡ None }
    {
        self.next
    }

    /// The row at this place, by a look-up.
    pub fn row(&self, place: u64) -> Option<&R>
        ensures { option_copied result ≡ row_at self.now.placed.rows place }
    {
        self.placed.rows.get(place)
    }

    /// The first place of the key, by a look-up. None if no row has it.
    pub fn place_of(&self, namespace: &Text, number: u64) -> Option<u64>
        ensures { IsPlaceOf R.key_of (namespace.now, number) self.now result }
    {
        self.placed.places.first_of(namespace, number)
    }

    /// Whether a row has the key, by a look-up.
    pub fn has(&self, namespace: &Text, number: u64) -> bool
        ensures { result ≡ has_row R.key_of self.now.items (namespace.now, number) }
    {
        self.place_of(namespace, number).is_some()
    }

    /// The numbers of the namespace's keys, which rise, each with its places, by a look-up.
    pub fn numbers_of(&self, namespace: &Text) -> &[NumberSlot<NumberTable<()>>]
        ensures { (n : ℕ) → IsTrue (has_row R.key_of self.now.items (namespace.now, n))
            → IsTrue (stands_in n result.now) }
    {
        self.placed.places.numbers_of(namespace)
    }

    /// Takes vacant slots away, if they are more than the rows.
    fn compact(&mut self)
        ensures items { self.new.items ≡ self.old.items }
        ensures places { KeepsPlaces self.old self.new }
    {
        self.placed.compact();
    }

    /// Makes room for the row at this place. Want of memory is the only error.
    fn reserve_at(&mut self, place: u64, row: &R) -> Result<(), AllocError>
        ensures items { self.new.items ≡ self.old.items }
        ensures places { KeepsPlaces self.old self.new }
        ensures room { KeepsRoom self.old.placed self.new.placed }
        ensures ok { OnOk result (HasRoomAt R.key_of place row.now self.new.placed) }
    {
        self.placed.reserve(self.alloc, place, row)
    }

    /// Makes room for these rows. The only errors are want of memory and want of places: there are 2^64, and each is given
    /// once. If vacant slots are more than the rows, it takes them away first. Only then does it go through the rows, once for
    /// at least as many rows that were taken out.
    pub fn reserve(&mut self, rows: &[R]) -> Result<(), AllocError>
        ensures items { self.new.items ≡ self.old.items }
        ensures places { KeepsPlaces self.old self.new }
        ensures ok { OnOk result (CanAddRows R.key_of rows.now self.new) }
    {
        self.compact();
        let mut place = self.next;
        for row in rows {
            if place >= u64::MAX {
                return Err(AllocError);
            }
            self.reserve_at(place, row)?;
            place += 1;
        }
        Ok(())
    }

    /// Puts a row at the end, at the next place. It takes no memory.
    pub fn push(&mut self, row: R)
        requires places { self.old.next + 1 < 2 ^ 64 }
        requires room { HasRoomAt R.key_of self.old.next row self.old.placed }
        ensures items { self.new.items ≡ self.old.items ++ row ∷ [] }
        ensures rows { (n : ℕ) → row_at self.new.placed.rows n
            ≡ cond (same_number n self.old.next) (Some row) (row_at self.old.placed.rows n) }
        ensures next { self.new.next ≡ self.old.next + 1 }
        ensures room { (more : List R) → CanAddRows R.key_of (row ∷ more) self.old
            → CanAddRows R.key_of more self.new }
    {
        self.placed.put(self.next, row);
        self.next += 1;
    }

    /// Puts these rows at the end. It takes no memory, and reads no other row.
    pub fn append(&mut self, rows: Rows<R>)
        requires { CanAddRows R.key_of rows self.old }
        ensures { self.new.items ≡ self.old.items ++ rows }
    {
        for row in rows.into_vec() {
            self.push(row);
        }
    }

    /// Takes the row out of this place. If it was the first, it goes on to the next row, over each vacant slot once.
    pub fn take_at(&mut self, place: u64) -> Option<R>
        ensures row { result ≡ row_at self.old.placed.rows place }
        ensures rows { (n : ℕ) → row_at self.new.placed.rows n
            ≡ cond (same_number n place) None (row_at self.old.placed.rows n) }
        ensures next { self.new.next ≡ self.old.next }
        ensures items { LeavesOthers result self.old.items self.new.items }
        ensures fewer { IsTrue (is_some result)
            → length self.new.items < length self.old.items }
        ensures before { IsTrue (is_some result) → place < self.old.next }
        ensures room { (more : List R) → CanAddRows R.key_of more self.old
            → CanAddRows R.key_of more self.new }
    {
        let taken = self.placed.take(place);
        if place == self.first {
            self.first = self.placed.rows.next_row(place).unwrap_or(self.next);
        }
        taken
    }

    /// Takes each row out that has the key.
    fn take_key(&mut self, key: &EvalKey)
        ensures items { self.new.items
            ≡ filter (λ row. not (same_key (R.key_of row) key.now)) self.old.items }
        ensures room { (more : List R) → CanAddRows R.key_of more self.old
            → CanAddRows R.key_of more self.new }
    {
        while let Some(place) = self.place_of(key.namespace(), key.number()) {
            self.take_at(place);
        }
    }

    /// Takes the rows with these keys out; room for others stays. It takes no memory, and reads no other row: the slot of each
    /// row that goes stays, vacant, and its place is removed from those of its key.
    pub fn take_out(&mut self, keys: &[EvalKey])
        ensures items { self.new.items
            ≡ filter (λ row. not (has_key keys.now (R.key_of row))) self.old.items }
        ensures room { (more : List R) → CanAddRows R.key_of more self.old
            → CanAddRows R.key_of more self.new }
    {
        for key in keys {
            self.take_key(key);
        }
    }

    /// Takes the room for the row at this place away again.
    pub fn clear_at(&mut self, place: u64, row: &R)
        requires { self.old.next ≤ place }
        ensures items { self.new.items ≡ self.old.items }
        ensures places { KeepsPlaces self.old self.new }
    {
        self.placed.clear(place, row);
    }

    /// Takes away again the room that `reserve` made for these rows. It reads no other row.
    pub fn clear_room(&mut self, rows: &[R])
        ensures { self.new.items ≡ self.old.items }
    {
        let mut place = self.next;
        for row in rows {
            self.clear_at(place, row);
            if place < u64::MAX {
                place += 1;
            }
        }
    }
}
