// Slots in the order of their keys, in a plain `Vec`, with an index of many names.
ghost use Rattle.std.specs.Prelude.{◌≡◌, ◌<◌, ◌≤◌, [], IfSome, IsTrue, T, OnOk, OnErr, length, option_copied};
ghost use Rattle.std.specs.FinMap.Entries.{find, put, is_sorted};
ghost use Rattle.std.specs.List.{position, remove};
ghost use Rattle.keyed.specs.Slots.{Found, Knows, Passed, Placed, added, has_slot, with_slot, row, without, without_vacant, emptied, filled};
ghost use Rattle.keyed.specs.Table.{row_list};

use crate::index::{IndexKey, KeyIndex};
use ns_types::text::Text;
use std::alloc::{AllocError, Global};
use std::cmp::Ordering;
use std::hash::Hash;
use std::marker::Model;

/// With this many slots or more, an index of their keys is kept.
const MANY: usize = 16;

/// The slots of a table in the order of their keys, with the number of those that have a row, and an index if they are many.
#[derive(Drop)]
pub(crate) struct Slots<K: Ord + Hash, V> {
    slots: Vec<(K, Option<V>)>,
    filled: usize,
    index: KeyIndex<K>,
}

impl<K: Ord + Hash, V> Model for Slots<K, V> {
    ghost use Rattle.std.specs.Prelude.{List, Option};
    ghost use Rattle.keyed.specs.Slots.{IsTable, Knows};

    ghost Value = { List (K × Option V) };

    ghost view = { λ a. a.slots.items };

    ghost invariant = { λ a. IsTable K.cmp a.slots.items a.filled × Knows a.index a.slots.items };
}

/// A key from which its place among others can be guessed.
pub(crate) trait SlotKey {
    /// The slot to compare first, of `count` slots whose keys rise from `least` on. Any will do; a good guess saves steps.
    fn guess(&self, least: &Self, count: usize) -> usize;

    /// With fewer slots than this, a look-up goes through them one after the other.
    fn few() -> usize;
}

/// Numbers that are given one after the other have neighbouring slots, and the next number belongs after the last.
impl SlotKey for u64 {
    fn guess(&self, least: &u64, count: usize) -> usize {
        let ahead = self.saturating_sub(*least);
        match usize::try_from(ahead) {
            Ok(place) => place.min(count.saturating_sub(1)),
            Err(_) => 0,
        }
    }

    fn few() -> usize {
        0
    }
}

/// It takes less to see whether two texts are equal than which of them comes first.
impl SlotKey for Text {
    fn guess(&self, _least: &Text, count: usize) -> usize {
        count / 2
    }

    fn few() -> usize {
        MANY
    }
}

/// No index is kept of numbers: their guess finds them.
impl IndexKey for u64 {
    fn index_copy(&self) -> Option<u64> {
        None
    }
}

impl IndexKey for Text {
    fn index_copy(&self) -> Option<Text> {
        self.clone().ok()
    }
}

fn guess_in<K: SlotKey, X>(slots: &[(K, X)], key: &K) -> usize {
    match slots.first() {
        Some(slot) => key.guess(&slot.0, slots.len()),
        None => 0,
    }
}

/// The guess, if it is at least `low` and below `high`, or else their middle.
fn between(low: usize, high: usize, guess: usize) -> usize
    requires { low < high }
    ensures least { low ≤ result }
    ensures most { result < high }
{
    if low <= guess && guess < high {
        guess
    } else {
        low + (high - low) / 2
    }
}

/// The place of the slot of `key`, found by a comparison with each key.
fn place_among<K: Eq, X>(slots: &[(K, X)], key: &K) -> Option<usize>
    ensures { result ≡ position (λ slot. K.eq key.now slot.0) slots.now }
{
    slots.iter().position(|slot| *key == slot.0)
}

/// The place of the slot of `key`, or, as the error, where it belongs: a binary search that begins at the key's guess.
fn place_in<K: Ord + SlotKey, X>(slots: &[(K, X)], key: &K) -> Result<usize, usize>
    requires { T (is_sorted K.cmp slots.now) }
    ensures { Placed K.cmp key.now slots.now result }
{
    let guess = guess_in(slots, key);
    let mut low = 0;
    let mut high = slots.len();
    while low < high {
        let middle = between(low, high, guess);
        match key.cmp(&slots[middle].0) {
            Ordering::Less => high = middle,
            Ordering::Equal => return Ok(middle),
            Ordering::Greater => low = middle + 1,
        }
    }
    Err(low)
}

/// How many slots have a row.
fn count_rows<K, V>(slots: &[(K, Option<V>)]) -> usize
    ensures { result ≡ length (row_list slots.now) }
{
    let mut count = 0;
    for slot in slots {
        if slot.1.is_some() {
            count += 1;
        }
    }
    count
}

/// An index of the keys of the slots, if they are many.
fn index_of<K: Eq + Hash + IndexKey + Drop, V>(slots: &Vec<(K, Option<V>)>) -> KeyIndex<K>
    ensures { Knows result slots.now.items }
{
    if slots.len() < MANY {
        KeyIndex::new()
    } else {
        KeyIndex::of(*slots.allocator(), slots.as_slice())
    }
}

/// Adds the slot that was put at `place` to the index. Without an index, one is made if the number of slots is a power of two.
fn note_slot<K: Eq + Hash + IndexKey + Drop, V>(
    known: &mut KeyIndex<K>,
    slots: &Vec<(K, Option<V>)>,
    place: usize,
)
    requires place { place < length slots.now.items }
    requires known { Knows known.old (remove slots.now.items place) }
    ensures { Knows known.new slots.now.items }
{
    if known.is_known() {
        known.insert(place, &slots[place].0);
    } else if slots.len().is_power_of_two() {
        *known = index_of(slots);
    }
}

impl<K: Ord + Hash + SlotKey + IndexKey + Drop, V: Drop> Slots<K, V> {
    ghost use Rattle.std.specs.Borrow.{sem};
    ghost use Rattle.std.specs.Option.{option_copied_mut};
    ghost use Rattle.keyed.specs.Lends.{lends_at_key};

    pub(crate) fn new(alloc: Global) -> Slots<K, V>
        ensures { result ≡ [] }
    {
        Slots {
            slots: Vec::new(alloc),
            filled: 0,
            index: KeyIndex::new(),
        }
    }

    pub(crate) fn as_slice(&self) -> &[(K, Option<V>)]
        ensures { result.now ≡ self.now }
    {
        self.slots.as_slice()
    }

    /// A table of these slots, whose keys rise.
    pub(crate) fn from_slots(slots: Vec<(K, Option<V>)>) -> Slots<K, V>
        requires { T (is_sorted K.cmp slots.items) }
        ensures { result ≡ slots.items }
    {
        let filled = count_rows(slots.as_slice());
        let index = index_of(&slots);
        Slots {
            slots,
            filled,
            index,
        }
    }

    pub(crate) fn into_slots(self) -> Vec<(K, Option<V>)>
        ensures { result.items ≡ self }
    {
        let Slots { slots, .. } = self;
        slots
    }

    /// The number of rows.
    pub(crate) fn len(&self) -> usize
        ensures { result ≡ length (row_list self.now) }
    {
        self.filled
    }

    /// The place of the slot of `key`, if it has one, found without a binary search: the slots are few, or have an index. None
    /// if such a search is needed.
    fn known(&self, key: &K) -> Option<Option<usize>>
        ensures { IfSome result (λ found. Found K.cmp key.now self.now found) }
    {
        if self.slots.len() < K::few() {
            return Some(place_among(self.slots.as_slice(), key));
        }
        self.index.find(key)
    }

    /// The place of the slot of `key`, or, as the error, the place where it belongs.
    fn place(&self, key: &K) -> Result<usize, usize>
        ensures { Placed K.cmp key.now self.now result }
    {
        if let Some(Some(i)) = self.known(key) {
            return Ok(i);
        }
        place_in(self.slots.as_slice(), key)
    }

    /// The place of the slot of `key`.
    fn find(&self, key: &K) -> Option<usize>
        ensures { Found K.cmp key.now self.now result }
    {
        if let Some(found) = self.known(key) {
            return found;
        }
        match place_in(self.slots.as_slice(), key) {
            Ok(i) => Some(i),
            Err(_) => None,
        }
    }

    /// How many slots have smaller keys.
    pub(crate) fn count_below(&self, key: &K) -> usize
        ensures { Passed K.cmp key.now self.now result }
    {
        match self.place(key) {
            Ok(i) => i,
            Err(i) => i,
        }
    }

    pub(crate) fn has_slot(&self, key: &K) -> bool
        ensures { result ≡ has_slot K.cmp key.now self.now }
    {
        self.find(key).is_some()
    }

    pub(crate) fn get(&self, key: &K) -> Option<&V>
        ensures { option_copied result ≡ row K.cmp key.now self.now }
    {
        match self.find(key) {
            Some(i) => self.slots[i].1.as_ref(),
            None => None,
        }
    }

    /// The slot of `key`.
    pub(crate) fn slot(&self, key: &K) -> Option<&Option<V>>
        ensures { option_copied result ≡ find K.cmp key.now self.now }
    {
        match self.find(key) {
            Some(i) => Some(&self.slots[i].1),
            None => None,
        }
    }

    /// The row at `key`, to be changed in place.
    pub(crate) fn get_mut(&mut self, key: &K) -> Option<&mut V>
        ensures* writes_back { sem 𝓛
            (lends_at_key K.row V.row K.Ord K.hash_input self.entry key.now result) }
        ensures value { option_copied_mut result ≡ row K.cmp key.now self.old }
    {
        let Some(i) = self.find(key) else {
            return None;
        };
        if self.slots[i].1.is_none() {
            return None;
        }
        let slot = &mut self.slots[i];
        slot.1.as_mut()
    }

    /// Makes a slot for a row at `key`, unless there is one. Want of memory is the only error.
    pub(crate) fn reserve(&mut self, key: K) -> Result<(), AllocError>
        ensures ok { OnOk result (self.new ≡ with_slot K.cmp key self.old) }
        ensures err { OnErr result (self.new ≡ self.old) }
    {
        if let Err(i) = self.place(&key) {
            self.slots.insert(i, (key, None))?;
            note_slot(&mut self.index, &self.slots, i);
        }
        Ok(())
    }

    /// Writes the row at `key`. It takes no memory.
    pub(crate) fn set(&mut self, key: &K, row: V)
        requires { IsTrue (has_slot K.cmp key.now self.old) }
        ensures { self.new ≡ put K.cmp key.now (Some row) self.old }
    {
        if let Some(i) = self.find(key) {
            let earlier = self.slots[i].1.replace(row);
            if earlier.is_none() {
                self.filled += 1;
            }
        }
    }

    /// Puts a row at `key`, unless there is one. Want of memory is the only error.
    pub(crate) fn add(&mut self, key: K, row: V) -> Result<(), AllocError>
        ensures ok { OnOk result (self.new ≡ added K.cmp key row self.old) }
        ensures err { OnErr result (self.new ≡ self.old) }
    {
        if let Err(i) = self.place(&key) {
            self.slots.insert(i, (key, Some(row)))?;
            self.filled += 1;
            note_slot(&mut self.index, &self.slots, i);
            return Ok(());
        }
        if self.get(&key).is_none() {
            self.set(&key, row);
        }
        Ok(())
    }

    /// Takes the row at `key` out. Its slot stays, vacant.
    pub(crate) fn take(&mut self, key: &K) -> Option<V>
        ensures row { result ≡ row K.cmp key.now self.old }
        ensures slots { self.new ≡ emptied K.cmp key.now self.old }
    {
        let Some(i) = self.find(key) else {
            return None;
        };
        let row = self.slots[i].1.take();
        if row.is_some() {
            self.filled -= 1;
        }
        row
    }

    /// Takes the slot of `key` out, with its row.
    pub(crate) fn remove(&mut self, key: &K)
        ensures { self.new ≡ without K.cmp key.now self.old }
    {
        if let Some(i) = self.find(key) {
            let slot = self.slots.remove(i);
            self.index.remove(i);
            if slot.1.is_some() {
                self.filled -= 1;
            }
        }
    }

    /// Takes the slot of `key` out, if it is vacant.
    pub(crate) fn clear_slot(&mut self, key: &K)
        ensures { self.new ≡ without_vacant K.cmp key.now self.old }
    {
        if let Some(i) = self.find(key) {
            if self.slots[i].1.is_none() {
                drop(self.slots.remove(i));
                self.index.remove(i);
            }
        }
    }

    /// Takes the vacant slots out.
    pub(crate) fn clear_room(&mut self)
        ensures { self.new ≡ filled self.old }
    {
        self.slots.retain(|slot| slot.1.is_some());
        self.index = index_of(&self.slots);
    }
}
