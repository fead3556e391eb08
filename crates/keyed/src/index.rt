//! An index of many keys: the place of each.
ghost use Rattle.std.specs.Prelude.{◌≡◌, ◌++◌, ◌∷◌, [], None, IfSome, is_some};
ghost use Rattle.std.specs.Bool.{OnTrue};
ghost use Rattle.std.specs.List.{insert, position, remove};
ghost use Rattle.std.specs.Map.{keys_of};
ghost use Rattle.std.specs.Option.{option_map};
ghost use Rattle.keyed.specs.Slots.{Inserts, Knows};

use indexmap::IndexMap;
use std::alloc::Global;
use std::hash::Hash;
use std::marker::Model;

/// A key that can be in an index.
pub(crate) trait IndexKey {
    /// A copy for an index. None if no index is kept of such keys, or no memory is left.
    fn index_copy(&self) -> Option<Self>
    where
        Self: Sized,
        ensures { IfSome result (λ key. key ≡ self.now) };
}

/// The keys of slots in their order, hashed, so that each is found without a search. Or nothing is known: an index is kept as
/// far as there is memory for it.
#[derive(Drop)]
pub(crate) struct KeyIndex<K: Eq + Hash> {
    /// A map without values, since a library that names an `IndexSet` repeats the statements of both.
    keys: Option<Box<IndexMap<K, ()>>>,
}

impl<K: Eq + Hash> Model for KeyIndex<K> {
    ghost use Rattle.std.specs.Map.{keys_of};
    ghost use Rattle.std.specs.Prelude.{List, Option};
    ghost use Rattle.std.specs.Option.{option_map};

    ghost Value = { Option (List K) };

    ghost view = { λ index. option_map (λ keys. keys_of keys.value.entries) index.keys };
}

/// Adds a key that is not there yet, and returns whether it did.
fn add_key<K: Eq + Hash + Drop>(keys: &mut IndexMap<K, ()>, key: K) -> bool
    ensures { OnTrue result (keys.new.entries ≡ keys.old.entries ++ (key, tt) ∷ []) }
{
    let Ok(None) = keys.insert(key, ()) else {
        return false;
    };
    true
}

/// The keys of the slots. None if they can't be copied.
fn copied_keys<K: Eq + Hash + IndexKey + Drop, X>(
    alloc: Global,
    slots: &[(K, X)],
) -> Option<IndexMap<K, ()>>
    ensures { IfSome result (λ keys. keys_of keys.entries ≡ keys_of slots.now) }
{
    let mut keys = IndexMap::new(alloc);
    for slot in slots {
        let key = slot.0.index_copy()?;
        if !add_key(&mut keys, key) {
            return None;
        }
    }
    Some(keys)
}

/// Puts a copy of the key at a place, and returns whether it did.
fn put_key<K: Eq + Hash + IndexKey + Drop>(
    keys: &mut IndexMap<K, ()>,
    place: usize,
    key: &K,
) -> bool
    ensures { OnTrue result
        (keys_of keys.new.entries ≡ insert (keys_of keys.old.entries) place key.now) }
{
    let last = keys.len();
    if place > last {
        return false;
    }
    let Some(copy) = key.index_copy() else {
        return false;
    };
    if !add_key(keys, copy) {
        return false;
    }
    keys.move_index(last, place);
    true
}

/// Removes the key at a place.
fn remove_at<K: Eq + Hash + Drop>(keys: &mut IndexMap<K, ()>, place: usize)
    ensures { keys_of keys.new.entries ≡ remove (keys_of keys.old.entries) place }
{
    drop(keys.shift_remove_index(place));
}

/// The place of the key among these. It is a function of its own, so that a look-up without an index stays short.
#[inline(never)]
fn place_of<K: Eq + Hash>(keys: &IndexMap<K, ()>, key: &K) -> Option<usize>
    ensures { result ≡ position (K.eq key.now) (keys_of keys.now.entries) }
{
    keys.get_index_of(key)
}

impl<K: Eq + Hash + IndexKey + Drop> KeyIndex<K> {
    /// Nothing is known.
    pub(crate) fn new() -> KeyIndex<K>
        ensures { result ≡ None }
    {
        KeyIndex { keys: None }
    }

    /// An index of the keys of the slots, if there is memory for it.
    pub(crate) fn of<X>(alloc: Global, slots: &[(K, X)]) -> KeyIndex<K>
        ensures { Knows result slots.now }
    {
        let keys = match copied_keys(alloc, slots) {
            Some(keys) => Box::new(alloc, keys).ok(),
            None => None,
        };
        KeyIndex { keys }
    }

    /// Whether the keys are known.
    pub(crate) fn is_known(&self) -> bool
        ensures { result ≡ is_some self.now }
    {
        self.keys.is_some()
    }

    /// The place of the key, if it has one. None if nothing is known.
    pub(crate) fn find(&self, key: &K) -> Option<Option<usize>>
        ensures { result ≡ option_map (position (K.eq key.now)) self.now }
    {
        match &self.keys {
            Some(keys) => Some(place_of(keys, key)),
            None => None,
        }
    }

    /// Adds a key that was put at a place. If it can't be added, nothing is known any more.
    pub(crate) fn insert(&mut self, place: usize, key: &K)
        ensures { Inserts place key.now self.old self.new }
    {
        let known = match &mut self.keys {
            Some(keys) => put_key(keys, place, key),
            None => true,
        };
        if !known {
            self.keys = None;
        }
    }

    /// Removes the key at a place.
    pub(crate) fn remove(&mut self, place: usize)
        ensures { self.new ≡ option_map (λ keys. remove keys place) self.old }
    {
        if let Some(keys) = &mut self.keys {
            remove_at(keys, place);
        }
    }
}
