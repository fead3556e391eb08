//! Sets of keys with places.

ghost use Rattle.std.specs.Prelude.{◌≡◌, ℕ, false, IsTrue, None, OnOk};
ghost use Rattle.std.specs.FinMap.{empty};
ghost use Rattle.keyed.specs.Levels.{Adds, Drops, Keeps};
ghost use Rattle.keyed.specs.Levels.{has_place_room, holds_place, same_place};
ghost use Rattle.keyed.specs.Queue.{IsHeldAt, stands_in};
ghost use Rattle.keyed.specs.Table.{row_at};

use crate::names::NameTable;
use crate::number_places::NumberPlaces;
use crate::numbers::{NumberSlot, NumberTable};
use ns_types::text::Text;
use std::alloc::{AllocError, Global};

/// A set of keys with places: by name, then by number, then by place.
#[derive(Drop)]
pub(crate) struct PlaceSet {
    names: NameTable<NumberPlaces>,
}

impl PlaceSet {
    /// No places. It takes no memory.
    pub(crate) fn new(alloc: Global) -> PlaceSet
        ensures { result.names ≡ empty }
    {
        PlaceSet {
            names: NameTable::new(alloc),
        }
    }

    /// The first place of the key, by a look-up. None if it has none.
    pub(crate) fn first_of(&self, name: &Text, number: u64) -> Option<u64>
        ensures { IsHeldAt self.now (name.now, number) result }
    {
        let numbers = self.names.get(name)?;
        let places = numbers.places_of(number)?;
        places.next_row(0)
    }

    /// The numbers of the name's keys, which rise, each with its places. A vacant slot has none.
    pub(crate) fn numbers_of(&self, name: &Text) -> &[NumberSlot<NumberTable<()>>]
        ensures { (n place : ℕ) → stands_in n result.now ≡ false
            → holds_place self.now (name.now, (n, place)) ≡ false }
    {
        match self.names.get(name) {
            Some(numbers) => numbers.as_slice(),
            None => &[],
        }
    }

    /// Makes a set for the name, which has none, with room for the place of the number. Want of memory is the only error.
    fn open(
        &mut self,
        alloc: Global,
        name: &Text,
        number: u64,
        place: u64,
    ) -> Result<(), AllocError>
        requires { row_at self.old.names name.now ≡ None }
        ensures same { Keeps holds_place has_place_room self.old self.new }
        ensures ok { OnOk result (
            IsTrue (has_place_room self.new (name.now, (number, place)))) }
    {
        let mut numbers = NumberPlaces::new(alloc);
        numbers.reserve(alloc, number, place)?;
        self.names.reserve(name)?;
        self.names.set(name, numbers);
        Ok(())
    }

    /// Makes room for the place of the key. Want of memory is the only error. A name that has keys is looked up once.
    pub(crate) fn reserve(
        &mut self,
        alloc: Global,
        name: &Text,
        number: u64,
        place: u64,
    ) -> Result<(), AllocError>
        ensures same { Keeps holds_place has_place_room self.old self.new }
        ensures ok { OnOk result (
            IsTrue (has_place_room self.new (name.now, (number, place)))) }
    {
        if let Some(numbers) = self.names.get_mut(name) {
            numbers.reserve(alloc, number, place)?;
            return Ok(());
        }
        self.open(alloc, name, number, place)
    }

    /// Adds the place of the key. It takes no memory.
    pub(crate) fn insert(&mut self, name: &Text, number: u64, place: u64)
        requires { IsTrue (has_place_room self.old (name.now, (number, place))) }
        ensures { Adds holds_place has_place_room same_place (name.now, (number, place))
            self.old self.new }
    {
        if let Some(numbers) = self.names.get_mut(name) {
            numbers.insert(number, place);
        }
    }

    /// Removes the place of the key, with the room for it. It takes no memory.
    pub(crate) fn remove(&mut self, name: &Text, number: u64, place: u64)
        ensures { Drops holds_place has_place_room same_place (name.now, (number, place))
            self.old self.new }
    {
        let Some(numbers) = self.names.get_mut(name) else {
            return;
        };
        numbers.remove(number, place);
        if numbers.is_empty() {
            self.names.remove(name);
        }
    }
}
