//! Sets of numbers with places.

ghost use Rattle.std.specs.Prelude.{◌≡◌, IsTrue, None, OnOk, option_copied};
ghost use Rattle.std.specs.FinMap.{empty, entries};
ghost use Rattle.keyed.specs.Levels.{Adds, Drops, Keeps};
ghost use Rattle.keyed.specs.Levels.{has_numbered_room, holds_numbered, same_numbered};
ghost use Rattle.keyed.specs.Table.{row_at};

use crate::numbers::{NumberSlot, NumberTable};
use std::alloc::{AllocError, Global};

/// A set of numbers with places: by number, then by place.
#[derive(Drop)]
pub(crate) struct NumberPlaces {
    numbers: NumberTable<NumberTable<()>>,
}

impl NumberPlaces {
    /// No places. It takes no memory.
    pub(crate) fn new(alloc: Global) -> NumberPlaces
        ensures { result.numbers ≡ empty }
    {
        NumberPlaces {
            numbers: NumberTable::new(alloc),
        }
    }

    /// Whether it holds no place and has room for none.
    pub(crate) fn is_empty(&self) -> bool
        ensures { IsTrue result → self.now.numbers ≡ empty }
    {
        self.numbers.as_slice().is_empty()
    }

    /// The numbers in their order, each with its places. A vacant slot has none.
    pub(crate) fn as_slice(&self) -> &[NumberSlot<NumberTable<()>>]
        ensures { result.now ≡ entries self.now.numbers }
    {
        self.numbers.as_slice()
    }

    /// The places of the number. A vacant slot is no place.
    pub(crate) fn places_of(&self, number: u64) -> Option<&NumberTable<()>>
        ensures { option_copied result ≡ row_at self.now.numbers number }
    {
        self.numbers.get(number)
    }

    /// Makes a table for the number, which has none, with room for the place. Want of memory is the only error.
    fn open(&mut self, alloc: Global, number: u64, place: u64) -> Result<(), AllocError>
        requires { row_at self.old.numbers number ≡ None }
        ensures same { Keeps holds_numbered has_numbered_room self.old self.new }
        ensures ok { OnOk result (IsTrue (has_numbered_room self.new (number, place))) }
    {
        let mut places = NumberTable::new(alloc);
        places.reserve(place)?;
        self.numbers.reserve(number)?;
        self.numbers.set(number, places);
        Ok(())
    }

    /// Makes room for the place of the number. Want of memory is the only error. A number that has places is looked up once.
    pub(crate) fn reserve(
        &mut self,
        alloc: Global,
        number: u64,
        place: u64,
    ) -> Result<(), AllocError>
        ensures same { Keeps holds_numbered has_numbered_room self.old self.new }
        ensures ok { OnOk result (IsTrue (has_numbered_room self.new (number, place))) }
    {
        if let Some(places) = self.numbers.get_mut(number) {
            places.reserve(place)?;
            return Ok(());
        }
        self.open(alloc, number, place)
    }

    /// Adds the place of the number. It takes no memory.
    pub(crate) fn insert(&mut self, number: u64, place: u64)
        requires { IsTrue (has_numbered_room self.old (number, place)) }
        ensures { Adds holds_numbered has_numbered_room same_numbered (number, place)
            self.old self.new }
    {
        if let Some(places) = self.numbers.get_mut(number) {
            places.set(place, ());
        }
    }

    /// Removes the place of the number, with the room for it. It takes no memory.
    pub(crate) fn remove(&mut self, number: u64, place: u64)
        ensures { Drops holds_numbered has_numbered_room same_numbered (number, place)
            self.old self.new }
    {
        let Some(places) = self.numbers.get_mut(number) else {
            return;
        };
        places.remove(place);
        if places.as_slice().is_empty() {
            self.numbers.remove(number);
        }
    }
}
