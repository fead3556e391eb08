//! Sets of keys.

ghost use Rattle.std.specs.Prelude.{◌≡◌, IsTrue, None, OnOk, option_copied};
ghost use Rattle.std.specs.FinMap.{empty, entries};
ghost use Rattle.keyed.specs.Levels.{Adds, Drops, Keeps, holds_key, has_key_room};
ghost use Rattle.keyed.specs.Table.{row_at};
ghost use Rattle.ns_types.specs.State.Names.{Key, same_key};

use crate::names::{NameSlot, NameTable};
use crate::numbers::NumberTable;
use ns_types::text::Text;
use std::alloc::{AllocError, Global};

/// A set of keys: by name, then by number.
pub struct KeySet {
    numbers: NameTable<NumberTable<()>>,
}

impl Drop for KeySet {
    fn drop(self) {
        let KeySet { numbers: _numbers } = self;
    }
}

impl KeySet {
    /// No keys. It takes no memory.
    pub fn new(alloc: Global) -> KeySet
        ensures { result.numbers ≡ empty }
    {
        KeySet {
            numbers: NameTable::new(alloc),
        }
    }

    /// The names in their order, each with the numbers of its keys, which rise. A vacant slot is no key.
    pub fn as_slice(&self) -> &[NameSlot<NumberTable<()>>]
        ensures { result.now ≡ entries self.now.numbers }
    {
        self.numbers.as_slice()
    }

    /// Whether it holds no key and has room for none.
    pub fn is_empty(&self) -> bool
        ensures { IsTrue result → self.now.numbers ≡ empty }
    {
        self.numbers.as_slice().is_empty()
    }

    /// The numbers of the name's keys, which rise. A vacant slot is no key.
    pub fn numbers_of(&self, name: &Text) -> Option<&NumberTable<()>>
        ensures { option_copied result ≡ row_at self.now.numbers name.now }
    {
        self.numbers.get(name)
    }

    /// Whether it holds the key.
    pub fn has(&self, name: &Text, number: u64) -> bool
        ensures { result ≡ holds_key self.now (name.now, number) }
    {
        match self.numbers.get(name) {
            Some(numbers) => numbers.get(number).is_some(),
            None => false,
        }
    }

    /// Makes a table for the name, which has none, with room for the number. Want of memory is the only error.
    fn open(&mut self, alloc: Global, name: &Text, number: u64) -> Result<(), AllocError>
        requires { row_at self.old.numbers name.now ≡ None }
        ensures same { Keeps holds_key has_key_room self.old self.new }
        ensures ok { OnOk result (IsTrue (has_key_room self.new (name.now, number))) }
    {
        let mut numbers = NumberTable::new(alloc);
        numbers.reserve(number)?;
        self.numbers.reserve(name)?;
        self.numbers.set(name, numbers);
        Ok(())
    }

    /// Makes room for the key. Want of memory is the only error. A name that has keys is looked up once.
    pub fn reserve(&mut self, alloc: Global, name: &Text, number: u64) -> Result<(), AllocError>
        ensures same { Keeps holds_key has_key_room self.old self.new }
        ensures ok { OnOk result (IsTrue (has_key_room self.new (name.now, number))) }
    {
        if let Some(numbers) = self.numbers.get_mut(name) {
            numbers.reserve(number)?;
            return Ok(());
        }
        self.open(alloc, name, number)
    }

    /// Adds the key. It takes no memory.
    pub fn insert(&mut self, name: &Text, number: u64)
        requires { IsTrue (has_key_room self.old (name.now, number)) }
        ensures { Adds holds_key has_key_room same_key (name.now, number) self.old self.new }
    {
        if let Some(numbers) = self.numbers.get_mut(name) {
            numbers.set(number, ());
        }
    }

    /// Removes the key, with the room for it. It takes no memory.
    pub fn remove(&mut self, name: &Text, number: u64)
        ensures { Drops holds_key has_key_room same_key (name.now, number) self.old self.new }
    {
        let Some(numbers) = self.numbers.get_mut(name) else {
            return;
        };
        numbers.remove(number);
        if numbers.as_slice().is_empty() {
            self.numbers.remove(name);
        }
    }

    /// Takes the room for the key away again, unless the set holds the key.
    pub fn clear(&mut self, name: &Text, number: u64)
        ensures held { (key : Key) → holds_key self.new key ≡ holds_key self.old key }
        ensures room { IsTrue (has_key_room self.new (name.now, number))
            → IsTrue (holds_key self.new (name.now, number)) }
    {
        if !self.has(name, number) {
            self.remove(name, number);
        }
    }
}
