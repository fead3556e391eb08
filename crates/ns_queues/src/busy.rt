//! The namespaces for which each worker is busy.

ghost use Rattle.std.specs.Prelude.{◌≡◌, ℕ, IsTrue, OnOk, false, find, is_some, option_copied, option_map, true};
ghost use Rattle.keyed.specs.Table.{row_at};
ghost use Rattle.ns_change.specs.Settled.{settled_world};
ghost use Rattle.ns_queues.specs.Busy.{HasBusyRoom, HasRoomIn, HoldsSame, IsBusyIndex, Keeps, Puts, PutsAll};
ghost use Rattle.ns_queues.specs.Busy.{has_room, holds};
ghost use Rattle.ns_types.specs.State.Names.{Name};
ghost use Rattle.ns_types.specs.State.Rows.{World};
ghost use Rattle.ns_types.specs.Working.Looks.{row_of};
ghost use Rattle.ns_tables.specs.World.{world_of};

use keyed::{NameSlot, NameTable, NumberSlot, NumberTable};
use ns_change::Settled;
use ns_tables::Tables;
use ns_types::text::Text;
use ns_types::worker::Worker;
use std::alloc::{AllocError, Global};

/// The namespaces for which each worker is busy, by the worker's number. A vacant slot is room.
#[derive(Drop)]
pub struct BusyWorkers {
    workers: NumberTable<NameTable<()>>,
}

impl BusyWorkers {
    /// No worker is busy. It takes no memory.
    pub(crate) fn new(alloc: Global) -> BusyWorkers
        ensures { (number : ℕ) (ns : Name) → holds result number ns ≡ false }
    {
        BusyWorkers {
            workers: NumberTable::new(alloc),
        }
    }

    /// Makes a table for the worker, unless it is there.
    fn open(&mut self, alloc: Global, number: u64) -> Result<(), AllocError>
        ensures same { Keeps self.old self.new }
        ensures ok { OnOk result (IsTrue (is_some (row_at self.new.workers number))) }
    {
        self.workers.reserve(number)?;
        if self.workers.get(number).is_none() {
            self.workers.set(number, NameTable::new(alloc));
        }
        Ok(())
    }

    /// Makes room for the namespace at the worker's number. Want of memory is the only error.
    fn reserve_name(
        &mut self,
        alloc: Global,
        number: u64,
        namespace: &Text,
    ) -> Result<(), AllocError>
        ensures same { Keeps self.old self.new }
        ensures ok { OnOk result (IsTrue (has_room self.new number namespace.now)) }
    {
        self.open(alloc, number)?;
        if let Some(names) = self.workers.get_mut(number) {
            names.reserve(namespace)?;
        }
        Ok(())
    }

    /// Makes the worker busy for the namespace. It takes no memory.
    fn insert(&mut self, number: u64, namespace: &Text)
        requires { IsTrue (has_room self.old number namespace.now) }
        ensures { Puts number namespace.now true self.old self.new }
    {
        if let Some(names) = self.workers.get_mut(number) {
            names.set(namespace, ());
        }
    }

    /// Makes the worker idle for the namespace, and drops the worker's table with its last name. It takes no memory.
    fn remove(&mut self, number: u64, namespace: &Text)
        ensures { Puts number namespace.now false self.old self.new }
    {
        let Some(names) = self.workers.get_mut(number) else {
            return;
        };
        names.remove(namespace);
        if names.as_slice().is_empty() {
            self.workers.remove(number);
        }
    }

    /// Makes the worker busy or idle for the namespace, as its changed row says. It takes no memory.
    fn put(&mut self, namespace: &Text, slot: &NumberSlot<Worker>)
        requires { IsTrue (is_some slot.now.1)
            → IsTrue (has_room self.old slot.now.0 namespace.now) }
        ensures { Puts slot.now.0 namespace.now (is_some slot.now.1) self.old self.new }
    {
        match &slot.1 {
            Some(_) => self.insert(slot.0, namespace),
            None => self.remove(slot.0, namespace),
        }
    }

    // ---- the changed rows of a namespace

    /// Makes room for each row that is put. Want of memory is the only error.
    fn reserve_all(
        &mut self,
        alloc: Global,
        namespace: &Text,
        changes: &NumberTable<Worker>,
    ) -> Result<(), AllocError>
        ensures same { Keeps self.old self.new }
        ensures ok { OnOk result (HasRoomIn namespace.now changes.now self.new) }
    {
        for slot in changes.as_slice() {
            if slot.1.is_some() {
                self.reserve_name(alloc, slot.0, namespace)?;
            }
        }
        Ok(())
    }

    /// Follows the changed rows of one namespace. It takes no memory.
    fn put_all(&mut self, namespace: &Text, changes: &NumberTable<Worker>)
        requires { HasRoomIn namespace.now changes.now self.old }
        ensures { PutsAll namespace.now changes.now self.old self.new }
    {
        for slot in changes.as_slice() {
            self.put(namespace, slot);
        }
    }

    // ---- all changed rows of a step

    /// Makes room for each worker's row that the step puts. Want of memory is the only error.
    pub(crate) fn reserve(&mut self, alloc: Global, settled: &Settled) -> Result<(), AllocError>
        ensures same { HoldsSame self.old self.new }
        ensures ok { OnOk result (HasBusyRoom settled.now self.new) }
    {
        for slot in settled.tenants.as_slice() {
            if let Some(change) = &slot.1 {
                self.reserve_all(alloc, &slot.0, &change.rows.workers)?;
            }
        }
        Ok(())
    }

    /// Follows the step, before the tables do. It takes no memory.
    pub(crate) fn follow(&mut self, tables: &Tables, settled: &Settled)
        requires { HasBusyRoom settled.now self.old }
        ensures { let w = world_of tables.now in IsBusyIndex w self.old →
            IsBusyIndex (settled_world w settled.now) self.new }
    {
        for slot in settled.tenants.as_slice() {
            if let Some(change) = &slot.1 {
                if tables.tenants.get(&slot.0).is_some() {
                    self.put_all(&slot.0, &change.rows.workers);
                }
            }
        }
    }

    /// The first namespace, in the order of their names, for which the worker is busy.
    pub(crate) fn namespace_of(&self, number: u64) -> Option<&Text>
        ensures { (w : World) → IsBusyIndex w self.now →
            option_copied result ≡ option_map (λ r. r.0) (row_of w number) }
    {
        match self.workers.get(number) {
            Some(names) => first_name(names.as_slice()),
            None => None,
        }
    }
}

/// The first name whose slot is not vacant.
fn first_name(slots: &[NameSlot<()>]) -> Option<&Text>
    ensures { option_copied result ≡ option_map (λ e. e.0) (find (λ e. is_some e.1) slots.now) }
{
    let slot = slots.iter().find(|slot| slot.1.is_some())?;
    Some(&slot.0)
}
