//! The places of the entries, grouped by the quota or the pool that the entries wait for.

ghost use Rattle.std.specs.Prelude.{◌≡◌, ℕ, false, IsTrue, OnOk};
ghost use Rattle.std.specs.FinMap.{entries};
ghost use Rattle.keyed.specs.Levels.{Adds, Drops, Keeps};
ghost use Rattle.ns_blocked.specs.declared.entry.Waits.{Waits};
ghost use Rattle.ns_blocked.specs.Groups.{HasGroupRoom, group_of, has_waiting_room, holds_waiting};
ghost use Rattle.ns_blocked.specs.Groups.{places_of, same_waiting};

use crate::entry::{BlockedEvaluation, Waits};
use keyed::{KeySet, NumberSlot};
use ns_types::text::Text;
use std::alloc::{AllocError, Global};

/// The places of the entries that wait for a quota, and of those that wait for a pool: a set of keys each, the name of the
/// quota or pool with a place.
#[derive(Drop)]
pub(crate) struct Groups {
    quotas: KeySet,
    pools: KeySet,
}

/// The slots of the name's places, in their order.
fn places_of<'a>(keys: &'a KeySet, name: &Text) -> &'a [NumberSlot<()>]
    ensures { result.now ≡ entries (places_of keys.now name.now) }
{
    match keys.numbers_of(name) {
        Some(places) => places.as_slice(),
        None => &[],
    }
}

impl Groups {
    pub(crate) fn new(alloc: Global) -> Groups
        ensures { (waits : Waits) (place : ℕ) → holds_waiting result (waits, place) ≡ false }
    {
        Groups {
            quotas: KeySet::new(alloc),
            pools: KeySet::new(alloc),
        }
    }

    /// The slots of the places of those that wait for the quota, in their order.
    pub(crate) fn of_quota(&self, quota: &Text) -> &[NumberSlot<()>]
        ensures { result.now ≡ entries (group_of self.now (Waits.Quota quota.now)) }
    {
        places_of(&self.quotas, quota)
    }

    /// The slots of the places of those that wait for the pool, in their order.
    pub(crate) fn of_pool(&self, pool: &Text) -> &[NumberSlot<()>]
        ensures { result.now ≡ entries (group_of self.now (Waits.Pool pool.now)) }
    {
        places_of(&self.pools, pool)
    }

    /// Makes room for the place of an entry. Want of memory is the only error.
    fn reserve(&mut self, alloc: Global, waits: &Waits, place: u64) -> Result<(), AllocError>
        ensures same { Keeps holds_waiting has_waiting_room self.old self.new }
        ensures ok { OnOk result (IsTrue (has_waiting_room self.new (waits.now, place))) }
    {
        match waits {
            Waits::Quota(name) => self.quotas.reserve(alloc, name, place),
            Waits::Pool(name) => self.pools.reserve(alloc, name, place),
        }
    }

    /// Makes room for the entries' places, from `first` on. Want of memory is an error, and so is want of places.
    pub(crate) fn reserve_from(
        &mut self,
        alloc: Global,
        first: u64,
        entries: &[BlockedEvaluation],
    ) -> Result<(), AllocError>
        ensures same { Keeps holds_waiting has_waiting_room self.old self.new }
        ensures ok { OnOk result (HasGroupRoom first entries.now self.new) }
    {
        let mut place = first;
        for entry in entries {
            if place >= u64::MAX {
                return Err(AllocError);
            }
            self.reserve(alloc, &entry.waits, place)?;
            place += 1;
        }
        Ok(())
    }

    /// Puts the place of an entry in. It takes no memory.
    pub(crate) fn insert(&mut self, waits: &Waits, place: u64)
        requires { IsTrue (has_waiting_room self.old (waits.now, place)) }
        ensures { Adds holds_waiting has_waiting_room same_waiting (waits.now, place)
            self.old self.new }
    {
        match waits {
            Waits::Quota(name) => self.quotas.insert(name, place),
            Waits::Pool(name) => self.pools.insert(name, place),
        }
    }

    /// Takes the place of an entry out, with the room for it. It takes no memory.
    pub(crate) fn remove(&mut self, waits: &Waits, place: u64)
        ensures { Drops holds_waiting has_waiting_room same_waiting (waits.now, place)
            self.old self.new }
    {
        match waits {
            Waits::Quota(name) => self.quotas.remove(name, place),
            Waits::Pool(name) => self.pools.remove(name, place),
        }
    }

    /// Gives the room for the place of an entry back, unless the place is held.
    pub(crate) fn clear(&mut self, waits: &Waits, place: u64)
        ensures { (of : Waits) (n : ℕ) →
            holds_waiting self.new (of, n) ≡ holds_waiting self.old (of, n) }
    {
        match waits {
            Waits::Quota(name) => self.quotas.clear(name, place),
            Waits::Pool(name) => self.pools.clear(name, place),
        }
    }
}
