//! The list of blocked evaluations.

ghost use Rattle.std.specs.Prelude.{◌≡◌, ℕ, ◌≤◌, ◌++◌, ◌∷◌, [], cond, true};
ghost use Rattle.std.specs.Prelude.{List, None, OnOk, filter, map, not, option_copied, option_map};
ghost use Rattle.keyed.specs.Table.{row_list};
ghost use Rattle.ns_blocked.specs.Blocked.{CanAdd, are_new};
ghost use Rattle.ns_blocked.specs.Blocked.{entries_of, entry_at, keys_of, places_waiting};
ghost use Rattle.ns_blocked.specs.declared.entry.BlockedEvaluation.{BlockedEvaluation};
ghost use Rattle.ns_types.specs.State.Names.{has_key, same_key, same_number};

use crate::entry::{BlockedEvaluation, Waits};
use crate::groups::Groups;
use keyed::{NumberSlot, Queue};
use ns_types::key::EvalKey;
use ns_types::rows::Rows;
use ns_types::text::Text;
use std::alloc::{AllocError, Global};
use std::marker::Model;

mod release;

/// The blocked evaluations in the order in which they were blocked, with room that is made before it is needed. Each has a
/// place, a number that rises along the list. Those that wait for a quota or a pool are looked up.
pub struct BlockedList {
    alloc: Global,
    queue: Queue<BlockedEvaluation>,
    groups: Groups,
}

impl Drop for BlockedList {
    fn drop(self) {
        let BlockedList {
            alloc: _,
            queue: _queue,
            groups: _groups,
        } = self;
    }
}

impl Model for BlockedList {
    ghost use Rattle.std.specs.Coded.{codes};
    ghost use Rattle.ns_blocked.specs.Blocked.{BlockedList, IsGrouped};
    ghost use Rattle.ns_blocked.specs.contracts.groups.Groups as group_row;
    ghost use Rattle.ns_blocked.specs.contracts.entry.BlockedEvaluation as entry_row;
    ghost use Rattle.keyed.specs.contracts.queue.Queue as queue_row;

    ghost Value = { BlockedList };

    ghost coded = { Prim.hlevel (
      codes,
      group_row.the_row.coded,
      (queue_row.the_row entry_row.the_row (record { key_of = λ e. e.key })).coded,
    ) };

    ghost view = { λ b. record { queue = b.queue; groups = b.groups } };

    ghost invariant = { λ b. IsGrouped b.queue.placed.rows b.groups };
}

impl BlockedList {
    /// An empty list. It takes no memory.
    pub fn new(alloc: Global) -> BlockedList
        ensures { entries_of result ≡ [] }
    {
        BlockedList {
            alloc,
            queue: Queue::new(alloc),
            groups: Groups::new(alloc),
        }
    }

    /// Whether the key is in the list: a look-up.
    pub fn has(&self, namespace: &Text, number: u64) -> bool
        ensures { result ≡ has_key (keys_of self.now) (namespace.now, number) }
    {
        self.queue.place_of(namespace, number).is_some()
    }

    /// The entry at a place, if there is one: a look-up.
    pub fn at(&self, place: u64) -> Option<&BlockedEvaluation>
        ensures { option_copied result ≡ entry_at self.now place }
    {
        self.queue.row(place)
    }

    /// The slots of the places of the entries that wait for the quota, in the list's order: a look-up. A vacant slot has none.
    pub fn of_quota(&self, quota: &Text) -> &[NumberSlot<()>]
        ensures { map (λ s. s.0) (row_list result.now)
            ≡ places_waiting (Waits.Quota quota.now) self.now }
    {
        self.groups.of_quota(quota)
    }

    /// The slots of the places of the entries that wait for the pool, in the list's order: a look-up. A vacant slot has none.
    pub fn of_pool(&self, pool: &Text) -> &[NumberSlot<()>]
        ensures { map (λ s. s.0) (row_list result.now)
            ≡ places_waiting (Waits.Pool pool.now) self.now }
    {
        self.groups.of_pool(pool)
    }

    /// Makes room for those entries. Want of memory is an error, and so is want of places: there are 2^64, each used once.
    pub fn reserve(&mut self, entries: &[BlockedEvaluation]) -> Result<(), AllocError>
        ensures entries { entries_of self.new ≡ entries_of self.old }
        ensures ok { OnOk result (CanAdd entries.now self.new) }
    {
        let first = self.queue.next_place();
        self.groups.reserve_from(self.alloc, first, entries)?;
        self.queue.reserve(entries)
    }

    /// Puts one entry at the end. It takes no memory.
    pub fn block(&mut self, entry: BlockedEvaluation)
        requires { CanAdd (entry ∷ []) self.old }
        ensures entries { entries_of self.new ≡ entries_of self.old ++ entry ∷ [] }
        ensures room { (es : List BlockedEvaluation) →
            CanAdd (entry ∷ es) self.old → CanAdd es self.new }
    {
        let place = self.queue.next_place();
        self.groups.insert(&entry.waits, place);
        self.queue.push(entry);
    }

    /// Puts those entries at the end. It takes no memory.
    pub fn append(&mut self, entries: Rows<BlockedEvaluation>)
        requires { CanAdd entries self.old }
        ensures { entries_of self.new ≡ entries_of self.old ++ entries }
    {
        for entry in entries.into_vec() {
            self.block(entry);
        }
    }

    /// Puts those entries at the end, if none of them is in the list and none comes twice, and returns whether it did. If it
    /// returns false, some of them may be in the list. It takes no memory.
    pub fn append_new(&mut self, entries: Rows<BlockedEvaluation>) -> bool
        requires { CanAdd entries self.old }
        ensures new { result ≡ are_new (keys_of self.old) entries }
        ensures entries { result ≡ true → entries_of self.new ≡ entries_of self.old ++ entries }
    {
        for entry in entries.into_vec() {
            if self.has(entry.key.namespace(), entry.key.number()) {
                return false;
            }
            self.block(entry);
        }
        true
    }

    /// Takes the entry at this place out, if there is one, and returns its key. Room for others stays. It takes no memory, and
    /// looks at no other entry.
    fn take_at(&mut self, place: u64) -> Option<EvalKey>
        ensures key { result ≡ option_map (λ e. e.key) (entry_at self.old place) }
        ensures entry { (n : ℕ) → entry_at self.new n
            ≡ cond (same_number n place) None (entry_at self.old n) }
        ensures room { (es : List BlockedEvaluation) → CanAdd es self.old → CanAdd es self.new }
    {
        let Some(entry) = self.queue.take_at(place) else {
            return None;
        };
        self.groups.remove(&entry.waits, place);
        Some(entry.key)
    }

    /// Takes the entries with that key out. Room for others stays. It takes no memory, and looks at no other entry.
    pub fn untrack(&mut self, key: &EvalKey)
        ensures entries { entries_of self.new ≡
            filter (λ e. not (same_key e.key key.now)) (entries_of self.old) }
        ensures room { (es : List BlockedEvaluation) → CanAdd es self.old → CanAdd es self.new }
    {
        while let Some(place) = self.queue.place_of(key.namespace(), key.number()) {
            self.take_at(place);
        }
    }

    /// Takes the entries with those keys out; room for others stays. It takes no memory, and looks at no other entry.
    pub fn take_out(&mut self, keys: &[EvalKey])
        ensures entries { entries_of self.new ≡
            filter (λ e. not (has_key keys.now e.key)) (entries_of self.old) }
        ensures room { (es : List BlockedEvaluation) → CanAdd es self.old → CanAdd es self.new }
    {
        for key in keys {
            self.untrack(key);
        }
    }

    /// Gives the room for the entry at this place back.
    fn clear_at(&mut self, place: u64, entry: &BlockedEvaluation)
        requires { self.old.queue.next ≤ place }
        ensures entries { entries_of self.new ≡ entries_of self.old }
        ensures next { self.new.queue.next ≡ self.old.queue.next }
    {
        self.groups.clear(&entry.waits, place);
        self.queue.clear_at(place, entry);
    }

    /// Gives the room for those entries back. Entries that are in the list stay.
    pub fn clear_room(&mut self, entries: &[BlockedEvaluation])
        ensures { entries_of self.new ≡ entries_of self.old }
    {
        let mut place = self.queue.next_place();
        for entry in entries {
            self.clear_at(place, entry);
            if place < u64::MAX {
                place += 1;
            }
        }
    }
}
