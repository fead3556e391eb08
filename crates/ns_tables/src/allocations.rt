//! A namespace's allocations.

ghost use Rattle.std.specs.Prelude.{◌≡◌, OnOk, option_copied};
ghost use Rattle.std.specs.FinMap.{empty, entries};
ghost use Rattle.keyed.specs.Over.{over};
ghost use Rattle.keyed.specs.Table.{row_at, rows, without_vacant};
ghost use Rattle.ns_types.specs.State.Resources.{InEach, IsCounted, IsTotal, quantity};
ghost use Rattle.ns_tables.specs.Allocations.{HasAllocationRoom, IsMoved, IsTotalOf};
ghost use Rattle.ns_tables.specs.Allocations.{live_use, row_use, rows_use};
ghost use Rattle.ns_tables.specs.Filing.{AreNumbersUnder, allocation_job};

use crate::filing::{AllocationJob, clear, refile, reserve_all};
use keyed::{KeySet, NumberSlot, NumberTable};
use ns_types::allocation::Allocation;
use ns_types::resources::{Resources, moved, none};
use ns_types::text::Text;
use std::alloc::{AllocError, Global};
use std::marker::Model;

/// Allocations by number, with the numbers of each job's allocations, and with what the live ones take together, which follows
/// changes of rows.
pub struct AllocationTable {
    alloc: Global,
    slots: NumberTable<Allocation>,
    jobs: KeySet,
    /// What the live rows take together, each sum without what is past 64 bits.
    live: Resources,
}

impl Drop for AllocationTable {
    fn drop(self) {
        let AllocationTable {
            alloc: _,
            slots: _slots,
            jobs: _jobs,
            live: _,
        } = self;
    }
}

impl Model for AllocationTable {
    ghost use Rattle.keyed.specs.contracts.key_set.KeySet as set;
    ghost use Rattle.std.specs.FinMap.{code};
    ghost use Rattle.std.specs.Coded.{codes};
    ghost use Rattle.ns_tables.specs.Allocations.{AllocationTable, IsKept};

    ghost Value = { AllocationTable };

    ghost coded = { Prim.hlevel (codes, code, set.the_row.coded) };

    ghost view = { λ t. record { slots = t.slots; jobs = t.jobs } };

    ghost invariant = { λ t. IsKept t.jobs t.live t.slots };
}

/// What the row takes: nothing if there is none, or if it is not live.
fn row_use(row: Option<&Allocation>) -> Resources
    ensures { result ≡ row_use (option_copied row.entry) }
{
    match row {
        Some(row) if row.is_live() => row.size,
        _ => none(),
    }
}

/// The total after these rows are changed. It reads only them, and the rows that they replace.
fn total_after(
    total: Resources,
    slots: &NumberTable<Allocation>,
    changes: &[NumberSlot<Allocation>],
) -> Resources
    requires { IsCounted total }
    ensures counted { IsCounted result }
    ensures moved { InEach (λ r. IsMoved (quantity r) slots.now changes.now total result) }
{
    let mut sum = total;
    for slot in changes {
        let before = row_use(slots.get(slot.0));
        let after = row_use(slot.1.as_ref());
        sum = moved(sum, before, after);
    }
    sum
}

impl AllocationTable {
    /// No slots. It takes no memory.
    pub fn new(alloc: Global) -> AllocationTable
        ensures { result.slots ≡ empty }
    {
        AllocationTable {
            alloc,
            slots: NumberTable::new(alloc),
            jobs: KeySet::new(alloc),
            live: none(),
        }
    }

    /// The allocations by number.
    pub fn rows(&self) -> &NumberTable<Allocation>
        ensures { result.now ≡ self.now.slots }
    {
        &self.slots
    }

    /// The slots with their numbers, which rise.
    pub fn as_slice(&self) -> &[NumberSlot<Allocation>]
        ensures { result.now ≡ entries self.now.slots }
    {
        self.slots.as_slice()
    }

    /// The allocation of that number.
    pub fn get(&self, number: u64) -> Option<&Allocation>
        ensures { option_copied result ≡ row_at self.now.slots number }
    {
        self.slots.get(number)
    }

    /// The numbers of the job's allocations. They rise.
    pub fn numbers_of(&self, job: &Text) -> Option<&NumberTable<()>>
        ensures { AreNumbersUnder allocation_job job.now self.now.slots (option_copied result) }
    {
        self.jobs.numbers_of(job)
    }

    /// What the live allocations take together, which must fit 64 bits. It reads no allocation.
    pub fn live_use(&self) -> Resources
        requires { IsCounted (live_use self.now.slots) }
        ensures { result ≡ live_use self.now.slots }
    {
        self.live
    }

    /// What the live allocations take together, each sum without what is past 64 bits. It reads no allocation.
    pub fn live_total(&self) -> Resources
        ensures { IsTotalOf result self.now.slots }
    {
        self.live
    }

    /// What `live_total` is after these rows are changed. It reads only them, and the rows that they replace.
    pub fn total_with(&self, changes: &NumberTable<Allocation>) -> Resources
        ensures { IsTotal result (rows_use (over (rows self.now.slots) changes.now)) }
    {
        total_after(self.live, &self.slots, changes.as_slice())
    }

    /// Makes room for each changed row. Want of memory is the only error.
    pub fn reserve_all(&mut self, changes: &NumberTable<Allocation>) -> Result<(), AllocError>
        ensures rows { rows self.new.slots ≡ rows self.old.slots }
        ensures room { OnOk result (HasAllocationRoom changes.now self.new) }
    {
        self.slots.reserve_all(changes)?;
        reserve_all::<AllocationJob>(&mut self.jobs, self.alloc, changes.as_slice())
    }

    /// Writes the changed rows, and takes away those that are gone. It takes no memory.
    pub fn apply(&mut self, changes: NumberTable<Allocation>)
        requires { HasAllocationRoom changes self.old }
        ensures { rows self.new.slots ≡ over (rows self.old.slots) changes }
    {
        self.live = self.total_with(&changes);
        refile::<AllocationJob>(&mut self.jobs, &self.slots, &changes);
        self.slots.apply(changes);
    }

    /// Takes the slot of the changed row out, if it is vacant, with the room that was made for the row's number.
    pub fn clear_slot(&mut self, slot: &NumberSlot<Allocation>)
        ensures { self.new.slots ≡ without_vacant self.old.slots slot.now.0 }
    {
        self.slots.clear_slot(slot.0);
        clear::<AllocationJob>(&mut self.jobs, slot);
    }
}
