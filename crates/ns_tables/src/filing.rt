//! Files the numbers of rows under names, which are those of their jobs.

ghost use Rattle.std.specs.Prelude.{◌≡◌, ◌&&◌, ◌||◌, IsTrue, not, OnOk, Option, option_copied};
ghost use Rattle.std.specs.FinMap.{entries};
ghost use Rattle.std.specs.List.{list_any};
ghost use Rattle.keyed.specs.Levels.{Keeps, has_key_room, holds_key};
ghost use Rattle.keyed.specs.Over.{over};
ghost use Rattle.keyed.specs.Table.{rows};
ghost use Rattle.ns_types.specs.State.Lists.{Each};
ghost use Rattle.ns_types.specs.State.Names.{ByNumber, Key, Name};
ghost use Rattle.ns_types.specs.declared.evaluation.Evaluation.{Evaluation};
ghost use Rattle.ns_tables.specs.Filing.{HasRoomAt, IsIndexOf, allocation_job, evaluation_job};
ghost use Rattle.ns_types.specs.State.Rows.{is_blocked, is_pending};
ghost use Rattle.ns_tables.specs.Filing.{is_filed, is_left, job_where, name_at, stands_under};

use keyed::{KeySet, NumberSlot, NumberTable};
use ns_types::allocation::Allocation;
use ns_types::evaluation::{Evaluation, Status};
use ns_types::text::{Text, same_text};
use std::alloc::{AllocError, Global};

/// A way to file the numbers of rows under names.
pub(crate) trait Filing {
    type Row: Drop;

    ghost name_of: { Self.Row → Option Name };

    /// The name under which the row's number is filed, if it is filed.
    fn name_of(row: &Self::Row) -> Option<&Text>
        ensures { option_copied result ≡ name_of row.now };
}

/// Files allocations by job.
pub(crate) struct AllocationJob;

impl Filing for AllocationJob {
    type Row = Allocation;

    ghost name_of = { allocation_job };

    fn name_of(row: &Allocation) -> Option<&Text> {
        Some(&row.job)
    }
}

/// Files evaluations by job.
pub(crate) struct EvaluationJob;

impl Filing for EvaluationJob {
    type Row = Evaluation;

    ghost name_of = { evaluation_job };

    fn name_of(row: &Evaluation) -> Option<&Text> {
        Some(&row.job)
    }
}

/// Files pending evaluations by job.
pub(crate) struct PendingJob;

impl Filing for PendingJob {
    type Row = Evaluation;

    ghost name_of = { job_where is_pending };

    fn name_of(row: &Evaluation) -> Option<&Text> {
        match row.status {
            Status::Pending => Some(&row.job),
            _ => None,
        }
    }
}

/// Files blocked evaluations by job.
pub(crate) struct BlockedJob;

impl Filing for BlockedJob {
    type Row = Evaluation;

    ghost name_of = { job_where is_blocked };

    fn name_of(row: &Evaluation) -> Option<&Text> {
        match row.status {
            Status::Blocked => Some(&row.job),
            _ => None,
        }
    }
}

/// The name under which the row is filed, if there is a row and it is filed.
fn name_at<F: Filing>(row: Option<&F::Row>) -> Option<&Text>
    ensures { option_copied result ≡ name_at F.name_of (option_copied row.entry) }
{
    match row {
        Some(row) => F::name_of(row),
        None => None,
    }
}

fn stands_under<F: Filing>(name: &Text, row: Option<&F::Row>) -> bool
    ensures { result ≡ stands_under F.name_of name.now (option_copied row.entry) }
{
    match name_at::<F>(row) {
        Some(own) => same_text(name, own),
        None => false,
    }
}

// ---- room

fn reserve<F: Filing>(
    numbers: &mut KeySet,
    alloc: Global,
    slot: &NumberSlot<F::Row>,
) -> Result<(), AllocError>
    ensures same { Keeps holds_key has_key_room numbers.old numbers.new }
    ensures ok { OnOk result (HasRoomAt F.name_of numbers.new slot.now) }
{
    match name_at::<F>(slot.1.as_ref()) {
        Some(name) => numbers.reserve(alloc, name, slot.0),
        None => Ok(()),
    }
}

/// Makes room for the number of each row under its name. Want of memory is the only error.
pub(crate) fn reserve_all<F: Filing>(
    numbers: &mut KeySet,
    alloc: Global,
    slots: &[NumberSlot<F::Row>],
) -> Result<(), AllocError>
    ensures same { Keeps holds_key has_key_room numbers.old numbers.new }
    ensures ok { OnOk result (Each (HasRoomAt F.name_of numbers.new) slots.now) }
{
    for slot in slots {
        reserve::<F>(numbers, alloc, slot)?;
    }
    Ok(())
}

/// Takes the room for the number of the slot's row away again, unless the number is filed there.
pub(crate) fn clear<F: Filing>(numbers: &mut KeySet, slot: &NumberSlot<F::Row>)
    ensures { (key : Key) → holds_key numbers.new key ≡ holds_key numbers.old key }
{
    if let Some(name) = name_at::<F>(slot.1.as_ref()) {
        numbers.clear(name, slot.0);
    }
}

// ---- changes

fn insert<F: Filing>(numbers: &mut KeySet, slot: &NumberSlot<F::Row>)
    requires { HasRoomAt F.name_of numbers.old slot.now }
    ensures held { (key : Key) → holds_key numbers.new key
        ≡ (is_filed F.name_of slot.now key || holds_key numbers.old key) }
    ensures room { (key : Key) → IsTrue (has_key_room numbers.old key)
        → IsTrue (has_key_room numbers.new key) }
{
    if let Some(name) = name_at::<F>(slot.1.as_ref()) {
        numbers.insert(name, slot.0);
    }
}

fn insert_all<F: Filing>(numbers: &mut KeySet, slots: &[NumberSlot<F::Row>])
    requires { Each (HasRoomAt F.name_of numbers.old) slots.now }
    ensures { (key : Key) → holds_key numbers.new key
        ≡ (list_any (λ slot. is_filed F.name_of slot key) slots.now || holds_key numbers.old key) }
{
    for slot in slots {
        insert::<F>(numbers, slot);
    }
}

/// Removes the number from the name of the row before, unless the slot's row has the same name.
fn leave<F: Filing>(numbers: &mut KeySet, before: &NumberTable<F::Row>, slot: &NumberSlot<F::Row>)
    ensures { (key : Key) → holds_key numbers.new key
        ≡ (not (is_left F.name_of before.now slot.now key) && holds_key numbers.old key) }
{
    if let Some(name) = name_at::<F>(before.get(slot.0)) {
        if !stands_under::<F>(name, slot.1.as_ref()) {
            numbers.remove(name, slot.0);
        }
    }
}

fn leave_all<F: Filing>(
    numbers: &mut KeySet,
    before: &NumberTable<F::Row>,
    slots: &[NumberSlot<F::Row>],
)
    ensures { (key : Key) → holds_key numbers.new key
        ≡ (not (list_any (λ slot. is_left F.name_of before.now slot key) slots.now)
        && holds_key numbers.old key) }
{
    for slot in slots {
        leave::<F>(numbers, before, slot);
    }
}

/// Files the number of each changed row under its name, and removes it from the name of the row before.
pub(crate) fn refile<F: Filing>(
    numbers: &mut KeySet,
    before: &NumberTable<F::Row>,
    changes: &NumberTable<F::Row>,
)
    requires room { Each (HasRoomAt F.name_of numbers.old) (entries changes.now) }
    requires before { IsIndexOf F.name_of numbers.old (rows before.now) }
    ensures { IsIndexOf F.name_of numbers.new (over (rows before.now) changes.now) }
{
    insert_all::<F>(numbers, changes.as_slice());
    leave_all::<F>(numbers, before, changes.as_slice());
}
