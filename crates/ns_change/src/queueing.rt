//! Whether a job has an evaluation that is ready or with a worker, and the evaluations that a step queues or wakes.

ghost use Rattle.std.specs.Prelude.{◌≡◌, ℕ, IsTrue, Some};
ghost use Rattle.keyed.specs.Table.{row_at};
ghost use Rattle.ns_types.specs.declared.evaluation.Evaluation.{Evaluation};
ghost use Rattle.std.specs.List.{list_any};
ghost use Rattle.ns_types.specs.State.Names.{has_key};
ghost use Rattle.ns_types.specs.Settling.Making.{make};
ghost use Rattle.ns_types.specs.Settling.Settle.{wake};
ghost use Rattle.ns_types.specs.Working.Queue.{is_busy, queue};
ghost use Rattle.ns_change.specs.Changed.{Does, HasEvaluationLeft, changed_list, view};
ghost use Rattle.ns_change.specs.Queued.{any_left, is_left, is_left_in, is_of, is_worked_on, works_on};

use crate::change::{Change, ListChange};
use crate::editing::set_status;
use crate::following::add_evaluation;
use crate::lists::{add_ready, take_out};
use crate::looking::evaluation;
use keyed::{KeyQueue, NumberSlot, NumberTable};
use ns_equality::{same_number, same_text};
use ns_tables::{Tables, TenantRows};
use ns_types::evaluation::{Evaluation, Status};
use ns_types::key::EvalKey;
use ns_types::text::Text;
use ns_types::worker::Worker;
use std::alloc::AllocError;

/// Whether that evaluation is of the job.
fn is_of_job(
    tables: &Tables,
    change: &Change,
    namespace: &Text,
    job: &Text,
    holder: &Text,
    number: u64,
) -> bool
    ensures { result ≡ is_of tables.now change.now namespace.now job.now (holder.now, number) }
{
    if !same_text(namespace, holder) {
        return false;
    }
    match evaluation(tables, change, holder, number) {
        Some(evaluation) => same_text(job, &evaluation.job),
        None => false,
    }
}

/// Whether the evaluation of that number is among the keys.
fn has_number(keys: &[EvalKey], namespace: &Text, number: u64) -> bool
    ensures { result ≡ has_key keys.now (namespace.now, number) }
{
    for key in keys {
        if same_text(namespace, key.namespace()) && same_number(number, key.number()) {
            return true;
        }
    }
    false
}

/// Whether the evaluation of that number is in the list before the step, is not taken out, and is of the job.
fn is_left(
    tables: &Tables,
    change: &Change,
    base: &KeyQueue,
    taken: &[EvalKey],
    namespace: &Text,
    job: &Text,
    number: u64,
) -> bool
    ensures { result ≡ is_left_in tables.now change.now base.now.items taken.now namespace.now
        job.now number }
{
    base.has(namespace, number)
        && !has_number(taken, namespace, number)
        && is_of_job(tables, change, namespace, job, namespace, number)
}

/// Whether one of these slots has the number of an evaluation that stays in the list and is of the job.
fn is_among_left<T>(
    tables: &Tables,
    change: &Change,
    base: &KeyQueue,
    taken: &[EvalKey],
    namespace: &Text,
    job: &Text,
    slots: &[NumberSlot<T>],
) -> bool
    ensures { result ≡ list_any (λ slot. is_left_in tables.now change.now base.now.items taken.now
        namespace.now job.now slot.0) slots.now }
{
    for slot in slots {
        if is_left(tables, change, base, taken, namespace, job, slot.0) {
            return true;
        }
    }
    false
}

/// Whether an evaluation that the namespace's table has for the job stays in the list. It goes through the job's evaluations,
/// or through those that the namespace has in the list if these are fewer.
fn any_stored_left(
    tables: &Tables,
    change: &Change,
    base: &KeyQueue,
    taken: &[EvalKey],
    namespace: &Text,
    job: &Text,
    tenant: &TenantRows,
) -> bool
    ensures sound { IsTrue result → IsTrue (
        any_left (is_of tables.now change.now namespace.now job.now) taken.now base.now.items) }
    ensures complete { (n : ℕ) (e : Evaluation) → row_at tenant.now.evaluations.slots n ≡ Some e
        → e.job ≡ job.now → IsTrue (is_left_in tables.now change.now base.now.items taken.now
        namespace.now job.now n) → IsTrue result }
{
    let Some(numbers) = tenant.evaluations.numbers_of(job) else {
        return false;
    };
    let slots = numbers.as_slice();
    let listed = base.numbers_of(namespace);
    if listed.len() < slots.len() {
        is_among_left(tables, change, base, taken, namespace, job, listed)
    } else {
        is_among_left(tables, change, base, taken, namespace, job, slots)
    }
}

/// Whether an evaluation of the job stays in the list. It looks up only the job's own evaluations and those that the step
/// changes.
fn any_left(
    tables: &Tables,
    change: &Change,
    base: &KeyQueue,
    taken: &[EvalKey],
    namespace: &Text,
    job: &Text,
) -> bool
    ensures { result
        ≡ any_left (is_of tables.now change.now namespace.now job.now) taken.now base.now.items }
{
    let Some(tenant) = tables.tenants.get(namespace) else {
        return false;
    };
    let among_stored = any_stored_left(tables, change, base, taken, namespace, job, tenant);
    let Some(changed) = change.tenants.get(namespace) else {
        return among_stored;
    };
    let slots = changed.evaluations.as_slice();
    among_stored || is_among_left(tables, change, base, taken, namespace, job, slots)
}

fn is_among(
    tables: &Tables,
    change: &Change,
    keys: &[EvalKey],
    namespace: &Text,
    job: &Text,
) -> bool
    ensures { result ≡ list_any (is_of tables.now change.now namespace.now job.now) keys.now }
{
    for key in keys {
        if is_of_job(
            tables,
            change,
            namespace,
            job,
            key.namespace(),
            key.number(),
        ) {
            return true;
        }
    }
    false
}

/// Whether a list has an evaluation of the job.
fn is_listed(
    tables: &Tables,
    change: &Change,
    base: &KeyQueue,
    list: &ListChange,
    namespace: &Text,
    job: &Text,
) -> bool
    ensures { result ≡ list_any (is_of tables.now change.now namespace.now job.now)
        (changed_list base.now.items list.now) }
{
    any_left(tables, change, base, list.taken.as_slice(), namespace, job)
        || is_among(tables, change, list.added.as_slice(), namespace, job)
}

/// Whether a worker has an evaluation of the job.
fn works_on(
    tables: &Tables,
    change: &Change,
    namespace: &Text,
    job: &Text,
    slot: &NumberSlot<Worker>,
) -> bool
    ensures { result ≡ works_on tables.now change.now namespace.now job.now slot.now }
{
    match &slot.1 {
        Some(worker) => {
            is_of_job(
                tables,
                change,
                namespace,
                job,
                namespace,
                worker.evaluation(),
            )
        }
        None => false,
    }
}

fn any_works(
    tables: &Tables,
    change: &Change,
    namespace: &Text,
    job: &Text,
    slots: &[NumberSlot<Worker>],
) -> bool
    ensures { result ≡ list_any (works_on tables.now change.now namespace.now job.now) slots.now }
{
    for slot in slots {
        if works_on(tables, change, namespace, job, slot) {
            return true;
        }
    }
    false
}

/// Whether a worker that the step does not change works on an evaluation of the job.
fn another_works(
    tables: &Tables,
    change: &Change,
    namespace: &Text,
    job: &Text,
    changed: &NumberTable<Worker>,
    slots: &[NumberSlot<Worker>],
) -> bool
    ensures { result ≡ list_any (is_left changed.now
        (works_on tables.now change.now namespace.now job.now)) slots.now }
{
    for slot in slots {
        if !changed.has_slot(slot.0) && works_on(tables, change, namespace, job, slot) {
            return true;
        }
    }
    false
}

/// Whether some worker of the namespace has an evaluation of the job.
fn is_worked_on(tables: &Tables, change: &Change, namespace: &Text, job: &Text) -> bool
    ensures { result ≡ is_worked_on (view tables.now change.now) namespace.now job.now }
{
    let Some(tenant) = tables.tenants.get(namespace) else {
        return false;
    };
    let slots = tenant.workers.as_slice();
    let Some(changed) = change.tenants.get(namespace) else {
        return any_works(tables, change, namespace, job, slots);
    };
    any_works(tables, change, namespace, job, changed.workers.as_slice())
        || another_works(tables, change, namespace, job, &changed.workers, slots)
}

/// Whether an evaluation of the job is ready or with a worker.
pub(crate) fn is_busy(tables: &Tables, change: &Change, namespace: &Text, job: &Text) -> bool
    ensures { result ≡ is_busy (view tables.now change.now) namespace.now job.now }
{
    is_listed(tables, change, &tables.ready, &change.ready, namespace, job)
        || is_worked_on(tables, change, namespace, job)
}

/// Makes the evaluation ready, unless an evaluation of its job is ready or with a worker: then it waits. Want of memory is the
/// only error.
pub fn queue(tables: &Tables, change: &mut Change, key: &EvalKey) -> Result<(), AllocError>
    ensures { Does result tables.now change.old change.new (λ w. queue w key.now) }
{
    let Some(row) = evaluation(tables, change, key.namespace(), key.number()) else {
        return Ok(());
    };
    if !is_busy(tables, change, key.namespace(), &row.job) {
        add_ready(change, key.clone()?)?;
    }
    Ok(())
}

/// Makes the blocked evaluations pending, takes them out of the list, and queues each in this order: it is ready or waits.
/// Want of memory is the only error.
pub fn wake(tables: &Tables, change: &mut Change, keys: &[EvalKey]) -> Result<(), AllocError>
    ensures { Does result tables.now change.old change.new (wake keys.now) }
{
    for key in keys {
        set_status(tables, change, key, Status::Pending)?;
    }
    take_out(tables.alloc, &mut change.blocked, keys)?;
    for key in keys {
        queue(tables, change, key)?;
    }
    Ok(())
}

/// Adds an evaluation under the namespace's next number, if the namespace is there, and queues it: it is ready or waits. Want
/// of memory is the only error.
pub fn make(
    tables: &Tables,
    change: &mut Change,
    namespace: &Text,
    row: Evaluation,
) -> Result<(), AllocError>
    requires { HasEvaluationLeft (view tables.now change.old) namespace.now }
    ensures { Does result tables.now change.old change.new (make namespace.now (λ _. row)) }
{
    let Some(number) = add_evaluation(tables, change, namespace, row)? else {
        return Ok(());
    };
    let key = EvalKey::new(namespace.clone()?, number);
    queue(tables, change, &key)
}
