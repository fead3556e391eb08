//! The first pending evaluation of a job, and its blocked one.

ghost use Rattle.std.specs.Prelude.{◌≡◌, ◌&&◌, option_copied};
ghost use Rattle.keyed.specs.Table.{at_slot, rows};
ghost use Rattle.ns_types.specs.State.Names.{same_name};
ghost use Rattle.ns_types.specs.Working.Queue.{promote};
ghost use Rattle.ns_types.specs.Working.Work.{cancel_blocked};
ghost use Rattle.ns_tables.specs.Filing.{AreNumbersUnder, job_where};
ghost use Rattle.ns_change.specs.Changed.{Does, DoesIn, unlist_blocked, view};
ghost use Rattle.ns_change.specs.Queued.{first_of_job, first_slot};
ghost use Rattle.ns_change.specs.Waiting.{Leads, lesser, of_job, row_passes, stands, standing, unheld_passes};

use crate::change::Change;
use crate::editing::set_status;
use crate::lists::{add_ready, take_blocked};
use crate::queueing::is_busy;
use keyed::{NumberSlot, NumberTable};
use ns_equality::same_text;
use ns_tables::{Tables, TenantRows};
use ns_types::evaluation::{Evaluation, Status};
use ns_types::key::EvalKey;
use ns_types::text::Text;
use std::alloc::AllocError;

fn stands(wanted: Status, status: Status) -> bool
    ensures { result ≡ stands wanted status }
{
    match wanted {
        Status::Pending => matches!(status, Status::Pending),
        Status::Blocked => matches!(status, Status::Blocked),
        _ => false,
    }
}

fn is_row_of(row: &Evaluation, job: &Text, wanted: Status) -> bool
    ensures { result ≡ (same_name job.now row.now.job && stands wanted row.now.status) }
{
    same_text(job, &row.job) && stands(wanted, row.status)
}

fn is_of(slot: &NumberSlot<Evaluation>, job: &Text, wanted: Status) -> bool
    ensures { result ≡ at_slot (standing wanted job.now) slot.now }
{
    match &slot.1 {
        Some(evaluation) => is_row_of(evaluation, job, wanted),
        None => false,
    }
}

fn first_in(slots: &[NumberSlot<Evaluation>], job: &Text, wanted: Status) -> Option<u64>
    ensures { result ≡ first_slot (at_slot (standing wanted job.now)) slots.now }
{
    for slot in slots {
        if is_of(slot, job, wanted) {
            return Some(slot.0);
        }
    }
    None
}

/// Whether the evaluation of that number, as it was before the step, is of the job and has the wanted status.
fn is_stored(tenant: &TenantRows, job: &Text, wanted: Status, number: u64) -> bool
    ensures { result ≡ row_passes (of_job (stands wanted) job.now)
        (rows tenant.now.evaluations.slots) number }
{
    match tenant.evaluations.rows().get(number) {
        Some(evaluation) => is_row_of(evaluation, job, wanted),
        None => false,
    }
}

fn first_numbered(
    tenant: &TenantRows,
    job: &Text,
    wanted: Status,
    slots: &[NumberSlot<()>],
) -> Option<u64>
    ensures { result ≡ first_slot (λ slot. row_passes (of_job (stands wanted) job.now)
        (rows tenant.now.evaluations.slots) slot.0) slots.now }
{
    for slot in slots {
        if is_stored(tenant, job, wanted, slot.0) {
            return Some(slot.0);
        }
    }
    None
}

/// The first of the job's evaluations with the wanted status that the step does not change.
fn first_unchanged(
    tenant: &TenantRows,
    changed: &NumberTable<Evaluation>,
    job: &Text,
    wanted: Status,
    slots: &[NumberSlot<()>],
) -> Option<u64>
    ensures { result ≡ first_slot (λ slot. unheld_passes (of_job (stands wanted) job.now)
        (rows tenant.now.evaluations.slots) changed.now slot.0) slots.now }
{
    for slot in slots {
        if !changed.has_slot(slot.0) && is_stored(tenant, job, wanted, slot.0) {
            return Some(slot.0);
        }
    }
    None
}

/// The numbers of the job's evaluations that had the wanted status before the step.
fn stored_numbers<'a>(
    tenant: &'a TenantRows,
    job: &Text,
    wanted: Status,
) -> Option<&'a NumberTable<()>>
    ensures { AreNumbersUnder (job_where (stands wanted)) job.now tenant.now.evaluations.slots
        (option_copied result) }
{
    match wanted {
        Status::Pending => tenant.evaluations.pending_of(job),
        Status::Blocked => tenant.evaluations.blocked_of(job),
        _ => None,
    }
}

/// The job's first evaluation with the wanted status before the step. It looks up no evaluation with another status.
fn first_before(tenant: &TenantRows, job: &Text, wanted: Status) -> Option<u64>
    ensures { Leads (row_passes (of_job (stands wanted) job.now)
        (rows tenant.now.evaluations.slots)) result }
{
    match stored_numbers(tenant, job, wanted) {
        Some(numbers) => first_numbered(tenant, job, wanted, numbers.as_slice()),
        None => None,
    }
}

/// The job's first evaluation that had the wanted status before the step and is not changed by it.
fn first_left(
    tenant: &TenantRows,
    changed: &NumberTable<Evaluation>,
    job: &Text,
    wanted: Status,
) -> Option<u64>
    ensures { Leads (unheld_passes (of_job (stands wanted) job.now)
        (rows tenant.now.evaluations.slots) changed.now) result }
{
    match stored_numbers(tenant, job, wanted) {
        Some(numbers) => first_unchanged(tenant, changed, job, wanted, numbers.as_slice()),
        None => None,
    }
}

fn lesser(a: Option<u64>, b: Option<u64>) -> Option<u64>
    ensures { result ≡ lesser a b }
{
    match (a, b) {
        (Some(a), Some(b)) => Some(a.min(b)),
        (Some(a), None) => Some(a),
        (None, b) => b,
    }
}

/// The job's first evaluation with the wanted status, pending or blocked, after the change.
fn first_of_job(
    tables: &Tables,
    change: &Change,
    namespace: &Text,
    job: &Text,
    wanted: Status,
) -> Option<u64>
    ensures { result ≡ first_of_job (view tables.now change.now) namespace.now job.now wanted }
{
    let Some(tenant) = tables.tenants.get(namespace) else {
        return None;
    };
    let Some(changed) = change.tenants.get(namespace) else {
        return first_before(tenant, job, wanted);
    };
    lesser(
        first_in(changed.evaluations.as_slice(), job, wanted),
        first_left(tenant, &changed.evaluations, job, wanted),
    )
}

/// Makes the job's first pending evaluation ready, unless an evaluation of the job is ready or with a worker. Want of memory
/// is the only error.
pub fn promote(
    tables: &Tables,
    change: &mut Change,
    namespace: &Text,
    job: &Text,
) -> Result<(), AllocError>
    ensures { Does result tables.now change.old change.new (promote namespace.now job.now) }
{
    if is_busy(tables, change, namespace, job) {
        return Ok(());
    }
    let Some(number) = first_of_job(tables, change, namespace, job, Status::Pending) else {
        return Ok(());
    };
    add_ready(change, EvalKey::new(namespace.clone()?, number))
}

/// Cancels the job's blocked evaluation, if there is one. It stays in the list. Want of memory is the only error.
pub fn cancel_blocked(
    tables: &Tables,
    change: &mut Change,
    namespace: &Text,
    job: &Text,
) -> Result<(), AllocError>
    ensures { DoesIn namespace.now result tables.now change.old change.new
        (cancel_blocked job.now) }
{
    let Some(number) = first_of_job(tables, change, namespace, job, Status::Blocked) else {
        return Ok(());
    };
    let key = EvalKey::new(namespace.clone()?, number);
    set_status(tables, change, &key, Status::Canceled)
}

/// Takes the job's blocked evaluation, if there is one, out of the list of blocked evaluations. Want of memory is the only
/// error.
pub fn unlist_blocked(
    tables: &Tables,
    change: &mut Change,
    namespace: &Text,
    job: &Text,
) -> Result<(), AllocError>
    ensures { Does result tables.now change.old change.new
        (unlist_blocked namespace.now job.now) }
{
    let Some(number) = first_of_job(tables, change, namespace, job, Status::Blocked) else {
        return Ok(());
    };
    let key = EvalKey::new(namespace.clone()?, number);
    take_blocked(tables.alloc, change, &key)
}
