//! What a namespace has that forbids a change: jobs, open evaluations, snapshots that workers keep and live
//! allocations.

ghost use Rattle.std.specs.Prelude.{◌≡◌, ◌||◌, true, false};
ghost use Rattle.std.specs.List.{list_any};
ghost use Rattle.std.specs.Option.{option_map_or};
ghost use Rattle.keyed.specs.Table.{at_slot, rows};
ghost use Rattle.ns_types.specs.Asking.Admins.{forbids_put, has_live, has_open, looks_to_pool, uses_pool};
ghost use Rattle.ns_types.specs.State.Rows.{is_live, is_open};
ghost use Rattle.ns_types.specs.State.Tables.{any_row};
ghost use Rattle.ns_admin.specs.Asked.{passes};
ghost use Rattle.ns_admin.specs.Viewed.{has_job_in, has_kept_in, has_live_in, has_open_in, has_work};
ghost use Rattle.ns_admin.specs.Viewed.{is_unfinished, job_in, kept_in, live_in, lives, open_in};
ghost use Rattle.ns_tables.specs.World.{tenant_of};

use crate::sharing::{is_withdrawn, same_quota};
use keyed::{NameSlot, NameTable, NumberSlot};
use ns_equality::same_text;
use ns_tables::TenantRows;
use ns_types::allocation::Allocation;
use ns_types::evaluation::{Evaluation, Status};
use ns_types::job::Job;
use ns_types::records::Namespace;
use ns_types::text::Text;
use ns_types::worker::Worker;

/// The pools that a test looks for.
#[derive(Clone, Copy)]
pub(crate) enum AskedPools<'a> {
    Named(&'a Text),
    /// The pools that the first record permits and the second does not.
    Withdrawn(&'a Namespace, &'a Namespace),
}

impl AskedPools<'_> {
    fn passes(&self, pool: &Text) -> bool
        ensures { result ≡ passes self.now pool.now }
    {
        match self {
            AskedPools::Named(name) => same_text(name, pool),
            AskedPools::Withdrawn(old, new) => is_withdrawn(old, new, pool),
        }
    }
}

// ---- rows

fn is_open(evaluation: &Evaluation) -> bool
    ensures { result ≡ is_open evaluation.now.status }
{
    matches!(evaluation.status, Status::Pending | Status::Blocked)
}

fn is_job_in(slot: &NameSlot<Job>, asked: &AskedPools) -> bool
    ensures { result ≡ at_slot (job_in (passes asked.now)) slot.now }
{
    match &slot.1 {
        Some(job) => asked.passes(&job.document.get().pool),
        None => false,
    }
}

fn is_unfinished(slot: &NumberSlot<Evaluation>) -> bool
    ensures { result ≡ at_slot is_unfinished slot.now }
{
    match &slot.1 {
        Some(evaluation) => is_open(evaluation),
        None => false,
    }
}

fn is_open_in(slot: &NumberSlot<Evaluation>, asked: &AskedPools) -> bool
    ensures { result ≡ at_slot (open_in (passes asked.now)) slot.now }
{
    match &slot.1 {
        Some(evaluation) => is_open(evaluation) && asked.passes(&evaluation.pool),
        None => false,
    }
}

fn keeps_in(worker: &Worker, asked: &AskedPools) -> bool
    ensures { result ≡ option_map_or (λ kept. passes asked.now kept.pool) worker.now.kept false }
{
    match worker.kept() {
        Some(kept) => asked.passes(&kept.get().pool),
        None => false,
    }
}

fn is_kept_in(slot: &NumberSlot<Worker>, asked: &AskedPools) -> bool
    ensures { result ≡ at_slot (kept_in (passes asked.now)) slot.now }
{
    match &slot.1 {
        Some(worker) => keeps_in(worker, asked),
        None => false,
    }
}

fn lives(slot: &NumberSlot<Allocation>) -> bool
    ensures { result ≡ at_slot lives slot.now }
{
    match &slot.1 {
        Some(allocation) => allocation.is_live(),
        None => false,
    }
}

fn is_live_in(slot: &NumberSlot<Allocation>, asked: &AskedPools) -> bool
    ensures { result ≡ at_slot (live_in (passes asked.now)) slot.now }
{
    match &slot.1 {
        Some(allocation) => allocation.is_live() && asked.passes(&allocation.pool),
        None => false,
    }
}

// ---- some row

fn any_job_in(slots: &[NameSlot<Job>], asked: &AskedPools) -> bool
    ensures { result ≡ list_any (at_slot (job_in (passes asked.now))) slots.now }
{
    slots.iter().any(|slot| is_job_in(slot, asked))
}

fn any_unfinished(slots: &[NumberSlot<Evaluation>]) -> bool
    ensures { result ≡ list_any (at_slot is_unfinished) slots.now }
{
    slots.iter().any(|slot| is_unfinished(slot))
}

fn any_open_in(slots: &[NumberSlot<Evaluation>], asked: &AskedPools) -> bool
    ensures { result ≡ list_any (at_slot (open_in (passes asked.now))) slots.now }
{
    slots.iter().any(|slot| is_open_in(slot, asked))
}

fn any_kept_in(slots: &[NumberSlot<Worker>], asked: &AskedPools) -> bool
    ensures { result ≡ list_any (at_slot (kept_in (passes asked.now))) slots.now }
{
    slots.iter().any(|slot| is_kept_in(slot, asked))
}

fn any_lives(slots: &[NumberSlot<Allocation>]) -> bool
    ensures { result ≡ list_any (at_slot lives) slots.now }
{
    slots.iter().any(|slot| lives(slot))
}

fn any_live_in(slots: &[NumberSlot<Allocation>], asked: &AskedPools) -> bool
    ensures { result ≡ list_any (at_slot (live_in (passes asked.now))) slots.now }
{
    slots.iter().any(|slot| is_live_in(slot, asked))
}

fn any_there<V>(slots: &[NameSlot<V>]) -> bool
    ensures { result ≡ list_any (at_slot (λ e. true)) slots.now }
{
    slots.iter().any(|slot| slot.1.is_some())
}

// ---- in a table

/// Whether the table has a row.
pub(crate) fn has_rows<V: Drop>(table: &NameTable<V>) -> bool
    ensures { result ≡ any_row (λ _ _. true) (rows table.now) }
{
    any_there(table.as_slice())
}

fn has_job_in(tenant: &TenantRows, asked: &AskedPools) -> bool
    ensures { result ≡ has_job_in (passes asked.now) (tenant_of tenant.now) }
{
    any_job_in(tenant.jobs.as_slice(), asked)
}

fn has_open(tenant: &TenantRows) -> bool
    ensures { result ≡ has_open (tenant_of tenant.now) }
{
    any_unfinished(tenant.evaluations.rows().as_slice())
}

fn has_open_in(tenant: &TenantRows, asked: &AskedPools) -> bool
    ensures { result ≡ has_open_in (passes asked.now) (tenant_of tenant.now) }
{
    any_open_in(tenant.evaluations.rows().as_slice(), asked)
}

fn has_kept_in(tenant: &TenantRows, asked: &AskedPools) -> bool
    ensures { result ≡ has_kept_in (passes asked.now) (tenant_of tenant.now) }
{
    any_kept_in(tenant.workers.as_slice(), asked)
}

fn has_live(tenant: &TenantRows) -> bool
    ensures { result ≡ has_live (tenant_of tenant.now) }
{
    any_lives(tenant.allocations.as_slice())
}

fn has_live_in(tenant: &TenantRows, asked: &AskedPools) -> bool
    ensures { result ≡ has_live_in (passes asked.now) (tenant_of tenant.now) }
{
    any_live_in(tenant.allocations.as_slice(), asked)
}

// ---- in a namespace

/// Whether a job, an open evaluation or a kept snapshot of the namespace names one of the pools.
pub(crate) fn looks_to_pool(tenant: &TenantRows, asked: &AskedPools) -> bool
    ensures { result ≡ looks_to_pool (passes asked.now) (tenant_of tenant.now) }
{
    has_job_in(tenant, asked) || has_open_in(tenant, asked) || has_kept_in(tenant, asked)
}

/// Whether a job, an open evaluation, a kept snapshot or a live allocation of the namespace names one of the pools.
fn uses_pool(tenant: &TenantRows, asked: &AskedPools) -> bool
    ensures { result ≡ uses_pool (passes asked.now) (tenant_of tenant.now) }
{
    looks_to_pool(tenant, asked) || has_live_in(tenant, asked)
}

/// Whether the namespace has an open evaluation or a live allocation.
fn has_unfinished(tenant: &TenantRows) -> bool
    ensures { result ≡ (has_open (tenant_of tenant.now) || has_live (tenant_of tenant.now)) }
{
    has_open(tenant) || has_live(tenant)
}

/// Whether what the namespace has forbids the new record.
pub(crate) fn forbids_put(tenant: &TenantRows, new: &Namespace) -> bool
    ensures { result ≡ forbids_put new.now (tenant_of tenant.now) }
{
    let withdrawn = AskedPools::Withdrawn(&tenant.namespace, new);
    uses_pool(tenant, &withdrawn) || !same_quota(&tenant.namespace, new) && has_unfinished(tenant)
}

/// Whether the namespace has a job, an open evaluation or a live allocation.
pub(crate) fn has_work(tenant: &TenantRows) -> bool
    ensures { result ≡ has_work (tenant_of tenant.now) }
{
    has_rows(&tenant.jobs) || has_open(tenant) || has_live(tenant)
}
