//! The registration of a job: its refusals and its change.

ghost use Rattle.std.specs.Prelude.{◌≡◌, ◌+◌, ◌<◌, ◌^◌, IfOk, IfSome, Some, option_copied};
ghost use Rattle.std.specs.FinMap.{contains_key};
ghost use Rattle.keyed.specs.Table.{row_at};
ghost use Rattle.ns_types.specs.declared.step.AskCommand.TheVariants as AskCommand;
ghost use Rattle.ns_types.specs.Asking.Asks.{document_of, first_refusal, has_no_room, is_outdated, pool_of};
ghost use Rattle.ns_types.specs.Asking.Asks.{registered_job, registered_with};
ghost use Rattle.ns_change.specs.Prepared.{Prepares};
ghost use Rattle.ns_jobs.specs.Counted.{HasFewVersions, HasFewVersionsIn, IsNext, counted_ask};
ghost use Rattle.ns_jobs.specs.Made.{job_of, misses};
ghost use Rattle.ns_tables.specs.World.{tenant_of, world_of};

use crate::looking::job;
use crate::making::{Numbers, next_numbers, put_and_make};
use ns_admin::permits;
use ns_change::{Change, Prepared, prepare};
use ns_equality::{same_document, same_number};
use ns_tables::{Tables, TenantRows};
use ns_types::evaluation::Trigger;
use ns_types::job::{Document, Job, Registration};
use ns_types::refusal::{Member, Refusal};
use ns_types::reply::Content;
use ns_types::shared::Shared;
use ns_types::text::Text;
use std::alloc::{AllocError, Global};

/// The greatest number of jobs in a namespace.
const MOST_JOBS: usize = 1000;

/// The pool that the registration names, or the namespace's default.
fn pool_of<'a>(tenant: &'a TenantRows, registration: &'a Registration) -> &'a Text
    ensures { result.now ≡ pool_of (tenant_of tenant.now) registration.now }
{
    match &registration.pool {
        Some(pool) => pool,
        None => &tenant.namespace.default_pool,
    }
}

fn has_pool(tables: &Tables, pool: &Text) -> bool
    ensures { result ≡ contains_key (world_of tables.now).pools pool.now }
{
    match tables.pools.get(pool) {
        Some(_) => true,
        None => false,
    }
}

/// Whether the stored job does not have the index that the registration demands.
fn misses(enforced: Option<u64>, stored: Option<&Job>) -> bool
    ensures { result ≡ misses enforced (option_copied stored.entry) }
{
    match (enforced, stored) {
        (None, _) => false,
        (Some(index), None) => index != 0,
        (Some(index), Some(job)) => !same_number(job.modify_index, index) || index == 0,
    }
}

fn is_outdated(tenant: &TenantRows, registration: &Registration) -> bool
    ensures { result ≡ is_outdated registration.now (tenant_of tenant.now) }
{
    misses(registration.enforced, job(tenant, &registration.id))
}

/// Whether the job is new, and the namespace can have no more jobs.
fn has_no_room(tenant: &TenantRows, registration: &Registration) -> bool
    ensures { result ≡ has_no_room registration.now (tenant_of tenant.now) }
{
    job(tenant, &registration.id).is_none() && tenant.jobs.len() >= MOST_JOBS
}

/// The first refusal of a registration, if there is one. The bounds of counters are not among these.
fn first_refusal(
    tables: &Tables,
    tenant: &TenantRows,
    registration: &Registration,
) -> Option<Refusal>
    ensures { result
        ≡ first_refusal (world_of tables.now) (tenant_of tenant.now) registration.now }
{
    let pool = pool_of(tenant, registration);
    if !permits(&tenant.namespace, pool) {
        return Some(Refusal::PoolNotPermitted);
    }
    if !has_pool(tables, pool) {
        return Some(Refusal::BadField(Member::NodePool));
    }
    if is_outdated(tenant, registration) {
        return Some(Refusal::Conflict);
    }
    if has_no_room(tenant, registration) {
        return Some(Refusal::Full);
    }
    None
}

/// The job's document by the registration, with its pool filled in.
fn document_of(tenant: &TenantRows, registration: &Registration) -> Result<Document, AllocError>
    ensures { IfOk result
        (λ document. document ≡ document_of (tenant_of tenant.now) registration.now) }
{
    Ok(Document {
        kind: registration.kind,
        priority: registration.priority,
        pool: pool_of(tenant, registration).clone()?,
        constraints: registration.constraints.clone()?,
        groups: registration.groups.clone()?,
    })
}

/// The job as a registration leaves it.
fn registered_job(
    index: u64,
    document: Shared<Document>,
    old: Option<&Job>,
) -> Result<Job, AllocError>
    requires { IfSome old (λ job. job.now.version + 1 < 2 ^ 64) }
    ensures { IfOk result (λ job. job ≡ registered_job index document (option_copied old.entry)) }
{
    let Some(job) = old else {
        return Ok(Job {
            document,
            stop: false,
            version: 0,
            create_index: index,
            modify_index: index,
        });
    };
    if same_document(document.get(), job.document.get()) && !job.stop {
        return job.clone();
    }
    Ok(Job {
        document,
        stop: false,
        version: job.version + 1,
        create_index: job.create_index,
        modify_index: index,
    })
}

/// The job as the namespace has it after the registration.
fn job_of(
    alloc: Global,
    tenant: &TenantRows,
    registration: &Registration,
    index: u64,
) -> Result<Job, AllocError>
    requires index { index ≡ (tenant_of tenant.now).index + 1 }
    requires versions { HasFewVersions (tenant_of tenant.now) }
    ensures { IfOk result (λ job. job ≡ job_of registration.now (tenant_of tenant.now)) }
{
    let document = Shared::new(alloc, document_of(tenant, registration)?)?;
    registered_job(index, document, job(tenant, &registration.id))
}

/// The reply and the change of a registration that nothing refuses.
fn registered(
    tables: &Tables,
    namespace: &Text,
    tenant: &TenantRows,
    registration: &Registration,
    numbers: Numbers,
) -> Result<Prepared, Refusal>
    requires tenant { row_at tables.now.tenants namespace.now ≡ Some tenant.now }
    requires numbers { IsNext (tenant_of tenant.now) numbers }
    requires versions { HasFewVersions (tenant_of tenant.now) }
    ensures { let t = tenant_of tenant.now in
        let done = registered_with namespace.now registration.now (world_of tables.now) t in
        Prepares (done (job_of registration.now t)) tables.now result }
{
    let id = &registration.id;
    let job = job_of(tables.alloc, tenant, registration, numbers.index)?;
    let content = Content::Registered(numbers.evaluation, numbers.index, job.modify_index);
    let mut change = Change::new(tables.alloc);
    let made = put_and_make(
        tables,
        &mut change,
        namespace,
        id,
        job,
        Trigger::JobRegister,
    );
    prepare(content, change, made)
}

/// Prepares the registration of a job, for the first time or again, and a new evaluation of the job. If the job is not stopped
/// and has the same document already, it stays as it is.
///
/// `NotFound`: there is no such namespace. `PoolNotPermitted`: the namespace may not use the job's pool. `BadField`: there is
/// no such pool. `Conflict`: the job does not have the index that is demanded. `Full`: the job is new, and the namespace has
/// 1,000; or the namespace's index or the number of its evaluations is at its bound. In this order. Want of memory comes last.
pub fn register(
    tables: &Tables,
    namespace: &Text,
    registration: &Registration,
) -> Result<Prepared, Refusal>
    requires { HasFewVersionsIn (world_of tables.now) namespace.now }
    ensures { let command = AskCommand.Register registration.now in
        Prepares (counted_ask namespace.now command (world_of tables.now)) tables.now result }
{
    let Some(tenant) = tables.tenants.get(namespace) else {
        return Err(Refusal::NotFound);
    };
    if let Some(refusal) = first_refusal(tables, tenant, registration) {
        return Err(refusal);
    }
    let Some(numbers) = next_numbers(tenant) else {
        return Err(Refusal::Full);
    };
    registered(tables, namespace, tenant, registration, numbers)
}
