//! Changes of a job or an allocation, each with the evaluation that is made for it.

ghost use Rattle.std.specs.Prelude.{◌≡◌, IfOk};
ghost use Rattle.ns_types.specs.declared.allocation.DesiredStatus.TheVariants as DesiredStatus;
ghost use Rattle.ns_types.specs.declared.evaluation.Trigger.TheVariants as Trigger;
ghost use Rattle.ns_types.specs.Settling.Making.{evaluation_for, evaluation_of, with_desired, with_job};
ghost use Rattle.ns_change.specs.Changed.{Does, HasEvaluationLeft, view, without_job};
ghost use Rattle.ns_jobs.specs.Counted.{NextNumbers};
ghost use Rattle.ns_jobs.specs.Made.{with_made};
ghost use Rattle.ns_tables.specs.World.{tenant_of};

use ns_change::{Change, evaluation_for, make, put_job, remove_job, set_desired};
use ns_tables::{Tables, TenantRows};
use ns_types::allocation::{Allocation, DesiredStatus};
use ns_types::evaluation::{Evaluation, Status, Trigger};
use ns_types::job::{Document, Job};
use ns_types::key::EvalKey;
use ns_types::rows::Rows;
use ns_types::text::Text;
use std::alloc::{AllocError, Global};

/// The numbers that a step gives in a namespace: that of the evaluation that it makes, and its index.
#[derive(Clone, Copy)]
pub(crate) struct Numbers {
    pub evaluation: u64,
    pub index: u64,
}

/// The namespace's next numbers. None: one of them would pass its bound.
pub(crate) fn next_numbers(tenant: &TenantRows) -> Option<Numbers>
    ensures { NextNumbers (tenant_of tenant.now) result }
{
    if tenant.index == u64::MAX || tenant.evaluation_number == u64::MAX {
        return None;
    }
    Some(Numbers {
        evaluation: tenant.evaluation_number + 1,
        index: tenant.index + 1,
    })
}

/// A pending evaluation of the job, with its type, priority and pool.
fn evaluation_of(
    alloc: Global,
    id: &Text,
    document: &Document,
    trigger: Trigger,
) -> Result<Evaluation, AllocError>
    ensures { IfOk result (λ made. made ≡ evaluation_of id.now document.now trigger) }
{
    Ok(Evaluation {
        job: id.clone()?,
        kind: document.kind,
        priority: document.priority,
        pool: document.pool.clone()?,
        trigger,
        status: Status::Pending,
        previous: None,
        follower: None,
        quota: None,
        escapes: false,
        infeasible: Rows::new(alloc),
        nacks: 0,
        create_index: 0,
        modify_index: 0,
    })
}

/// Puts the job, and makes an evaluation of it.
pub(crate) fn put_and_make(
    tables: &Tables,
    change: &mut Change,
    namespace: &Text,
    id: &Text,
    job: Job,
    trigger: Trigger,
) -> Result<(), AllocError>
    requires { HasEvaluationLeft (view tables.now change.old) namespace.now }
    ensures { Does result tables.now change.old change.new (with_made namespace.now
        (with_job id.now job) (evaluation_of id.now job.document trigger)) }
{
    let evaluation = evaluation_of(tables.alloc, id, job.document.get(), trigger)?;
    put_job(tables, change, namespace, id, job)?;
    make(tables, change, namespace, evaluation)
}

/// Removes the job, and makes an evaluation of it, from the document that the job had.
pub(crate) fn remove_and_make(
    tables: &Tables,
    change: &mut Change,
    namespace: &Text,
    id: &Text,
    document: &Document,
    trigger: Trigger,
) -> Result<(), AllocError>
    requires { HasEvaluationLeft (view tables.now change.old) namespace.now }
    ensures { Does result tables.now change.old change.new (with_made namespace.now
        (without_job id.now) (evaluation_of id.now document.now trigger)) }
{
    remove_job(tables, change, namespace, id)?;
    let evaluation = evaluation_of(tables.alloc, id, document, trigger)?;
    make(tables, change, namespace, evaluation)
}

/// Sets the allocation's desired status to stop, and makes an evaluation of its job.
pub(crate) fn stop_and_make(
    tables: &Tables,
    change: &mut Change,
    namespace: &Text,
    tenant: &TenantRows,
    number: u64,
    row: &Allocation,
) -> Result<(), AllocError>
    requires { HasEvaluationLeft (view tables.now change.old) namespace.now }
    ensures { let e = evaluation_for (tenant_of tenant.now) row.now Trigger.AllocStop in
        Does result tables.now change.old change.new
        (with_made namespace.now (with_desired number DesiredStatus.Stop) e) }
{
    let key = EvalKey::new(namespace.clone()?, number);
    set_desired(tables, change, &key, DesiredStatus::Stop)?;
    let evaluation = evaluation_for(tables.alloc, tenant, row, Trigger::AllocStop)?;
    make(tables, change, namespace, evaluation)
}
