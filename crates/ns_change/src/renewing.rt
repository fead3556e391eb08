//! New evaluations of a job whose allocation ended.

ghost use Rattle.std.specs.Prelude.{◌≡◌, IfOk};
ghost use Rattle.ns_types.specs.Settling.Making.{evaluation_for, new_evaluation};
ghost use Rattle.ns_tables.specs.World.{tenant_of};

use ns_tables::TenantRows;
use ns_types::allocation::Allocation;
use ns_types::evaluation::{Evaluation, Status, Trigger};
use ns_types::job::JobKind;
use ns_types::rows::Rows;
use ns_types::text::Text;
use std::alloc::{AllocError, Global};

/// A new evaluation with copies of the names.
fn new_evaluation(
    alloc: Global,
    job: &Text,
    kind: JobKind,
    priority: u64,
    pool: &Text,
    trigger: Trigger,
) -> Result<Evaluation, AllocError>
    ensures { IfOk result (λ e. e ≡ new_evaluation job.now kind priority pool.now trigger) }
{
    Ok(Evaluation {
        job: job.clone()?,
        kind,
        priority,
        pool: pool.clone()?,
        trigger,
        status: Status::Pending,
        previous: None,
        follower: None,
        quota: None,
        escapes: false,
        infeasible: Rows::new(alloc),
        nacks: 0,
        create_index: 0,
        modify_index: 0,
    })
}

/// A new evaluation for the job of an allocation that ended, with the job's type, priority and pool. If the job is gone, its
/// type is `service`, and it has the allocation's priority and pool. Want of memory is the only error.
pub fn evaluation_for(
    alloc: Global,
    tenant: &TenantRows,
    ended: &Allocation,
    trigger: Trigger,
) -> Result<Evaluation, AllocError>
    ensures { IfOk result (λ e. e ≡ evaluation_for (tenant_of tenant.now) ended.now trigger) }
{
    let job = &ended.job;
    match tenant.jobs.get(job) {
        Some(row) => {
            let document = row.document.get();
            new_evaluation(
                alloc,
                job,
                document.kind,
                document.priority,
                &document.pool,
                trigger,
            )
        }
        None => {
            new_evaluation(
                alloc,
                job,
                JobKind::Service,
                ended.priority,
                &ended.pool,
                trigger,
            )
        }
    }
}
