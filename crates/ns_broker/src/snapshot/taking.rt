//! The taking of a snapshot.

ghost use Rattle.std.specs.Prelude.{◌≡◌, IfOk, option_copied};
ghost use Rattle.std.specs.FinMap.{get};
ghost use Rattle.std.specs.Option.{option_map_or};
ghost use Rattle.ns_types.specs.Working.Snapshot.{pool_for, snapshot_of};
ghost use Rattle.ns_live_index.specs.Index.{IsRight};
ghost use Rattle.ns_broker.specs.Seen.{UseOfFits};
ghost use Rattle.ns_tables.specs.World.{tenant_of, world_of};

use crate::snapshot::owning::own_allocations;
use crate::snapshot::pool::nodes_of;
use crate::snapshot::quota::quota_for;
use ns_live_index::Live;
use ns_tables::{Tables, TenantRows};
use ns_types::evaluation::Evaluation;
use ns_types::job::Job;
use ns_types::snapshot::Snapshot;
use ns_types::text::Text;
use std::alloc::AllocError;

/// The job's pool, or the evaluation's pool if the job is gone.
fn pool_for<'a>(evaluation: &'a Evaluation, job: Option<&'a Job>) -> &'a Text
    ensures { result.now ≡ pool_for evaluation.now (option_copied job.entry) }
{
    match job {
        Some(job) => &job.document.get().pool,
        None => &evaluation.pool,
    }
}

/// The number of the pool's last release, or zero if there is no such pool.
fn release_of(tables: &Tables, pool: &Text) -> u64
    ensures { result
        ≡ option_map_or (λ p. p.release) (get (world_of tables.now).pools pool.now) 0 }
{
    match tables.pools.get(pool) {
        Some(rows) => rows.release,
        None => 0,
    }
}

fn copied_job(job: Option<&Job>) -> Result<Option<Job>, AllocError>
    ensures { IfOk result (λ copy. copy ≡ option_copied job.entry) }
{
    match job {
        Some(job) => Ok(Some(job.clone()?)),
        None => Ok(None),
    }
}

/// The snapshot for the namespace's evaluation of that number. Want of memory is the only error. The premises are that the
/// index is right for the tables, and that the use of the namespace's quota fits 64 bits, as in each valid world. The index
/// stays right.
///
/// It costs a pointer for each node of the pool, a copy of each node that changed since it was last shown, with its live
/// allocations, and a walk over the job's own allocations. If the namespace has a quota, it also costs a copy of the name of
/// each namespace that names it.
pub fn snapshot(
    tables: &Tables,
    live: &mut Live,
    namespace: &Text,
    tenant: &TenantRows,
    number: u64,
    evaluation: &Evaluation,
) -> Result<Snapshot, AllocError>
    requires right { IsRight (world_of tables.now) live.old }
    requires fits { UseOfFits (world_of tables.now) (tenant_of tenant.now) }
    ensures seen { let w = world_of tables.now in IfOk result (λ seen. seen
        ≡ snapshot_of w namespace.now (tenant_of tenant.now) number evaluation.now) }
    ensures right { IsRight (world_of tables.now) live.new }
{
    let job = tenant.jobs.get(&evaluation.job);
    let pool = pool_for(evaluation, job);
    Ok(Snapshot {
        namespace: namespace.clone()?,
        number,
        evaluation: evaluation.clone()?,
        job: copied_job(job)?,
        own: own_allocations(tables.alloc, tenant, &evaluation.job, job)?,
        pool: pool.clone()?,
        nodes: nodes_of(tables, live, pool)?,
        release: release_of(tables, pool),
        quota: quota_for(tables, live, tenant)?,
    })
}
