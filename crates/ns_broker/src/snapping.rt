//! A worker takes a snapshot.

ghost use Rattle.std.specs.Prelude.{◌≡◌, IfOk, option_copied};
ghost use Rattle.std.specs.FinMap.{get};
ghost use Rattle.ns_types.specs.declared.reply.Content.TheVariants as Content;
ghost use Rattle.ns_types.specs.Working.Snapshot.{snapshot_of};
ghost use Rattle.ns_types.specs.Working.Work.{may_snap};
ghost use Rattle.ns_broker.specs.Snapping.{Keeps, Snaps, UseFitsIn};
ghost use Rattle.ns_live_index.specs.Index.{IsRight};
ghost use Rattle.ns_broker.specs.Seen.{UseOfFits};
ghost use Rattle.ns_tables.specs.World.{tenant_of, world_of};

use crate::snapshot::snapshot;
use ns_change::{Change, Prepared, put_row};
use ns_live_index::Live;
use ns_tables::{Tables, TenantRows};
use ns_types::evaluation::Evaluation;
use ns_types::refusal::Refusal;
use ns_types::reply::Content;
use ns_types::shared::Shared;
use ns_types::snapshot::Snapshot;
use ns_types::text::Text;
use ns_types::worker::{Phase, Worker};
use std::alloc::AllocError;

/// The reply and the change of a worker that takes a snapshot, with the snapshot that its row keeps.
#[derive(Drop)]
pub struct Snapped {
    pub prepared: Prepared,
    pub snapshot: Shared<Snapshot>,
}

/// Whether the worker may take a snapshot: it has just dequeued its evaluation, or part of its plan was dropped and tries
/// remain.
fn may_snap(worker: &Worker) -> bool
    ensures { result ≡ may_snap worker.now.tries worker.now.phase }
{
    match worker.phase() {
        Phase::Took => true,
        Phase::Dropped => worker.tries() != 0,
        _ => false,
    }
}

/// The evaluation of the namespace that the worker has.
fn evaluation<'a>(tenant: &'a TenantRows, worker: &Worker) -> Option<&'a Evaluation>
    ensures { option_copied result ≡
        get (tenant_of tenant.now).evaluations worker.now.evaluation }
{
    tenant.evaluations.rows().get(worker.evaluation())
}

/// The content of the reply to a worker that takes a snapshot.
fn answer(worker: &Worker) -> Content
    ensures { result ≡ Content.Snapped worker.now.evaluation }
{
    Content::Snapped(worker.evaluation())
}

/// A change that puts this row of the worker in the namespace, and nothing else.
fn keep(
    tables: &Tables,
    number: u64,
    namespace: &Text,
    worker: Worker,
) -> Result<Change, AllocError>
    ensures { IfOk result (Keeps number namespace.now worker tables.now) }
{
    let mut change = Change::new(tables.alloc);
    put_row(tables, &mut change, namespace, number, worker)?;
    Ok(change)
}

/// The snapshot of the worker's evaluation in the present state.
fn look(
    tables: &Tables,
    live: &mut Live,
    namespace: &Text,
    tenant: &TenantRows,
    worker: &Worker,
    evaluation: &Evaluation,
) -> Result<Shared<Snapshot>, AllocError>
    requires right { IsRight (world_of tables.now) live.old }
    requires fits { UseOfFits (world_of tables.now) (tenant_of tenant.now) }
    ensures seen { let w = world_of tables.now in IfOk result (λ seen. seen
        ≡ snapshot_of w namespace.now (tenant_of tenant.now) worker.now.evaluation evaluation.now) }
    ensures right { IsRight (world_of tables.now) live.new }
{
    let seen = snapshot(
        tables,
        live,
        namespace,
        tenant,
        worker.evaluation(),
        evaluation,
    )?;
    Shared::new(tables.alloc, seen)
}

/// Prepares the step in which the worker that has an evaluation of the namespace takes a snapshot. The worker's row keeps the
/// snapshot and the reply returns it: both share one value. `NotEnabled`: the worker has no evaluation of the namespace, or
/// may not take a snapshot now. Want of memory comes last. The premises are that the index of live allocations is right, and
/// that the use of the namespace's quota fits 64 bits, as in each valid world. The index stays right.
pub fn snap(
    tables: &Tables,
    live: &mut Live,
    number: u64,
    namespace: &Text,
) -> Result<Snapped, Refusal>
    requires right { IsRight (world_of tables.now) live.old }
    requires fits { UseFitsIn (world_of tables.now) namespace.now }
    ensures snaps { Snaps number namespace.now tables.now result }
    ensures right { IsRight (world_of tables.now) live.new }
{
    let Some(tenant) = tables.tenants.get(namespace) else {
        return Err(Refusal::NotEnabled);
    };
    let Some(worker) = tenant.workers.get(number) else {
        return Err(Refusal::NotEnabled);
    };
    let Some(row) = evaluation(tenant, worker) else {
        return Err(Refusal::NotEnabled);
    };
    if !may_snap(worker) {
        return Err(Refusal::NotEnabled);
    }
    let snapshot = look(tables, live, namespace, tenant, worker, row)?;
    let change = keep(tables, number, namespace, worker.snapped(snapshot.share()?))?;
    let content = answer(worker);
    Ok(Snapped {
        prepared: Prepared { content, change },
        snapshot,
    })
}
