//! Looks at a server, with results that the callers can keep.

ghost use Rattle.std.specs.Prelude.{◌≡◌, IfOk, IsNone, option_map};
ghost use Rattle.ns_types.specs.Working.Looks.{row_of, served_ready};
ghost use Rattle.ns_broker.specs.Looking.{busy_of};
ghost use Rattle.ns_work_lock.specs.Looking.{IsFirstAt, IsFirstPlanner, fields_of, has_evaluation, is_busy_with};

use crate::changes::{ApplierView, BusyWorker, Moment, Planner, WorkerView};
use ns_core::Core;
use ns_types::key::EvalKey;
use ns_types::text::same_text;
use std::alloc::AllocError;

/// The end of the numbers of workers: each number is below it.
pub const WORKERS_END: u64 = 64;

/// The next evaluation: the first of the ready ones that have the highest priority. Want of memory is the only error.
pub(crate) fn served(core: &Core) -> Result<Option<EvalKey>, AllocError>
    ensures { IfOk result (λ key. key ≡ served_ready core.now.world) }
{
    match core.served() {
        Some(key) => Ok(Some(key.clone()?)),
        None => Ok(None),
    }
}

/// What the worker is busy with. None: it is idle. Want of memory is the only error.
pub(crate) fn busy(core: &Core, worker: u64) -> Result<Option<BusyWorker>, AllocError>
    ensures { IfOk result (λ busy.
        option_map fields_of busy ≡ option_map busy_of (row_of core.now.world worker)) }
{
    match core.phase(worker) {
        Some(busy) => Ok(Some(BusyWorker {
            namespace: busy.namespace.clone()?,
            evaluation: busy.evaluation,
            phase: busy.phase,
            tries: busy.tries,
        })),
        None => Ok(None),
    }
}

/// Whether the worker has this evaluation in its namespace. It is one look-up.
fn has_evaluation(core: &Core, worker: u64, key: &EvalKey) -> bool
    ensures { result ≡ has_evaluation core.now.world worker key.now }
{
    match core.worker_at(worker, key.namespace()) {
        Some(row) => row.evaluation() == key.number(),
        None => false,
    }
}

/// Whether the worker is busy with this evaluation. It looks at all namespaces only if the worker has the evaluation there.
fn is_busy_with(core: &Core, worker: u64, key: &EvalKey) -> bool
    ensures { result ≡ is_busy_with core.now.world worker key.now }
{
    if !has_evaluation(core, worker, key) {
        return false;
    }
    match core.phase(worker) {
        Some(busy) => {
            same_text(busy.namespace, key.namespace()) && busy.evaluation == key.number()
        }
        None => false,
    }
}

/// The first worker that is busy with this evaluation. Want of memory is the only error.
fn first_at(core: &Core, key: &EvalKey) -> Result<Option<Planner>, AllocError>
    ensures { IfOk result (λ found. IsFirstAt core.now.world key.now found) }
{
    for worker in 0..WORKERS_END {
        if is_busy_with(core, worker, key) {
            let namespace = key.namespace().clone()?;
            return Ok(Some(Planner { worker, namespace }));
        }
    }
    Ok(None)
}

/// The first worker that is busy with the evaluation whose plan is next. Want of memory is the only error.
pub(crate) fn planner(core: &Core) -> Result<Option<Planner>, AllocError>
    ensures { IfOk result (λ found. IsFirstPlanner core.now.world found) }
{
    match core.first_plan() {
        Some(key) => first_at(core, key),
        None => Ok(None),
    }
}

/// What the worker sees before its turn, at that moment. Want of memory is the only error.
pub(crate) fn worker_view(core: &Core, worker: u64, seen: Moment) -> Result<WorkerView, AllocError>
    ensures seen { IfOk result (λ view. view.seen ≡ seen) }
    ensures busy { IfOk result (λ view.
        option_map fields_of view.busy ≡ option_map busy_of (row_of core.now.world worker)) }
    ensures next { IfOk result (λ view.
        IsNone view.busy → view.next ≡ served_ready core.now.world) }
{
    if let Some(busy) = busy(core, worker)? {
        return Ok(WorkerView {
            seen,
            busy: Some(busy),
            next: None,
        });
    }
    Ok(WorkerView {
        seen,
        busy: None,
        next: served(core)?,
    })
}

/// What the applier sees before its turn, at that moment. Want of memory is the only error.
pub(crate) fn applier_view(
    core: &Core,
    seen: Moment,
    is_due: bool,
) -> Result<ApplierView, AllocError>
    ensures seen { IfOk result (λ view. view.seen ≡ seen) }
    ensures due { IfOk result (λ view. view.is_due ≡ is_due) }
    ensures planner { IfOk result (λ view. IsFirstPlanner core.now.world view.planner) }
{
    Ok(ApplierView {
        seen,
        is_due,
        planner: planner(core)?,
    })
}
