//! Prepares steps: the log takes one more entry, and there is room for the answer.

ghost use Rattle.std.specs.Prelude.{◌≡◌, ◌<◌, ◌≤◌, IfOk, OnOk, length, option_copied, vec_len, vec_capacity};
ghost use Rattle.ns_types.specs.Working.Looks.{worker_at};
ghost use Rattle.ns_driver.specs.WorkerSteps.{worker_step};
ghost use Rattle.ns_replies.specs.Rooms.{room_of};
ghost use Rattle.ns_steps.specs.Works.{step_of};
ghost use Rattle.ns_work_log.specs.Noting.{Begins};

use crate::entry_room::EntryRoom;
use crate::held::Held;
use crate::noting::{begin, with_room};
use ns_core::Core;
use ns_driver::WorkerStep;
use ns_log::Entry;
use ns_steps::work::{Work, step_of};
use ns_types::refusal::Refusal;
use ns_types::shared::Shared;
use ns_types::step::Step;
use ns_types::text::Text;
use ns_types::worker::Worker;
use std::alloc::Global;

/// The worker's row, if the room for its step's answer depends on it.
pub fn row_for<'a>(
    core: &'a Core,
    worker: u64,
    namespace: &Text,
    step: &WorkerStep<'_>,
) -> Option<&'a Worker>
    ensures { let made = worker_step step.now worker namespace.now in
        room_of made (option_copied result)
        ≡ room_of made (worker_at core.now.world worker namespace.now) }
{
    match step {
        WorkerStep::Apply => core.worker_at(worker, namespace),
        WorkerStep::Dequeue(_) | WorkerStep::Submit(_) | WorkerStep::Finish(_) | WorkerStep::Nack =>
            None,
    }
}

/// The step of a worker for its entry. The errors are `LogFull`, if the log takes no more entries, and `Memory`.
pub(crate) fn worker_entry(
    alloc: Global,
    held: &Held,
    work: Work,
    worker: u64,
    namespace: &Text,
) -> Result<Shared<Step>, Refusal>
    ensures begins { Begins (length held.now.log) held.now.limit result }
    ensures made { IfOk result (λ step. step ≡ step_of work worker namespace.now) }
{
    if held.is_full() {
        return Err(Refusal::LogFull);
    }
    let step = step_of(work, worker, namespace.clone()?);
    let entry = Shared::new(alloc, step)?;
    Ok(entry)
}

/// The step, with room for its entry and its answer. `row` is the worker's row, if it is a worker's step. The errors are
/// `LogFull` and `Memory`.
pub(crate) fn prepare(
    alloc: Global,
    log: &mut Vec<Entry>,
    limit: u64,
    step: Shared<Step>,
    row: Option<&Worker>,
) -> Result<(Shared<Step>, EntryRoom), Refusal>
    requires { length log.old.items ≤ limit }
    ensures begins { Begins (length log.old.items) limit result }
    ensures same { log.new.items ≡ log.old.items }
    ensures place { OnOk result (vec_len log.new < vec_capacity log.new) }
    ensures made { IfOk result
        (λ made. made ≡ (step, room_of step (option_copied row.entry))) }
{
    match begin(log, limit) {
        Ok(()) => with_room(alloc, step, row),
        Err(refusal) => {
            drop(step);
            Err(refusal)
        }
    }
}
