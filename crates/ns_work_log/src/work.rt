//! Makes the steps of workers, each with its entry.

ghost use Rattle.std.specs.Prelude.{◌≡◌, ◌<◌, IfOk, Some, vec_len, vec_capacity};
ghost use Rattle.ns_types.specs.declared.step.Step.TheVariants as Step;
ghost use Rattle.ns_broker.specs.Snapping.{kept_at};
ghost use Rattle.ns_driver.specs.Calls.{snapped};
ghost use Rattle.ns_driver.specs.WorkerSteps.{worker_step};
ghost use Rattle.ns_replies.specs.Rooms.{HasRoom};
ghost use Rattle.ns_work_log.specs.Logs.{Logs};
ghost use Rattle.ns_work_log.specs.Noting.{noted};
ghost use Rattle.ns_work_log.specs.Planned.{LogsWorkerStep};

use crate::entry_room::EntryRoom;
use crate::held::Held;
use crate::noting::note;
use crate::preparing::{prepare, row_for, worker_entry};
use ns_driver::WorkerStep;
use ns_log::Entry;
use ns_steps::work::Work;
use ns_types::refusal::Refusal;
use ns_types::reply::{Content, Reply};
use ns_types::shared::Shared;
use ns_types::snapshot::Snapshot;
use ns_types::step::Step;
use ns_types::text::Text;
use std::alloc::Global;

/// The answer to a worker that takes a snapshot.
pub fn snapped(seen: &Result<Shared<Snapshot>, Refusal>) -> Result<Reply, Refusal>
    ensures { result ≡ snapped seen.now }
{
    match seen {
        Ok(seen) => Ok(Reply {
            index: None,
            content: Content::Snapped(seen.get().number),
        }),
        Err(refusal) => Err(*refusal),
    }
}

/// Adds the step in which a worker takes a snapshot, with its answer.
fn note_snapped(
    log: &mut Vec<Entry>,
    step: Shared<Step>,
    room: EntryRoom,
    seen: &Result<Shared<Snapshot>, Refusal>,
)
    requires place { vec_len log.old < vec_capacity log.old }
    requires room { IfOk (snapped seen.now) (λ reply. HasRoom room reply.content) }
    ensures { log.new.items ≡ noted step (snapped seen.now) log.old.items }
{
    let answer = snapped(seen);
    note(log, step, room, &answer);
    drop(answer);
}

impl Held {
    /// Makes the step of the worker in the namespace. Its entry is `entry`, which may have other owners too.
    pub fn work_as(
        &mut self,
        alloc: Global,
        entry: Shared<Step>,
        worker: u64,
        namespace: &Text,
        step: WorkerStep<'_>,
    ) -> Result<Reply, Refusal>
        requires { entry ≡ worker_step step worker namespace.now }
        ensures { LogsWorkerStep step.entry worker namespace.now self.old result self.new }
    {
        let Held {
            core,
            log,
            limit,
            ..
        } = self;
        let row = row_for(core, worker, namespace, &step);
        let (made, room) = match prepare(alloc, log, *limit, entry, row) {
            Ok(prepared) => prepared,
            Err(refusal) => {
                drop(step);
                return Err(refusal);
            }
        };
        let answer = core.work(worker, namespace, step);
        note(log, made, room, &answer);
        answer
    }

    /// Makes the step of the worker in the namespace.
    pub fn work(
        &mut self,
        alloc: Global,
        worker: u64,
        namespace: &Text,
        step: WorkerStep<'_>,
    ) -> Result<Reply, Refusal>
        ensures { LogsWorkerStep step.entry worker namespace.now self.old result self.new }
    {
        match worker_entry(alloc, self, step.kind(), worker, namespace) {
            Ok(entry) => self.work_as(alloc, entry, worker, namespace, step),
            Err(refusal) => {
                drop(step);
                Err(refusal)
            }
        }
    }

    /// Makes the step in which a worker takes a snapshot of its evaluation: one value, which its row keeps and the caller
    /// reads. Its entry is `entry`, which may have other owners too.
    pub fn snap_as(
        &mut self,
        alloc: Global,
        entry: Shared<Step>,
        worker: u64,
        namespace: &Text,
    ) -> Result<Shared<Snapshot>, Refusal>
        requires { entry ≡ Step.Snap worker namespace.now }
        ensures logged { let step = Step.Snap worker namespace.now in
            Logs step self.old (snapped result) self.new }
        ensures kept { let w = self.new.state.world in
            IfOk result (λ seen. kept_at w worker namespace.now ≡ Some seen) }
    {
        let Held {
            core,
            log,
            limit,
            ..
        } = self;
        let (made, room) = prepare(alloc, log, *limit, entry, None)?;
        let seen = core.snap(worker, namespace);
        note_snapped(log, made, room, &seen);
        seen
    }

    /// Makes the step in which a worker takes a snapshot of its evaluation: one value, which its row keeps and the caller
    /// reads.
    pub fn snap(
        &mut self,
        alloc: Global,
        worker: u64,
        namespace: &Text,
    ) -> Result<Shared<Snapshot>, Refusal>
        ensures logged { let step = Step.Snap worker namespace.now in
            Logs step self.old (snapped result) self.new }
        ensures kept { let w = self.new.state.world in
            IfOk result (λ seen. kept_at w worker namespace.now ≡ Some seen) }
    {
        let entry = worker_entry(alloc, self, Work::Snap, worker, namespace)?;
        self.snap_as(alloc, entry, worker, namespace)
    }
}
