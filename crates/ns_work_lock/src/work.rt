//! Makes the steps of workers, each with its receipt.

ghost use Rattle.std.specs.Prelude.{◌≡◌, ◌+◌, ◌<◌, IfOk, Some, option_map, slice_get, vec_capacity, vec_len};
ghost use Rattle.ns_types.specs.declared.step.Step.TheVariants as Step;
ghost use Rattle.ns_broker.specs.Snapping.{kept_at};
ghost use Rattle.ns_driver.specs.Calls.{snapped};
ghost use Rattle.ns_driver.specs.WorkerSteps.{worker_step};
ghost use Rattle.ns_replies.specs.Rooms.{HasRoom};
ghost use Rattle.ns_work_log.specs.Logs.{Logs, next_place};
ghost use Rattle.ns_work_log.specs.Planned.{LogsWorkerStep};
ghost use Rattle.ns_work_log.specs.Rendered.{rendered_step};
ghost use Rattle.ns_work_lock.specs.Copying.{entry_answer};
ghost use Rattle.ns_work_lock.specs.Receiving.{Receives, count, received};

use crate::ended::Ended;
use crate::ready::{Ready, prepare_work, receive_answer};
use crate::retention::Retention;
use crate::seat::Seat;
use ns_driver::WorkerStep;
use ns_log::Entry;
use ns_log::receipts::Receipt;
use ns_steps::work::Work;
use ns_types::refusal::Refusal;
use ns_types::reply::Reply;
use ns_types::shared::Shared;
use ns_types::snapshot::Snapshot;
use ns_types::text::Text;
use ns_work_log::{row_for, snapped};
use std::alloc::Global;
use std::sync::ledger::{Book, Ledger, Share};

/// Adds the receipt of a step in which a worker took a snapshot, with the answer that its entry has, and counts it. It takes no
/// memory.
fn receive_snapped<L: Ledger>(
    receipts: &mut Vec<Receipt>,
    share: &mut Share<L>,
    book: &mut Book<L>,
    log: &[Entry],
    ready: Ready,
    seen: &Result<Shared<Snapshot>, Refusal>,
)
    requires place { vec_len receipts.old < vec_capacity receipts.old }
    requires part { share.old.parts ≡ 1 }
    requires room { IfOk (snapped seen.now) (λ reply. HasRoom ready.room reply.content) }
    requires entry { let made = option_map entry_answer (slice_get log.now ready.number) in
        made ≡ rendered_step (snapped seen.now) }
    ensures receipts { let rendered = rendered_step (snapped seen.now) in
        receipts.new.items ≡ received ready.place ready.step rendered receipts.old.items }
    ensures number { let rendered = rendered_step (snapped seen.now) in
        vec_len receipts.new ≡ vec_len receipts.old + count rendered }
    ensures parts { share.new.parts ≡ 1 }
    ensures amount { let rendered = rendered_step (snapped seen.now) in
        share.new.amount ≡ share.old.amount + count rendered }
    ensures total { let rendered = rendered_step (snapped seen.now) in
        book.new.total ≡ book.old.total + count rendered }
{
    let answer = snapped(seen);
    receive_answer(receipts, share, book, log, ready, &answer);
    drop(answer);
}

impl<L: Ledger> Ended<L> {
    /// Makes the step of the worker in the namespace, and adds its receipt.
    pub(crate) fn work<M: Retention>(
        &mut self,
        alloc: Global,
        seat: &mut Seat<L, M>,
        worker: u64,
        namespace: &Text,
        step: WorkerStep<'_>,
    ) -> Result<Reply, Refusal>
        ensures logged { LogsWorkerStep step.entry worker namespace.now self.old.held result self.new.held }
        ensures received { let made = worker_step step.entry worker namespace.now in
            let place = next_place self.old.held in
            seat.new ≡ received place made (rendered_step result) seat.old }
        ensures seat { let made = worker_step step.entry worker namespace.now in
            Receives made seat.old result seat.new }
    {
        let Ended { held, book, .. } = self;
        let Seat {
            receipts,
            share,
            ..
        } = seat;
        let row = row_for(held.core(), worker, namespace, &step);
        let prepared = prepare_work(alloc, held, receipts, step.kind(), worker, namespace, row);
        let (entry, ready) = match prepared {
            Ok(made) => made,
            Err(refusal) => {
                drop(step);
                return Err(refusal);
            }
        };
        let answer = held.work_as(alloc, entry, worker, namespace, step);
        receive_answer(receipts, share, book, held.log(), ready, &answer);
        answer
    }

    /// Makes the step in which a worker takes a snapshot, and adds its receipt.
    pub(crate) fn snap<M: Retention>(
        &mut self,
        alloc: Global,
        seat: &mut Seat<L, M>,
        worker: u64,
        namespace: &Text,
    ) -> Result<Shared<Snapshot>, Refusal>
        ensures logged { let step = Step.Snap worker namespace.now in
            Logs step self.old.held (snapped result) self.new.held }
        ensures kept { let w = self.new.held.state.world in
            IfOk result (λ seen. kept_at w worker namespace.now ≡ Some seen) }
        ensures received { let place = next_place self.old.held in
            let step = Step.Snap worker namespace.now in
            seat.new ≡ received place step (rendered_step (snapped result)) seat.old }
        ensures seat { let step = Step.Snap worker namespace.now in
            Receives step seat.old (snapped result) seat.new }
    {
        let Ended { held, book, .. } = self;
        let Seat {
            receipts,
            share,
            ..
        } = seat;
        let (entry, ready) = prepare_work(
            alloc,
            held,
            receipts,
            Work::Snap,
            worker,
            namespace,
            None,
        )?;
        let seen = held.snap_as(alloc, entry, worker, namespace);
        receive_snapped(receipts, share, book, held.log(), ready, &seen);
        seen
    }
}
