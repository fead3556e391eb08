// A worker dequeues an evaluation and takes a snapshot. A call that was refused for want of memory is made again.
ghost use Rattle.std.specs.Prelude.{◌≡◌, IfOk, Some};
ghost use Rattle.ns_broker.specs.Snapping.{kept_at};

use crate::state::owned::seen;
use ns_core::Core;
use ns_types::refusal::Refusal;
use ns_types::reply::{Content, Reply};
use ns_types::shared::Shared;
use ns_types::snapshot::Snapshot;
use ns_types::text::Text;

fn taken(answer: &Result<Reply, Refusal>) -> Result<Option<u64>, Refusal> {
    match answer {
        Ok(reply) => match &reply.content {
            Content::Took(number) => Ok(Some(*number)),
            _ => Ok(None),
        },
        Err(refusal) => Err(*refusal),
    }
}

/// The number of the evaluation that was dequeued, or the refusal.
pub(crate) fn take(
    core: &mut Core,
    worker: u64,
    namespace: &Text,
    number: u64,
) -> Result<Option<u64>, Refusal> {
    let answer = match core.dequeue(worker, namespace, number) {
        Err(Refusal::Memory) => core.dequeue(worker, namespace, number),
        answer => answer,
    };
    seen(answer, taken)
}

/// Takes a snapshot. It is the one that the worker's row keeps.
pub(crate) fn look(
    core: &mut Core,
    worker: u64,
    namespace: &Text,
) -> Result<Shared<Snapshot>, Refusal>
    ensures { let w = core.new.world in
        IfOk result (λ seen. kept_at w worker namespace.now ≡ Some seen) }
{
    match core.snap(worker, namespace) {
        Err(Refusal::Memory) => core.snap(worker, namespace),
        answer => answer,
    }
}
