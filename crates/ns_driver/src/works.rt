//! What a driven worker needs of a server.

ghost use Rattle.std.specs.Prelude.{◌≡◌, IfOk, Some, option_copied, option_map};
ghost use Rattle.ns_types.specs.declared.step.Step.TheVariants as Step;
ghost use Rattle.ns_types.specs.Working.Looks.{row_of, served_ready};
ghost use Rattle.ns_broker.specs.Looking.{busy_fields, busy_of};
ghost use Rattle.ns_broker.specs.Snapping.{kept_at};
ghost use Rattle.ns_driver.specs.Attempting.{Attempts};
ghost use Rattle.ns_driver.specs.Calls.{snapped};
ghost use Rattle.ns_driver.specs.WorkerSteps.{AttemptsWorkerStep};

use crate::worker_step::WorkerStep;
use ns_broker::Busy;
use ns_steps::chain::Server;
use ns_types::key::EvalKey;
use ns_types::refusal::Refusal;
use ns_types::reply::Reply;
use ns_types::shared::Shared;
use ns_types::snapshot::Snapshot;
use ns_types::text::Text;
use std::alloc::Global;

/// A server whose workers make steps. A call that makes none changes nothing.
pub trait Works: Server {
    ghost use Rattle.ns_types.specs.declared.refusal.Refusal.{Refusal};
    ghost use Rattle.ns_types.specs.declared.step.Step.{Step as AStep};

    // The refusals with which a call for that step may make none.
    ghost lacks: { Self → AStep → Refusal → Type 0 };

    /// The next evaluation to be dequeued: the first of those with the highest priority.
    fn served(&self) -> Option<&EvalKey>
        ensures { option_copied result ≡ served_ready (Self.state self.now).world };

    /// The evaluation that the worker has, and how far it is. None: it is idle.
    fn phase(&self, worker: u64) -> Option<Busy<'_>>
        ensures { option_map busy_fields result
            ≡ option_map busy_of (row_of (Self.state self.now).world worker) };

    /// Makes the worker's step in the namespace, and returns the reply.
    fn work(
        &mut self,
        alloc: Global,
        worker: u64,
        namespace: &Text,
        step: WorkerStep<'_>,
    ) -> Result<Reply, Refusal>
        ensures { AttemptsWorkerStep Self.state Self.notes lacks step.entry worker namespace.now
            self.old result self.new };

    /// Makes the step in which the worker takes a snapshot for its evaluation, and returns the snapshot.
    fn snap(
        &mut self,
        alloc: Global,
        worker: u64,
        namespace: &Text,
    ) -> Result<Shared<Snapshot>, Refusal>
        ensures made { let step = Step.Snap worker namespace.now in
            Attempts Self.state Self.notes lacks self.old step (snapped result) self.new }
        ensures kept { let w = (Self.state self.new).world in
            IfOk result (λ seen. kept_at w worker namespace.now ≡ Some seen) };
}
