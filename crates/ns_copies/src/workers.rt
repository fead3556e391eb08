//! Copies of workers' rows, made by repeating the steps that made the rows. The snapshot and the plan are shared, and not
//! copied.

ghost use Rattle.std.specs.Prelude.{◌≡◌, IfOk, Some, if◌then◌else◌};
ghost use Rattle.ns_types.specs.Working.Worker;
ghost use Rattle.ns_types.specs.declared.worker.Phase.TheVariants as Phase;
ghost use Rattle.ns_copies.specs.Whole.{IsWholeWorker, as_planned};

use crate::copies::Copies;
use ns_types::planned::Planned;
use ns_types::shared::Shared;
use ns_types::snapshot::Snapshot;
use ns_types::worker::{Phase, Worker};
use std::alloc::{AllocError, Global};

/// A copy of the row as it was once its worker had taken that snapshot.
fn snapped(worker: &Worker, kept: &Shared<Snapshot>) -> Result<Worker, AllocError>
    ensures { IfOk result (λ w. w ≡ as_planned Phase.Snapped kept.now worker.now) }
{
    let kept = kept.share()?;
    let took = Worker::took(worker.evaluation(), worker.tries());
    let snapped = took.snapped(kept);
    drop(took);
    Ok(snapped)
}

/// A copy of the row as it was once its worker had submitted that plan.
fn submitted(worker: &Worker, plan: &Planned) -> Result<Worker, AllocError>
    ensures { IfOk result (λ w. w ≡ as_planned Phase.Submitted plan.now worker.now) }
{
    let snapped = snapped(worker, plan.snapshot())?;
    match plan.share() {
        Ok(plan) => {
            let submitted = snapped.submitted(plan);
            drop(snapped);
            submitted
        }
        Err(error) => {
            drop(snapped);
            Err(error)
        }
    }
}

/// A copy of the row as it was once that plan was applied.
fn applied(worker: &Worker, plan: &Planned, has_dropped: bool) -> Result<Worker, AllocError>
    ensures { let phase = if has_dropped then Phase.Dropped else Phase.Applied in
        IfOk result (λ w. w ≡ as_planned phase plan.now worker.now) }
{
    let submitted = submitted(worker, plan)?;
    let applied = submitted.applied(has_dropped, worker.tries());
    drop(submitted);
    applied
}

impl Copies for Worker {
    ghost Seen = { Worker.Worker };

    ghost seen = { λ worker. worker };

    ghost IsWhole = { IsWholeWorker };

    fn copied(&self, _alloc: Global) -> Result<Worker, AllocError> {
        let Some(kept) = self.kept() else {
            return Ok(Worker::took(self.evaluation(), self.tries()));
        };
        let Some(plan) = self.plan() else {
            return snapped(self, kept);
        };
        match self.phase() {
            Phase::Applied => applied(self, plan, false),
            Phase::Dropped => applied(self, plan, true),
            Phase::Took | Phase::Snapped | Phase::Submitted => submitted(self, plan),
        }
    }
}
