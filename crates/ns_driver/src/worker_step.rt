//! What a worker does in a step, with the plan that it brings.

ghost use Rattle.std.specs.Prelude.{◌≡◌};
ghost use Rattle.ns_driver.specs.WorkerSteps.{kind_of};

use ns_steps::work::Work;
use ns_types::planned::Planned;

/// What a worker does in a step, with the plan that it brings. Taking a snapshot has a call of its own, since that call returns
/// the snapshot.
#[derive(Drop)]
pub enum WorkerStep<'a> {
    /// It dequeues the evaluation with that number.
    Dequeue(u64),
    Submit(Planned),
    Apply,
    Finish(&'a Planned),
    Nack,
}

impl WorkerStep<'_> {
    pub fn kind(&self) -> Work
        ensures { result ≡ kind_of self.now }
    {
        match self {
            WorkerStep::Dequeue(evaluation) => Work::Dequeue(*evaluation),
            WorkerStep::Submit(_) => Work::Submit,
            WorkerStep::Apply => Work::Apply,
            WorkerStep::Finish(_) => Work::Finish,
            WorkerStep::Nack => Work::Nack,
        }
    }
}
