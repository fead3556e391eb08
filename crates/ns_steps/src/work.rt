//! Names the steps of a worker.

ghost use Rattle.std.specs.Prelude.{◌≡◌};
ghost use Rattle.ns_steps.specs.Works.{step_of};

use ns_types::step::Step;
use ns_types::text::Text;

/// What a worker does in a step.
#[derive(Clone, Copy)]
pub enum Work {
    /// It dequeues the evaluation with that number.
    Dequeue(u64),
    Snap,
    Submit,
    Apply,
    Finish,
    Nack,
}

/// The step in which a worker does that in the namespace.
pub fn step_of(work: Work, worker: u64, namespace: Text) -> Step
    ensures { result ≡ step_of work worker namespace }
{
    match work {
        Work::Dequeue(evaluation) => Step::Dequeue(worker, namespace, evaluation),
        Work::Snap => Step::Snap(worker, namespace),
        Work::Submit => Step::Submit(worker, namespace),
        Work::Apply => Step::Apply(worker, namespace),
        Work::Finish => Step::Finish(worker, namespace),
        Work::Nack => Step::Nack(worker, namespace),
    }
}
