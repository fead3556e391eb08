//! What waiting threads look at, and which of them a call wakes.

ghost use Rattle.std.specs.Prelude.{◌≡◌};
ghost use Rattle.ns_work_lock.specs.Moments.{is_any, is_applied, is_left, is_of_all, is_planned, offers_work, wakes_of};

use ns_driver::WorkerStep;
use ns_types::key::EvalKey;
use ns_types::text::Text;
use ns_types::worker::Phase;

/// What a thread that enters and leaves is.
#[derive(Clone, Copy)]
pub enum Role {
    Worker,
    Applier,
}

/// Whether the applier has begun, and whether it has left.
#[derive(Clone, Copy)]
pub(crate) enum Stage {
    Awaited,
    Running,
    Left,
}

impl Stage {
    pub(crate) fn is_left(self) -> bool
        ensures { result ≡ is_left self }
    {
        matches!(self, Stage::Left)
    }
}

/// Which of the waiting threads a call wakes.
#[derive(Clone, Copy)]
pub(crate) enum Wakes {
    /// Nobody: the call leaves nothing for others to do.
    Nobody,
    /// An idle worker, if there is a next evaluation.
    WhereServed,
    /// An idle worker, if there is a next evaluation; and all threads if the server is closed, since workers end once they are
    /// idle.
    WhereServedOrClosed,
    /// The applier, for the plan that was handed in.
    Planned,
    /// The workers whose plans wait, since one was applied; and an idle worker, if there is a next evaluation.
    Applied,
    /// All waiting threads.
    All,
}

impl Wakes {
    /// The threads that a worker's step wakes.
    pub(crate) fn of(step: &WorkerStep<'_>) -> Wakes
        ensures { result ≡ wakes_of step.now }
    {
        match step {
            WorkerStep::Dequeue(_) => Wakes::WhereServed,
            WorkerStep::Submit(_) => Wakes::Planned,
            WorkerStep::Apply => Wakes::Applied,
            WorkerStep::Finish(_) | WorkerStep::Nack => Wakes::WhereServedOrClosed,
        }
    }

    /// Whether an idle worker is woken, if there is a next evaluation.
    pub(crate) fn offers_work(self) -> bool
        ensures { result ≡ offers_work self }
    {
        matches!(
            self,
            Wakes::WhereServed | Wakes::WhereServedOrClosed | Wakes::Applied
        )
    }

    /// Whether the workers whose plans wait are woken.
    pub(crate) fn is_applied(self) -> bool
        ensures { result ≡ is_applied self }
    {
        matches!(self, Wakes::Applied)
    }

    /// Whether the applier is woken for a plan.
    pub(crate) fn is_planned(self) -> bool
        ensures { result ≡ is_planned self }
    {
        matches!(self, Wakes::Planned)
    }

    /// Whether all waiting threads are woken, by whether the server is closed.
    pub(crate) fn is_of_all(self, is_closed: bool) -> bool
        ensures { result ≡ is_of_all self is_closed }
    {
        match self {
            Wakes::All => true,
            Wakes::WhereServedOrClosed => is_closed,
            _ => false,
        }
    }
}

/// The threads that are notified.
#[derive(Clone, Copy)]
pub(crate) struct Notified {
    /// One worker that waits for an evaluation.
    pub(crate) idle: bool,
    /// The workers that wait for their plans to be applied.
    pub(crate) planners: bool,
    pub(crate) applier: bool,
    /// All waiting threads.
    pub(crate) all: bool,
}

impl Notified {
    pub(crate) fn is_any(self) -> bool
        ensures { result ≡ is_any self }
    {
        self.idle || self.planners || self.applier || self.all
    }
}

/// What a thread waits for.
#[derive(Clone, Copy)]
pub enum WaitsFor {
    /// A worker waits for an evaluation.
    Work,
    /// A worker waits for its plan to be applied.
    Apply,
    /// The applier waits for a plan, or for the log to be rotated.
    Plans,
}

/// What waiting threads see of a shared server at one moment.
#[derive(Clone, Copy)]
pub struct Moment {
    /// How many changes there were that others wait for. It wraps.
    pub changes: u64,
    pub is_closed: bool,
    /// How many workers entered and have not left.
    pub workers: u64,
    /// Whether the applier entered and left.
    pub applier_left: bool,
}

/// What a worker is busy with.
#[derive(Drop)]
pub struct BusyWorker {
    pub namespace: Text,
    /// The number of its evaluation there.
    pub evaluation: u64,
    pub phase: Phase,
    /// How often its plan may still be tried.
    pub tries: u64,
}

/// A worker whose plan is next, and the namespace that it works for.
#[derive(Drop)]
pub struct Planner {
    pub worker: u64,
    pub namespace: Text,
}

/// What a worker sees before its turn, all of one moment.
#[derive(Drop)]
pub struct WorkerView {
    pub seen: Moment,
    pub busy: Option<BusyWorker>,
    /// The next evaluation, if the worker is idle.
    pub next: Option<EvalKey>,
}

/// What the applier sees before its turn, all of one moment.
#[derive(Drop)]
pub struct ApplierView {
    pub seen: Moment,
    /// Whether the log is to be rotated.
    pub is_due: bool,
    /// The worker with the next plan.
    pub planner: Option<Planner>,
}
