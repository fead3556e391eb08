//! Laws of turns: an idle worker takes the evaluation that is next, the plan that is next is applied, none is stuck, and what is
//! shown of this is so.

ghost use Rattle.ns_laws.specs.Turns.{
  BusyIsShown,
  IdleIsShown,
  NextIsShown,
  NextIsTaken,
  NextPlanIsApplied,
  NextPlanIsShown,
  NoWorkerIsStuck,
};

/// The evaluation that the server shows as the next one to take is the first of those ready with the greatest priority.
pub fn next_is_shown()
    ensures { NextIsShown }
{}

/// The plan that the server shows as the next one to apply is the first of the submitted ones with the greatest priority.
pub fn next_plan_is_shown()
    ensures { NextPlanIsShown }
{}

/// The server shows no row of a worker exactly if the worker is busy for no namespace.
pub fn idle_is_shown()
    ensures { IdleIsShown }
{}

/// The row that the server shows of a busy worker is the worker's in the namespace that it shows.
pub fn busy_is_shown()
    ensures { BusyIsShown }
{}

/// In a valid state, a worker can take an evaluation exactly if it is idle and the evaluation is the next one: of those ready
/// with the greatest priority, the first.
pub fn next_is_taken()
    ensures { NextIsTaken }
{}

/// In a valid state, a worker's plan can be applied exactly if it is the next one: of the submitted plans with the greatest
/// priority, the first.
pub fn next_plan_is_applied()
    ensures { NextPlanIsApplied }
{}

/// In a valid state, no busy worker is stuck: its plan waits among the submitted ones, or it can look, submit its plan or end
/// its evaluation.
pub fn no_worker_is_stuck()
    ensures { NoWorkerIsStuck }
{}
