//! Laws of the evaluation broker: which evaluations are ready, with a worker or blocked, and what becomes of them.

ghost use Rattle.ns_laws.specs.Serving.{
  OneUnderWay,
  WorkersHaveTheirOwn,
  ListsAreTrue,
  OneIsBlocked,
  NoneIsForgotten,
  EvaluationGoesOn,
  EndedEvaluationStays,
  FinishWakesNone,
  NumbersAreGivenOnce,
};

/// In a valid state, of each job of a namespace at most one evaluation is ready or with a worker.
pub fn one_under_way()
    ensures { OneUnderWay }
{}

/// In a valid state, a worker's evaluation is pending. It is not in the list of ready ones, and not in that of
/// blocked ones. No other worker has an evaluation of the same job of the namespace.
pub fn workers_have_their_own()
    ensures { WorkersHaveTheirOwn }
{}

/// In a valid state, the ready evaluations are pending. The blocked list has the evaluations with the status
/// `blocked` and no others. No evaluation is in both lists, or twice in one of them.
pub fn lists_are_true()
    ensures { ListsAreTrue }
{}

/// In a valid state, at most one evaluation of each job of a namespace is blocked.
pub fn one_is_blocked()
    ensures { OneIsBlocked }
{}

/// In every state that the server reaches from its opening state, by steps within the limits: where a job has a
/// pending evaluation, one of its evaluations is ready or with a worker. So no pending evaluation is forgotten.
pub fn none_is_forgotten()
    ensures { NoneIsForgotten }
{}

/// From a valid state, an evaluation goes on in any step, or it has ended and its namespace is deleted. It keeps its
/// job, type, priority and pool, its trigger, the evaluation that it follows, and what it was blocked for. Its status
/// stays, or it was blocked and is pending now, or it was open and has ended: its worker finishes it or gives it back
/// for the third time, or it is blocked and a worker finishes another evaluation of its job.
pub fn evaluation_goes_on()
    ensures { EvaluationGoesOn }
{}

/// From a valid state, no step makes an ended evaluation open again: its status stays as it is.
pub fn ended_evaluation_stays()
    ensures { EndedEvaluationStays }
{}

/// From a valid state, a worker's `Finish` wakes no evaluation: each one that was in the blocked list is in it still,
/// or it is canceled.
pub fn finish_wakes_none()
    ensures { FinishWakesNone }
{}

/// Over any run from a valid state, by steps within the limits of which none deletes the namespace, the number of an
/// evaluation or an allocation is never given again: the evaluation or the allocation is there still, and is the same
/// one.
pub fn numbers_are_given_once()
    ensures { NumbersAreGivenOnce }
{}
