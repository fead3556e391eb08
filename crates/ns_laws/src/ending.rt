//! Laws of the life of an allocation: how it comes, what it keeps, which steps end it, and when it is gone. Also: which
//! evaluations a step adds.

ghost use Rattle.ns_laws.specs.Ending.{
  EndsOnlySo,
  EndedStaysEnded,
  AllocationIsFixed,
  ComesOnlyByPlan,
  LostIsEvaluated,
  EvictedIsEvaluated,
  OneIsAdded,
  AddedOnlySo,
  GoneWithNamespace,
};

/// From a valid state, a live allocation is still there after any step. If it is not live any more, the step is one of
/// five: a request in its namespace to stop it; an Apply of a plan of its namespace that stops it; an Apply of a plan
/// that evicts it; a report by the client on its node that it has completed or failed; or its node is set down. A plan
/// ends it only while the job that the plan is for is as it was in the plan's snapshot.
pub fn ends_only_so()
    ensures { EndsOnlySo }
{}

/// From a valid state, no step makes an allocation live again once it is not, and its desired status stays what it is.
/// Its client status changes only by a report of the client on its node, and only while it is `pending` or `running`.
pub fn ended_stays_ended()
    ensures { EndedStaysEnded }
{}

/// From a valid state, an allocation keeps in any step its job, group and evaluation, its pool, node and place, its
/// size and priority, the version of its job, and its create index.
pub fn allocation_is_fixed()
    ensures { AllocationIsFixed }
{}

/// From a valid state, a new allocation comes only by an Apply of a plan of its own namespace that places it. It is to
/// run, and its client status is `pending`. Its job is there, is not stopped and has not changed since the plan's
/// snapshot, and its node is there, ready and eligible.
pub fn comes_only_by_plan()
    ensures { ComesOnlyByPlan }
{}

/// Once a node is set down, each job that had a live allocation there, of whichever namespace, has a new evaluation,
/// which is pending in the job's namespace. It has the type, the priority and the pool of the job. If the job is gone,
/// it has the type `service`, the pool of the lost allocation, and the priority of an allocation of the job that was
/// live in that pool.
pub fn lost_is_evaluated()
    ensures { LostIsEvaluated }
{}

/// From a valid state, once a plan is applied, each job that had an allocation evicted by it, of whichever namespace,
/// has a new evaluation, which is pending in the job's namespace. It has the type, the priority and the pool of the
/// job. If the job is gone, it has the type `service`, the pool of the evicted allocation, and the priority of an
/// allocation of the job that was live in that pool.
pub fn evicted_is_evaluated()
    ensures { EvictedIsEvaluated }
{}

/// From a valid state, a step adds at most one evaluation of a job of a namespace, however many allocations the job
/// loses.
pub fn one_is_added()
    ensures { OneIsAdded }
{}

/// From a valid state, a step adds an evaluation only of a job that the step registers or deregisters, of one of which a
/// worker finishes an evaluation, as its follower, or of one that had a live allocation before the step which is not
/// live after it. So a step of a node, or an Apply, adds none of a job that loses no allocation.
pub fn added_only_so()
    ensures { AddedOnlySo }
{}

/// From a valid state, an allocation is gone only once it is not live, and only with its namespace, which is deleted.
pub fn gone_with_namespace()
    ensures { GoneWithNamespace }
{}
