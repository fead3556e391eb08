//! Laws of workers: what each step of a worker changes, and what it leaves as it was.

ghost use Rattle.ns_laws.specs.Workers.{DequeuedIsTaken, SnapshotIsTrue, SubmittedWaitsLast};
ghost use Rattle.ns_laws.specs.Workers.{AppliedCountsTries};
ghost use Rattle.ns_laws.specs.Workers.{NackedIsGivenBack, FinishedIsEnded, WorkKeepsJobs};
ghost use Rattle.ns_laws.specs.Workers.{EndedIsIdle, WorkStaysInside, ApplyKeepsOtherWorkers};

/// Once an evaluation is dequeued, the worker, which was idle in every namespace, has it. The evaluation was the next
/// of those ready, and is not ready any more. It has five tries if its job is a service job, and two if it is a batch
/// job. Nothing else changes.
pub fn dequeued_is_taken()
    ensures { DequeuedIsTaken }
{}

/// In a valid state, once a worker has taken a snapshot, it keeps the snapshot, and the snapshot shows exactly what is
/// there: the evaluation, the job or none, the job's own allocations, the nodes of the pool with what is live on them,
/// the limits and the use of the quota, the namespaces that name it, and the last releases. The live allocations of a
/// node stand in the order in which they were placed. Nothing else changes.
pub fn snapshot_is_true()
    ensures { SnapshotIsTrue }
{}

/// Once a worker has submitted its plan, the plan is the last of those that wait to be applied. It is the plan of the
/// snapshot that the worker took last and still keeps, and it stops or places something. Nothing else changes.
pub fn submitted_waits_last()
    ensures { SubmittedWaitsLast }
{}

/// Once a plan is applied, the worker whose plan it was has the same evaluation and keeps the same snapshot. Its plan
/// does not wait any more, and the others wait in their order. The worker's phase is Dropped if the reply names a node,
/// or if the plan no longer stood, as its job had changed since the snapshot; otherwise it is Applied. If an allocation
/// was made or a live one was stopped, the worker has all tries again: five for a service job, and two for a batch job.
/// If not, it has one try less if its phase is Dropped, and as many as before if it is Applied.
pub fn applied_counts_tries()
    ensures { AppliedCountsTries }
{}

/// Once a worker has nacked its evaluation, whose plan does not wait to be applied, the worker has it no more. Up to
/// its second nack the evaluation is ready again, as the last one. At its third it has failed, and another evaluation
/// of the job becomes ready if one is pending and none of the job is ready or with a worker. Other evaluations, jobs
/// and allocations are as they were.
pub fn nacked_is_given_back()
    ensures { NackedIsGivenBack }
{}

/// In a valid state, once a worker has finished its evaluation, the worker is idle. The evaluation is complete, or has
/// failed if no try is left. The job's blocked evaluation, if there was one, is canceled. A follower is there exactly
/// if the evaluation failed or its plan did not place each allocation that was missing: it is the last of those
/// blocked, or it is pending, as it missed a release after the snapshot. After a failure no quota limits the follower,
/// and it escapes classes. Otherwise the snapshot's quota limits it exactly if the plan reports the quota as its limit,
/// and it escapes classes exactly if some constraint of the job does: one on the node's name, or on an attribute that
/// is unique to a node. Its infeasible classes are exactly the classes of those nodes of the snapshot that do not meet
/// some other constraint of the job. Another evaluation of the job becomes ready if one is pending and none of the job
/// is ready or with a worker. Other evaluations, jobs and allocations are as they were.
pub fn finished_is_ended()
    ensures { FinishedIsEnded }
{}

/// In a valid state, a worker that has finished or nacked its evaluation is idle in every namespace.
pub fn ended_is_idle()
    ensures { EndedIsIdle }
{}

/// No step of a worker, Apply included, changes the record or a job of any namespace.
pub fn work_keeps_jobs()
    ensures { WorkKeepsJobs }
{}

/// In a valid state, a step of a worker other than Apply changes nothing but the rows of its namespace and the lists of
/// evaluations: no row of another namespace, no access list, no pool and no quota.
pub fn work_stays_inside()
    ensures { WorkStaysInside }
{}

/// Apply changes the row of the worker whose plan is applied, and no row of another worker, in whichever namespace.
pub fn apply_keeps_other_workers()
    ensures { ApplyKeepsOtherWorkers }
{}
