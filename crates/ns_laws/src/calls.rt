//! Laws of calls: each is one step, or a refusal that changes nothing.

ghost use Rattle.ns_laws.specs.Calls.{
  CallIsOneStep,
  ForeignFinishOnlySo,
  ForeignPlanOnlySo,
  MemoryComesLast,
  NotEnabledIsNoStep,
  OwnFinishIsRefusedOnlySo,
  OwnPlanIsRefusedOnlySo,
  RefusedCallChangesNothing,
};

/// A call that makes a step is a run of that step with its answer, unless there was no memory or the step was not enabled.
pub fn call_is_one_step()
    ensures { CallIsOneStep }
{}

/// A refused call changes nothing.
pub fn refused_call_changes_nothing()
    ensures { RefusedCallChangesNothing }
{}

/// A call is refused for want of memory only where its step would have had a reply.
pub fn memory_comes_last()
    ensures { MemoryComesLast }
{}

/// A call is refused as not enabled only where no run has its step.
pub fn not_enabled_is_no_step()
    ensures { NotEnabledIsNoStep }
{}

/// A plan of the snapshot that the worker keeps is refused only where the worker cannot submit it.
pub fn own_plan_is_refused_only_so()
    ensures { OwnPlanIsRefusedOnlySo }
{}

/// A plan is refused as foreign only while the worker could submit one, which is after its snapshot, and only if it keeps another
/// snapshot.
pub fn foreign_plan_only_so()
    ensures { ForeignPlanOnlySo }
{}

/// A finish by the snapshot that the worker keeps is refused only where the worker cannot finish.
pub fn own_finish_is_refused_only_so()
    ensures { OwnFinishIsRefusedOnlySo }
{}

/// A finish is refused as foreign only if the worker keeps another snapshot, and only while it might end its evaluation: it has
/// taken a snapshot and not submitted since, all of its plan was applied, or it has no tries left.
pub fn foreign_finish_only_so()
    ensures { ForeignFinishOnlySo }
{}
