//! The state after an Apply whose plan stands, and when an Apply passes the bound of a counter. Each law is the
//! contract of a function that does nothing.

ghost use Rattle.ns_applier.specs.Counters.{ApplyIsJudged, ApplyPasses, RefusedPassesNothing};
ghost use Rattle.ns_applier.specs.Counters.{RoomIsLeft};
ghost use Rattle.ns_applier.specs.Laws.{AllocationsEnd, AllocationsMade, AllocationsStay};
ghost use Rattle.ns_applier.specs.Laws.{AppliedIsMarked, CommittedAreThere, EndedWereLive};
ghost use Rattle.ns_applier.specs.Laws.{EvaluationsMade, EvaluationsStay, MadeIsPending};
ghost use Rattle.ns_applier.specs.Laws.{NamespacesStay, NoVictimIsStopped, NumbersGoOn};
ghost use Rattle.ns_applier.specs.Laws.{PlacesCounted, PlanIsForJob, RestStays, VictimsApart};

/// The plan of a snapshot without a job places nothing.
pub fn plan_is_for_job()
    ensures { PlanIsForJob }
{}

/// An Apply leaves the same namespaces, and of each all but its evaluations, allocations and last numbers.
pub fn namespaces_stay()
    ensures { NamespacesStay }
{}

/// An Apply gives a number for each placement, and one for each job that loses an allocation.
pub fn numbers_go_on()
    ensures { NumbersGoOn }
{}

/// An Apply stops and evicts allocations, each by its key, and leaves all others as they were.
pub fn allocations_stay()
    ensures { AllocationsStay }
{}

/// An Apply makes a pending allocation for each placement, on its node and in the order of the plan.
pub fn allocations_made()
    ensures { AllocationsMade }
{}

/// The allocations that an Apply stops or evicts were live.
pub fn ended_were_live()
    ensures { EndedWereLive }
{}

/// The allocations that an Apply stops or evicts end, and no other allocation does.
pub fn allocations_end()
    ensures { AllocationsEnd }
{}

/// An Apply never both stops and evicts an allocation.
pub fn no_victim_is_stopped()
    ensures { NoVictimIsStopped }
{}

/// Evictions that count on different nodes are of different allocations.
pub fn victims_apart()
    ensures { VictimsApart }
{}

/// An Apply leaves each evaluation as it was.
pub fn evaluations_stay()
    ensures { EvaluationsStay }
{}

/// An Apply makes a pending evaluation for each job that loses an allocation.
pub fn evaluations_made()
    ensures { EvaluationsMade }
{}

/// An evaluation that an Apply makes is pending, and has no index before the step settles.
pub fn made_is_pending()
    ensures { MadeIsPending }
{}

/// The committed nodes exist.
pub fn committed_are_there()
    ensures { CommittedAreThere }
{}

/// An Apply counts the placements on their nodes, and changes nothing else of a pool.
pub fn places_counted()
    ensures { PlacesCounted }
{}

/// An Apply leaves the quotas and the lists, except that new evaluations may follow the others in the ready list.
pub fn rest_stays()
    ensures { RestStays }
{}

/// At its end an Apply writes the worker's row and takes its plan out of the list.
pub fn applied_is_marked()
    ensures { AppliedIsMarked }
{}

/// Whether an Apply passes the bound of a counter depends on what it ends and gives, by the state before it.
pub fn apply_passes()
    ensures { ApplyPasses }
{}

/// An Apply of a plan that no longer stands passes no bound.
pub fn refused_passes_nothing()
    ensures { RefusedPassesNothing }
{}

/// Whether a worker's Apply is made or refused is known before anything is written.
pub fn apply_is_judged()
    ensures { ApplyIsJudged }
{}

/// If an Apply passes no bound, there are numbers and places for all that is new.
pub fn room_is_left()
    ensures { RoomIsLeft }
{}
