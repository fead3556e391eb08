//! Laws of what a plan frees: which allocations of a task group it stops, and the room that it has with its stops and
//! evictions.

ghost use Rattle.ns_laws.specs.Surplus.{
  SnapshotsAreOrderly,
  StopsSurplus,
  StopsNewest,
  StopsNoOther,
  EvictsWithinCapacity,
  FreesWithinQuota,
  NamesUndoneOnly,
};

/// In a valid state, a snapshot of the state has the job's allocations in the order of their numbers, and no two task
/// groups of its job have the same name.
pub fn snapshots_are_orderly()
    ensures { SnapshotsAreOrderly }
{}

/// A plan for a job that is not stopped lets a task group keep as many live allocations of the job's present version as
/// the group's count, less those of a batch job that completed. It stops exactly as many as there are over that.
pub fn stops_surplus()
    ensures { StopsSurplus }
{}

/// A plan for a job that is not stopped stops, of the live allocations of a task group that were made for the present
/// version of the job, the newest: each that it stops has a higher number than each that it does not stop.
pub fn stops_newest()
    ensures { StopsNewest }
{}

/// A plan for a job that is not stopped stops no other allocation: each one of the job that it stops is live. It was
/// made for an earlier version of the job, or is of a task group that has more allocations than its count.
pub fn stops_no_other()
    ensures { StopsNoOther }
{}

/// Take a node of the snapshot that has room for its live allocations. It has room for those that the plan neither
/// stops nor evicts there, together with those that the plan places there, in each resource.
pub fn evicts_within_capacity()
    ensures { EvictsWithinCapacity }
{}

/// A plan places something. Then the limits of the quota that the snapshot has allow, in each resource, what was in use
/// together with what the plan places, less what the allocations take that it stops or evicts. Of those that it evicts,
/// only those count that are of a namespace which names the quota.
pub fn frees_within_quota()
    ensures { FreesWithinQuota }
{}

/// In a valid state, the reply to Apply has the names of the nodes whose placements are not done. None of the
/// allocations that Apply makes is on one of these nodes.
pub fn names_undone_only()
    ensures { NamesUndoneOnly }
{}
