//! Laws of plans: what the plan of a snapshot stops, places and evicts, and what Apply does of it.

ghost use Rattle.ns_laws.specs.Planning.{
  PlacesGroups,
  PlacesOnFitNodes,
  FillsGroups,
  LimitsAreReal,
  PlacesInOrder,
  PlacesByChoice,
  StopsNotWanted,
  StopsOutdated,
  EndedJobStops,
  EvictsLowerOnly,
  PlansWithinCapacity,
  PlansWithinQuota,
  QuotaEndsPlan,
  AppliesByNode,
  KeepsToQuota,
  SnapshotsKeepOwnJob,
  StopsOwnJob,
};

/// Each placement of a plan is of a task group of the job, which is not stopped, and has that group's size.
pub fn places_groups()
    ensures { PlacesGroups }
{}

/// Each placement of a plan is on a node of the snapshot that is ready and eligible and meets every constraint of the
/// job.
pub fn places_on_fit_nodes()
    ensures { PlacesOnFitNodes }
{}

/// A plan for a job that is not stopped brings no task group above its count. Unless the plan reports a limit, the
/// quota or that no node could take an allocation, each group has its count: the allocations that run, those of a
/// batch job that completed, and those that the plan places.
pub fn fills_groups()
    ensures { FillsGroups }
{}

/// A plan reports at most one limit: the quota, which the snapshot has then, or that no node could take an allocation.
/// It reports a limit only if some task group of the job stays below its count.
pub fn limits_are_real()
    ensures { LimitsAreReal }
{}

/// The placements of a plan come in the order of the job's task groups.
pub fn places_in_order()
    ensures { PlacesInOrder }
{}

/// A plan for a job that is not stopped places one allocation after another. Each goes to the best node with room. If
/// no node has room, it goes to the node whose victims cost least, and evicts these, as the laws of placement say. For
/// the first placement, what is left of a node is its capacity without what its live allocations take that the plan
/// does not stop. Each placement takes its size from its node, and its victims are gone there. A plan that does not
/// report the quota as its limit reports that no node could take an allocation exactly if it leaves one out: when its
/// turn came, no node had room for it, and no node had victims.
pub fn places_by_choice()
    ensures { PlacesByChoice }
{}

/// A plan stops only live allocations of its job. If the job is not stopped, each of them was made for an earlier
/// version of the job, or is of a task group that has more allocations than its count.
pub fn stops_not_wanted()
    ensures { StopsNotWanted }
{}

/// A plan for a job that is not stopped stops every live allocation that was made for an earlier version of the job.
pub fn stops_outdated()
    ensures { StopsOutdated }
{}

/// A plan for a job that is gone or stopped places nothing, and stops all live allocations of the job.
pub fn ended_job_stops()
    ensures { EndedJobStops }
{}

/// Each allocation that a plan evicts is live on the node of the placement that evicts it, and its priority is lower
/// than the job's by 10 or more. The plan does not stop it as well.
pub fn evicts_lower_only()
    ensures { EvictsLowerOnly }
{}

/// Take a node of the snapshot that has room for its live allocations, and from which the plan evicts nothing. It has
/// room for those that the plan does not stop together with those that the plan places there, in each resource.
pub fn plans_within_capacity()
    ensures { PlansWithinCapacity }
{}

/// A plan places something, and stops and evicts nothing. Then the limits of the quota that the snapshot has allow what
/// was in use together with what the plan places, in each resource.
pub fn plans_within_quota()
    ensures { PlansWithinQuota }
{}

/// A plan reports the quota as its limit, and stops and evicts nothing. Then an allocation of some task group of the
/// job is over the quota: the limits that the snapshot has do not allow, in some resource, what was in use together
/// with what the plan places and with that allocation.
pub fn quota_ends_plan()
    ensures { QuotaEndsPlan }
{}

/// In a valid state, Apply does, for each node of the snapshot, all placements of the plan there or none of them. It
/// does them only if the node is still ready and eligible and meets every constraint of the job. The placements that it
/// does become new allocations, in the order of the plan. The reply has the numbers of these, and no other number is
/// given out. It also has the names of the nodes whose placements are not done.
pub fn applies_by_node()
    ensures { AppliesByNode }
{}

/// In a valid state, Apply places an allocation for a namespace that names a quota. After the step, the limits of the
/// quota allow what it has in use, in each resource: what the live allocations of all namespaces that name it take
/// together.
pub fn keeps_to_quota()
    ensures { KeepsToQuota }
{}

/// In every state that the server reaches from its opening state, by steps within the limits: each allocation that a
/// worker's snapshot has as its job's own is there still, under its number in the namespace. It is of that job, and all
/// but its statuses and its modify index is as it was in the snapshot.
pub fn snapshots_keep_own_job()
    ensures { SnapshotsKeepOwnJob }
{}

/// In every state that the server reaches from its opening state, by steps within the limits: Apply stops an allocation
/// only if it is of the job whose plan is applied, in that job's namespace. One of another job or of another namespace
/// ends in an Apply only if the plan evicts it.
pub fn stops_own_job()
    ensures { StopsOwnJob }
{}
