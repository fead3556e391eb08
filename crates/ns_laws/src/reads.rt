//! Laws of reads: a read changes nothing, it is answered where what it names is there, and it shows exactly what is
//! there.

ghost use Rattle.ns_laws.specs.Reads.{
  ReadsChangeNothing,
  NotFoundWhereMissing,
  ReadsAreAnswered,
  JobIsShown,
  JobsAreListed,
  EvaluationIsShown,
  EvaluationsAreListed,
  JobEvaluationsAreListed,
  AllocationIsShown,
  AllocationsAreListed,
  JobAllocationsAreListed,
  NamespaceIsShown,
  NamespacesAreListed,
  EventsAreListed,
  UsageIsOfLive,
  QuotaIsShown,
  QuotasAreListed,
  PolicyIsShown,
  PoolIsShown,
  PoolsAreListed,
  NodesAreListed,
};

/// A read changes nothing, whatever its answer is.
pub fn reads_change_nothing()
    ensures { ReadsChangeNothing }
{}

/// A read is refused with `NotFound` exactly where the request is allowed and what it names is not there.
pub fn not_found_where_missing()
    ensures { NotFoundWhereMissing }
{}

/// In a valid state a read that is allowed is answered by a reply where what it names is there.
pub fn reads_are_answered()
    ensures { ReadsAreAnswered }
{}

/// A reply to the read of a job shows the job that is there, as it is, and its status: a stopped job is dead, and any
/// other is running if it has a live allocation and pending if it has none. The reply has the namespace's index.
pub fn job_is_shown()
    ensures { JobIsShown }
{}

/// A reply to the list of jobs shows exactly the jobs of the namespace whose ids begin with the prefix, as they are and
/// with their statuses, by id, each once.
pub fn jobs_are_listed()
    ensures { JobsAreListed }
{}

/// A reply to the read of an evaluation shows the evaluation that is there, as it is. The reply has the namespace's
/// index.
pub fn evaluation_is_shown()
    ensures { EvaluationIsShown }
{}

/// A reply to the list of evaluations shows exactly the evaluations of the namespace whose ids begin with the prefix,
/// as they are, by number, each once.
pub fn evaluations_are_listed()
    ensures { EvaluationsAreListed }
{}

/// A reply to the list of a job's evaluations shows exactly the evaluations of the namespace that are of the job, as
/// they are, by number, each once.
pub fn job_evaluations_are_listed()
    ensures { JobEvaluationsAreListed }
{}

/// A reply to the read of an allocation shows the allocation that is there, as it is. The reply has the namespace's
/// index.
pub fn allocation_is_shown()
    ensures { AllocationIsShown }
{}

/// A reply to the list of allocations shows exactly the allocations of the namespace whose ids begin with the prefix,
/// as they are, by number, each once.
pub fn allocations_are_listed()
    ensures { AllocationsAreListed }
{}

/// A reply to the list of a job's allocations shows exactly the allocations of the namespace that are of the job, live
/// or not, as they are, by number, each once.
pub fn job_allocations_are_listed()
    ensures { JobAllocationsAreListed }
{}

/// A reply to the read of a namespace shows its name and its record as it is. The reply has the namespace's index.
pub fn namespace_is_shown()
    ensures { NamespaceIsShown }
{}

/// A reply to the list of namespaces shows exactly the records of those namespaces whose record the same secret may
/// read, by name, each once.
pub fn namespaces_are_listed()
    ensures { NamespacesAreListed }
{}

/// A reply to the read of events shows exactly the kept events of the namespace whose index is at least the one that
/// the request names, in their order.
pub fn events_are_listed()
    ensures { EventsAreListed }
{}

/// A reply to the read of a quota's usage is about a quota that the namespace names. It shows what the live allocations
/// of all namespaces that name the quota take together.
pub fn usage_is_of_live()
    ensures { UsageIsOfLive }
{}

/// A reply to the read of a quota shows the record of the quota that is there, as it is.
pub fn quota_is_shown()
    ensures { QuotaIsShown }
{}

/// A reply to the list of quotas shows exactly the quotas that are there, as they are, by name, each once.
pub fn quotas_are_listed()
    ensures { QuotasAreListed }
{}

/// A reply to the read of a policy shows the policy that is there, as it is.
pub fn policy_is_shown()
    ensures { PolicyIsShown }
{}

/// A reply to the read of a pool shows the record of the pool that is there, as it is.
pub fn pool_is_shown()
    ensures { PoolIsShown }
{}

/// A reply to the list of pools shows exactly the records of those pools whose record the same secret may read, by
/// name, each once.
pub fn pools_are_listed()
    ensures { PoolsAreListed }
{}

/// A reply to the list of a pool's nodes shows exactly the nodes of the pool that is there, as they are, by name, each
/// once. Of each it shows what the live allocations of all namespaces on the node take together.
pub fn nodes_are_listed()
    ensures { NodesAreListed }
{}
