//! Laws of what requests do.

ghost use Rattle.ns_laws.specs.Effects.{
  RegisteredIsThere,
  DeregisteredIsStopped,
  PurgedIsGone,
  StoppedAllocation,
  IndexInReplyIsNew,
  ReportedIsThere,
  PutNodeIsThere,
  DeletedNodeIsGone,
  SetStatusIsThere,
  SetEligibleIsThere,
  DownIsLost,
  PutNamespaceIsThere,
  DeletedNamespaceIsGone,
  PutQuotaIsThere,
  DeletedQuotaIsGone,
  PutPoolIsThere,
  DeletedPoolIsGone,
};

/// Once a registration is made, the job is there with the document that was registered, and it is not stopped. A new job has
/// version 0. A job that was there with this document, and was not stopped, is just as it was; any other one that was there has
/// a version greater by one. A new evaluation of the job, with its type, priority and pool, is pending, and the reply has its
/// number. Other evaluations, other jobs and all allocations are as they were.
pub fn registered_is_there()
    ensures { RegisteredIsThere }
{}

/// Once a job is deregistered without purge, it is still there with its document and its version, and it is stopped. A new
/// evaluation of it, with its type, priority and pool, is pending, and the reply has its number. Other evaluations, other jobs
/// and all allocations are as they were.
pub fn deregistered_is_stopped()
    ensures { DeregisteredIsStopped }
{}

/// Once a job is deregistered with purge, it is gone. A new evaluation of it, with the type, the priority and the pool that it
/// had, is pending, and the reply has its number. Other evaluations, other jobs and all allocations are as they were.
pub fn purged_is_gone()
    ensures { PurgedIsGone }
{}

/// Once a request to stop an allocation is made, the desired status of the allocation, which was live, is to stop. A new
/// evaluation of its job is pending, and the reply has its number. It has the type, the priority and the pool of the job or, if
/// that is gone, the type `service` and the allocation's priority and pool. Other evaluations are as they were or have woken.
/// Other allocations and all jobs are as they were.
pub fn stopped_allocation()
    ensures { StoppedAllocation }
{}

/// In a state that has what isolation rests on, take a made request in a namespace whose reply has the number and the index
/// of a new evaluation. The index is the namespace's index after the request, which is its next one, and the evaluation was
/// created and last modified at it.
pub fn index_in_reply_is_new()
    ensures { IndexInReplyIsNew }
{}

/// Once a client's report is made, the allocation, which is on that node, has the reported client status. Its desired status is
/// what it was. A new evaluation of its job is pending exactly if the status is new, the allocation is to run, and it has
/// failed, or has completed and is not of a batch job; a job that is gone counts as a service job. The evaluation has the type,
/// the priority and the pool of the job or, if that is gone, the type `service` and the allocation's priority and pool. Other
/// evaluations are as they were or, if the report ends a live allocation, may have woken. Other allocations and all jobs are as
/// they were.
pub fn reported_is_there()
    ensures { ReportedIsThere }
{}

/// Once a node is put, it is there with that offer. A new node is ready and eligible, and one that was there keeps its status
/// and its eligibility. Other nodes are as they were.
pub fn put_node_is_there()
    ensures { PutNodeIsThere }
{}

/// Once a node is deleted, it is gone. Other nodes are as they were.
pub fn deleted_node_is_gone()
    ensures { DeletedNodeIsGone }
{}

/// Once a node's status is set, the node has that status. Its eligibility, its offer and the other nodes are as they were.
pub fn set_status_is_there()
    ensures { SetStatusIsThere }
{}

/// Once a node's eligibility is set, the node has it. Its status, its offer and the other nodes are as they were.
pub fn set_eligible_is_there()
    ensures { SetEligibleIsThere }
{}

/// Once a node is set down, each allocation that was live on it, of whichever namespace, has the client status `lost`.
pub fn down_is_lost()
    ensures { DownIsLost }
{}

/// Once a namespace is put, it is there with that record. If it was there before, it keeps its jobs and its allocations. The
/// records of other namespaces are as they were.
pub fn put_namespace_is_there()
    ensures { PutNamespaceIsThere }
{}

/// Once a namespace is deleted, it is gone. The records of other namespaces are as they were.
pub fn deleted_namespace_is_gone()
    ensures { DeletedNamespaceIsGone }
{}

/// Once a quota is put, it is there with that record. Other quotas are as they were.
pub fn put_quota_is_there()
    ensures { PutQuotaIsThere }
{}

/// Once a quota is deleted, it is gone. Other quotas are as they were.
pub fn deleted_quota_is_gone()
    ensures { DeletedQuotaIsGone }
{}

/// Once a pool is put, it is there with that record. Other pools and all nodes are as they were.
pub fn put_pool_is_there()
    ensures { PutPoolIsThere }
{}

/// Once a pool is deleted, it is gone. Other pools are as they were.
pub fn deleted_pool_is_gone()
    ensures { DeletedPoolIsGone }
{}
