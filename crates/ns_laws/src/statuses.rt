//! Laws of what statuses mean, of new evaluations, and of the class of a node.

ghost use Rattle.ns_laws.specs.Statuses.{
  ClassesOfNodes,
  DoneAllocations,
  FreeNodes,
  LiveAllocations,
  LiveOnNodes,
  NamespacesPastBound,
  NewEvaluations,
  OpenEvaluations,
  PendingAndBlocked,
  UniqueKeys,
};

/// An allocation is live exactly if it is to run, and its client says that it is pending or running.
pub fn live_allocations()
    ensures { LiveAllocations }
{}

/// An allocation is live on a node exactly if it is live, and names that pool and that node.
pub fn live_on_nodes()
    ensures { LiveOnNodes }
{}

/// An allocation is done exactly if it is to run, and its client says that it is complete.
pub fn done_allocations()
    ensures { DoneAllocations }
{}

/// An evaluation is open exactly if it is pending or blocked.
pub fn open_evaluations()
    ensures { OpenEvaluations }
{}

/// An evaluation is pending, or blocked, exactly if that is its status.
pub fn pending_and_blocked()
    ensures { PendingAndBlocked }
{}

/// A node may take new allocations exactly if it is ready and eligible.
pub fn free_nodes()
    ensures { FreeNodes }
{}

/// An attribute is unique to a node exactly if its key begins with `unique.`.
pub fn unique_keys()
    ensures { UniqueKeys }
{}

/// A node's class has the node's class name, and those of its attributes that are not unique to it.
pub fn classes_of_nodes()
    ensures { ClassesOfNodes }
{}

/// An evaluation that is made for a job, or for the job of an allocation, is pending. It was never given back, follows none and is
/// followed by none, and was never blocked.
pub fn new_evaluations()
    ensures { NewEvaluations }
{}

/// A namespace is past a bound exactly if its index, evaluation number or allocation number is 2^64 or more.
pub fn namespaces_past_bound()
    ensures { NamespacesPastBound }
{}
