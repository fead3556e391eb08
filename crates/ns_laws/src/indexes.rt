//! Laws of indexes: a namespace's index rises by one where its rows change, changed rows have the new index, and events
//! name them. Rows that stay as they are keep their indexes.

ghost use Rattle.ns_laws.specs.Indexes.{
  IndexRisesByOne,
  EventsStayInOrder,
  EventsAreInOrder,
  NewNamespacesHaveNothing,
  ChangedJobsHaveIndex,
  GoneJobsRaiseIndex,
  ChangedEvaluationsHaveIndex,
  ChangedAllocationsHaveIndex,
  UnchangedJobsKeepIndexes,
  UnchangedEvaluationsKeepIndexes,
  UnchangedAllocationsKeepIndexes,
};

/// Whatever step is made, the index of a namespace stays, and its events stay. Or the index rises by one, and new
/// events with that index name exactly the changed jobs, evaluations and allocations. They follow the old ones, and the
/// last hundred of all are kept.
pub fn index_rises_by_one()
    ensures { IndexRisesByOne }
{}

/// From a valid state, a step keeps the events of a namespace in the order of their indexes.
pub fn events_stay_in_order()
    ensures { EventsStayInOrder }
{}

/// In every state that the server reaches from its opening state, by steps within the limits, the events of each
/// namespace are in the order of their indexes.
pub fn events_are_in_order()
    ensures { EventsAreInOrder }
{}

/// A namespace that is there after a step and was not there before it has nothing yet: no jobs, evaluations,
/// allocations and events. Its index and its numbers begin at 0.
pub fn new_namespaces_have_nothing()
    ensures { NewNamespacesHaveNothing }
{}

/// Each job that is there after a step is exactly as it was before, or the namespace's index has risen and is the job's
/// modify index, and if the job is new also its create index. A job that was there keeps its create index.
pub fn changed_jobs_have_index()
    ensures { ChangedJobsHaveIndex }
{}

/// Where a job is gone after a step, the namespace's index has risen.
pub fn gone_jobs_raise_index()
    ensures { GoneJobsRaiseIndex }
{}

/// Take an evaluation that is there after a step. Either all that replies show of it, its indexes apart, was the same
/// before, or the namespace's index has risen and is the evaluation's modify index. If it is new, that is its create
/// index too, and if not, it keeps its create index.
pub fn changed_evaluations_have_index()
    ensures { ChangedEvaluationsHaveIndex }
{}

/// Take an allocation that is there after a step. Either all that replies show of it, its indexes apart, was the same
/// before, or the namespace's index has risen and is the allocation's modify index. If it is new, that is its create
/// index too, and if not, it keeps its create index.
pub fn changed_allocations_have_index()
    ensures { ChangedAllocationsHaveIndex }
{}

/// Take a job that is there before and after a step, with the same document and version, and stopped after it exactly
/// if it was before. It keeps both its indexes.
pub fn unchanged_jobs_keep_indexes()
    ensures { UnchangedJobsKeepIndexes }
{}

/// From a valid state, take an evaluation that is there after a step. If all that replies show of it, its indexes
/// apart, was the same before, it keeps both its indexes. So its modify index rises only where it is shown differently.
pub fn unchanged_evaluations_keep_indexes()
    ensures { UnchangedEvaluationsKeepIndexes }
{}

/// From a valid state, take an allocation that is there after a step. If all that replies show of it, its indexes
/// apart, was the same before, it keeps both its indexes. So its modify index rises only where it is shown differently.
pub fn unchanged_allocations_keep_indexes()
    ensures { UnchangedAllocationsKeepIndexes }
{}
