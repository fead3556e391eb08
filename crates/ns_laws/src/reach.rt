//! Laws of how far a namespace reaches: when it has its pools and its quotas to itself, which steps are its own, when the whole
//! server has no room for a put of its own, and what a request in one namespace leaves as it is in every other.

ghost use Rattle.ns_laws.specs.Reach.{
  ApartSo,
  AskKeepsOrder,
  AskLeavesPools,
  AskStaysInside,
  CrowdedIsFull,
  IndexIsShown,
  OwnByNamespace,
  OwnByOwner,
  OwnByPool,
  RecordsStay,
};

/// A namespace has a list of pools and a list of quotas to itself exactly if both of these hold. First, if the namespace
/// exists, it has a list of allowed pools; its record names none but these pools and quotas; and its open evaluations, the
/// snapshots that workers keep for it, and its allocations whose client status is `pending` or `running` all name one of these
/// pools. Second, no other namespace may use one of these pools, has one as its default, or names one of these quotas.
pub fn apart_so()
    ensures { ApartSo }
{}

/// A request in a namespace, and a step that a worker makes for a namespace, is the own step of that namespace and of no other.
pub fn own_by_namespace()
    ensures { OwnByNamespace }
{}

/// A request about a pool or a node there is a namespace's own exactly if the pool is one of the namespace's, and the request
/// is no report of another namespace's allocation.
pub fn own_by_pool()
    ensures { OwnByPool }
{}

/// An administrator's request is a namespace's own exactly if it puts the namespace's record, which names none but its pools
/// and quotas, or deletes it; reads, puts or deletes one of its quotas; puts or deletes one of its pools; or asks about
/// policies or tokens.
pub fn own_by_owner()
    ensures { OwnByOwner }
{}

/// A step of a namespace is crowded out exactly if it puts the namespace's record (which names none but its pools and quotas),
/// one of its quotas or one of its pools under a new name; the server has 10000 namespaces, quotas or pools already; and the
/// answer is the refusal `Full`.
pub fn crowded_is_full()
    ensures { CrowdedIsFull }
{}

/// What is asked in a namespace leaves every other namespace its record, jobs, allocations, workers and numbers, and its
/// evaluations, but that those in the list of blocked ones may become `pending`. The other namespace's index and events are as
/// they were; or its index is one greater, and new events with that index follow, and the last hundred of all are kept.
pub fn ask_stays_inside()
    ensures { AskStaysInside }
{}

/// No step but an administrator's brings, changes or removes a namespace's record, or changes the access lists.
pub fn records_stay()
    ensures { RecordsStay }
{}

/// What is asked in a namespace brings, changes or removes no pool, no node and no quota. It may count releases.
pub fn ask_leaves_pools()
    ensures { AskLeavesPools }
{}

/// What is asked in a namespace leaves the plans that wait, and the ready evaluations in their order. Each evaluation that
/// becomes ready comes last, and it is the namespace's own or was a blocked one. Of the blocked ones some may leave.
pub fn ask_keeps_order()
    ensures { AskKeepsOrder }
{}

/// The reply to a request in a namespace shows the index that the namespace has afterwards.
pub fn index_is_shown()
    ensures { IndexIsShown }
{}
