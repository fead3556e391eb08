//! Two laws for each kind of step. They suppose a state that has what isolation rests on, in which a namespace has its pools
//! and its quotas to itself, and a second server whose state agrees with it: it holds exactly what the namespace has there, and
//! all access lists. A step of the namespace's own gets the same answer on the second server, and the states agree again. Any
//! other step, which the second server does not make, leaves them in agreement.

ghost use Rattle.ns_laws.specs.Kinds.{
  AloneIsBeside,
  OtherAdmin,
  OtherApply,
  OtherAsk,
  OtherDequeue,
  OtherFinish,
  OtherNack,
  OtherNode,
  OtherSnap,
  OtherSubmit,
  OwnAdmin,
  OwnApply,
  OwnAsk,
  OwnDequeue,
  OwnFinish,
  OwnNack,
  OwnNode,
  OwnSnap,
  OwnSubmit,
};

/// What the other laws suppose holds at first: a state that has what isolation rests on, in which the namespace has its pools
/// and its quotas to itself, agrees with that of the server that holds the namespace alone.
pub fn alone_is_beside()
    ensures { AloneIsBeside }
{}

/// A request in the namespace, with any secret or none, gets the same answer from the server that holds the namespace alone,
/// index included, and the states agree again.
pub fn own_ask()
    ensures { OwnAsk }
{}

/// An administrator's request about the namespace's record, its pools, its quotas or the access lists gets the same answer, and
/// the states agree again. A put of its record has to name its pools and quotas alone. The exception is a put of a new name
/// that is refused because its table is full on the whole server.
pub fn own_admin()
    ensures { OwnAdmin }
{}

/// A request about one of the namespace's pools or a node there gets the same answer, and the states agree again. The exception
/// is a report of another namespace's allocation.
pub fn own_node()
    ensures { OwnNode }
{}

/// A worker that dequeues an evaluation of the namespace gets the same answer, and the states agree again.
pub fn own_dequeue()
    ensures { OwnDequeue }
{}

/// A worker that takes a snapshot for an evaluation of the namespace gets the same answer and keeps the same snapshot, and the
/// states agree again.
pub fn own_snap()
    ensures { OwnSnap }
{}

/// A worker that submits a plan for the namespace gets the same answer, and the states agree again.
pub fn own_submit()
    ensures { OwnSubmit }
{}

/// A plan for the namespace is applied with the same result: the same allocations are made, the same nodes are dropped, and the
/// states agree again.
pub fn own_apply()
    ensures { OwnApply }
{}

/// A worker that finishes an evaluation of the namespace gets the same answer, with the same follow-up evaluation, and the
/// states agree again.
pub fn own_finish()
    ensures { OwnFinish }
{}

/// A worker that nacks an evaluation of the namespace gets the same answer, and the states agree again.
pub fn own_nack()
    ensures { OwnNack }
{}

/// A request in another namespace changes nothing that the namespace has, and no access list.
pub fn other_ask()
    ensures { OtherAsk }
{}

/// Any other administrator's request changes nothing that the namespace has, and no access list, if the namespace still has its
/// pools and its quotas to itself afterwards.
pub fn other_admin()
    ensures { OtherAdmin }
{}

/// A request about a pool that is not one of the namespace's, or a report of another namespace's allocation, changes nothing
/// that the namespace has, and no access list.
pub fn other_node()
    ensures { OtherNode }
{}

/// A worker that dequeues another namespace's evaluation changes nothing that the namespace has, and no access list.
pub fn other_dequeue()
    ensures { OtherDequeue }
{}

/// A worker that takes a snapshot for another namespace's evaluation changes nothing that the namespace has, and no access
/// list.
pub fn other_snap()
    ensures { OtherSnap }
{}

/// A worker that submits a plan for another namespace changes nothing that the namespace has, and no access list.
pub fn other_submit()
    ensures { OtherSubmit }
{}

/// A plan for another namespace that is applied changes nothing that the namespace has, whatever it evicts, and no access list.
pub fn other_apply()
    ensures { OtherApply }
{}

/// A worker that finishes another namespace's evaluation changes nothing that the namespace has, and no access list.
pub fn other_finish()
    ensures { OtherFinish }
{}

/// A worker that nacks another namespace's evaluation changes nothing that the namespace has, and no access list.
pub fn other_nack()
    ensures { OtherNack }
{}
