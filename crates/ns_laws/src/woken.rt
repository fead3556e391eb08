//! Laws of blocked evaluations that wake: each had a reason, and is pending afterwards. An evaluation wakes in a step,
//! other than a worker's `Finish`, if it is in the list of blocked ones before the step and not after it.

ghost use Rattle.ns_laws.specs.Woken.{WokenHadRoom, WokenHadQuota, WokenIsPending};

/// An evaluation that no quota limits wakes only where a node of its pool got room in the step, of a class that it may
/// use.
pub fn woken_had_room()
    ensures { WokenHadRoom }
{}

/// An evaluation that a quota limits wakes only where that quota got room in the step.
pub fn woken_had_quota()
    ensures { WokenHadQuota }
{}

/// An evaluation that wakes is pending after the step. It is ready, or it waits behind another evaluation of its job
/// that is ready or with a worker.
pub fn woken_is_pending()
    ensures { WokenIsPending }
{}
