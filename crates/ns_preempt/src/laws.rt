//! Laws of a ranking of nodes as they take allocations.

ghost use Rattle.ns_preempt.specs.Laws.{ChangedAloneStayRanked};

/// If one node changes, as by evictions, the others stay ranked.
pub fn changed_alone_stay_ranked()
    ensures { ChangedAloneStayRanked }
{}
