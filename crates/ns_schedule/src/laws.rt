//! Laws of the snapshots from which a plan can be computed.

ghost use Rattle.ns_schedule.specs.Laws.{KeptFits};

/// Each snapshot that a worker keeps in a valid state fits, so `plan` never refuses it with `Full`.
pub fn kept_fits()
    ensures { KeptFits }
{}
