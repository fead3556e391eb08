//! Laws of replaying, each the contract of a function that does nothing.

ghost use Rattle.ns_replay.specs.Laws.{
  DiffersFromBoth,
  KeptNeverDiffers,
  OneFault,
  OneReplay,
  ReplayedHasNoFault,
};

/// An own entry that fits in the whole server and breaks no premise also fits in the server that holds the namespace alone: if
/// it does not fit there, it does not fit in the whole server either.
pub fn differs_from_both()
    ensures { DiffersFromBoth }
{}

/// So a log that is a run of the server never has the fault `Differs`.
pub fn kept_never_differs()
    ensures { KeptNeverDiffers }
{}

/// A log has at most one first fault.
pub fn one_fault()
    ensures { OneFault }
{}

/// A log that replays has no fault.
pub fn replayed_has_no_fault()
    ensures { ReplayedHasNoFault }
{}

/// A log has at most one list of replies.
pub fn one_replay()
    ensures { OneReplay }
{}
