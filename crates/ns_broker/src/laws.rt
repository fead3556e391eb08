//! Laws of the words that the contracts use, each the contract of a function that does nothing.

ghost use Rattle.ns_broker.specs.Bounded.{DequeuePassesNothing, SnapPassesNothing, SubmitPassesNothing};
ghost use Rattle.ns_broker.specs.Nacking.{SoundHasNackLeft};
ghost use Rattle.ns_broker.specs.Submitting.{RefusedIsNotEnabled, SoundHasWork};

/// A dequeue is never refused because a counter would pass its bound.
pub fn dequeue_passes_nothing()
    ensures { DequeuePassesNothing }
{}

/// Taking a snapshot is never refused because a counter would pass its bound.
pub fn snap_passes_nothing()
    ensures { SnapPassesNothing }
{}

/// In a valid world, the evaluation that a worker has can get one more nack.
pub fn sound_has_nack_left()
    ensures { SoundHasNackLeft }
{}

/// Submitting a plan is never refused because a counter would pass its bound.
pub fn submit_passes_nothing()
    ensures { SubmitPassesNothing }
{}

/// In a valid world, the evaluation that a worker has is there.
pub fn sound_has_work()
    ensures { SoundHasWork }
{}

/// If a plan is refused with `NotEnabled`, the model's step is not enabled either.
pub fn refused_is_not_enabled()
    ensures { RefusedIsNotEnabled }
{}
