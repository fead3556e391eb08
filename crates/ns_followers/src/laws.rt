//! Laws of the words that the contracts use, each the contract of a function that does nothing.

ghost use Rattle.ns_followers.specs.Finishing.{RefusedIsNotEnabled, SoundHasPendingWork};

/// In a valid world a worker's evaluation is pending, and its number is one that was given.
pub fn sound_has_pending_work()
    ensures { SoundHasPendingWork }
{}

/// If a finish is refused with `NotEnabled`, the model's step is not enabled.
pub fn refused_is_not_enabled()
    ensures { RefusedIsNotEnabled }
{}
