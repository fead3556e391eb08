//! Laws of the words that the contracts use, each the contract of a function that does nothing.

ghost use Rattle.ns_jobs.specs.Counted.{CountingIsSettling, JobsPassNothingElse};

/// A step that is refused because a counter of the namespace is at its bound would be past the bound once it had settled, so
/// the model refuses it too.
pub fn counting_is_settling()
    ensures { CountingIsSettling }
{}

/// If no counter of the namespace is at its bound, a registration or a deregistration is not refused because of another one.
pub fn jobs_pass_nothing_else()
    ensures { JobsPassNothingElse }
{}
